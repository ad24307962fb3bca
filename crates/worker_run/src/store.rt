// The text of the state store.
ghost use Rattle.std.specs.Prelude.{◌≡◌, IfOk};
ghost use Rattle.std.specs.Option.{option_copied};
ghost use Rattle.worker_run.specs.Store.{held_text, store_text as store_text_of};

use json_span::quote;
use outside::{Bytes, NoMemory};
use std::alloc::Global;

// The state object that is held, or null.
fn held_or_null(held: Option<&[u8]>) -> &[u8]
    ensures { result.now ≡ held_text (option_copied held.entry) }
{
    match held {
        Some(object) => object,
        None => b"null",
    }
}

/// The store's text for a stream of this name, which holds this state object or none.
pub fn store_text(alloc: Global, stream: &str, held: Option<&[u8]>) -> Result<Bytes, NoMemory>
    ensures { IfOk result (λ text. text ≡ store_text_of stream.now (option_copied held.entry)) }
{
    let name = quote(alloc, stream)?;
    let mut text = Vec::new(alloc);
    text.extend_from_slice(b"{\"version\":1,\"streams\":[{\"name\":")?;
    text.extend_from_slice(name.as_slice())?;
    text.extend_from_slice(b",\"generation\":0,\"state\":")?;
    text.extend_from_slice(held_or_null(held))?;
    text.extend_from_slice(b"}],\"global\":null}")?;
    Ok(Bytes::from_vec(text))
}
