// The configured catalogs that are taken.
ghost use Rattle.std.specs.Prelude.{◌≡◌, ℕ, List, IfOk, IfSome, IfNone, IsTrue, ◌↔◌};
ghost use Rattle.json_fields.specs.Answer.{IsAnswer};
ghost use Rattle.json_fields.specs.Fields.{IsCut};
ghost use Rattle.worker_run.specs.Catalog.{IsCatalog, IsEntry, IsAppendEntry, IsNamedStream, one_entry};

use json_fields::{cut, field, has_text, optional, text_field};
use json_span::{MAX_DEPTH, MemberList};
use outside::{Name, NoMemory};
use std::alloc::Global;

// What stands between the brackets of a text that has them at its ends.
fn between_brackets(text: &[u8]) -> Option<&[u8]>
    ensures found { IfSome result (λ entry. text.now ≡ one_entry entry.now) }
    ensures none { IfNone result ((entry : List ℕ) → text.now ≡ one_entry entry → ⊥) }
{
    match text {
        [b'[', entry @ .., b']'] => Some(entry),
        _ => None,
    }
}

// The name of a stream that has no namespace.
fn name_of_stream(alloc: Global, stream: &[u8]) -> Result<Option<Name>, NoMemory>
    ensures { IfOk result (IsAnswer (IsNamedStream stream.now)) }
{
    let Some(members) = cut(alloc, stream, MAX_DEPTH)? else {
        return Ok(None);
    };
    match optional(alloc, stream, &members, "namespace")? {
        Some(_) => Ok(None),
        None => text_field(alloc, stream, &members, "name"),
    }
}

// Whether an entry's stream is appended incrementally.
fn is_append(alloc: Global, entry: &[u8], members: &MemberList) -> Result<bool, NoMemory>
    requires { IsCut entry.now members.now }
    ensures { IfOk result (λ is. IsTrue is ↔ IsAppendEntry entry.now) }
{
    if !has_text(alloc, entry, members, "sync_mode", "incremental")? {
        return Ok(false);
    }
    if !has_text(alloc, entry, members, "destination_sync_mode", "append")? {
        return Ok(false);
    }
    match optional(alloc, entry, members, "generation_id")? {
        Some(_) => Ok(false),
        None => Ok(true),
    }
}

// The name of the stream that an entry configures.
fn stream_of_entry(alloc: Global, entry: &[u8]) -> Result<Option<Name>, NoMemory>
    ensures { IfOk result (IsAnswer (IsEntry entry.now)) }
{
    let Some(members) = cut(alloc, entry, MAX_DEPTH)? else {
        return Ok(None);
    };
    if !is_append(alloc, entry, &members)? {
        return Ok(None);
    }
    match field(alloc, entry, &members, "stream")? {
        Some(stream) => name_of_stream(alloc, stream),
        None => Ok(None),
    }
}

/// The name of a catalog's only stream, `None` where the catalog has another form than the one that is taken.
pub fn stream_of(alloc: Global, text: &[u8]) -> Result<Option<Name>, NoMemory>
    ensures { IfOk result (IsAnswer (IsCatalog text.now)) }
{
    let Some(members) = cut(alloc, text, MAX_DEPTH)? else {
        return Ok(None);
    };
    let Some(streams) = field(alloc, text, &members, "streams")? else {
        return Ok(None);
    };
    match between_brackets(streams) {
        Some(entry) => stream_of_entry(alloc, entry),
        None => Ok(None),
    }
}
