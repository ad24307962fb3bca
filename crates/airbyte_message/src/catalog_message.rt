// The payload of a CATALOG line.
ghost use Rattle.std.specs.Prelude.{IfOk};
ghost use Rattle.json_fields.specs.Answer.{IsAnswer};
ghost use Rattle.airbyte_message.specs.Messages.{IsCatalog};

use crate::CatalogMsg;
use json_fields::{array_field, cut};
use json_span::MAX_DEPTH;
use basics::{Bytes, NoMemory};
use std::alloc::Global;

/// The catalog that a payload is.
pub fn catalog_of(alloc: Global, text: &[u8]) -> Result<Option<CatalogMsg>, NoMemory>
    ensures { IfOk result (IsAnswer (IsCatalog text.now)) }
{
    let Some(members) = cut(alloc, text, MAX_DEPTH)? else {
        return Ok(None);
    };
    match array_field(alloc, text, &members, "streams")? {
        Some(list) => Ok(Some(CatalogMsg {
            streams: Bytes::copy_of(alloc, list)?,
        })),
        None => Ok(None),
    }
}
