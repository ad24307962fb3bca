// The raw ids of rows.
ghost use Rattle.std.specs.Prelude.{◌≡◌, IfOk};
ghost use Rattle.column_types.specs.RawId.{raw_id_text, row_name, row_namespace};

use basics::{Bytes, NoMemory};
use json_write::put_number;
use std::alloc::Global;
use uuid::Uuid;

// The namespace a1b2c3d4-0000-4000-8000-000000000001.
const NAMESPACE: [u8; 16] = [
    0xa1, 0xb2, 0xc3, 0xd4, 0, 0, 0x40, 0, 0x80, 0, 0, 0, 0, 0, 0, 1,
];

// Two numbers of at most 20 digits, and a colon.
const LONGEST_NAME: usize = 41;

// Both numbers, with a colon between them.
fn name_of(alloc: Global, load: u64, seq: u64) -> Result<Bytes, NoMemory>
    ensures { IfOk result (λ name. name ≡ row_name load seq) }
{
    let mut name = Bytes::with_capacity(alloc, LONGEST_NAME)?;
    put_number(&mut name, load)?;
    name.push(b':')?;
    put_number(&mut name, seq)?;
    Ok(name)
}

/// The raw id of a record by the numbers of its load and its own: a version 5 UUID (RFC 9562), in lower case with hyphens.
pub fn raw_id(alloc: Global, load: u64, seq: u64) -> Result<Bytes, NoMemory>
    ensures { IfOk result (λ id. id ≡ raw_id_text load seq) }
{
    let name = name_of(alloc, load, seq)?;
    let id = Uuid::new_v5(&Uuid::from_bytes(NAMESPACE), name.as_slice());
    let mut buffer = Uuid::encode_buffer();
    Bytes::copy_of(alloc, id.hyphenated().encode_lower(&mut buffer).as_bytes())
}
