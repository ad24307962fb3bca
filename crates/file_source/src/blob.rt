// The blobs of a file's states.
ghost use Rattle.std.specs.Prelude.{◌≡◌, ◌++◌, [], ◌∷◌, IfOk, OnOk};
ghost use Rattle.json_fields.specs.Answer.{IsAnswer};
ghost use Rattle.json_span.specs.Members.{IsMemberOf};
ghost use Rattle.file_source.specs.Blob.{IsRowBlob, IsRowMember, StartsBehind, row_blob};

use basics::{Bytes, NoMemory};
use json_fields::cut;
use json_scalar::{is_string_of, whole_of};
use json_span::{MAX_DEPTH, Member};
use json_write::put_number_member;
use std::alloc::Global;

/// Puts the blob of a state behind the record with this number.
pub fn put_row_blob(text: &mut Bytes, number: u64) -> Result<(), NoMemory>
    ensures { OnOk result (text.new ≡ text.old ++ row_blob number) }
{
    put_number_member(text, b'{', "row", number)?;
    text.push(b'}')
}

// The one member of a list.
fn sole(members: &[Member]) -> Option<Member>
    ensures { IsAnswer (λ member. members.now ≡ member ∷ []) result }
{
    if members.len() == 1 {
        Some(members[0])
    } else {
        None
    }
}

// The number that the member `row` has.
fn row_number(alloc: Global, blob: &[u8], member: &Member) -> Result<Option<u64>, NoMemory>
    requires { IsMemberOf blob.now member.now }
    ensures { IfOk result (IsAnswer (IsRowMember blob.now member.now)) }
{
    if is_string_of(alloc, member.key.of(blob), "row")? {
        Ok(whole_of(member.value.of(blob)))
    } else {
        Ok(None)
    }
}

// The number that a blob has.
fn row_of_blob(alloc: Global, blob: &[u8]) -> Result<Option<u64>, NoMemory>
    ensures { IfOk result (IsAnswer (IsRowBlob blob.now)) }
{
    let Some(members) = cut(alloc, blob, MAX_DEPTH)? else {
        return Ok(None);
    };
    match sole(members.as_slice()) {
        Some(member) => row_number(alloc, blob, &member),
        None => Ok(None),
    }
}

/// The number of the record behind which a stream starts; `None` exactly where the blob is no blob of a file.
pub fn start_of(alloc: Global, blob: &Option<Bytes>) -> Result<Option<u64>, NoMemory>
    ensures { IfOk result (IsAnswer (StartsBehind blob.now)) }
{
    match blob {
        Some(held) => row_of_blob(alloc, held.as_slice()),
        None => Ok(Some(0)),
    }
}
