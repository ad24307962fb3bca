// Batches, and the record that found no room.
ghost use Rattle.std.specs.Prelude.{◌≡◌, ◌==◌, ◌<◌, length, false, IfNone, IfSome, slice_index_or};
ghost use Rattle.std.specs.List.{list_any};
ghost use Rattle.book_queue.specs.Views.{IsTakenOut};

use basics::{Bytes, StreamNo};
use buffer_pool::Chain;
use outside::SeqLineList;

/// A batch as it is handed out: its number, which no other batch has, and a copy of its records.
#[derive(Debug, Drop)]
pub struct Handed {
    pub number: u64,
    pub lines: SeqLineList,
}

/// A batch that is handed out.
#[derive(Debug, Drop)]
pub struct Batch {
    pub number: u64,
    pub stream: StreamNo,
    /// How many records it has.
    pub count: u32,
    pub chain: Chain,
}

/// A record that comes.
#[derive(Debug, Drop)]
pub struct Parked {
    pub seq: u64,
    pub stream: StreamNo,
    pub line: Bytes,
}

/// The index of the batch with this number.
pub fn index_of(out: &[Batch], number: u64) -> Option<usize>
    ensures none { IfNone result (list_any (λ batch. batch.number == number) out.now ≡ false) }
    ensures within { IfSome result (λ index. index < length out.now) }
    ensures numbered { IfSome result (λ index. (d : _) → (slice_index_or out.now index d).number ≡ number) }
{
    for index in 0..out.len() {
        if out[index].number == number {
            return Some(index);
        }
    }
    None
}

/// Takes out the batch with this number.
pub fn take_out(out: &mut Vec<Batch>, number: u64) -> Option<Batch>
    ensures none { IfNone result (list_any (λ batch. batch.number == number) out.old.items ≡ false) }
    ensures same { IfNone result (out.new.items ≡ out.old.items) }
    ensures some { IfSome result (IsTakenOut number out.old.items out.new.items) }
{
    let index = index_of(out, number)?;
    Some(out.remove(index))
}
