// States on their way to the destination and back.
ghost use Rattle.std.specs.Prelude.{◌≡◌, ◌≤◌, length, drop, IfOk, IfNone, IfSome, OnErr};
ghost use Rattle.std.specs.List.{AllByRecursion};
ghost use Rattle.sync_ledger.specs.Takes.{DiffersFrom, IsFirstSame, LeavesPending};
ghost use Rattle.sync_ledger.specs.Noted.{least_line as least_line_of, lesser as lesser_line};

use airbyte_message::{StateMsg, same_state};
use basics::NoMemory;
use std::alloc::Global;
use std::collections::LinkedList;

/// A state of the source, and the number of its line.
#[derive(Debug, Drop)]
pub struct Pending {
    pub state: StateMsg,
    pub line: u64,
}

// The place of the first state that is the same.
fn first_same(
    alloc: Global,
    pending: &LinkedList<Pending>,
    got: &StateMsg,
) -> Result<Option<usize>, NoMemory>
    ensures none { IfOk result (λ found. IfNone found (AllByRecursion (DiffersFrom got.now) pending.now)) }
    ensures some { IfOk result (λ found. IfSome found (IsFirstSame pending.now got.now)) }
{
    let mut rest = pending.iter();
    let mut place = 0;
    while let Some(other) = rest.next() {
        if same_state(alloc, &other.state, got)? {
            return Ok(Some(place));
        }
        place += 1;
    }
    Ok(None)
}

// Drops so many of the first states.
fn pass_over(pending: &mut LinkedList<Pending>, count: usize)
    requires { count ≤ length pending.old }
    ensures { pending.new ≡ drop count pending.old }
{
    for _step in 0..count {
        drop(pending.pop_front());
    }
}

/// Takes the first state that is the same, and drops those before it. Where none is the same, nothing changes. Where states
/// come back in order, it is the first of all.
pub fn take_same(
    alloc: Global,
    pending: &mut LinkedList<Pending>,
    got: &StateMsg,
) -> Result<Option<StateMsg>, NoMemory>
    ensures ok { IfOk result (λ taken. LeavesPending pending.old got.now taken pending.new) }
    ensures shorter { length pending.new ≤ length pending.old }
    ensures err { OnErr result (pending.new ≡ pending.old) }
{
    let Some(place) = first_same(alloc, pending, got)? else {
        return Ok(None);
    };
    pass_over(pending, place);
    match pending.pop_front() {
        Some(taken) => Ok(Some(taken.state)),
        None => unreachable!(),
    }
}

// The lesser of two numbers, where there are two.
fn lesser(least: Option<u64>, line: u64) -> Option<u64>
    ensures { result ≡ lesser_line least line }
{
    match least {
        Some(other) => Some(other.min(line)),
        None => Some(line),
    }
}

/// The least line of these states, or one that is less.
pub fn least_line(least: Option<u64>, pending: &LinkedList<Pending>) -> Option<u64>
    ensures { result ≡ least_line_of least pending.now }
{
    let mut least = least;
    let mut rest = pending.iter();
    while let Some(other) = rest.next() {
        least = lesser(least, other.line);
    }
    least
}
