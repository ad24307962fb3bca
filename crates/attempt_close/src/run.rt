// Turns until an attempt has ended.
ghost use Rattle.std.specs.Prelude.{◌≡◌, ◌<◌};
ghost use Rattle.catalog.specs.Reading.{ids_of};
ghost use Rattle.outside.specs.Link.{Grew, KeepsCodes, own_events};
ghost use Rattle.attempt_turns.specs.Ends.{Causes, Ends};
ghost use Rattle.attempt_turns.specs.History.{Ran};
ghost use Rattle.attempt_turns.specs.Worker.{Live, Stands};
ghost use Rattle.attempt_close.specs.Turns.{Begins, SilentSo, quiet_after};
ghost use Rattle.attempt_close.specs.Codes.{EndsBehind};

use crate::codes::end_of_fault;
use crate::ended::end_of;
use crate::turn::turn;
use attempt_turns::{Moved, Worker};
use catalog::Configured;
use outside::{Codes, Desk, Link, Status};
use std::alloc::Global;

/// So many turns in a row that bring nothing are allowed.
pub const QUIET_TURNS: u32 = 5_400;

// How an attempt ends that a step has ended so. Where the link has failed, the codes are looked at once.
fn end_behind<L: Link>(link: &mut L, end: Status) -> Status
    ensures grew { Grew (L.seen link.old) (L.seen link.new) }
    ensures events { own_events (L.seen link.new) ≡ own_events (L.seen link.old) }
    ensures keeps { KeepsCodes (L.seen link.old).face.codes (L.seen link.new).face.codes }
    ensures face { (L.seen link.new).face ≡ record ((L.seen link.old).face) { codes = (L.seen link.new).face.codes } }
    ensures is { EndsBehind end result (L.seen link.old) (L.seen link.new) }
{
    match end {
        Status::LinkFault => end_of_fault(link),
        _ => end,
    }
}

// How many turns in a row have brought nothing, behind one more.
fn quiet_behind(quiet: u32, moved: Moved) -> u32
    requires { quiet < QUIET_TURNS }
    ensures { result ≡ quiet_after quiet moved }
{
    match moved {
        Moved::Yes => 0,
        Moved::No => quiet + 1,
    }
}

/// An attempt from its start to its end, in front of `stop` and of its line. Turns are taken until the destination's output has ended and the
/// codes are known that decide how the attempt has ended, until a call fails or a line ends the attempt, or until 5,400 turns in a row
/// have brought nothing.
pub fn run_turns<K: Desk, L: Link>(
    alloc: Global,
    desk: &mut K,
    link: &mut L,
    w: &mut Worker,
    configured: &Configured,
    store: &str,
) -> Status
    requires begins { Begins (ids_of configured.now) w.old (L.seen link.old) }
    requires live { Live w.old (L.seen link.old) }
    ensures ran { Ran (Stands w.old) (Ends result (L.seen link.new).face w.new) (L.seen link.old) (L.seen link.new) (K.seen desk.old) (K.seen desk.new) }
    ensures cause { Causes result w.new (L.seen link.old).counts (K.seen desk.old).say_faults (L.seen link.new) (K.seen desk.new).say_faults }
    ensures silent { SilentSo result w.new (L.seen link.old) (L.seen link.new) }
    ensures number { w.new.number ≡ w.old.number }
    ensures running { (L.seen link.new).face.running ≡ (L.seen link.old).face.running }
{
    let mut known = Codes {
        source: None,
        dest: None,
    };
    let mut quiet: u32 = 0;
    'turns: loop {
        if let Some(end) = end_of(w, known) {
            return end;
        }
        quiet = match turn(alloc, desk, link, w, configured, store, &mut known) {
            Ok(moved) => quiet_behind(quiet, moved),
            Err(end) => return end_behind(link, end),
        };
        if quiet == QUIET_TURNS {
            return Status::Silent {
                waits: QUIET_TURNS as u64,
            };
        }
    }
}
