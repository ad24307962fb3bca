// The codes of the children.
ghost use Rattle.std.specs.Prelude.{◌≡◌};
ghost use Rattle.outside.specs.Link.{Grew, KeepsCodes, own_events};
ghost use Rattle.attempt_turns.specs.Silence.{names_codes};
ghost use Rattle.attempt_close.specs.Codes.{IsFailedExit, IsFaultEnd, LearnedBy, Learns, Looked};

use attempt_turns::{Moved, Worker};
use outside::{Codes, Exit, Link, Status};

// Whether a child's output has ended whose code is unknown.
fn lacks_code(w: &Worker, known: Codes) -> bool
    ensures { result ≡ names_codes w.now known }
{
    (w.read_over && known.source.is_none()) || (w.got_over && known.dest.is_none())
}

// Whether one of two codes is known now that was not.
fn is_learned(known: Codes, now: Codes) -> Moved
    requires { KeepsCodes known now }
    ensures { LearnedBy result known now }
{
    if known.source.is_none() && now.source.is_some() {
        return Moved::Yes;
    }
    if known.dest.is_none() && now.dest.is_some() {
        return Moved::Yes;
    }
    Moved::No
}

/// Looks for the codes of the children where an output has ended whose code is unknown.
pub fn learn_codes<L: Link>(link: &mut L, w: &Worker, known: &mut Codes) -> Moved
    requires { known.old ≡ (L.seen link.old).face.codes }
    ensures looked { Looked (L.seen link.old) (L.seen link.new) known.new }
    ensures learns { Learns result w.now (L.seen link.old) (L.seen link.new) }
{
    if !lacks_code(w, *known) {
        return Moved::No;
    }
    let now = link.exit_codes();
    let moved = is_learned(*known, now);
    *known = now;
    moved
}

/// The exit of a child that is known to have failed.
pub fn failed_exit(found: Option<Exit>) -> Option<Exit>
    ensures { IsFailedExit found result }
{
    match found {
        None => None,
        Some(Exit::Code(0)) => None,
        Some(exit) => Some(exit),
    }
}

/// What a failed call of the link makes of an attempt: the codes are looked at once.
pub fn end_of_fault<L: Link>(link: &mut L) -> Status
    ensures grew { Grew (L.seen link.old) (L.seen link.new) }
    ensures events { own_events (L.seen link.new) ≡ own_events (L.seen link.old) }
    ensures keeps { KeepsCodes (L.seen link.old).face.codes (L.seen link.new).face.codes }
    ensures face { (L.seen link.new).face ≡ record ((L.seen link.old).face) { codes = (L.seen link.new).face.codes } }
    ensures is { IsFaultEnd result (L.seen link.new).face.codes }
{
    let codes = link.exit_codes();
    if let Some(exit) = failed_exit(codes.source) {
        return Status::SourceFailed(exit);
    }
    if let Some(exit) = failed_exit(codes.dest) {
        return Status::DestFailed(exit);
    }
    Status::LinkFault
}
