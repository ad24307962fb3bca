// The link: a source, a destination and the state store, as the worker reaches them.
ghost use Rattle.std.specs.Prelude.{◌≡◌, ℕ, false, IsTrue, IfOk, IfSome, IsErrOf};
ghost use Rattle.outside.specs.declared.event.Event.{Event};
ghost use Rattle.basics.specs.Told.{Rose, RoseIf};
ghost use Rattle.outside.specs.Event.{stored};
ghost use Rattle.outside.specs.Link.{Seen, own_events, Grew, AddsOn, ReadAdds, GotAdds, OfferAdds, StopAdds, KeepsCodes, kind_of, started_face, stopped_face, QuietPoll, QuietOffer, QuietCodes};

use crate::{AttemptPlan, Codes, Fault};
use basics::{Bytes, Copies, NoMemory};
use std::alloc::Global;

/// What a poll of an output gave.
#[derive(Debug, Drop)]
pub enum Polled {
    /// A line, without its newline.
    Line(Bytes),
    /// A last piece that is not blank and has no newline.
    Torn(Bytes),
    /// A line above the length limit.
    TooLong,
    /// Nothing stood ready.
    NotYet,
    /// The output has ended.
    End,
    Failed,
    NoMemory,
}

impl Copies for Polled {
    fn copy(&self, alloc: Global) -> Result<Self, NoMemory> {
        match self {
            Polled::Line(line) => Ok(Polled::Line(line.copy(alloc)?)),
            Polled::Torn(line) => Ok(Polled::Torn(line.copy(alloc)?)),
            Polled::TooLong => Ok(Polled::TooLong),
            Polled::NotYet => Ok(Polled::NotYet),
            Polled::End => Ok(Polled::End),
            Polled::Failed => Ok(Polled::Failed),
            Polled::NoMemory => Ok(Polled::NoMemory),
        }
    }
}

/// What became of a line that was offered.
#[derive(Clone, Copy, Debug, PartialEq, Eq)]
pub enum Offered {
    Taken,
    /// There was no room.
    NotYet,
    Failed,
    NoMemory,
}

/// Which kind the last answer of a poll had.
#[derive(Clone, Copy, Debug, PartialEq, Eq)]
pub enum PollKind {
    Line,
    Torn,
    TooLong,
    /// Another answer, or none since the last start.
    Other,
}

/// What a link counts. No count falls, and each ends at the largest `u64`.
#[derive(Clone, Copy, Debug, PartialEq, Eq)]
pub struct LinkCounts {
    /// Loads and saves of states that failed.
    pub state_faults: u64,
    /// Other calls that failed.
    pub link_faults: u64,
    /// `NotYet` answers of `poll_source` and `offer_dest`.
    pub quiet_source: u64,
    /// `NotYet` answers of `poll_dest`.
    pub quiet_dest: u64,
    /// Answers of `exit_codes` that leave a code unknown.
    pub quiet_codes: u64,
    /// Returns of `wait`.
    pub waits: u64,
}

/// What is known of every link, whether it tells its trace or not.
#[derive(Clone, Copy, Debug, PartialEq, Eq)]
pub struct LinkFace {
    /// An attempt was started and not stopped.
    pub running: bool,
    /// The destination's input is open.
    pub input_open: bool,
    /// The codes that were last given since the last start.
    pub codes: Codes,
    pub source_poll: PollKind,
    pub dest_poll: PollKind,
}

/// A source, a destination and the store of saved states.
///
/// A call changes only what its clauses name. Of the events that are a link's own it adds the one that is named
/// for it, in the named case; it may also add events of a destination, and takes none away. Each event is told
/// with the counts as they stood when it was added. A link serves the store of one name, and where it tells its
/// trace the store's text is that of the last `Saved`.
pub trait Link {
    /// The trace where it is told, the counts, and what is known of every link.
    ghost seen: { Self → Seen };

    /// The text of the state store, empty where there is none. `Failed` raises `state_faults`.
    fn load_states(&mut self, alloc: Global, name: &str) -> Result<Bytes, Fault>
        ensures grew { Grew (seen self.old) (seen self.new) }
        ensures text { IfOk result (λ text. IfSome (own_events (seen self.old)) (λ events. text ≡ stored events)) }
        ensures events { own_events (seen self.new) ≡ own_events (seen self.old) }
        ensures face { (seen self.new).face ≡ (seen self.old).face }
        ensures faults { RoseIf (IsErrOf result Fault.Failed) (seen self.old).counts.state_faults (seen self.new).counts.state_faults }
        ensures counts { (seen self.new).counts ≡ record ((seen self.old).counts) { state_faults = (seen self.new).counts.state_faults } };

    /// Replaces the text of the state store as a whole. At `Failed`, which raises `state_faults`, the old or the new
    /// text stands, and `Saved` was added exactly where it is the new one.
    fn save_states(&mut self, name: &str, text: &[u8]) -> Result<(), Fault>
        ensures grew { Grew (seen self.old) (seen self.new) }
        ensures events { AddsOn result (Event.Saved text.now) (own_events (seen self.old)) (own_events (seen self.new)) }
        ensures face { (seen self.new).face ≡ (seen self.old).face }
        ensures faults { RoseIf (IsErrOf result Fault.Failed) (seen self.old).counts.state_faults (seen self.new).counts.state_faults }
        ensures counts { (seen self.new).counts ≡ record ((seen self.old).counts) { state_faults = (seen self.new).counts.state_faults } };

    /// Starts both children.
    fn start(&mut self, plan: &AttemptPlan) -> Result<(), Fault>
        ensures grew { Grew (seen self.old) (seen self.new) }
        ensures events { AddsOn result (Event.Started plan.now) (own_events (seen self.old)) (own_events (seen self.new)) }
        ensures face { (seen self.new).face ≡ started_face result (seen self.old).face }
        ensures faults { RoseIf (IsErrOf result Fault.Failed) (seen self.old).counts.link_faults (seen self.new).counts.link_faults }
        ensures counts { (seen self.new).counts ≡ record ((seen self.old).counts) { link_faults = (seen self.new).counts.link_faults } };

    /// What the source's output gives now. It does not block.
    fn poll_source(&mut self) -> Polled
        requires { IsTrue (seen self.old).face.running }
        ensures grew { Grew (seen self.old) (seen self.new) }
        ensures events { ReadAdds result (own_events (seen self.old)) (own_events (seen self.new)) }
        ensures face { (seen self.new).face ≡ record ((seen self.old).face) { source_poll = kind_of result } }
        ensures quiet { QuietPoll result (seen self.old).counts.quiet_source (seen self.new).counts.quiet_source }
        ensures faults { RoseIf (result ≡ Polled.Failed) (seen self.old).counts.link_faults (seen self.new).counts.link_faults }
        ensures counts { (seen self.new).counts ≡ record ((seen self.old).counts) { link_faults = (seen self.new).counts.link_faults; quiet_source = (seen self.new).counts.quiet_source } };

    /// What the destination's output gives now. It does not block.
    fn poll_dest(&mut self) -> Polled
        requires { IsTrue (seen self.old).face.running }
        ensures grew { Grew (seen self.old) (seen self.new) }
        ensures events { GotAdds result (own_events (seen self.old)) (own_events (seen self.new)) }
        ensures face { (seen self.new).face ≡ record ((seen self.old).face) { dest_poll = kind_of result } }
        ensures quiet { QuietPoll result (seen self.old).counts.quiet_dest (seen self.new).counts.quiet_dest }
        ensures faults { RoseIf (result ≡ Polled.Failed) (seen self.old).counts.link_faults (seen self.new).counts.link_faults }
        ensures counts { (seen self.new).counts ≡ record ((seen self.old).counts) { link_faults = (seen self.new).counts.link_faults; quiet_dest = (seen self.new).counts.quiet_dest } };

    /// Offers a line, without a newline, to the destination.
    fn offer_dest(&mut self, line: &[u8]) -> Offered
        requires running { IsTrue (seen self.old).face.running }
        requires open { IsTrue (seen self.old).face.input_open }
        ensures grew { Grew (seen self.old) (seen self.new) }
        ensures events { OfferAdds result line.now (own_events (seen self.old)) (own_events (seen self.new)) }
        ensures face { (seen self.new).face ≡ (seen self.old).face }
        ensures quiet { QuietOffer result (seen self.old).counts.quiet_source (seen self.new).counts.quiet_source }
        ensures faults { RoseIf (result ≡ Offered.Failed) (seen self.old).counts.link_faults (seen self.new).counts.link_faults }
        ensures counts { (seen self.new).counts ≡ record ((seen self.old).counts) { link_faults = (seen self.new).counts.link_faults; quiet_source = (seen self.new).counts.quiet_source } };

    /// Ends the destination's input, which is shut afterwards whatever the answer.
    fn close_dest(&mut self) -> Result<(), Fault>
        requires running { IsTrue (seen self.old).face.running }
        requires open { IsTrue (seen self.old).face.input_open }
        ensures grew { Grew (seen self.old) (seen self.new) }
        ensures events { AddsOn result Event.Closed (own_events (seen self.old)) (own_events (seen self.new)) }
        ensures face { (seen self.new).face ≡ record ((seen self.old).face) { input_open = false } }
        ensures faults { RoseIf (IsErrOf result Fault.Failed) (seen self.old).counts.link_faults (seen self.new).counts.link_faults }
        ensures counts { (seen self.new).counts ≡ record ((seen self.old).counts) { link_faults = (seen self.new).counts.link_faults } };

    /// How the children ended, as far as that is known. A code that was given stays until the next start.
    fn exit_codes(&mut self) -> Codes
        ensures grew { Grew (seen self.old) (seen self.new) }
        ensures kept { KeepsCodes (seen self.old).face.codes result }
        ensures events { own_events (seen self.new) ≡ own_events (seen self.old) }
        ensures face { (seen self.new).face ≡ record ((seen self.old).face) { codes = result } }
        ensures quiet { QuietCodes result (seen self.old).counts.quiet_codes (seen self.new).counts.quiet_codes }
        ensures counts { (seen self.new).counts ≡ record ((seen self.old).counts) { quiet_codes = (seen self.new).counts.quiet_codes } };

    /// Ends both children, which are not running afterwards whatever the answer.
    fn stop(&mut self) -> Result<(), Fault>
        ensures grew { Grew (seen self.old) (seen self.new) }
        ensures events { StopAdds result (seen self.old).face.running (seen self.old).face.codes (own_events (seen self.old)) (own_events (seen self.new)) }
        ensures face { (seen self.new).face ≡ stopped_face (seen self.old).face }
        ensures faults { RoseIf (IsErrOf result Fault.Failed) (seen self.old).counts.link_faults (seen self.new).counts.link_faults }
        ensures counts { (seen self.new).counts ≡ record ((seen self.old).counts) { link_faults = (seen self.new).counts.link_faults } };

    /// Returns when something may have changed, or after about a second.
    fn wait(&mut self)
        ensures grew { Grew (seen self.old) (seen self.new) }
        ensures events { own_events (seen self.new) ≡ own_events (seen self.old) }
        ensures face { (seen self.new).face ≡ (seen self.old).face }
        ensures waited { Rose (seen self.old).counts.waits (seen self.new).counts.waits }
        ensures counts { (seen self.new).counts ≡ record ((seen self.old).counts) { waits = (seen self.new).counts.waits } };
}
