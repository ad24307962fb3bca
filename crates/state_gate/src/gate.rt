// Records that are not committed, and states that wait for them.
ghost use Rattle.std.specs.Prelude.{◌≡◌, ℕ, ◌+◌, ◌-◌, ◌<◌, ◌≤◌, ◌^◌, [], length, find, None, Some, IfOk, OnOk, OnErr, IfSome, IfNone, All, vec_len, vec_capacity};
ghost use Rattle.std.specs.Option.{option_copied};
ghost use Rattle.state_gate.specs.Content.{Content, AreUncommitted, IsFirstOfLane, covers as covers_stream, count_in, head_in, head_of, is_clear, nothing_for, with_committed, with_record, with_state, without_head};
ghost use Rattle.state_gate.specs.Views.{GateView, HasLane, InOrder, IsFoundAt, RiseFrom, Stands};

use crate::counts::Counts;
use crate::merge::drop_committed;
use crate::{Accepted, Lane, Pending, Waiting};
use airbyte_message::StateMsg;
use basics::{NoMemory, StreamNo};
use std::alloc::Global;
use std::marker::Model;

/// The records of a load that are not committed, and the states that wait for them.
///
/// Contracts speak of a content: the uncommitted records, the waiting states, and the records counted since each lane's
/// last state. They hold of whatever content the gate stands for.
#[derive(Debug, Drop)]
pub struct Gate {
    uncommitted: Vec<Accepted>,
    waiting: Vec<Waiting>,
    counts: Counts,
    next: u64,
    states: u64,
    record_room: usize,
    state_room: usize,
}

impl Model for Gate {
    ghost use Rattle.std.specs.Prelude.{◌≡◌, ◌≤◌, ◌+◌, vec_len, vec_capacity};
    ghost use Rattle.state_gate.specs.Content.{Content};
    ghost use Rattle.state_gate.specs.Views.{GateView, InOrder, AreCountsTo};

    ghost Value = { GateView };

    ghost view = { λ gate. record { kept = record { uncommitted = gate.uncommitted.items; waiting = gate.waiting.items; since = gate.counts.of_streams.items; since_all = gate.counts.of_all }; streams = gate.counts.streams; next = gate.next; states = gate.states; record_room = gate.record_room; state_room = gate.state_room } };

    ghost invariant = { λ gate. (vec_len gate.uncommitted + gate.record_room ≤ vec_capacity gate.uncommitted) × (vec_len gate.waiting + gate.state_room ≤ vec_capacity gate.waiting) × InOrder gate.uncommitted.items gate.waiting.items gate.next × AreCountsTo gate.next gate.counts.of_streams.items gate.counts.of_all × (vec_len gate.counts.of_streams ≡ gate.counts.streams) };
}

fn covers(lane: Lane, stream: StreamNo) -> bool
    ensures { result ≡ covers_stream lane stream }
{
    match lane {
        Lane::Global => true,
        Lane::Stream(own) => own == stream,
    }
}

// Whether no uncommitted record stands before the state that it covers.
fn clears(uncommitted: &[Accepted], state: &Waiting) -> bool
    requires { RiseFrom 0 uncommitted.now }
    ensures { result ≡ is_clear uncommitted.now state.now }
{
    for accepted in uncommitted {
        if accepted.seq >= state.behind {
            return true;
        }
        if covers(state.pending.lane, accepted.stream) {
            return false;
        }
    }
    true
}

// The index of the first state that may go.
fn head_index(uncommitted: &[Accepted], waiting: &[Waiting]) -> Option<usize>
    requires { RiseFrom 0 uncommitted.now }
    ensures none { IfNone result (find (is_clear uncommitted.now) waiting.now ≡ None) }
    ensures some { IfSome result (IsFoundAt (is_clear uncommitted.now) waiting.now) }
{
    for index in 0..waiting.len() {
        if clears(uncommitted, &waiting[index]) {
            return Some(index);
        }
    }
    None
}

#[tactic(auto, using(crate::proofs::Orders::rises))]
impl Gate {
    /// A gate for so many streams, without room.
    pub fn new(alloc: Global, streams: u32) -> Result<Self, NoMemory>
        ensures view { IfOk result (λ gate. gate ≡ record { kept = gate.kept; streams = streams; next = 0; states = 0; record_room = 0; state_room = 0 }) }
        ensures content { IfOk result (Stands (nothing_for streams)) }
    {
        Ok(Gate {
            uncommitted: Vec::new(alloc),
            waiting: Vec::new(alloc),
            counts: Counts::new(alloc, streams)?,
            next: 0,
            states: 0,
            record_room: 0,
            state_room: 0,
        })
    }

    /// Of how many streams there are records.
    pub fn streams(&self) -> u32
        ensures { result ≡ self.now.streams }
    {
        self.counts.streams
    }

    /// A sequence above those of all accepted records.
    pub fn next(&self) -> u64
        ensures { result ≡ self.now.next }
    {
        self.next
    }

    /// How many states were accepted.
    pub fn states(&self) -> u64
        ensures { result ≡ self.now.states }
    {
        self.states
    }

    /// Makes room for one more record and for one more state.
    pub fn reserve(&mut self) -> Result<(), NoMemory>
        ensures ok { OnOk result (self.new ≡ record (self.old) { record_room = self.new.record_room; state_room = self.new.state_room }) }
        ensures record_room { OnOk result (1 ≤ self.new.record_room) }
        ensures state_room { OnOk result (1 ≤ self.new.state_room) }
        ensures err { OnErr result (self.new ≡ self.old) }
    {
        self.uncommitted.reserve(1)?;
        self.waiting.reserve(1)?;
        self.record_room = 1;
        self.state_room = 1;
        Ok(())
    }

    /// Takes a record in, behind all others. It uses up the room of one record.
    pub fn accept_record(&mut self, stream: StreamNo, seq: u64)
        requires room { 1 ≤ self.old.record_room }
        requires stream { stream < self.old.streams }
        requires above { self.old.next ≤ seq }
        requires below { seq < 2 ^ 64 - 1 }
        ensures view { self.new ≡ record (self.old) { kept = self.new.kept; next = seq + 1; record_room = self.old.record_room - 1 } }
        ensures content { (content : Content) → Stands content self.old → Stands (with_record content stream seq) self.new }
    {
        self.uncommitted.push_reserved(Accepted { seq, stream });
        self.counts.add(stream);
        self.next = seq + 1;
        self.record_room -= 1;
    }

    /// Takes a state in, behind all others. It uses up the room of one state. A gate takes states of streams, or states
    /// of all streams, and not both.
    pub fn accept_state(&mut self, lane: Lane, state: StateMsg)
        requires room { 1 ≤ self.old.state_room }
        requires lane { HasLane self.old.streams lane }
        requires number { self.old.states < 2 ^ 64 - 1 }
        ensures view { self.new ≡ record (self.old) { kept = self.new.kept; states = self.old.states + 1; state_room = self.old.state_room - 1 } }
        ensures content { (content : Content) → Stands content self.old → Stands (with_state content (record { pending = record { lane = lane; state = state; count = count_in content lane; number = self.old.states }; behind = self.old.next })) self.new }
    {
        let count = self.counts.take(lane);
        self.waiting.push_reserved(Waiting {
            pending: Pending {
                lane,
                state,
                count,
                number: self.states,
            },
            behind: self.next,
        });
        self.states += 1;
        self.state_room -= 1;
    }

    /// These records of a stream are committed. Each was accepted for that stream and is not committed yet, and none
    /// stands here twice; of other sequences nothing is promised.
    pub fn committed(&mut self, stream: StreamNo, seqs: &[u64])
        ensures view { self.new ≡ record (self.old) { kept = self.new.kept } }
        ensures content { (content : Content) → Stands content self.old → AreUncommitted content stream seqs.now → Stands (with_committed content seqs.now) self.new }
    {
        drop_committed(&mut self.uncommitted, seqs);
    }

    /// The state that may go: the first, in order of acceptance, whose records are all committed. No earlier state of
    /// its lane waits.
    pub fn head(&self) -> Option<&Pending>
        ensures head { (content : Content) → Stands content self.now → option_copied result ≡ head_of content }
        ensures first { (content : Content) → Stands content self.now → IfSome (head_in content) (IsFirstOfLane content.waiting) }
    {
        let index = head_index(&self.uncommitted, &self.waiting)?;
        Some(&self.waiting[index].pending)
    }

    /// Takes that state out.
    pub fn take_head(&mut self) -> Option<Pending>
        ensures head { (content : Content) → Stands content self.old → result ≡ head_of content }
        ensures first { (content : Content) → Stands content self.old → IfSome (head_in content) (IsFirstOfLane content.waiting) }
        ensures view { self.new ≡ record (self.old) { kept = self.new.kept } }
        ensures content { (content : Content) → Stands content self.old → Stands (without_head content) self.new }
    {
        let index = head_index(&self.uncommitted, &self.waiting)?;
        Some(self.waiting.remove(index).pending)
    }
}
