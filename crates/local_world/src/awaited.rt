// Started states that are looked for in the lines of a file.
ghost use Rattle.std.specs.Prelude.{◌≡◌, false, None, IfOk, replicate};
ghost use Rattle.std.specs.List.{filter_map};
ghost use Rattle.std.specs.Option.{option_copied};
ghost use Rattle.airbyte_message.specs.State.{State};
ghost use Rattle.state_kinds.specs.Store.{AddsOnce, repeats_stream};
ghost use Rattle.state_kinds.specs.StateLists.{stream_of as stream_of_kind};

use airbyte_message::{Message, MessageView, StateKind, StateMsg, own_id, same_state};
use basics::{Copies, NoMemory, StreamId};
use state_kinds::StateList;
use std::alloc::Global;
use std::marker::Model;
use stream_index::StreamIndex;

/// Started states, which stand in one lane each, and for each how many lines reach up to it, where it has come. A state
/// of a stream is found in constant time, whatever their number.
#[derive(Drop)]
pub struct Awaited {
    states: StateList,
    // The states' streams, each at its state's place.
    index: StreamIndex,
    reached: Vec<Option<usize>>,
    missing: usize,
}

impl Model for Awaited {
    ghost use Rattle.std.specs.Prelude.{◌≡◌, None, length};
    ghost use Rattle.std.specs.List.{filter_map};
    ghost use Rattle.state_kinds.specs.StateLists.{list_fault, stream_of};
    ghost use Rattle.local_world.specs.Awaited.{Awaited, count_missing};

    ghost Value = { Awaited };

    ghost view = { λ awaited. record { states = awaited.states; reached = awaited.reached.items } };

    ghost invariant = { λ awaited. (list_fault awaited.states ≡ None) × (awaited.index ≡ filter_map (λ state. stream_of state.kind) awaited.states) × (length awaited.reached.items ≡ length awaited.states) × (awaited.missing ≡ count_missing awaited.reached.items) };
}

// The stream that a state is of.
fn stream_of(kind: &StateKind) -> Option<&StreamId>
    ensures { option_copied result ≡ stream_of_kind kind.now }
{
    match kind {
        StateKind::Stream { id, .. } => Some(id),
        StateKind::Global { .. } => None,
        StateKind::Legacy => None,
    }
}

// Puts a stream, where there is one, behind the others; `false` where it is there already.
fn add_stream(
    alloc: Global,
    index: &mut StreamIndex,
    id: Option<&StreamId>,
) -> Result<bool, NoMemory>
    ensures { IfOk result (λ is_new. AddsOnce index.old (option_copied id.entry) index.new is_new) }
{
    match id {
        Some(id) => {
            let is_new = index.add(id.copy(alloc)?)?;
            Ok(is_new)
        }
        None => Ok(true),
    }
}

// The streams of states, of which each has one.
fn index_of(alloc: Global, states: &[StateMsg]) -> Result<StreamIndex, NoMemory>
    requires { repeats_stream (filter_map (λ state. stream_of_kind state.kind) states.now) ≡ false }
    ensures { IfOk result (λ index. index ≡ filter_map (λ state. stream_of_kind state.kind) states.now) }
{
    let mut index = StreamIndex::new(alloc);
    for state in states {
        let _is_new = add_stream(alloc, &mut index, stream_of(state.kind()))?;
    }
    Ok(index)
}

// So many states of which none has come.
fn none_reached(alloc: Global, count: usize) -> Result<Vec<Option<usize>>, NoMemory>
    ensures { IfOk result (λ reached. reached.items ≡ replicate count None) }
{
    let mut reached = Vec::with_capacity(alloc, count)?;
    for _ in 0..count {
        reached.push(None)?;
    }
    Ok(reached)
}

impl Awaited {
    ghost use Rattle.std.specs.Prelude.{◌≡◌, ℕ, ◌<◌, ◌↔◌, Option, IfOk, IfSome, IsTrue, None, Some, length, option_map, replicate, slice_get, slice_set};
    ghost use Rattle.std.specs.Option.{option_copied};
    ghost use Rattle.airbyte_message.specs.Views.{message_at};
    ghost use Rattle.airbyte_message.specs.declared.message.Message.{Message};
    ghost use Rattle.airbyte_message.specs.declared.message.Message.TheVariants as message;
    ghost use Rattle.airbyte_message.specs.declared.message.RecordMsg.{RecordMsg};
    ghost use Rattle.state_kinds.specs.StateLists.{list_fault};
    ghost use Rattle.local_world.specs.Awaited.{IsNeither, IsOnlyAt, Passes, count_missing, state_has};

    /// These states, of which none has come.
    pub fn new(alloc: Global, states: StateList) -> Result<Self, NoMemory>
        requires { list_fault states ≡ None }
        ensures { IfOk result (λ awaited. awaited ≡ record { states = states; reached = replicate (length states) None }) }
    {
        let index = index_of(alloc, states.as_slice())?;
        let missing = states.len();
        let reached = none_reached(alloc, missing)?;
        Ok(Awaited {
            states,
            index,
            reached,
            missing,
        })
    }

    /// Whether a state has not come yet.
    pub fn is_missing(&self) -> bool
        ensures { IsTrue result ↔ (0 < count_missing self.now.reached) }
    {
        self.missing > 0
    }

    // The place of the state whose lane has records and states of a stream, or of no one stream.
    fn place_of(&self, id: Option<&StreamId>) -> Option<usize>
        ensures only { IsOnlyAt (state_has (option_copied id.entry)) self.now.states result }
        ensures within { IfSome result (λ place. place < length self.now.states) }
        ensures lengths { length self.now.reached ≡ length self.now.states }
    {
        if self.index.len() < self.states.len() {
            return Some(0);
        }
        match id {
            Some(id) => self.index.find(id),
            None => None,
        }
    }

    // How many lines reach up to the state at a place, where it has come.
    fn reached_at(&self, place: usize) -> Option<usize>
        requires { place < length self.now.reached }
        ensures { slice_get self.now.reached place ≡ Some result }
    {
        self.reached[place]
    }

    // Notes that the state at a place has come.
    fn come(&mut self, place: usize, count: usize)
        requires { slice_get self.old.reached place ≡ Some None }
        ensures states { self.new.states ≡ self.old.states }
        ensures reached { self.new.reached ≡ slice_set self.old.reached place (Some count) }
    {
        self.missing -= 1;
        self.reached[place] = Some(count);
    }

    // Whether the state whose lane has the stream's records has not come yet.
    fn awaits(&self, id: &StreamId) -> bool
        ensures { (number : ℕ) (content : RecordMsg) → content.id ≡ id.now → Passes number (Some (message.Rec content)) self.now self.now result }
    {
        match self.place_of(Some(id)) {
            Some(place) => self.reached_at(place).is_none(),
            None => false,
        }
    }

    // Notes a state in the line with this number, from 0: whether the state of its lane has not come before.
    fn pass_state(
        &mut self,
        alloc: Global,
        number: usize,
        state: &StateMsg,
    ) -> Result<bool, NoMemory>
        requires { number < usize.MAX }
        ensures { IfOk result (Passes number (Some (message.State state.now)) self.old self.new) }
    {
        let Some(place) = self.place_of(stream_of(state.kind())) else {
            return Ok(false);
        };
        if self.reached_at(place).is_some() {
            return Ok(false);
        }
        if same_state(alloc, state, self.states.at(place))? {
            self.come(place, number + 1);
        }
        Ok(true)
    }

    // A line that is neither a record nor a state is not left out.
    fn passes_over(&self) -> bool
        ensures { (number : ℕ) (found : Option Message) → IsNeither found → Passes number found self.now self.now result }
    {
        let _ = &self.states;
        false
    }

    // Notes a message.
    fn pass_message(
        &mut self,
        alloc: Global,
        number: usize,
        message: &Message,
    ) -> Result<bool, NoMemory>
        requires { number < usize.MAX }
        ensures { IfOk result (Passes number (Some message.now) self.old self.new) }
    {
        match message {
            Message::Rec(content) => Ok(self.awaits(&content.id)),
            Message::State(state) => self.pass_state(alloc, number, state),
            _ => Ok(self.passes_over()),
        }
    }

    // Notes a message in its line.
    fn pass_view(
        &mut self,
        alloc: Global,
        number: usize,
        view: &MessageView<'_>,
    ) -> Result<bool, NoMemory>
        requires { number < usize.MAX }
        ensures { IfOk result (Passes number (Some (message_at view.now)) self.old self.new) }
    {
        match view {
            MessageView::Rec(record) => {
                let id = own_id(alloc, &record.id)?;
                Ok(self.awaits(&id))
            }
            MessageView::Owned(message) => self.pass_message(alloc, number, message),
        }
    }

    /// Notes the line with this number, from 0, by the message that it is: whether it is left out, since the state of its
    /// lane has not come before it.
    pub fn pass(
        &mut self,
        alloc: Global,
        number: usize,
        found: &Option<MessageView<'_>>,
    ) -> Result<bool, NoMemory>
        requires { number < usize.MAX }
        ensures { IfOk result (Passes number (option_map message_at found.now) self.old self.new) }
    {
        match found {
            Some(view) => self.pass_view(alloc, number, view),
            None => Ok(self.passes_over()),
        }
    }
}
