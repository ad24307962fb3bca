// What a ledger knows, and how what a line tells changes it.
ghost use Rattle.std.specs.Prelude.{◌≡◌, ◌<◌, ◌≤◌, [], ◌∷◌, length, option_map, slice_get, IfErr, IfOk, OnErr, OnOk};
ghost use Rattle.basics.specs.declared.stream.StreamId.{StreamId};
ghost use Rattle.airbyte_message.specs.Lanes.{lane_of as lane_by};
ghost use Rattle.catalog.specs.Configured.{AreConfigured};
ghost use Rattle.catalog.specs.Reading.{ids_of};
ghost use Rattle.sync_ledger.specs.Accounts.{account_of as account_by, all_pending, new_accounts, records_in, status_in};
ghost use Rattle.sync_ledger.specs.Judged.{IsEchoed, judged_count, judged_in};
ghost use Rattle.sync_ledger.specs.Kept.{GivesState, HasPlace, HearsTold, IsPlaceOf, IsPlaceOfHeld, RefusesBackTold, RefusesTold, state_noted, taken_answer};
ghost use Rattle.sync_ledger.specs.Noted.{form_of as form_by, gave as gave_line, least_line as least_line_of, nothing_noted, saved_form as saved_form_of};
ghost use Rattle.sync_ledger.specs.declared.told.Told.TheVariants as told;

use crate::accounts::{Accounts, LanePlace};
use crate::form::{is_other, saved_form};
use crate::verdict::{echoed_of, verdict_of};
use crate::{Echoed, LedgerFault, Pending, Saying, StateForm, Told, Verdict};
use airbyte_message::{StateKind, StateMsg, StreamStatus};
use basics::{Copies, NoMemory, StreamId, StreamNo};
use catalog::Configured;
use outside::Breach;
use state_kinds::SavedSet;
use std::alloc::Global;
use std::collections::LinkedList;
use std::marker::Model;
use stream_index::StreamIndex;

/// The most lines of a source that a ledger takes. A line behind them is want of memory.
pub const MOST_LINES: u64 = 4_294_967_295;

/// What a ledger knows of the lines of an attempt.
#[derive(Drop)]
pub struct Notes {
    index: StreamIndex,
    accounts: Accounts,
    form: Option<StateForm>,
    lines: u64,
    held: LinkedList<Pending>,
}

impl Model for Notes {
    ghost use Rattle.sync_ledger.specs.Noted.{Noted};
    ghost use Rattle.sync_ledger.specs.Kept.{IsKept};

    ghost Value = { Noted };

    ghost view = { λ notes. record { ids = notes.index; accounts = notes.accounts; form = notes.form; lines = notes.lines; held = notes.held } };

    ghost invariant = { λ notes. IsKept (record { ids = notes.index; accounts = notes.accounts; form = notes.form; lines = notes.lines; held = notes.held }) };
}

// Where the account of the lane of such a state stands; `None` where it is of a stream that the catalog lacks, or Legacy.
fn place_of(index: &StreamIndex, kind: &StateKind) -> Option<LanePlace>
    ensures { IsPlaceOf index.now (lane_by kind.now) result }
{
    match kind {
        StateKind::Stream { id, .. } => match index.find(id) {
            Some(place) => Some(LanePlace::Stream(place)),
            None => None,
        },
        StateKind::Global { .. } => Some(LanePlace::Global),
        StateKind::Legacy => None,
    }
}

// Where the account of the lane of the state stands that is held.
fn held_place(index: &StreamIndex, held: &LinkedList<Pending>) -> Option<LanePlace>
    ensures { IsPlaceOfHeld index.now held.now result }
{
    match held.front() {
        Some(pending) => place_of(index, pending.state.kind()),
        None => None,
    }
}

// Of which form a state is; `None` where it is Legacy.
fn form_of(kind: &StateKind) -> Option<StateForm>
    ensures { result ≡ option_map form_by (lane_by kind.now) }
{
    match kind {
        StateKind::Stream { .. } => Some(StateForm::Stream),
        StateKind::Global { .. } => Some(StateForm::Global),
        StateKind::Legacy => None,
    }
}

// The place, where a count that is told is this.
fn judge_count(place: LanePlace, said: Option<u64>, counted: u64) -> Result<LanePlace, Breach>
    ensures ok { IfOk result (λ found. (found ≡ place) × (judged_count said counted ≡ Ok Verdict.Give)) }
    ensures err { IfErr result (λ why. judged_count said counted ≡ Err why) }
{
    match said {
        Some(said) if said != counted => Err(Breach::Miscount { said, counted }),
        _ => Ok(place),
    }
}

// A state of the destination that takes this one, if any.
fn echoed_state(taken: Option<StateMsg>) -> Result<Echoed, LedgerFault>
    ensures { result ≡ taken_answer taken }
{
    match taken {
        Some(state) => Ok(Echoed::State(state)),
        None => Err(LedgerFault::Breach(Breach::Stranger)),
    }
}

// The state that is to be given, which stands in this line.
fn held_of(alloc: Global, state: StateMsg, line: u64) -> Result<LinkedList<Pending>, NoMemory>
    ensures { IfOk result (λ held. held ≡ record { state = state; line = line } ∷ []) }
{
    let mut held = LinkedList::new(alloc);
    held.push_back(Pending { state, line })?;
    Ok(held)
}

// The streams of a catalog, and a new account of each.
fn opened(alloc: Global, configured: &Configured) -> Result<(StreamIndex, Accounts), NoMemory>
    ensures index { IfOk result (λ made. made.0 ≡ ids_of configured.now) }
    ensures accounts { IfOk result (λ made. made.1 ≡ new_accounts (ids_of configured.now)) }
    ensures configured { AreConfigured configured.now }
{
    let mut index = StreamIndex::new(alloc);
    let mut accounts = Accounts::new(alloc);
    for n in 0..configured.len() {
        let id = configured.stream(n).id.copy(alloc)?;
        if !index.add(id)? {
            unreachable!()
        }
        accounts.add(alloc)?;
    }
    Ok((index, accounts))
}

impl Notes {
    /// Nothing was heard yet.
    pub fn new(alloc: Global, configured: &Configured, set: &SavedSet) -> Result<Self, NoMemory>
        ensures { IfOk result (λ notes. notes ≡ nothing_noted (ids_of configured.now) (saved_form_of set.now)) }
    {
        let (index, accounts) = opened(alloc, configured)?;
        Ok(Notes {
            index,
            accounts,
            form: saved_form(set),
            lines: 0,
            held: LinkedList::new(alloc),
        })
    }

    /// How many lines of the source were answered.
    pub fn lines(&self) -> u64
        ensures lines { result ≡ self.now.lines }
        ensures most { result ≤ MOST_LINES }
    {
        self.lines
    }

    /// How many streams there are.
    pub fn streams(&self) -> u32
        ensures { result ≡ length self.now.ids }
    {
        self.index.len() as u32
    }

    // A record of this stream.
    fn hear_record(&mut self, id: &StreamId) -> Result<Verdict, LedgerFault>
        requires { self.old.lines < MOST_LINES }
        ensures ok { IfOk result (λ answer. HearsTold self.old (told.Record id.now) answer self.new) }
        ensures refused { IfErr result (λ fault. RefusesTold self.old (told.Record id.now) fault) }
        ensures err { OnErr result (self.new ≡ self.old) }
    {
        let Some(place) = self.index.find(id) else {
            return Err(LedgerFault::Breach(Breach::UnknownStream));
        };
        self.accounts.count_record(place);
        self.lines += 1;
        self.held.clear();
        Ok(Verdict::Give)
    }

    // The status of a stream.
    fn hear_status(&mut self, id: &StreamId, status: StreamStatus) -> Verdict
        requires { self.old.lines < MOST_LINES }
        ensures { HearsTold self.old (told.Status id.now status) result self.new }
    {
        self.lines += 1;
        match self.index.find(id) {
            Some(place) => {
                self.accounts.note_status(place, status);
                self.held.clear();
                Verdict::Give
            }
            None => Verdict::Nothing,
        }
    }

    // Where the account of a state's lane stands, where the state is not refused.
    fn judge_state(&self, state: &StateMsg) -> Result<LanePlace, Breach>
        ensures ok { IfOk result (λ place. GivesState self.now state.now place) }
        ensures err { IfErr result (λ why. judged_in self.now state.now.source_count (lane_by state.now.kind) ≡ Err why) }
    {
        let Some(form) = form_of(state.kind()) else {
            return Err(Breach::Legacy);
        };
        if is_other(form, self.form) {
            return Err(Breach::Mixed);
        }
        let Some(place) = place_of(&self.index, state.kind()) else {
            return Err(Breach::UnknownStream);
        };
        judge_count(place, state.source_count(), self.accounts.since(place))
    }

    // Notes a state whose lane has its account here.
    fn note_state(
        &mut self,
        alloc: Global,
        state: StateMsg,
        place: LanePlace,
    ) -> Result<(), NoMemory>
        requires lines { self.old.lines < MOST_LINES }
        requires place { HasPlace self.old.accounts place }
        ensures ok { OnOk result (self.new ≡ state_noted state place self.old) }
        ensures err { OnErr result (self.new ≡ self.old) }
    {
        let held = held_of(alloc, state, self.lines + 1)?;
        self.accounts.count_anew(place);
        self.form = Some(place.form());
        self.lines += 1;
        self.held = held;
        Ok(())
    }

    // A state.
    fn hear_state(&mut self, alloc: Global, state: StateMsg) -> Result<Verdict, LedgerFault>
        requires { self.old.lines < MOST_LINES }
        ensures ok { IfOk result (λ answer. HearsTold self.old (told.State state) answer self.new) }
        ensures refused { IfErr result (λ fault. RefusesTold self.old (told.State state) fault) }
        ensures err { OnErr result (self.new ≡ self.old) }
    {
        match self.judge_state(&state) {
            Ok(place) => {
                self.note_state(alloc, state, place)?;
                Ok(Verdict::Give)
            }
            Err(why) => Err(LedgerFault::Breach(why)),
        }
    }

    // A line of which this is to be said.
    fn hear_other(&mut self, saying: Saying) -> Verdict
        requires { self.old.lines < MOST_LINES }
        ensures { HearsTold self.old (told.Other saying) result self.new }
    {
        self.lines += 1;
        verdict_of(saying)
    }

    /// Judges what a line of the source tells, and notes it where it is not refused.
    pub fn hear(&mut self, alloc: Global, heard: Told) -> Result<Verdict, LedgerFault>
        requires { self.old.lines < MOST_LINES }
        ensures ok { IfOk result (λ answer. HearsTold self.old heard answer self.new) }
        ensures refused { IfErr result (λ fault. RefusesTold self.old heard fault) }
        ensures err { OnErr result (self.new ≡ self.old) }
    {
        match heard {
            Told::Record(id) => self.hear_record(&id),
            Told::State(state) => self.hear_state(alloc, state),
            Told::Status(id, status) => Ok(self.hear_status(&id, status)),
            Told::Other(saying) => Ok(self.hear_other(saying)),
        }
    }

    /// The line that was to be given was given.
    pub fn gave(&mut self)
        ensures { self.new ≡ gave_line self.old }
    {
        match held_place(&self.index, &self.held) {
            Some(place) => self.accounts.give(place, &mut self.held),
            None => self.held.clear(),
        }
    }

    // A state of the destination.
    fn take_back(&mut self, alloc: Global, got: &StateMsg) -> Result<Echoed, LedgerFault>
        ensures ok { IfOk result (λ answer. IsEchoed self.old (told.State got.now) answer self.new) }
        ensures refused { IfErr result (λ fault. RefusesBackTold self.old (told.State got.now) fault) }
        ensures err { OnErr result (self.new ≡ self.old) }
    {
        if form_of(got.kind()).is_none() {
            return Err(LedgerFault::Breach(Breach::Legacy));
        }
        let Some(place) = place_of(&self.index, got.kind()) else {
            return Err(LedgerFault::Breach(Breach::Stranger));
        };
        let taken = self.accounts.take(alloc, place, got)?;
        echoed_state(taken)
    }

    /// Judges what a line of the destination tells; a state takes one of the source.
    pub fn hear_back(&mut self, alloc: Global, heard: Told) -> Result<Echoed, LedgerFault>
        ensures ok { IfOk result (λ answer. IsEchoed self.old heard answer self.new) }
        ensures refused { IfErr result (λ fault. RefusesBackTold self.old heard fault) }
        ensures err { OnErr result (self.new ≡ self.old) }
    {
        match heard {
            Told::State(got) => self.take_back(alloc, &got),
            Told::Other(saying) => Ok(echoed_of(saying)),
            Told::Record(_) => Ok(Echoed::Nothing),
            Told::Status(_, _) => Ok(Echoed::Nothing),
        }
    }

    /// How many states are pending.
    pub fn pending(&self) -> u64
        ensures { result ≡ length (all_pending self.now.accounts) }
    {
        self.accounts.pending()
    }

    /// The least line of the states that are pending.
    pub fn first_pending(&self) -> Option<u64>
        ensures { result ≡ least_line_of None (all_pending self.now.accounts) }
    {
        self.accounts.first_pending()
    }

    /// How many records of a stream were to be given.
    pub fn records(&self, stream: StreamNo) -> u64
        requires { stream < length self.now.ids }
        ensures number { Some result ≡ option_map (λ account. account.records) (slice_get self.now.accounts.streams stream) }
        ensures stream { (id : StreamId) → slice_get self.now.ids stream ≡ Some id → result ≡ records_in (account_by self.now.ids id self.now.accounts.streams) }
    {
        self.accounts.stream(stream as usize).records
    }

    /// The last status of a stream.
    pub fn status(&self, stream: StreamNo) -> Option<StreamStatus>
        requires { stream < length self.now.ids }
        ensures number { Some result ≡ option_map (λ account. account.status) (slice_get self.now.accounts.streams stream) }
        ensures stream { (id : StreamId) → slice_get self.now.ids stream ≡ Some id → result ≡ status_in (account_by self.now.ids id self.now.accounts.streams) }
    {
        self.accounts.stream(stream as usize).status
    }
}
