// An account of each stream, and one of the lane of all streams.
ghost use Rattle.std.specs.Prelude.{◌≡◌, ◌+◌, ◌<◌, ◌≤◌, ◌^◌, [], ◌∷◌, ◌++◌, length, option_map, slice_get, IfOk, OnErr, OnOk};
ghost use Rattle.basics.specs.declared.limits.TheConstants.{MOST_STREAMS};
ghost use Rattle.sync_ledger.specs.declared.notes.TheConstants.{MOST_LINES};
ghost use Rattle.sync_ledger.specs.Accounts.{all_pending, more_since, new_account, new_lane, none_since, with_pending, with_record, with_status};
ghost use Rattle.sync_ledger.specs.Kept.{AreWithin, HasPlace, LeavesAt, changed_at, changed_nth, lane_at, place_form};
ghost use Rattle.sync_ledger.specs.Noted.{least_line as least_line_of};
ghost use Rattle.sync_ledger.specs.Takes.{LeavesPending};

use crate::pending::{least_line, take_same};
use crate::{Pending, StateForm};
use airbyte_message::{StateMsg, StreamStatus};
use basics::NoMemory;
use std::alloc::Global;
use std::collections::LinkedList;
use std::marker::Model;

/// What is known of a lane: of the states of one stream, or of the states of all streams.
#[derive(Drop)]
pub struct LaneAccount {
    /// How many records that its states cover were read since its last state.
    pub since: u64,
    /// The states that were given and that no state of the destination took or passed over.
    pub pending: LinkedList<Pending>,
}

/// What is known of a stream.
#[derive(Drop)]
pub struct Account {
    /// How many of its records were to be given.
    pub records: u64,
    /// Its last status.
    pub status: Option<StreamStatus>,
    pub lane: LaneAccount,
}

/// Where the account of a lane stands.
#[derive(Clone, Copy, Debug, PartialEq, Eq)]
pub enum LanePlace {
    Stream(usize),
    Global,
}

impl LanePlace {
    /// Of which form the states of the lane are.
    pub fn form(self) -> StateForm
        ensures { result ≡ place_form self }
    {
        match self {
            LanePlace::Stream(_) => StateForm::Stream,
            LanePlace::Global => StateForm::Global,
        }
    }
}

impl LaneAccount {
    fn new(alloc: Global) -> Self
        ensures { result ≡ new_lane }
    {
        LaneAccount {
            since: 0,
            pending: LinkedList::new(alloc),
        }
    }

    // Counts a record.
    fn count(&mut self)
        requires { self.old.since < 2 ^ 63 }
        ensures { self.new ≡ more_since self.old }
    {
        self.since += 1;
    }

    // From here on its records are counted anew.
    fn count_anew(&mut self)
        ensures { self.new ≡ none_since self.old }
    {
        self.since = 0;
    }

    // These states were given.
    fn give(&mut self, held: &mut LinkedList<Pending>)
        requires { length self.old.pending + length held.old < 2 ^ 63 }
        ensures given { self.new ≡ with_pending held.old self.old }
        ensures held { held.new ≡ [] }
    {
        match self.pending.append(held) {
            Ok(()) => {}
            Err(_) => unreachable!(),
        }
    }

    // Takes the first state that is the same.
    fn take(&mut self, alloc: Global, got: &StateMsg) -> Result<Option<StateMsg>, NoMemory>
        ensures ok { IfOk result (λ taken. LeavesPending self.old.pending got.now taken self.new.pending) }
        ensures shorter { length self.new.pending ≤ length self.old.pending }
        ensures since { self.new.since ≡ self.old.since }
        ensures err { OnErr result (self.new ≡ self.old) }
    {
        take_same(alloc, &mut self.pending, got)
    }
}

impl Account {
    fn new(alloc: Global) -> Self
        ensures { result ≡ new_account }
    {
        Account {
            records: 0,
            status: None,
            lane: LaneAccount::new(alloc),
        }
    }

    // Counts a record.
    fn count(&mut self)
        requires records { self.old.records < 2 ^ 63 }
        requires since { self.old.lane.since < 2 ^ 63 }
        ensures { self.new ≡ with_record self.old }
    {
        self.records += 1;
        self.lane.count();
    }
}

/// The accounts of all streams and of the lane of all streams.
#[derive(Drop)]
pub struct Accounts {
    streams: Vec<Account>,
    global: LaneAccount,
}

impl Model for Accounts {
    ghost use Rattle.sync_ledger.specs.Accounts.{AllAccounts};

    ghost Value = { AllAccounts };

    ghost view = { λ accounts. record { streams = accounts.streams.items; global = accounts.global } };
}

impl Accounts {
    /// No account but that of all streams.
    pub fn new(alloc: Global) -> Self
        ensures { result ≡ record { streams = []; global = new_lane } }
    {
        Accounts {
            streams: Vec::new(alloc),
            global: LaneAccount::new(alloc),
        }
    }

    /// Puts an account of one more stream behind the others.
    pub fn add(&mut self, alloc: Global) -> Result<(), NoMemory>
        ensures ok { OnOk result (self.new ≡ record (self.old) { streams = self.old.streams ++ new_account ∷ [] }) }
    {
        self.streams.push(Account::new(alloc))?;
        Ok(())
    }

    /// The account of a stream.
    pub fn stream(&self, place: usize) -> &Account
        requires { place < length self.now.streams }
        ensures { slice_get self.now.streams place ≡ Some result.now }
    {
        &self.streams[place]
    }

    /// How many records of a lane were read since its last state.
    pub fn since(&self, place: LanePlace) -> u64
        requires { HasPlace self.now place }
        ensures { Some result ≡ option_map (λ account. account.since) (lane_at self.now place) }
    {
        match place {
            LanePlace::Stream(n) => self.streams[n].lane.since,
            LanePlace::Global => self.global.since,
        }
    }

    /// Counts a record of a stream.
    pub fn count_record(&mut self, place: usize)
        requires place { place < length self.old.streams }
        requires room { AreWithin MOST_LINES 0 self.old }
        ensures { self.new ≡ record { streams = changed_nth with_record self.old.streams place; global = more_since self.old.global } }
    {
        self.streams[place].count();
        self.global.count();
    }

    /// Notes the status of a stream.
    pub fn note_status(&mut self, place: usize, status: StreamStatus)
        requires { place < length self.old.streams }
        ensures { self.new ≡ record (self.old) { streams = changed_nth (with_status status) self.old.streams place } }
    {
        self.streams[place].status = Some(status);
    }

    /// From here on the records of a lane are counted anew.
    pub fn count_anew(&mut self, place: LanePlace)
        requires { HasPlace self.old place }
        ensures { self.new ≡ changed_at none_since self.old place }
    {
        match place {
            LanePlace::Stream(n) => self.streams[n].lane.count_anew(),
            LanePlace::Global => self.global.count_anew(),
        }
    }

    /// These states of a lane were given.
    pub fn give(&mut self, place: LanePlace, held: &mut LinkedList<Pending>)
        requires place { HasPlace self.old place }
        requires held { length held.old ≤ 1 }
        requires room { AreWithin MOST_LINES 0 self.old }
        ensures given { self.new ≡ changed_at (with_pending held.old) self.old place }
        ensures held { held.new ≡ [] }
    {
        match place {
            LanePlace::Stream(n) => self.streams[n].lane.give(held),
            LanePlace::Global => self.global.give(held),
        }
    }

    /// Takes the first state of a lane that is the same.
    pub fn take(
        &mut self,
        alloc: Global,
        place: LanePlace,
        got: &StateMsg,
    ) -> Result<Option<StateMsg>, NoMemory>
        requires { HasPlace self.old place }
        ensures ok { IfOk result (λ taken. LeavesAt self.old place got.now taken self.new) }
        ensures err { OnErr result (self.new ≡ self.old) }
    {
        match place {
            LanePlace::Stream(n) => self.streams[n].lane.take(alloc, got),
            LanePlace::Global => self.global.take(alloc, got),
        }
    }

    /// How many states are pending in all lanes.
    pub fn pending(&self) -> u64
        requires room { AreWithin MOST_LINES 0 self.now }
        requires few { length self.now.streams ≤ MOST_STREAMS }
        ensures { result ≡ length (all_pending self.now) }
    {
        let mut count = self.global.pending.len() as u64;
        for account in &self.streams {
            count += account.lane.pending.len() as u64;
        }
        count
    }

    /// The least line of the states that are pending.
    pub fn first_pending(&self) -> Option<u64>
        ensures { result ≡ least_line_of None (all_pending self.now) }
    {
        let mut least = None;
        for account in &self.streams {
            least = least_line(least, &account.lane.pending);
        }
        least_line(least, &self.global.pending)
    }
}
