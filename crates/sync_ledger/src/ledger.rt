// The ledger of an attempt.
ghost use Rattle.std.specs.Prelude.{IfOk};
ghost use Rattle.sync_ledger.specs.Kept.{ReadsTold};

use crate::notes::{MOST_LINES, Notes};
use crate::told::told_of;
use crate::{Echoed, LedgerFault, Told, Verdict};
use airbyte_message::{MessageReader, StreamStatus};
use basics::{LONGEST_LINE, NoMemory, StreamNo};
use catalog::Configured;
use outside::{Breach, Side};
use state_kinds::SavedSet;
use std::alloc::Global;
use std::marker::Model;

/// What a worker remembers of an attempt between source and destination. Each line is read once.
///
/// Contracts see what is noted: an account of each stream and of the lane of all streams, of which form the states are, how many
/// lines of the source were answered, and the state that is to be given.
#[derive(Drop)]
pub struct Ledger {
    alloc: Global,
    reader: MessageReader,
    notes: Notes,
}

impl Model for Ledger {
    ghost use Rattle.sync_ledger.specs.Noted.{Noted};

    ghost Value = { Noted };

    ghost view = { λ ledger. ledger.notes };
}

// What a line of a side tells.
fn read_told(
    alloc: Global,
    reader: &mut MessageReader,
    side: Side,
    line: &[u8],
) -> Result<Told, NoMemory>
    ensures { IfOk result (ReadsTold side line.now) }
{
    let found = reader.read(line)?;
    told_of(alloc, side, line, found)
}

impl Ledger {
    ghost use Rattle.std.specs.Prelude.{◌≡◌, ◌<◌, ◌≤◌, length, option_map, slice_get, IfErr, IfOk, OnErr};
    ghost use Rattle.basics.specs.declared.stream.StreamId.{StreamId};
    ghost use Rattle.catalog.specs.Reading.{ids_of};
    ghost use Rattle.sync_ledger.specs.Accounts.{account_of, all_pending, records_in, status_in as status_by};
    ghost use Rattle.sync_ledger.specs.Judged.{Echoes, Hears, RefusesBackLine, RefusesLine};
    ghost use Rattle.sync_ledger.specs.Noted.{gave as gave_line, least_line, nothing_noted, saved_form};

    /// The ledger of an attempt that begins, over the streams of a catalog and the states that are saved.
    pub fn new(alloc: Global, configured: &Configured, set: &SavedSet) -> Result<Self, NoMemory>
        ensures { IfOk result (λ ledger. ledger ≡ nothing_noted (ids_of configured.now) (saved_form set.now)) }
    {
        Ok(Ledger {
            alloc,
            reader: MessageReader::new(alloc),
            notes: Notes::new(alloc, configured, set)?,
        })
    }

    /// What is to be done with a line of the source. It is refused as too long, as a Legacy state, as a state of the other form
    /// than one that is saved or came before, as of a stream that the catalog lacks, or as a state that tells another number of
    /// records than were read since its lane's last; the first that holds. Where it is refused, or memory lacks, all stays as it
    /// was. Room for `gave` is made.
    pub fn source_line(&mut self, line: &[u8]) -> Result<Verdict, LedgerFault>
        ensures ok { IfOk result (λ answer. Hears self.old line.now answer self.new) }
        ensures refused { IfErr result (λ fault. RefusesLine self.old line.now fault) }
        ensures err { OnErr result (self.new ≡ self.old) }
    {
        if line.len() > LONGEST_LINE {
            return Err(LedgerFault::Breach(Breach::TooLong));
        }
        if self.notes.lines() >= MOST_LINES {
            return Err(LedgerFault::NoMemory);
        }
        let told = read_told(self.alloc, &mut self.reader, Side::Source, line)?;
        self.notes.hear(self.alloc, told)
    }

    /// The last line of the source that was to be given was given. A state is pending from now on. It takes no memory.
    pub fn gave(&mut self)
        ensures { self.new ≡ gave_line self.old }
    {
        self.notes.gave();
    }

    /// What a line of the destination is. A state takes the first pending one of its lane that is the same, and those of the
    /// lane before it are passed over; this is constant time where states come back in order. It is refused as a Legacy state,
    /// or as a state that takes none. Where it is refused, or memory lacks, all stays as it was.
    pub fn dest_line(&mut self, line: &[u8]) -> Result<Echoed, LedgerFault>
        ensures ok { IfOk result (λ answer. Echoes self.old line.now answer self.new) }
        ensures refused { IfErr result (λ fault. RefusesBackLine self.old line.now fault) }
        ensures err { OnErr result (self.new ≡ self.old) }
    {
        let told = read_told(self.alloc, &mut self.reader, Side::Dest, line)?;
        self.notes.hear_back(self.alloc, told)
    }

    /// How many streams the catalog has.
    pub fn streams(&self) -> u32
        ensures { result ≡ length self.now.ids }
    {
        self.notes.streams()
    }

    /// How many lines of the source were answered. A line that is refused has the number behind it.
    pub fn lines(&self) -> u64
        ensures { result ≡ self.now.lines }
    {
        self.notes.lines()
    }

    /// How many states were given and neither taken nor passed over.
    pub fn pending(&self) -> u64
        ensures { result ≡ length (all_pending self.now.accounts) }
    {
        self.notes.pending()
    }

    /// The line of the source, from 1, of the first of these; `None` exactly where there is none.
    pub fn first_pending(&self) -> Option<u64>
        ensures { result ≡ least_line None (all_pending self.now.accounts) }
    {
        self.notes.first_pending()
    }

    /// How many records of a stream were to be given.
    pub fn counts(&self, stream: StreamNo) -> u64
        requires { stream < length self.now.ids }
        ensures number { Some result ≡ option_map (λ account. account.records) (slice_get self.now.accounts.streams stream) }
        ensures stream { (id : StreamId) → slice_get self.now.ids stream ≡ Some id → result ≡ records_in (account_of self.now.ids id self.now.accounts.streams) }
    {
        self.notes.records(stream)
    }

    /// The last status of a stream, of those that were to be given.
    pub fn status_of(&self, stream: StreamNo) -> Option<StreamStatus>
        requires { stream < length self.now.ids }
        ensures number { Some result ≡ option_map (λ account. account.status) (slice_get self.now.accounts.streams stream) }
        ensures stream { (id : StreamId) → slice_get self.now.ids stream ≡ Some id → result ≡ status_by (account_of self.now.ids id self.now.accounts.streams) }
    {
        self.notes.status(stream)
    }
}
