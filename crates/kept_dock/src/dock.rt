// A dock over a keeper.
ghost use Rattle.std.specs.Prelude.{◌≡◌};
ghost use Rattle.outside.specs.Link.{kind_of};

use crate::Keeper;
use crate::store::{open_load, open_store, read_marks, read_unmerged};
use line_streams::{InputLines, OutputLines};
use outside::{
    Dock, DockCounts, DockTally, Fault, Load, LoadPlan, MarksList, NoMemory, PollKind, Polled,
    RawRow, RawRowList, Sequence, Sink, Source, StreamIdList, StreamNo, Unmerged,
};
use std::alloc::Global;

/// A destination over a keeper of tables, with lines of a source of bytes as its input and a sink of bytes as its output.
///
/// An emitted line is written through before its call answers. A poll reads the source until a line is whole or the source
/// ends, and waits where that does: so bytes that come in small pieces are never counted as silence. The empty name is no
/// store: to open it is `Failed`, and a store that is open stays so. The dock tells no events.
#[derive(Drop)]
pub struct KeptDock<K: Keeper + Drop, I: Source + Drop, W: Sink + Drop> {
    alloc: Global,
    moment: u64,
    keeper: K,
    input: InputLines<I>,
    output: OutputLines<W>,
    tally: DockTally,
    poll: PollKind,
    side_marks: Sequence<u64>,
    rows_read: u64,
}

// The kind of a poll's answer.
fn kind_of_poll(polled: &Polled) -> PollKind
    ensures { result ≡ kind_of polled.now }
{
    match polled {
        Polled::Line(_) => PollKind::Line,
        Polled::Torn(_) => PollKind::Torn,
        Polled::TooLong => PollKind::TooLong,
        _ => PollKind::Other,
    }
}

impl<K: Keeper + Drop, I: Source + Drop, W: Sink + Drop> KeptDock<K, I, W> {
    ghost use Rattle.std.specs.Prelude.{◌≡◌, [], false, IfOk};
    ghost use Rattle.basics.specs.Told.{RoseIf};
    ghost use Rattle.basics.specs.declared.limits.TheConstants.{LONGEST_LINE};

    /// A dock of which no store is open, whose loads begin at this moment, in milliseconds since 1970.
    pub fn new(alloc: Global, moment: u64, keeper: K, source: I, sink: W) -> Result<Self, NoMemory>
        ensures { IfOk result (λ dock. dock ≡ record { alloc = alloc; moment = moment; keeper = keeper; input = record { unread = record { limit = LONGEST_LINE; bytes = [] }; held = []; left = I.left source; is_over = false; faults = I.faults source }; output = record { bytes = W.bytes sink; faults = W.faults sink; is_broken = false; part = 0 }; tally = record { read_faults = 0; store_faults = 0; write_faults = 0; quiet = 0; opens = 0 }; poll = PollKind.Other; side_marks = []; rows_read = 0 }) }
    {
        Ok(KeptDock {
            alloc,
            moment,
            keeper,
            input: InputLines::new(alloc, source)?,
            output: OutputLines::new(alloc, sink),
            tally: DockTally {
                read_faults: 0,
                store_faults: 0,
                write_faults: 0,
                quiet: 0,
                opens: 0,
            },
            poll: PollKind::Other,
            side_marks: Sequence::new(alloc),
            rows_read: 0,
        })
    }

    // Counts a fault of the store where it is a failure.
    fn count_fault(&mut self, fault: Fault) -> Fault
        ensures result { result ≡ fault }
        ensures risen { RoseIf (fault ≡ Fault.Failed) self.old.tally.store_faults self.new.tally.store_faults }
        ensures others { self.new ≡ record (self.old) { tally = record (self.old.tally) { store_faults = self.new.tally.store_faults } } }
    {
        if fault == Fault::Failed {
            self.tally.store_faults = self.tally.store_faults.saturating_add(1);
        }
        fault
    }
}

impl<K: Keeper + Drop, I: Source + Drop, W: Sink + Drop> Dock for KeptDock<K, I, W> {
    ghost use Rattle.std.specs.Prelude.{None, Some};

    ghost seen = { λ dock. record { trace = None; counts = dock.tally; face = record { poll = dock.poll; side_marks = dock.side_marks; hand = None; moment = Some dock.moment }; rows_read = dock.rows_read } };

    fn open_store(&mut self, name: &str) -> Result<(), Fault> {
        match open_store(&mut self.keeper, name) {
            Ok(()) => {
                self.tally.opens = self.tally.opens.saturating_add(1);
                Ok(())
            }
            Err(fault) => Err(self.count_fault(fault)),
        }
    }

    fn poll_line(&mut self) -> Polled {
        let polled = self.input.poll();
        self.poll = kind_of_poll(&polled);
        match &polled {
            Polled::NotYet => self.tally.quiet = self.tally.quiet.saturating_add(1),
            Polled::Failed => self.tally.read_faults = self.tally.read_faults.saturating_add(1),
            _ => {}
        }
        polled
    }

    fn read_marks(&mut self, alloc: Global, streams: &StreamIdList) -> Result<MarksList, Fault> {
        match read_marks(&mut self.keeper, alloc, streams) {
            Ok(marks) => Ok(marks),
            Err(fault) => Err(self.count_fault(fault)),
        }
    }

    fn open_load(&mut self, plan: &LoadPlan) -> Result<Load, Fault> {
        match open_load(&mut self.keeper, plan, self.moment) {
            Ok(load) => {
                self.side_marks = load.side_marks;
                self.poll = PollKind::Other;
                Ok(Load {
                    load: load.load,
                    moment: self.moment,
                })
            }
            Err(fault) => Err(self.count_fault(fault)),
        }
    }

    fn commit(&mut self, stream: StreamNo, rows: &RawRowList) -> Result<(), Fault> {
        match self.keeper.commit(stream, rows) {
            Ok(()) => Ok(()),
            Err(fault) => Err(self.count_fault(fault)),
        }
    }

    fn emit(&mut self, line: &[u8]) -> Result<(), Fault> {
        match self.output.emit(line) {
            Err(Fault::Failed) => {
                self.tally.write_faults = self.tally.write_faults.saturating_add(1);
                Err(Fault::Failed)
            }
            written => written,
        }
    }

    fn read_unmerged(
        &mut self,
        alloc: Global,
        stream: StreamNo,
        most: u32,
    ) -> Result<Unmerged, Fault> {
        let mark = *self.side_marks.at(stream as usize);
        match read_unmerged(&mut self.keeper, alloc, stream, mark, most) {
            Ok(page) => {
                self.rows_read = self.rows_read.saturating_add(page.rows.len() as u64);
                Ok(page)
            }
            Err(fault) => Err(self.count_fault(fault)),
        }
    }

    fn read_winner(
        &mut self,
        alloc: Global,
        stream: StreamNo,
        key: &[u8],
    ) -> Result<Option<RawRow>, Fault> {
        match self.keeper.winner(alloc, stream, key) {
            Ok(winner) => {
                if winner.is_some() {
                    self.rows_read = self.rows_read.saturating_add(1);
                }
                Ok(winner)
            }
            Err(fault) => Err(self.count_fault(fault)),
        }
    }

    fn merge(&mut self, stream: StreamNo, winners: &RawRowList, mark: u64) -> Result<(), Fault> {
        match self.keeper.merge(stream, winners, mark) {
            Ok(()) => {
                self.side_marks.set(stream as usize, mark);
                Ok(())
            }
            Err(fault) => Err(self.count_fault(fault)),
        }
    }

    fn show(&mut self, stream: StreamNo) -> Result<(), Fault> {
        match self.keeper.show(stream) {
            Ok(()) => Ok(()),
            Err(fault) => Err(self.count_fault(fault)),
        }
    }

    // A poll waits for bytes itself.
    fn wait(&mut self) {}

    fn counts(&self) -> DockCounts {
        DockCounts {
            read_faults: self.tally.read_faults,
            store_faults: self.tally.store_faults,
            write_faults: self.tally.write_faults,
            quiet: self.tally.quiet,
        }
    }
}
