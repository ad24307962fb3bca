// The lines of a source of bytes.
ghost use Rattle.std.specs.Prelude.{◌≡◌};

use basics::LONGEST_LINE;
use outside::{Fault, NoMemory, Polled, Source};
use piecewise_lines::{Lines, NextLine};
use std::alloc::Global;
use std::marker::Model;

const CHUNK: usize = 65_536;

/// The lines of a source, none longer than the limit on lines.
///
/// A piece between newlines is a line where it is not blank.
/// What was read stays until it is given: an answer of want of memory or a failed read loses nothing.
#[derive(Drop)]
pub struct InputLines<I: Source + Drop> {
    source: I,
    lines: Lines,
    room: Vec<u8>,
    // How many bytes in the front of the room are not fed yet.
    held: usize,
    is_over: bool,
}

impl<I: Source + Drop> Model for InputLines<I> {
    ghost use Rattle.std.specs.Prelude.{◌≡◌, ◌≤◌, [], take, IsTrue, IfSome};
    ghost use Rattle.std.specs.Vec.{vec_len};
    ghost use Rattle.basics.specs.declared.limits.TheConstants.{LONGEST_LINE};
    ghost use Rattle.line_streams.specs.Input.{Input};
    ghost use Rattle.line_streams.specs.declared.input.TheConstants.{CHUNK};

    ghost Value = { Input };

    ghost view = { λ input. record { unread = input.lines; held = take input.held input.room.items; left = I.left input.source; is_over = input.is_over; faults = I.faults input.source } };

    ghost invariant = { λ input. (vec_len input.room ≡ CHUNK) × (input.held ≤ CHUNK) × (input.lines.limit ≡ LONGEST_LINE) × (IsTrue input.is_over → IfSome (I.left input.source) (λ left. left ≡ [])) };
}

impl<I: Source + Drop> InputLines<I> {
    ghost use Rattle.std.specs.Prelude.{◌≡◌, [], false, ◌↔◌, IsTrue, IfOk, OnOk, OnErr, IfSome, IsErrOf};
    ghost use Rattle.basics.specs.Told.{RoseIf};
    ghost use Rattle.basics.specs.declared.limits.TheConstants.{LONGEST_LINE};
    ghost use Rattle.outside.specs.Dock.{IsWithinLimit};
    ghost use Rattle.outside.specs.FaultCounts.{StaysUnlessFailed};
    ghost use Rattle.piecewise_lines.specs.Next.{fed, given_by, IsTorn};
    ghost use Rattle.line_streams.specs.Input.{to_come, LeavesLines, GivesInOrder, HasNoLine, IsSame, IsShort, Answered, Answers, AreRead, HasCause, GoesOnOrCause};

    /// Nothing was read yet.
    pub fn new(alloc: Global, source: I) -> Result<Self, NoMemory>
        ensures value { IfOk result (λ input. input ≡ record { unread = record { limit = LONGEST_LINE; bytes = [] }; held = []; left = I.left source; is_over = false; faults = I.faults source }) }
        ensures to_come { IfOk result (λ input. to_come input ≡ I.left source) }
    {
        Ok(InputLines {
            source,
            lines: Lines::new(alloc, LONGEST_LINE as u64),
            room: vec![in alloc; 0; CHUNK]?,
            held: 0,
            is_over: false,
        })
    }

    // Feeds what was read last.
    fn feed(&mut self) -> Result<(), NoMemory>
        ensures ok { OnOk result (self.new ≡ record (self.old) { unread = fed self.old.unread self.old.held; held = [] }) }
        ensures err { OnErr result (self.new ≡ self.old) }
    {
        self.lines.feed(&self.room[..self.held])?;
        self.held = 0;
        Ok(())
    }

    // What comes next of all that was read.
    #[tactic(auto, using(crate::proofs::InputLemmas::short_next))]
    fn next_line(&mut self) -> Result<NextLine, NoMemory>
        ensures answer { IfOk result (λ given. Answered given (fed self.old.unread self.old.held) self.new) }
        ensures order { IfOk result (λ given. LeavesLines (given_by given) (to_come self.old) (to_come self.new)) }
        ensures torn { IfOk result (λ given. given ≡ NextLine.More → IsTorn self.new.unread) }
        ensures within { IfOk result IsShort }
        ensures err { OnErr result (IsSame (fed self.new.unread self.new.held) (fed self.old.unread self.old.held)) }
        ensures kept { OnErr result (to_come self.new ≡ to_come self.old) }
        ensures others { self.new ≡ record (self.old) { unread = self.new.unread; held = self.new.held } }
    {
        self.feed()?;
        self.lines.next()
    }

    // Reads once.
    fn read(&mut self) -> Result<(), Fault>
        requires held { self.old.held ≡ [] }
        requires going { self.old.is_over ≡ false }
        ensures to_come { to_come self.new ≡ to_come self.old }
        ensures unread { self.new.unread ≡ self.old.unread }
        ensures read { OnOk result (AreRead self.new.held self.old.left self.new.left) }
        ensures err { OnErr result (self.new ≡ record (self.old) { faults = self.new.faults }) }
        ensures faults { RoseIf (IsErrOf result Fault.Failed) self.old.faults self.new.faults }
        ensures stays { StaysUnlessFailed result self.old.faults self.new.faults }
    {
        let count = self.source.read(&mut self.room)?;
        self.held = count as usize;
        self.is_over = count == 0;
        Ok(())
    }

    // What comes behind the last newline.
    #[tactic(auto, using(crate::proofs::CauseLemmas::torn_wants))]
    fn end(&mut self) -> Polled
        requires torn { IsTorn self.old.unread }
        requires held { self.old.held ≡ [] }
        requires over { IsTrue self.old.is_over }
        ensures order { GivesInOrder result (to_come self.old) (to_come self.new) }
        ensures within { IsWithinLimit result }
        ensures end { result ≡ Polled.End → HasNoLine (to_come self.new) }
        ensures cause { Answers result self.old.unread self.new }
        ensures others { self.new ≡ record (self.old) { unread = self.new.unread } }
        ensures no_failure { ¬ result ≡ Polled.Failed }
    {
        match self.lines.end() {
            Some(line) => Polled::Torn(line),
            None => Polled::End,
        }
    }

    // What is to be answered by all that was read; `NotYet` where more has to be read first.
    #[tactic(auto, using(crate::proofs::CauseLemmas::left_answers))]
    fn ready(&mut self) -> Polled
        ensures order { GivesInOrder result (to_come self.old) (to_come self.new) }
        ensures within { IsWithinLimit result }
        ensures end { result ≡ Polled.End → HasNoLine (to_come self.new) }
        ensures cause { Answers result (fed self.old.unread self.old.held) self.new }
        ensures others { self.new ≡ record (self.old) { unread = self.new.unread; held = self.new.held } }
        ensures no_failure { ¬ result ≡ Polled.Failed }
    {
        match self.next_line() {
            Ok(NextLine::Line(line)) => Polled::Line(line),
            Ok(NextLine::TooLong) => Polled::TooLong,
            Ok(NextLine::More) if self.is_over => self.end(),
            Ok(NextLine::More) => Polled::NotYet,
            Err(_) => Polled::NoMemory,
        }
    }

    // Reads once where nothing is to be answered before; `NotYet` where that went well.
    #[tactic(auto, using(crate::proofs::CauseLemmas::read_cause, crate::proofs::CauseLemmas::turn_reads, crate::proofs::CauseLemmas::turn_fails, crate::proofs::CauseLemmas::turn_wants))]
    fn turn(&mut self) -> Polled
        ensures order { GivesInOrder result (to_come self.old) (to_come self.new) }
        ensures within { IsWithinLimit result }
        ensures end { result ≡ Polled.End → HasNoLine (to_come self.new) }
        ensures cause { GoesOnOrCause result self.old self.new }
        ensures faults { RoseIf (result ≡ Polled.Failed) self.old.faults self.new.faults }
        ensures stays { (¬ result ≡ Polled.Failed) → self.new.faults ≡ self.old.faults }
    {
        match self.ready() {
            Polled::NotYet => {}
            polled => return polled,
        }
        match self.read() {
            Ok(()) => Polled::NotYet,
            Err(Fault::Failed) => Polled::Failed,
            Err(Fault::NoMemory) => Polled::NoMemory,
        }
    }

    /// The next line. The source is read until a line has its newline, or the source has ended, or a read fails or wants
    /// memory; it may wait for bytes. A piece that is longer than the limit is `TooLong`, and stays so. What comes
    /// behind the last newline is `Torn`; behind the last line the answer is `End`. `NotYet` comes only after 2^64 - 1
    /// reads that brought no line, so that bytes that come one by one are never taken for silence.
    #[tactic(auto, using(crate::proofs::CauseLemmas::goes_nowhere, crate::proofs::CauseLemmas::goes_further, crate::proofs::CauseLemmas::cause_after, crate::proofs::CauseLemmas::cause_at_last))]
    pub fn poll(&mut self) -> Polled
        ensures order { GivesInOrder result (to_come self.old) (to_come self.new) }
        ensures within { IsWithinLimit result }
        ensures end { result ≡ Polled.End → HasNoLine (to_come self.new) }
        ensures cause { HasCause result self.old self.new }
        ensures faults { RoseIf (result ≡ Polled.Failed) self.old.faults self.new.faults }
        ensures stays { (¬ result ≡ Polled.Failed) → self.new.faults ≡ self.old.faults }
    {
        for _ in 0..u64::MAX {
            match self.turn() {
                Polled::NotYet => {}
                polled => return polled,
            }
        }
        self.ready()
    }
}
