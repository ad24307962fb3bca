// A desk in memory.
ghost use Rattle.std.specs.Prelude.{◌≡◌, Some, IsTrue, ◌↔◌, Contains};
ghost use Rattle.std.specs.Option.{option_copied};
ghost use Rattle.outside_mem.specs.MemDesk.{text_named};

use outside::{Bytes, BytesList, Desk, FailList, Fault, Name, NoMemory, Sequence};
use std::alloc::Global;
use std::marker::Model;

/// A text with the name that it is asked for by.
#[derive(Debug, Drop)]
pub struct NamedText {
    pub name: Name,
    pub text: Bytes,
}

/// Texts by name; of two with one name the first counts.
pub type NamedTextList = Sequence<NamedText>;

/// A desk that keeps its texts and the lines said, and tells both. Of its calls, counted from 1, those whose numbers
/// it was given fail. A call that finds no memory counts as a call, and as no fault.
#[derive(Debug, Drop)]
pub struct MemDesk {
    alloc: Global,
    texts: NamedTextList,
    fails: FailList,
    said: BytesList,
    calls: u64,
    read_faults: u64,
    say_faults: u64,
}

impl Model for MemDesk {
    ghost use Rattle.outside_mem.specs.MemDesk.{DeskState};

    ghost Value = { DeskState };

    ghost view = { λ desk. record { texts = desk.texts; fails = desk.fails; said = desk.said; calls = desk.calls; read_faults = desk.read_faults; say_faults = desk.say_faults } };
}

// The text of this name.
fn find<'a>(texts: &'a [NamedText], name: &str) -> Option<&'a Bytes>
    ensures { option_copied result ≡ text_named texts.now name.now }
{
    for entry in texts {
        if entry.name.as_str() == name {
            return Some(&entry.text);
        }
    }
    None
}

impl MemDesk {
    ghost use Rattle.std.specs.Prelude.{⊤};
    ghost use Rattle.basics.specs.Told.{RoseIf};
    ghost use Rattle.outside_mem.specs.MemDesk.{begun, DeskState, one_more};

    /// A desk with these texts, which has said nothing.
    pub fn new(alloc: Global, texts: NamedTextList, fails: FailList) -> Self
        ensures { result ≡ begun texts fails }
    {
        MemDesk {
            alloc,
            texts,
            fails,
            said: BytesList::new(alloc),
            calls: 0,
            read_faults: 0,
            say_faults: 0,
        }
    }

    /// The lines said, in order.
    pub fn said(&self) -> &BytesList
        ensures { result.now ≡ self.now.said }
    {
        &self.said
    }

    // Counts a call, and tells whether it is to fail.
    fn is_failing(&mut self) -> bool
        ensures fails { IsTrue result ↔ Contains self.old.fails (one_more self.old.calls) }
        ensures counted { self.new ≡ record (self.old) { calls = one_more self.old.calls } }
    {
        self.calls = self.calls.saturating_add(1);
        self.fails.as_slice().contains(&self.calls)
    }

    // Counts a line that could not be said.
    fn count_say_fault(&mut self)
        ensures counted { self.new ≡ record (self.old) { say_faults = one_more self.old.say_faults } }
        ensures rose { RoseIf ⊤ self.old.say_faults self.new.say_faults }
    {
        self.say_faults = self.say_faults.saturating_add(1);
    }
}

impl Desk for MemDesk {
    ghost use Rattle.std.specs.Prelude.{Contains, IfOk, OnOk, OnErr, IsErrOf, ◌++◌, ◌∷◌, []};
    ghost use Rattle.basics.specs.Told.{RoseIf};
    ghost use Rattle.outside.specs.Desk.{SaidLines, SaidFront};
    ghost use Rattle.outside.specs.FaultCounts.{StaysUnlessFailed};
    ghost use Rattle.outside_mem.specs.MemDesk.{seen_of, one_more, fault_after, ReadsText, FailsToRead};

    ghost seen = { seen_of };

    // `Failed` comes exactly where the call is to fail, or no text has the name.
    fn read_text(&mut self, alloc: Global, name: &str) -> Result<Bytes, Fault>
        ensures read { IfOk result (ReadsText self.old name.now) }
        ensures failed { IsErrOf result Fault.Failed → FailsToRead self.old name.now }
        ensures faults { RoseIf (IsErrOf result Fault.Failed) self.old.read_faults self.new.read_faults }
        ensures stays { StaysUnlessFailed result self.old.read_faults self.new.read_faults }
        ensures counted { self.new.read_faults ≡ fault_after result self.old.read_faults }
        ensures others { self.new ≡ record (self.old) { calls = one_more self.old.calls; read_faults = self.new.read_faults } }
    {
        let is_failing = self.is_failing();
        match find(self.texts.as_slice(), name) {
            Some(text) if !is_failing => Ok(Bytes::copy_of(alloc, text.as_slice())?),
            _ => {
                self.read_faults = self.read_faults.saturating_add(1);
                Err(Fault::Failed)
            }
        }
    }

    // `Failed` comes exactly where the call is to fail, and then nothing was said.
    fn say(&mut self, line: &[u8]) -> Result<(), Fault>
        ensures ok { OnOk result (SaidLines (line.now ∷ []) (seen_of self.old) (seen_of self.new)) }
        ensures front { SaidFront (IsErrOf result Fault.Failed) (line.now ∷ []) (seen_of self.old) (seen_of self.new) }
        ensures said { OnOk result (¬ Contains self.old.fails (one_more self.old.calls)) }
        ensures unsaid { OnErr result (self.new.said ≡ self.old.said) }
        ensures failed { IsErrOf result Fault.Failed → Contains self.old.fails (one_more self.old.calls) }
        ensures stays { StaysUnlessFailed result self.old.say_faults self.new.say_faults }
        ensures counted { self.new.say_faults ≡ fault_after result self.old.say_faults }
        ensures others { self.new ≡ record (self.old) { calls = one_more self.old.calls; said = self.new.said; say_faults = self.new.say_faults } }
    {
        if self.is_failing() {
            self.count_say_fault();
            return Err(Fault::Failed);
        }
        let copy = Bytes::copy_of(self.alloc, line)?;
        self.said.push(copy)?;
        Ok(())
    }

    // `Failed` comes exactly where the call is to fail. There is nothing to write out.
    fn flush(&mut self) -> Result<(), Fault>
        ensures no_memory { ¬ IsErrOf result Fault.NoMemory }
        ensures flushed { OnOk result (¬ Contains self.old.fails (one_more self.old.calls)) }
        ensures failed { IsErrOf result Fault.Failed → Contains self.old.fails (one_more self.old.calls) }
        ensures faults { RoseIf (IsErrOf result Fault.Failed) self.old.say_faults self.new.say_faults }
        ensures stays { StaysUnlessFailed result self.old.say_faults self.new.say_faults }
        ensures counted { self.new.say_faults ≡ fault_after result self.old.say_faults }
        ensures others { self.new ≡ record (self.old) { calls = one_more self.old.calls; say_faults = self.new.say_faults } }
    {
        if self.is_failing() {
            self.count_say_fault();
            return Err(Fault::Failed);
        }
        Ok(())
    }
}
