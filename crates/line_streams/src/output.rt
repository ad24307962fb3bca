// Lines that go to a sink of bytes.
ghost use Rattle.std.specs.Prelude.{◌≡◌, ◌⊎◌, ◌<◌, ◌≤◌, ◌^◌, length, take, IfOk, IfErr, OnOk, OnErr, IsErrOf};
ghost use Rattle.basics.specs.Told.{told_more, Rose, GrewByFront};
ghost use Rattle.outside.specs.FaultCounts.{StaysUnlessFailed};
ghost use Rattle.line_streams.specs.Output.{IsCutShort};

use outside::{Bytes, Fault, NoMemory, Sink};
use std::alloc::Global;
use std::marker::Model;

const MOST_AT_ONCE: usize = 1_073_741_824;

/// Lines that are written through to a sink, each before its call answers.
#[derive(Drop)]
pub struct OutputLines<W: Sink + Drop> {
    alloc: Global,
    sink: W,
    is_broken: bool,
    part: usize,
}

impl<W: Sink + Drop> Model for OutputLines<W> {
    ghost use Rattle.line_streams.specs.Output.{Output};

    ghost Value = { Output };

    ghost view = { λ output. record { bytes = W.bytes output.sink; faults = W.faults output.sink; is_broken = output.is_broken; part = output.part } };
}

// A text that was not written whole: how many bytes of it stand, and why.
#[derive(Clone, Copy)]
struct CutShort {
    part: usize,
    fault: Fault,
}

// What a failed write comes to, behind so many bytes. Want of memory is answered only where nothing was written.
fn cut_at(part: usize, fault: Fault) -> CutShort
    ensures part { result.part ≡ part }
    ensures failed { result.fault ≡ Fault.Failed → (fault ≡ Fault.Failed) ⊎ (0 < part) }
    ensures no_memory { result.fault ≡ Fault.NoMemory → (fault ≡ Fault.NoMemory) × (part ≡ 0) }
{
    if part == 0 {
        return CutShort { part, fault };
    }
    CutShort {
        part,
        fault: Fault::Failed,
    }
}

// Writes some of the first bytes of a piece.
#[tactic(auto, using(crate::proofs::OutputLemmas::taken_none))]
fn write_some<W: Sink>(sink: &mut W, piece: &[u8]) -> Result<usize, Fault>
    requires some { 0 < length piece.now }
    requires small { length piece.now < 2 ^ 32 }
    ensures some { IfOk result (λ count. 0 < count) }
    ensures within { IfOk result (λ count. count ≤ length piece.now) }
    ensures taken { IfOk result (λ count. W.bytes sink.new ≡ told_more (take count piece.now) (W.bytes sink.old)) }
    ensures kept { OnErr result (W.bytes sink.new ≡ W.bytes sink.old) }
    ensures rose { IsErrOf result Fault.Failed → Rose (W.faults sink.old) (W.faults sink.new) }
    ensures stays { StaysUnlessFailed result (W.faults sink.old) (W.faults sink.new) }
{
    match sink.write(piece) {
        Ok(0) => Err(Fault::Failed),
        Ok(count) => Ok(count as usize),
        Err(fault) => Err(fault),
    }
}

// Writes a text.
#[tactic(auto, using(crate::proofs::OutputLemmas::taken_none, crate::proofs::OutputLemmas::taken_front, crate::proofs::OutputLemmas::taken_all))]
fn write_through<W: Sink>(sink: &mut W, text: &[u8]) -> Result<(), CutShort>
    ensures ok { OnOk result (W.bytes sink.new ≡ told_more text.now (W.bytes sink.old)) }
    ensures stays { OnOk result (W.faults sink.new ≡ W.faults sink.old) }
    ensures front { GrewByFront text.now (W.bytes sink.old) (W.bytes sink.new) }
    ensures failed { IfErr result (λ cut. cut.fault ≡ Fault.Failed → IsCutShort text.now cut.part (W.bytes sink.old) (W.bytes sink.new) (W.faults sink.old) (W.faults sink.new)) }
    ensures no_memory { IfErr result (λ cut. cut.fault ≡ Fault.NoMemory → (W.bytes sink.new ≡ W.bytes sink.old) × (W.faults sink.new ≡ W.faults sink.old)) }
{
    let mut at = 0;
    while at < text.len() {
        let end = text.len().min(at.saturating_add(MOST_AT_ONCE));
        match write_some(sink, &text[at..end]) {
            Ok(count) => at += count,
            Err(fault) => return Err(cut_at(at, fault)),
        }
    }
    Ok(())
}

impl<W: Sink + Drop> OutputLines<W> {
    ghost use Rattle.std.specs.Prelude.{◌≡◌, true, false, IsTrue, IfOk, OnOk, IsErrOf};
    ghost use Rattle.basics.specs.Told.{told_more, GrewByFront};
    ghost use Rattle.line_streams.specs.Output.{with_newline, Breaks};

    /// Nothing was written yet.
    pub fn new(alloc: Global, sink: W) -> Self
        ensures { result ≡ record { bytes = W.bytes sink; faults = W.faults sink; is_broken = false; part = 0 } }
    {
        OutputLines {
            alloc,
            sink,
            is_broken: false,
            part: 0,
        }
    }

    // A line with its newline, so that one write may do.
    fn text_of(&self, line: &[u8]) -> Result<Bytes, NoMemory>
        ensures { IfOk result (λ text. text ≡ with_newline line.now) }
    {
        let mut text = Bytes::with_capacity(self.alloc, line.len() + 1)?;
        text.extend(line)?;
        text.push(b'\n')?;
        Ok(text)
    }

    /// Writes a line and a newline through, however long it is. `Failed` where the sink's count of faults rose, or where
    /// memory was wanting behind a part of the line: then that part stands, and no other line is written.
    pub fn emit(&mut self, line: &[u8]) -> Result<(), Fault>
        ensures ok { OnOk result (self.new ≡ record (self.old) { bytes = told_more (with_newline line.now) self.old.bytes }) }
        ensures front { GrewByFront (with_newline line.now) self.old.bytes self.new.bytes }
        ensures no_memory { IsErrOf result Fault.NoMemory → self.new ≡ self.old }
        ensures failed { IsErrOf result Fault.Failed → self.old.is_broken ≡ false → Breaks line.now self.old self.new }
        ensures broken { IsTrue self.old.is_broken → IsErrOf result Fault.Failed × (self.new ≡ self.old) }
    {
        if self.is_broken {
            return Err(Fault::Failed);
        }
        let text = self.text_of(line)?;
        match write_through(&mut self.sink, text.as_slice()) {
            Ok(()) => Ok(()),
            Err(cut) => {
                if cut.fault == Fault::Failed {
                    self.is_broken = true;
                    self.part = cut.part;
                }
                Err(cut.fault)
            }
        }
    }
}
