// A sink in memory.
ghost use Rattle.std.specs.Prelude.{◌≡◌};

use crate::call_count::CallCount;
use outside::{Bytes, FailList, Fault, Sink};
use std::alloc::Global;
use std::marker::Model;

/// A sink that keeps the bytes that it takes, and tells them. Of its calls, counted from 1, those whose numbers it was
/// given fail, and take nothing; every other takes the whole piece, or finds no memory and takes nothing.
#[derive(Debug, Drop)]
pub struct MemSink {
    taken: Bytes,
    calls: CallCount,
    faults: u64,
}

impl Model for MemSink {
    ghost use Rattle.outside_mem.specs.Streams.{SinkState};

    ghost Value = { SinkState };

    ghost view = { λ sink. record { bytes = sink.taken; calls = sink.calls; faults = sink.faults } };
}

impl MemSink {
    ghost use Rattle.std.specs.Prelude.{◌≡◌};
    ghost use Rattle.outside_mem.specs.Streams.{first_sink};

    /// A sink that has taken nothing yet. It takes no memory until it grows.
    pub fn new(alloc: Global, fails: FailList) -> Self
        ensures { result ≡ first_sink fails }
    {
        MemSink {
            taken: Bytes::new(alloc),
            calls: CallCount::new(fails),
            faults: 0,
        }
    }

    /// The bytes that were taken, in order.
    pub fn bytes(&self) -> &Bytes
        ensures { result.now ≡ self.now.bytes }
    {
        &self.taken
    }
}

impl Sink for MemSink {
    ghost use Rattle.std.specs.Prelude.{◌≡◌, ◌<◌, ◌≤◌, ◌^◌, Some, length, take, Contains, IfOk, IsErrOf, OnOk, OnErr};
    ghost use Rattle.basics.specs.Told.{RoseIf, told_more};
    ghost use Rattle.outside.specs.ByteStreams.{WriteFails};
    ghost use Rattle.outside_mem.specs.Calls.{next_call};
    ghost use Rattle.outside_mem.specs.Streams.{TakesPiece, sink_called, sink_failed};

    ghost bytes = { λ sink. Some sink.bytes };

    ghost faults = { λ sink. sink.faults };

    // `Failed` comes exactly where the call is to fail.
    fn write(&mut self, piece: &[u8]) -> Result<u32, Fault>
        requires { length piece.now < 2 ^ 32 }
        ensures within { IfOk result (λ count. count ≤ length piece.now) }
        ensures taken { IfOk result (λ count. Some self.new.bytes ≡ told_more (take count piece.now) (Some self.old.bytes)) }
        ensures kept { OnErr result (Some self.new.bytes ≡ Some self.old.bytes) }
        ensures faults { RoseIf (WriteFails result piece.now) self.old.faults self.new.faults }
        ensures stays { ¬ WriteFails result piece.now → self.new.faults ≡ self.old.faults }
        ensures takes { IfOk result (TakesPiece self.old piece.now self.new) }
        ensures passes { OnOk result (¬ Contains self.old.calls.fails (next_call self.old.calls)) }
        ensures fails { IsErrOf result Fault.Failed → Contains self.old.calls.fails (next_call self.old.calls) }
        ensures failed { IsErrOf result Fault.Failed → self.new ≡ sink_failed self.old }
        ensures no_memory { IsErrOf result Fault.NoMemory → self.new ≡ sink_called self.old }
    {
        if self.calls.is_failing() {
            self.faults = self.faults.saturating_add(1);
            return Err(Fault::Failed);
        }
        self.taken.extend(piece)?;
        Ok(piece.len() as u32)
    }
}
