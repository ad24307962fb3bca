// A source in memory.
ghost use Rattle.std.specs.Prelude.{◌≡◌, ◌<◌, ◌^◌, ◌++◌, length, take, drop, min, Contains, IfOk, IsErrOf, OnOk, OnErr};

use crate::call_count::CallCount;
use outside::{Bytes, FailList, Fault, Source};
use std::marker::Model;

/// A source that gives bytes which it was given, and tells those that are still to come. Of its calls, counted from 1,
/// those whose numbers it was given fail, and give nothing.
#[derive(Debug, Drop)]
pub struct MemSource {
    bytes: Bytes,
    given: usize,
    calls: CallCount,
    faults: u64,
}

impl Model for MemSource {
    ghost use Rattle.std.specs.Prelude.{◌≤◌, drop, length};
    ghost use Rattle.outside_mem.specs.Streams.{SourceState};

    ghost Value = { SourceState };

    ghost view = { λ source. record { left = drop source.given source.bytes; calls = source.calls; faults = source.faults } };

    ghost invariant = { λ source. source.given ≤ length source.bytes };
}

impl MemSource {
    ghost use Rattle.std.specs.Prelude.{◌≡◌};
    ghost use Rattle.outside_mem.specs.Streams.{first_source};

    /// A source that has given nothing yet.
    pub fn new(bytes: Bytes, fails: FailList) -> Self
        ensures { result ≡ first_source bytes fails }
    {
        MemSource {
            bytes,
            given: 0,
            calls: CallCount::new(fails),
            faults: 0,
        }
    }
}

impl Source for MemSource {
    ghost use Rattle.std.specs.Prelude.{◌≡◌, ◌<◌, ◌≤◌, ◌^◌, Some, length, Contains, IfOk, IsErrOf, OnOk, OnErr};
    ghost use Rattle.basics.specs.Told.{RoseIf};
    ghost use Rattle.outside.specs.ByteStreams.{Reads};
    ghost use Rattle.outside.specs.FaultCounts.{StaysUnlessFailed};
    ghost use Rattle.outside_mem.specs.Calls.{next_call};
    ghost use Rattle.outside_mem.specs.Streams.{GivesBytes, source_failed};

    ghost left = { λ source. Some source.left };

    ghost faults = { λ source. source.faults };

    // `Failed` comes exactly where the call is to fail, and there is no other fault.
    fn read(&mut self, room: &mut [u8]) -> Result<u32, Fault>
        requires some { 0 < length room.old }
        requires small { length room.old < 2 ^ 32 }
        ensures within { IfOk result (λ count. count ≤ length room.old) }
        ensures bytes { Reads result room.old room.new (Some self.old.left) (Some self.new.left) }
        ensures faults { RoseIf (IsErrOf result Fault.Failed) self.old.faults self.new.faults }
        ensures stays { StaysUnlessFailed result self.old.faults self.new.faults }
        ensures gives { IfOk result (GivesBytes self.old room.old room.new self.new) }
        ensures passes { OnOk result (¬ Contains self.old.calls.fails (next_call self.old.calls)) }
        ensures fails { OnErr result (Contains self.old.calls.fails (next_call self.old.calls)) }
        ensures failed { OnErr result (self.new ≡ source_failed self.old) }
        ensures no_memory { ¬ IsErrOf result Fault.NoMemory }
        ensures room { OnErr result (room.new ≡ room.old) }
    {
        if self.calls.is_failing() {
            self.faults = self.faults.saturating_add(1);
            return Err(Fault::Failed);
        }
        let left = &self.bytes.as_slice()[self.given..];
        let count = room.len().min(left.len());
        room[..count].copy_from_slice(&left[..count]);
        self.given += count;
        Ok(count as u32)
    }
}
