// Streams of bytes.
ghost use Rattle.std.specs.Prelude.{◌≡◌, ◌<◌, ◌≤◌, ◌^◌, ℕ, List, Option, length, take, IfOk, OnErr, IsErrOf};
ghost use Rattle.basics.specs.Told.{RoseIf, told_more};
ghost use Rattle.outside.specs.ByteStreams.{Reads, WriteFails};
ghost use Rattle.outside.specs.FaultCounts.{StaysUnlessFailed};

use crate::Fault;

/// Where bytes come from.
pub trait Source {
    /// The bytes that are still to come, where they are told.
    ghost left: { Self → Option (List ℕ) };

    /// How often a read failed.
    ghost faults: { Self → ℕ };

    /// Reads bytes into the front of the room, and answers how many; 0 is the end. Where the bytes are told, what is
    /// left of the room stays.
    fn read(&mut self, room: &mut [u8]) -> Result<u32, Fault>
        requires some { 0 < length room.old }
        requires small { length room.old < 2 ^ 32 }
        ensures within { IfOk result (λ count. count ≤ length room.old) }
        ensures bytes { Reads result room.old room.new (left self.old) (left self.new) }
        ensures faults { RoseIf (IsErrOf result Fault.Failed) (faults self.old) (faults self.new) }
        ensures stays { StaysUnlessFailed result (faults self.old) (faults self.new) };
}

/// Where bytes go.
pub trait Sink {
    /// The bytes that were taken, in order, where they are told.
    ghost bytes: { Self → Option (List ℕ) };

    /// How often a write failed.
    ghost faults: { Self → ℕ };

    /// Takes the first bytes of a piece, and answers how many. 0 for a piece that is not empty is a fault.
    fn write(&mut self, piece: &[u8]) -> Result<u32, Fault>
        requires { length piece.now < 2 ^ 32 }
        ensures within { IfOk result (λ count. count ≤ length piece.now) }
        ensures taken { IfOk result (λ count. bytes self.new ≡ told_more (take count piece.now) (bytes self.old)) }
        ensures kept { OnErr result (bytes self.new ≡ bytes self.old) }
        ensures faults { RoseIf (WriteFails result piece.now) (faults self.old) (faults self.new) }
        ensures stays { ¬ WriteFails result piece.now → faults self.new ≡ faults self.old };
}
