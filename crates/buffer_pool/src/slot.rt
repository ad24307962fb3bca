// Records in a pool, and those that were detached together.
ghost use Rattle.std.specs.Prelude.{◌≡◌};

use basics::{Bytes, StreamNo};
use std::marker::Model;

/// A record in a pool.
#[derive(Debug, Drop)]
pub struct Slot {
    pub seq: u64,
    pub stream: StreamNo,
    pub line: Bytes,
    /// The chain that it is detached in; a record in none stands in its stream's queue.
    pub chain: Option<u64>,
}

/// Records of a stream that were detached together. `restore` and `free` on the pool that made it spend it; until then its
/// records keep their room, and for good where it is let go.
#[derive(Debug, Drop)]
pub struct Chain {
    // The sequence of its first record, which no other chain has.
    front: u64,
}

impl Model for Chain {
    ghost use Rattle.std.specs.Prelude.{ℕ};

    ghost Value = { ℕ };

    ghost view = { λ chain. chain.front };
}

impl Chain {
    // The chain of the records that begin with this one.
    pub(crate) fn new(front: u64) -> Self
        ensures { result ≡ front }
    {
        Chain { front }
    }

    // The sequence of its first record.
    pub(crate) fn front(&self) -> u64
        ensures { result ≡ self.now }
    {
        self.front
    }
}
