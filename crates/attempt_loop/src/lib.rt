//! The attempts of a sync: which ends are retried, up to a limit.
#![tactic(auto)]

ghost use Rattle.std.specs.Prelude.{◌≡◌};
ghost use Rattle.attempt_loop.specs.Attempts.{is_retried as is_retried_end, next_after, no_attempts, one_ended};

use outside::Status;
use std::marker::Model;

/// What follows an attempt.
#[derive(Clone, Copy, Debug, PartialEq, Eq)]
pub enum Next {
    /// The attempt of this number, from 1.
    Again(u32),
    /// Nothing: the sync ends so.
    Stop(Status),
}

/// How many attempts of a sync have ended, and how many there may be.
#[derive(Debug, Drop)]
pub struct AttemptLoop {
    limit: u32,
    ended: u32,
}

impl Model for AttemptLoop {
    ghost use Rattle.attempt_loop.specs.Attempts.{Attempts};

    ghost Value = { Attempts };

    ghost view = { λ attempts. record { limit = attempts.limit; ended = attempts.ended } };
}

// Whether an attempt that ended so may be followed by another: where a child failed, was silent or ended too early, a state did
// not come back, or the link failed. A breach, a fault of a text, of the store or of what is said, and want of memory are final.
fn is_retried(end: Status) -> bool
    ensures { result ≡ is_retried_end end }
{
    match end {
        Status::SourceFailed(_) => true,
        Status::SourceIncomplete { .. } => true,
        Status::Silent { .. } => true,
        Status::DestFailed(_) => true,
        Status::DestUnechoed { .. } => true,
        Status::DestEarly => true,
        Status::LinkFault => true,
        _ => false,
    }
}

impl AttemptLoop {
    /// No attempt has ended, and there may be so many.
    pub fn new(limit: u32) -> Self
        ensures { result ≡ no_attempts limit }
    {
        AttemptLoop { limit, ended: 0 }
    }

    /// An attempt has ended so: what follows. Another one follows exactly where the end is retried and fewer attempts than the
    /// limit have ended.
    pub fn next(&mut self, end: Status) -> Next
        ensures next { result ≡ next_after self.new end }
        ensures ended { self.new ≡ one_ended self.old }
    {
        self.ended = self.ended.saturating_add(1);
        if is_retried(end) && self.ended < self.limit {
            return Next::Again(self.ended + 1);
        }
        Next::Stop(end)
    }
}
