// Which calls of an object in memory are to fail.
ghost use Rattle.std.specs.Prelude.{◌≡◌, IsTrue, ◌↔◌, Contains};
ghost use Rattle.outside_mem.specs.Calls.{first_calls, call_made, next_call};

use outside::FailList;
use std::marker::Model;

/// How many calls were made, and the numbers, from 1, of those that are to fail.
#[derive(Debug, Drop)]
pub struct CallCount {
    fails: FailList,
    made: u64,
}

impl Model for CallCount {
    ghost use Rattle.outside_mem.specs.Calls.{Calls};

    ghost Value = { Calls };

    ghost view = { λ count. record { fails = count.fails; made = count.made } };
}

impl CallCount {
    ghost use Rattle.outside_mem.specs.Calls.{first_calls, call_made, next_call};

    /// No call was made yet.
    pub fn new(fails: FailList) -> Self
        ensures { result ≡ first_calls fails }
    {
        CallCount { fails, made: 0 }
    }

    /// Counts a call, and tells whether it is to fail.
    pub fn is_failing(&mut self) -> bool
        ensures fails { IsTrue result ↔ Contains self.old.fails (next_call self.old) }
        ensures counted { self.new ≡ call_made self.old }
    {
        self.made = self.made.saturating_add(1);
        self.fails.as_slice().contains(&self.made)
    }
}
