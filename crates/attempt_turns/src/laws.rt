// The laws of the ways of a worker, each as the contract of a function that does nothing.
ghost use Rattle.attempt_turns.specs.Examples.{WaysAsWorked};
ghost use Rattle.attempt_turns.specs.Laws.{WaysGoOn};

/// A way of a worker is one of a call, and ways go on one another.
pub fn ways_go_on()
    ensures { WaysGoOn }
{}

/// Ways of a worker that were worked by hand.
pub fn ways_as_worked()
    ensures { WaysAsWorked }
{}
