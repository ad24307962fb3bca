// The law of ledgers and attempts, as the contract of a function that does nothing.
ghost use Rattle.ledger_rules.specs.Laws.{LedgersStand};

/// A ledger stands for the events of its attempt: it does so at the beginning and behind each line that it hears, that is given and
/// that comes back. It refuses exactly the lines that are breaches, has those given that are passed on, and a state that comes back
/// takes what it takes in the attempt.
pub fn ledgers_stand()
    ensures { LedgersStand }
{}
