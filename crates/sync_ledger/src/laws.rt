// Laws of ledgers.
ghost use Rattle.sync_ledger.specs.Lists.{ListLaws};
ghost use Rattle.sync_ledger.specs.PendingLists.{NumberLaws, PendingLaws};

/// A law: what is noted of records, statuses and forms is what the lines of the source say that were not refused, whatever was
/// given and came back between them.
pub fn ledger_laws()
    ensures { ListLaws }
{}

/// A law: what is pending in a lane changes only by what is given in it and by what a state of the destination takes of it.
pub fn pending_laws()
    ensures { PendingLaws }
{}

/// A law: in each lane the lines of the states that are pending rise, so the first of them is the first that was given.
pub fn number_laws()
    ensures { NumberLaws }
{}
