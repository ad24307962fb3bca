// The laws of syncs, each as the contract of a function that does nothing.
ghost use Rattle.sync_rules.specs.Examples.{BreachesAsWorked, CallsAsWorked, GenerationsAsWorked, SyncsAsWorked};
ghost use Rattle.sync_rules.specs.Laws.{CallsJoin, CallsLead, CallsTell, FrontsAreSafe, GivenArePassed, HonestCallsAreSafe, HonestIsSafe, LinesTake, OwedIsPut, OwedWasTaken, OwnEventsTell, SafeIsPlain, SavedReadsBack, SetsTake, StaysSafe, StoreHolds, TakenRise, WaysJoin, WaysKnow, WaysPart};

/// What leads somewhere, and on from there, leads on.
pub fn ways_join()
    ensures { WaysJoin }
{}

/// What leads over two lists leads over the first, and on from there.
pub fn ways_part()
    ensures { WaysPart }
{}

/// Each prefix of a safe sync is one.
pub fn fronts_are_safe()
    ensures { FrontsAreSafe }
{}

/// A safe sync goes on safely by an event that fits.
pub fn stays_safe()
    ensures { StaysSafe }
{}

/// A safe sync is a plain one.
pub fn safe_is_plain()
    ensures { SafeIsPlain }
{}

/// A plain sync is known by what its link adds by itself.
pub fn own_events_tell()
    ensures { OwnEventsTell }
{}

/// The last attempt is known wherever the events lead.
pub fn ways_know()
    ensures { WaysKnow }
{}

/// What is added plainly and honestly is added safely, whatever was before.
pub fn honest_is_safe()
    ensures { HonestIsSafe }
{}

/// What an attempt was given are the first of the lines that are to be given.
pub fn given_are_passed()
    ensures { GivenArePassed }
{}

/// The states that are taken of a lane rise.
pub fn taken_rise()
    ensures { TakenRise }
{}

/// A saved set takes what is owed.
pub fn sets_take()
    ensures { SetsTake }
{}

/// The state store holds the text of the saved set.
pub fn store_holds()
    ensures { StoreHolds }
{}

/// The state store's text reads as the saved set, and as no other.
pub fn saved_reads_back()
    ensures { SavedReadsBack }
{}

/// What is owed is what the last line took that came back.
pub fn owed_was_taken()
    ensures { OwedWasTaken }
{}

/// Whatever line comes back takes one given state, or none.
pub fn lines_take()
    ensures { LinesTake }
{}

/// What a call does leads as a sync does.
pub fn calls_lead()
    ensures { CallsLead }
{}

/// What a call does, and what it does from there on, it does.
pub fn calls_join()
    ensures { CallsJoin }
{}

/// What a call does is known by what its link adds by itself.
pub fn calls_tell()
    ensures { CallsTell }
{}

/// An honest call is safe, whatever was before.
pub fn honest_calls_are_safe()
    ensures { HonestCallsAreSafe }
{}

/// A call saves what a line took that came back, before another comes back or another attempt is started.
pub fn owed_is_put()
    ensures { OwedIsPut }
{}

/// Calls that were worked by hand.
pub fn calls_as_worked()
    ensures { CallsAsWorked }
{}

/// Generations that were worked by hand.
pub fn generations_as_worked()
    ensures { GenerationsAsWorked }
{}

/// Breaches that were worked by hand.
pub fn breaches_as_worked()
    ensures { BreachesAsWorked }
{}

/// Standings of a sync that were worked by hand.
pub fn syncs_as_worked()
    ensures { SyncsAsWorked }
{}
