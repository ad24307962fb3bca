// The laws of retries, each as the contract of a function that does nothing.
ghost use Rattle.replay_rules.specs.Examples.{ReplaysAsWorked};
ghost use Rattle.replay_rules.specs.Laws.{AllAreLatest, CallsStaySound, FrontsAreSound, RowsAreCopies, SavedAreCommitted, SavedAreLatest, SavedRise, SavedStand, SeenAreAbove, DoneAreAbove};

/// A sound trace stays sound by a call of honest attempts of the same source.
pub fn calls_stay_sound()
    ensures { CallsStaySound }
{}

/// Each prefix of a sound trace is sound.
pub fn fronts_are_sound()
    ensures { FrontsAreSound }
{}

/// The states that an attempt's sets take rise within each lane.
pub fn saved_rise()
    ensures { SavedRise }
{}

/// What these states cover stands in the store's tables, in the generation that the sets have.
pub fn saved_stand()
    ensures { SavedStand }
{}

/// Each body before the place of a saved state is committed.
pub fn saved_are_committed()
    ensures { SavedAreCommitted }
{}

/// Every committed row of a configured stream is a copy of a body of the source.
pub fn rows_are_copies()
    ensures { RowsAreCopies }
{}

/// Of each body before a saved state some copy follows every copy of every body before it.
pub fn saved_are_latest()
    ensures { SavedAreLatest }
{}

/// Behind an attempt that ends well it is so for each body of the source.
pub fn all_are_latest()
    ensures { AllAreLatest }
{}

/// What is to be seen of a stream is at least of every floor that it had before.
pub fn seen_are_above()
    ensures { SeenAreAbove }
{}

/// Where a stream's part of a load is done, it is at least of the minimum of the load's plan.
pub fn done_are_above()
    ensures { DoneAreAbove }
{}

/// Attempts of sources that were worked by hand.
pub fn replays_as_worked()
    ensures { ReplaysAsWorked }
{}
