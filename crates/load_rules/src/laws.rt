// The laws of loads, each as the contract of a function that does nothing.
ghost use Rattle.load_rules.specs.Examples.{EchoesAsWorked, EndsAsWorked, RunsAsWorked, StoresAsWorked};
ghost use Rattle.load_rules.specs.Laws.{AttemptsAreSafe, DrainedIsDone, FinishedIsComplete, FrontsAreRuns, FrontsAreSafe, HeldAreUncommitted, HonestAttemptsAdd, LanesCover, NoStateIsLeft, OpeningIsSafe, OrderIsFree, PipedAreTaken, PipesAreHonest, PrefixesFit, RowsAreOwn, RunsAreHonest, RunsAreOrdered, RunsAreSafe, RunsGrow, RunsStaySafe, SafeCommitsFit, SealedInFront, SidesStand, StaysSafe, StoreMergesFit, VisibleIsSeen};

/// Whatever the machine does, its load is safe.
pub fn runs_are_safe()
    ensures { RunsAreSafe }
{}

/// Whatever the machine does and whatever rows it commits, its states are in order, behind their records.
pub fn runs_are_ordered()
    ensures { RunsAreOrdered }
{}

/// A run goes on with further steps as one run.
pub fn runs_grow()
    ensures { RunsGrow }
{}

/// A safe run stays safe by one step more, which commits the rows of its records.
pub fn runs_stay_safe()
    ensures { RunsStaySafe }
{}

/// What fits event by event fits in every prefix.
pub fn prefixes_fit()
    ensures { PrefixesFit }
{}

/// Each prefix of a safe trace is safe.
pub fn fronts_are_safe()
    ensures { FrontsAreSafe }
{}

/// Each prefix of a run of the engine is one.
pub fn fronts_are_runs()
    ensures { FrontsAreRuns }
{}

/// A safe trace stays one where its last load goes on safely.
pub fn stays_safe()
    ensures { StaysSafe }
{}

/// A safe trace stays one where a load is opened.
pub fn opening_is_safe()
    ensures { OpeningIsSafe }
{}

/// What a load holds by its events is what is uncommitted by its acts.
pub fn held_are_uncommitted()
    ensures { HeldAreUncommitted }
{}

/// A run that has drained leaves no state behind.
pub fn no_state_is_left()
    ensures { NoStateIsLeft }
{}

/// A run that has drained has committed and echoed all that it took.
pub fn drained_is_done()
    ensures { DrainedIsDone }
{}

/// Two runs that accept the same and have drained end alike.
pub fn order_is_free()
    ensures { OrderIsFree }
{}

/// Sealed records of a stream stand in front of unsealed ones.
pub fn sealed_in_front()
    ensures { SealedInFront }
{}

/// Where the sequence of a record is committed, its own row is.
pub fn rows_are_own()
    ensures { RowsAreOwn }
{}

/// A line out of the pipe to the destination is taken as one that was given.
pub fn piped_are_taken()
    ensures { PipedAreTaken }
{}

/// Lines through two pipes to a safe destination, perhaps cut where the pipes end, make an honest attempt.
pub fn pipes_are_honest()
    ensures { PipesAreHonest }
{}

/// A lane covers a stream's records where a state of that lane covers them.
pub fn lanes_cover()
    ensures { LanesCover }
{}

/// The merges of a store whose events fit one another fit.
pub fn store_merges_fit()
    ensures { StoreMergesFit }
{}

/// The load's side of each stream stands with what was merged into it.
pub fn sides_stand()
    ensures { SidesStand }
{}

/// What is visible of a table that is done is what is to be seen of all that was committed.
pub fn visible_is_seen()
    ensures { VisibleIsSeen }
{}

/// A commit that keeps a trace safe has the number of its load, and new sequences.
pub fn safe_commits_fit()
    ensures { SafeCommitsFit }
{}

/// Each attempt of a run of the engine is a safe destination by itself.
pub fn attempts_are_safe()
    ensures { AttemptsAreSafe }
{}

/// No load is finished, and incomplete as well.
pub fn finished_is_complete()
    ensures { FinishedIsComplete }
{}

/// The attempts of a run of the engine are honest, where their lines go through pipes.
pub fn runs_are_honest()
    ensures { RunsAreHonest }
{}

/// Honest attempts add honestly, whatever was before.
pub fn honest_attempts_add()
    ensures { HonestAttemptsAdd }
{}

/// Runs of the machine that were worked by hand.
pub fn runs_as_worked()
    ensures { RunsAsWorked }
{}

/// Traces of a store that were worked by hand.
pub fn stores_as_worked()
    ensures { StoresAsWorked }
{}

/// Echoes that were worked by hand.
pub fn echoes_as_worked()
    ensures { EchoesAsWorked }
{}

/// Ends of loads that were worked by hand.
pub fn ends_as_worked()
    ensures { EndsAsWorked }
{}
