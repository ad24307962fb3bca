// The lines of a source, as an attempt reads them.
ghost use Rattle.std.specs.Prelude.{◌≡◌, ℕ, List, None, Result, IfErr, IfSome, IsSome, OnOk};
ghost use Rattle.basics.specs.Told.{RoseIf};
ghost use Rattle.outside.specs.Status.{number_of};
ghost use Rattle.outside.specs.Feed.{
  FeedSeen,
  Left,
  AnswersAgain,
  Begins,
  GivesNext,
  RefusesTexts,
  StartsAlike,
  anything,
  ended_with,
};

use crate::{Exit, Status};
use basics::Bytes;
use std::alloc::Global;

/// A source of lines that is begun with a catalog and saved states, and then gives its lines one by one.
///
/// A call changes only what its clauses name. What a feed may give is a relation: each call narrows it, so whatever was
/// given and ended is what the feed could be begun to give, and what was given of it so far is its front. A source that
/// tells nothing says that it may give anything. A feed that has ended, with all its lines given or with a refusal,
/// answers the same until the next `begin`, which starts it anew. Beside the end that a feed may give there are two
/// answers: want of memory in `next_line`, which leaves the feed as it was, so that it may be asked again; and
/// `RowFault`, which comes only where the count of faults rose, and ends the feed. The count never falls, stays in
/// a call that does not answer so, and ends at the largest `u64`.
pub trait Feed {
    ghost use Rattle.outside.specs.declared.status.Status.{Status};

    /// How the feed ended, and the count of faults.
    ghost seen: { Self → FeedSeen };

    /// What the feed may still give.
    ghost MayGive: { Self → Left → Type 0 };

    /// What a catalog and an array of states may lead to: what the feed may give then, or why it is refused.
    ghost MayBegin: { Self → List ℕ → List ℕ → Result Left Status → Type 0 };

    /// Begins anew with the text of a configured catalog and an array of saved states. A feed that refuses them, also
    /// for want of memory, has ended so.
    fn begin(&mut self, alloc: Global, catalog: &[u8], states: &[u8]) -> Result<(), Status>
        ensures ok { OnOk result ((seen self.new).ended ≡ None) }
        ensures begins { OnOk result (Begins (MayBegin self.old) catalog.now states.now (MayGive self.new)) }
        ensures open { OnOk result (MayGive self.new anything) }
        ensures refused { IfErr result (λ why. seen self.new ≡ record (ended_with why (seen self.old)) { faults = (seen self.new).faults }) }
        ensures causes { IfErr result (RefusesTexts (MayBegin self.old) catalog.now states.now) }
        ensures no_refusal { ¬ (result ≡ Err Status.Ok) }
        ensures starts { StartsAlike (MayBegin self.old) (MayBegin self.new) }
        ensures faults { RoseIf (result ≡ Err Status.RowFault) (seen self.old).faults (seen self.new).faults }
        ensures stays { ¬ (result ≡ Err Status.RowFault) → (seen self.new).faults ≡ (seen self.old).faults };

    /// The next line, without its newline; `None` where all were given.
    fn next_line(&mut self, alloc: Global) -> Result<Option<Bytes>, Status>
        ensures again { IfSome (seen self.old).ended (λ why. AnswersAgain result why (seen self.old) (seen self.new)) }
        ensures next { (seen self.old).ended ≡ None → GivesNext result (MayGive self.old) (MayGive self.new) (seen self.old) (seen self.new) }
        ensures open { (seen self.new).ended ≡ None → MayGive self.new anything }
        ensures starts { StartsAlike (MayBegin self.old) (MayBegin self.new) };

    /// How the feed ended, as a child's end: the number of its status.
    fn exit(&self) -> Exit
        requires { IsSome (seen self.now).ended }
        ensures { IfSome (seen self.now).ended (λ why. result ≡ Exit.Code (number_of why)) };
}
