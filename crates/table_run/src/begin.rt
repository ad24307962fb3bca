// Beginning a feed, and saying its lines.
ghost use Rattle.std.specs.Prelude.{◌≡◌, ◌≤◌};
ghost use Rattle.outside.specs.Desk.{SaysOnly};
ghost use Rattle.outside.specs.declared.status.Status.TheVariants as status;
ghost use Rattle.table_run.specs.Begun.{SaysBegun};

use outside::{Desk, Feed, Status};
use say_feed::say_feed;
use std::alloc::Global;

/// Begins a feed with a catalog and saved states, says all its lines, and answers how it ended.
pub fn begin_and_say<K: Desk, F: Feed>(
    alloc: Global,
    desk: &mut K,
    feed: &mut F,
    catalog: &[u8],
    states: &[u8],
) -> Status
    ensures says { SaysBegun result (F.MayBegin feed.old catalog.now states.now) (F.seen feed.old).faults (F.seen feed.new).faults (K.seen desk.old) (K.seen desk.new) }
    ensures faults { (F.seen feed.old).faults ≤ (F.seen feed.new).faults }
    ensures only { SaysOnly ⊥ (K.seen desk.old) (K.seen desk.new) }
    ensures stays { ¬ (result ≡ status.WriteFault) → (K.seen desk.new).say_faults ≡ (K.seen desk.old).say_faults }
{
    match feed.begin(alloc, catalog, states) {
        Ok(()) => say_feed(alloc, desk, feed),
        Err(why) => why,
    }
}
