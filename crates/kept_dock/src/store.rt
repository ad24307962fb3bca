// The answers of a keeper that are tested, each with what holds of it whatever the keeper is.
ghost use Rattle.std.specs.Prelude.{◌≡◌, [], IfOk, IsErrOf, length};
ghost use Rattle.outside.specs.Dock.{HasStreams, IsPage};

use crate::page::{are_places, is_page};
use crate::{Keeper, KeptLoad};
use outside::{Fault, LoadPlan, MarksList, StreamIdList, StreamNo, Unmerged};
use std::alloc::Global;

/// Opens the store of that name, or makes it; the empty name is none.
pub fn open_store<K: Keeper>(keeper: &mut K, name: &str) -> Result<(), Fault>
    ensures { name.now ≡ [] → IsErrOf result Fault.Failed }
{
    if name.is_empty() {
        return Err(Fault::Failed);
    }
    keeper.open(name)
}

/// The marks of these streams.
pub fn read_marks<K: Keeper>(
    keeper: &mut K,
    alloc: Global,
    streams: &StreamIdList,
) -> Result<MarksList, Fault>
    ensures { IfOk result (λ marks. length marks ≡ length streams.now) }
{
    let marks = keeper.marks(alloc, streams)?;
    if marks.len() == streams.len() {
        Ok(marks)
    } else {
        Err(Fault::Failed)
    }
}

/// Opens a load.
pub fn open_load<K: Keeper>(keeper: &mut K, plan: &LoadPlan, moment: u64) -> Result<KeptLoad, Fault>
    ensures { IfOk result (λ load. HasStreams plan.now load.side_marks) }
{
    let load = keeper.open_load(plan, moment)?;
    if load.side_marks.len() == plan.len() && are_places(load.side_marks.as_slice()) {
        Ok(load)
    } else {
        Err(Fault::Failed)
    }
}

/// The next rows behind a mark.
pub fn read_unmerged<K: Keeper>(
    keeper: &mut K,
    alloc: Global,
    stream: StreamNo,
    mark: u64,
    most: u32,
) -> Result<Unmerged, Fault>
    ensures { IfOk result (IsPage mark most) }
{
    let page = keeper.unmerged(alloc, stream, most)?;
    if is_page(&page, mark, most) {
        Ok(page)
    } else {
        Err(Fault::Failed)
    }
}
