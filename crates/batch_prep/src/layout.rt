// The names that a plan looks for in each record, each once.
ghost use Rattle.std.specs.Prelude.{◌≡◌, ◌<◌, ℕ, List, length, map, slice_get, take, Some, IfOk, OnOk};
ghost use Rattle.column_types.specs.Columns.{is_instant_path};
ghost use Rattle.batch_prep.specs.Places.{AreKept, AreLabels, AreSlots, AreStarts, IsLayout, IsOptionalStart, IsSlotOf, IsStart};
ghost use Rattle.json_fields.specs.Words.{IsSomeString};

use crate::PrepPlan;
use basics::{Bytes, BytesList, NoMemory, Path, PathList, Sequence};
use column_types::{Columns, is_instant};
use json_fields::string_view;
use json_write::{put_string, texts_read_back};
use name_index::NameIndex;
use std::alloc::Global;

/// Where the value at a path begins: the place of the path's first name, none where the path is empty; and whether the
/// value may be an instant.
#[derive(Clone, Copy)]
pub struct Start {
    pub slot: Option<usize>,
    pub is_instant: bool,
}

/// The names of a plan's columns and the first names of its paths, each once, and the places among them.
#[derive(Drop)]
pub struct Layout {
    pub names: NameIndex,
    /// The text of each name's key, as it is written.
    pub labels: BytesList,
    /// The place of each column's name.
    pub slots: Sequence<usize>,
    pub key: Sequence<Start>,
    pub cursor: Option<Start>,
}

/// The layout of a plan.
pub fn layout_of(alloc: Global, plan: &PrepPlan) -> Result<Layout, NoMemory>
    ensures { IfOk result (IsLayout plan.now) }
{
    let mut names = NameIndex::new(alloc);
    let slots = column_slots(alloc, &mut names, &plan.columns)?;
    let key = starts_of(alloc, &mut names, &plan.columns, &plan.key)?;
    let cursor = optional_start(alloc, &mut names, &plan.columns, &plan.cursor)?;
    let labels = labels_of(alloc, &names)?;
    Ok(Layout {
        names,
        labels,
        slots,
        key,
        cursor,
    })
}

// The places of the columns' names.
fn column_slots(
    alloc: Global,
    names: &mut NameIndex,
    columns: &Columns,
) -> Result<Sequence<usize>, NoMemory>
    ensures slots { IfOk result (λ slots. AreSlots names.new columns.now slots) }
    ensures kept { OnOk result (AreKept names.old names.new) }
{
    let mut slots = Sequence::with_capacity(alloc, columns.len())?;
    for column in columns.as_slice() {
        let slot = names.add(alloc, column.name.as_str())?;
        slots.push(slot)?;
    }
    Ok(slots)
}

// Where a path begins.
fn start_of(
    alloc: Global,
    names: &mut NameIndex,
    columns: &Columns,
    path: &Path,
) -> Result<Start, NoMemory>
    ensures start { IfOk result (IsStart names.new columns.now path.now) }
    ensures kept { OnOk result (AreKept names.old names.new) }
{
    let is_instant = is_instant(columns, path);
    let slot = match path.as_slice().first() {
        Some(name) => Some(names.add(alloc, name.as_str())?),
        None => None,
    };
    Ok(Start { slot, is_instant })
}

// Where several paths begin.
fn starts_of(
    alloc: Global,
    names: &mut NameIndex,
    columns: &Columns,
    paths: &PathList,
) -> Result<Sequence<Start>, NoMemory>
    ensures starts { IfOk result (λ starts. AreStarts names.new columns.now paths.now starts) }
    ensures kept { OnOk result (AreKept names.old names.new) }
{
    let mut starts = Sequence::with_capacity(alloc, paths.len())?;
    for path in paths.as_slice() {
        let start = start_of(alloc, names, columns, path)?;
        starts.push(start)?;
    }
    Ok(starts)
}

// Where a path that may be absent begins.
fn optional_start(
    alloc: Global,
    names: &mut NameIndex,
    columns: &Columns,
    path: &Option<Path>,
) -> Result<Option<Start>, NoMemory>
    ensures start { IfOk result (IsOptionalStart names.new columns.now path.now) }
    ensures kept { OnOk result (AreKept names.old names.new) }
{
    match path {
        Some(path) => Ok(Some(start_of(alloc, names, columns, path)?)),
        None => Ok(None),
    }
}

// The texts of the names' keys.
fn labels_of(alloc: Global, names: &NameIndex) -> Result<BytesList, NoMemory>
    ensures { IfOk result (AreLabels names.now) }
{
    texts_read_back();
    let mut labels = BytesList::with_capacity(alloc, names.len())?;
    for place in 0..names.len() {
        let mut label = Bytes::new(alloc);
        put_string(&mut label, names.at(place))?;
        labels.push(label)?;
    }
    Ok(labels)
}

/// The place of the name of a key. It looks at the `next` place first.
pub fn slot_of(
    alloc: Global,
    layout: &Layout,
    key: &[u8],
    next: usize,
) -> Result<Option<usize>, NoMemory>
    requires key { IsSomeString key.now }
    requires labels { AreLabels layout.now.names layout.now.labels }
    ensures { IfOk result (IsSlotOf layout.now.names key.now) }
{
    if next < layout.labels.len() && layout.labels.at(next).as_slice() == key {
        return Ok(Some(next));
    }
    match string_view(alloc, key)? {
        Some(view) => Ok(layout.names.find(view.as_str())),
        None => unreachable!(),
    }
}
