// The texts of a row's key and cursor.
ghost use Rattle.std.specs.Prelude.{◌≡◌, IfOk};
ghost use Rattle.column_types.specs.Columns.{is_instant_path};
ghost use Rattle.column_types.specs.Rows.{IsCursorText, IsKeyText};
ghost use Rattle.column_types.specs.Values.{HasValue};
ghost use Rattle.batch_prep.specs.Places.{AreFound, IsFirst, IsLayout};

use crate::PrepPlan;
use crate::finder::Finder;
use crate::layout::{Layout, Start};
use basics::{Bytes, NoMemory, Path};
use column_types::{value_along, value_of};
use std::alloc::Global;
use value_order::{Value, put_value, value_text};

// The value at a path.
fn value_at(
    alloc: Global,
    layout: &Layout,
    finder: &Finder,
    body: &[u8],
    path: &Path,
    start: Start,
) -> Result<Value, NoMemory>
    requires first { IsFirst layout.now.names path.now start.slot }
    requires found { AreFound body.now layout.now.names finder.now.levels.outer finder.now.places.items }
    ensures { IfOk result (HasValue body.now path.now start.is_instant) }
{
    let Some(slot) = start.slot else {
        return value_of(alloc, body, path, start.is_instant);
    };
    match finder.held(layout, body, slot) {
        Some(held) => value_along(alloc, held, &path.as_slice()[1..], start.is_instant),
        None => Ok(Value::Null),
    }
}

/// The text of a row's key: the text of the value at each of its paths, with a semicolon behind it.
pub fn key_text(
    alloc: Global,
    plan: &PrepPlan,
    layout: &Layout,
    finder: &Finder,
    body: &[u8],
) -> Result<Bytes, NoMemory>
    requires layout { IsLayout plan.now layout.now }
    requires found { AreFound body.now layout.now.names finder.now.levels.outer finder.now.places.items }
    ensures { IfOk result (IsKeyText body.now plan.now.columns plan.now.key) }
{
    let mut text = Vec::new(alloc);
    for (i, path) in plan.key.as_slice().iter().enumerate() {
        let value = value_at(alloc, layout, finder, body, path, *layout.key.at(i))?;
        text = put_value(text, &value)?;
        text.push(b';')?;
    }
    Ok(Bytes::from_vec(text))
}

/// The text of a row's cursor: that of the value at its path, and that of null without one.
pub fn cursor_text(
    alloc: Global,
    plan: &PrepPlan,
    layout: &Layout,
    finder: &Finder,
    body: &[u8],
) -> Result<Bytes, NoMemory>
    requires layout { IsLayout plan.now layout.now }
    requires found { AreFound body.now layout.now.names finder.now.levels.outer finder.now.places.items }
    ensures { IfOk result (IsCursorText body.now plan.now.columns plan.now.cursor) }
{
    let Some(path) = &plan.cursor else {
        return value_text(alloc, &Value::Null);
    };
    match layout.cursor {
        Some(start) => value_text(alloc, &value_at(alloc, layout, finder, body, path, start)?),
        None => unreachable!(),
    }
}
