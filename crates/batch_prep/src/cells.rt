// The columns of a row.
ghost use Rattle.std.specs.Prelude.{◌≡◌, ◌++◌, ℕ, List, IfOk, IfSome, OnOk};
ghost use Rattle.std.specs.Fmt.{signed_decimal};
ghost use Rattle.std.specs.Option.{option_copied};
ghost use Rattle.json.specs.Print.{quoted};
ghost use Rattle.json_span.specs.Members.{IsValue};
ghost use Rattle.batch_prep.specs.Places.{AreFound, IsLayout};
ghost use Rattle.batch_prep.specs.Written.{AreOpen, HasColumns, PutsCell, told_change};

use crate::PrepPlan;
use crate::changes::Changes;
use crate::finder::Finder;
use crate::layout::Layout;
use basics::{Bytes, NoMemory};
use column_types::{ColumnType, Way, way_of};
use itoa::Buffer;
use json_write::put_comma;
use std::alloc::Global;

// Puts a whole number as a plain decimal.
fn put_whole(text: &mut Bytes, number: i64) -> Result<(), NoMemory>
    ensures { OnOk result (text.new ≡ text.old ++ signed_decimal number) }
{
    let mut buffer = Buffer::new();
    text.extend(buffer.format(number).as_bytes())
}

// Puts what a column of this kind has of what was found, and tells whether a value was nulled.
fn put_cell(text: &mut Bytes, kind: ColumnType, found: Option<&[u8]>) -> Result<bool, NoMemory>
    requires { IfSome found (λ held. IsValue held.now) }
    ensures { IfOk result (PutsCell kind (option_copied found.entry) text.old text.new) }
{
    let Some(value) = found else {
        text.extend(b"null")?;
        return Ok(false);
    };
    match way_of(kind, value) {
        Way::AsItStands => {
            text.extend(value)?;
            Ok(false)
        }
        Way::Whole(number) => {
            put_whole(text, number)?;
            Ok(false)
        }
        Way::Nulled => {
            text.extend(b"null")?;
            Ok(true)
        }
    }
}

// Puts the change of a column's value, where it was nulled.
fn tell(changes: &mut Changes, label: &[u8], nulled: bool) -> Result<(), NoMemory>
    ensures { OnOk result ((items : List (List ℕ)) (name : List ℕ) → label.now ≡ quoted name → AreOpen items changes.old → AreOpen (items ++ told_change name nulled) changes.new) }
{
    if nulled {
        changes.put_nulled(label)
    } else {
        Ok(())
    }
}

/// The columns of a row; the changes of values that were nulled are put behind the others.
pub fn columns_text(
    alloc: Global,
    plan: &PrepPlan,
    layout: &Layout,
    finder: &Finder,
    body: &[u8],
    changes: &mut Changes,
) -> Result<Bytes, NoMemory>
    requires layout { IsLayout plan.now layout.now }
    requires found { AreFound body.now layout.now.names finder.now.levels.outer finder.now.places.items }
    ensures { IfOk result (λ text. (came : List (List ℕ)) → AreOpen came changes.old → HasColumns body.now plan.now.columns came text changes.new) }
{
    let mut text = Bytes::with_capacity(alloc, body.len())?;
    text.push(b'{')?;
    for (i, column) in plan.columns.as_slice().iter().enumerate() {
        let slot = *layout.slots.at(i);
        let label = layout.labels.at(slot).as_slice();
        put_comma(&mut text, i == 0)?;
        text.extend(label)?;
        text.push(b':')?;
        let nulled = put_cell(&mut text, column.kind, finder.held(layout, body, slot))?;
        tell(changes, label, nulled)?;
    }
    text.push(b'}')?;
    Ok(text)
}
