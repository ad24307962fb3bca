// The columns of a schema.
ghost use Rattle.std.specs.Prelude.{◌≡◌, ◌≢◌, ◌<◌, ◌↔◌, ◌++◌, ◌∷◌, [], ℕ, List, length, slice_get, Some, IfOk, IfSome, IfNone, OnOk, IsTrue, All, ◌&&◌, codes, reverse};
ghost use Rattle.std.specs.List.{list_any};
ghost use Rattle.std.specs.Option.{option_copied};
ghost use Rattle.std.specs.Str.{bytes_eq};
ghost use Rattle.json_fields.specs.Answer.{IsAnswer, IsOnly};
ghost use Rattle.json_span.specs.Members.{IsMemberOf};
ghost use Rattle.json_fields.specs.Fields.{HasField};
ghost use Rattle.column_types.specs.Columns.{AreColumns, IsAddedTo, IsColumnOf, ListsColumns, is_instant_kind, is_instant_path, names_of};

use crate::property::kind_of;
use crate::{Column, ColumnType, Columns};
use basics::{NoMemory, Path};
use json_fields::{cut, field};
use json_span::{MAX_DEPTH, Member, text_of};
use name_index::NameIndex;
use std::alloc::Global;

/// The columns of a schema: the members of its `properties`, in order. A text that is no object, has no object
/// `properties`, or nests deeper than a line can has none.
pub fn columns_of(alloc: Global, schema: &[u8]) -> Result<Columns, NoMemory>
    ensures { IfOk result (AreColumns schema.now) }
{
    match properties(alloc, schema)? {
        Some(held) => columns_in(alloc, schema, held),
        None => Ok(Columns::new(alloc)),
    }
}

// What stands in `properties`.
fn properties<'a>(alloc: Global, schema: &'a [u8]) -> Result<Option<&'a [u8]>, NoMemory>
    ensures { IfOk result (λ found. IsAnswer (HasField schema.now (codes "properties")) (option_copied found)) }
{
    match cut(alloc, schema, MAX_DEPTH)? {
        Some(members) => field(alloc, schema, &members, "properties"),
        None => Ok(None),
    }
}

// The columns of what stands in `properties`.
fn columns_in(alloc: Global, schema: &[u8], held: &[u8]) -> Result<Columns, NoMemory>
    requires { IsOnly (HasField schema.now (codes "properties")) held.now }
    ensures { IfOk result (AreColumns schema.now) }
{
    match cut(alloc, held, MAX_DEPTH)? {
        Some(members) => listed(alloc, held, members.as_slice()),
        None => Ok(Columns::new(alloc)),
    }
}

// The columns of these properties.
fn listed(alloc: Global, text: &[u8], members: &[Member]) -> Result<Columns, NoMemory>
    requires { All (IsMemberOf text.now) members.now }
    ensures { IfOk result (ListsColumns text.now members.now) }
{
    let mut names = NameIndex::new(alloc);
    let mut columns = Vec::new(alloc);
    let mut at = members.len();
    while at > 0 {
        at -= 1;
        let column = column_of(alloc, text, &members[at])?;
        add_new(alloc, &mut names, &mut columns, column)?;
    }
    columns.reverse();
    Ok(Columns::from_vec(columns))
}

// Puts a column behind the others, where none of them has its name. The columns stand from the last on.
fn add_new(
    alloc: Global,
    names: &mut NameIndex,
    columns: &mut Vec<Column>,
    column: Column,
) -> Result<(), NoMemory>
    requires { names.old ≡ names_of columns.old.items }
    ensures names { OnOk result (names.new ≡ names_of columns.new.items) }
    ensures added { OnOk result (IsAddedTo (reverse columns.old.items) column (reverse columns.new.items)) }
{
    match names.find(column.name.as_str()) {
        Some(_) => Ok(()),
        None => {
            names.add(alloc, column.name.as_str())?;
            columns.push(column)?;
            Ok(())
        }
    }
}

// The column of a property.
fn column_of(alloc: Global, text: &[u8], member: &Member) -> Result<Column, NoMemory>
    requires { IsMemberOf text.now member.now }
    ensures { IfOk result (IsColumnOf text.now member.now) }
{
    let kind = kind_of(alloc, member.value.of(text))?;
    match text_of(alloc, member.key.of(text))? {
        Some(name) => Ok(Column { name, kind }),
        None => unreachable!(),
    }
}

/// Whether a path is one name, that of an Instant column.
pub fn is_instant(columns: &Columns, path: &Path) -> bool
    ensures { result ≡ is_instant_path columns.now path.now }
{
    match path.as_slice() {
        [name] => is_instant_name(columns.as_slice(), name.as_str()),
        _ => false,
    }
}

// Whether an Instant column has this name.
fn is_instant_name(columns: &[Column], name: &str) -> bool
    ensures { result ≡ list_any (λ column. bytes_eq column.name name.now && is_instant_kind column.kind) columns.now }
{
    columns.iter().any(|column| column.name.as_str() == name && column.kind == ColumnType::Instant)
}
