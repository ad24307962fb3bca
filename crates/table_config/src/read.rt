// Reading the configuration of a source of tables.
ghost use Rattle.std.specs.Prelude.{◌≢◌, ◌≡◌, All, Err, IfErr, IfOk, Ok, codes, option_copied};
ghost use Rattle.std.specs.List.{AllZip};
ghost use Rattle.json_scalar.specs.Text.{IsString};
ghost use Rattle.json_span.specs.Members.{text_at};
ghost use Rattle.json_span.specs.Elements.{IsElementOf};
ghost use Rattle.json_fields.specs.Answer.{IsAnswer, IsOnly};
ghost use Rattle.json_fields.specs.Fields.{IsCut};
ghost use Rattle.catalog.specs.Entry.{HasOptionalList, IsPath};
ghost use Rattle.outside.specs.declared.faults.ConfigFault.TheVariants as fault;
ghost use Rattle.table_config.specs.Tables.{firsts};
ghost use Rattle.table_config.specs.Config.{HasParts, HasSchema, IsEntry, IsEvery, IsInRange, IsPart, ReadsConfig};

use crate::config::{DEEPEST_SCHEMA, MOST_EVERY, TableConfig, TableEntry, USUAL_EVERY};
use crate::list::TableEntryList;
use basics::{Bytes, Copies, Name, NoMemory, Path, Sequence};
use json_fields::{cut, cut_list, field, optional, optional_number, optional_text, text_field};
use json_scalar::{text_of, whole_of};
use json_span::{MAX_DEPTH, MemberList, Span};
use outside::ConfigFault;
use std::alloc::Global;

// What a table's members say, before its number is judged.
#[derive(Debug, Drop)]
struct TablePart {
    name: Name,
    schema: Bytes,
    cursor: Option<Name>,
    key: Path,
    // The number as it stands.
    every: Option<Bytes>,
}

// What the members of a configuration say, before any number is judged.
#[derive(Debug, Drop)]
struct ConfigParts {
    database: Name,
    tables: Sequence<TablePart>,
}

// The names that the strings at these places stand for.
fn names_at(alloc: Global, text: &[u8], spans: &[Span]) -> Result<Option<Path>, NoMemory>
    requires { All (IsElementOf text.now) spans.now }
    ensures { IfOk result (IsAnswer (AllZip (λ span name. IsString (text_at text.now span) name) spans.now)) }
{
    let mut names = Path::with_capacity(alloc, spans.len())?;
    for span in spans {
        let Some(name) = text_of(alloc, span.of(text))? else {
            return Ok(None);
        };
        names.push(name)?;
    }
    Ok(Some(names))
}

// The names that an array of strings stands for.
fn names_in(alloc: Global, text: &[u8]) -> Result<Option<Path>, NoMemory>
    ensures { IfOk result (IsAnswer (IsPath text.now)) }
{
    match cut_list(alloc, text, MAX_DEPTH)? {
        Some(spans) => names_at(alloc, text, spans.as_slice()),
        None => Ok(None),
    }
}

// An optional member that is an array of strings; none stand in it where it is absent.
fn key_in(alloc: Global, text: &[u8], members: &MemberList) -> Result<Option<Path>, NoMemory>
    requires { IsCut text.now members.now }
    ensures { IfOk result (IsAnswer (HasOptionalList IsPath text.now (codes "key"))) }
{
    match optional(alloc, text, members, "key")? {
        Some(held) => names_in(alloc, held),
        None => Ok(Some(Path::new(alloc))),
    }
}

// The schema of a table: an object that does not nest too deep.
fn schema_in(alloc: Global, text: &[u8], members: &MemberList) -> Result<Option<Bytes>, NoMemory>
    requires { IsCut text.now members.now }
    ensures { IfOk result (IsAnswer (HasSchema text.now)) }
{
    let Some(held) = field(alloc, text, members, "schema")? else {
        return Ok(None);
    };
    match cut(alloc, held, DEEPEST_SCHEMA)? {
        Some(_members) => Ok(Some(Bytes::copy_of(alloc, held)?)),
        None => Ok(None),
    }
}

// A text that may be absent, copied.
fn copied(alloc: Global, text: Option<&[u8]>) -> Result<Option<Bytes>, NoMemory>
    ensures { IfOk result (λ copy. copy ≡ option_copied text.entry) }
{
    match text {
        Some(text) => Ok(Some(Bytes::copy_of(alloc, text)?)),
        None => Ok(None),
    }
}

// What a table's members say; `None` where one of them has another form.
fn part_of(alloc: Global, text: &[u8]) -> Result<Option<TablePart>, NoMemory>
    ensures { IfOk result (IsAnswer (IsPart text.now)) }
{
    let Some(members) = cut(alloc, text, MAX_DEPTH)? else {
        return Ok(None);
    };
    let Some(name) = text_field(alloc, text, &members, "name")? else {
        return Ok(None);
    };
    let Some(schema) = schema_in(alloc, text, &members)? else {
        return Ok(None);
    };
    let Some(cursor) = optional_text(alloc, text, &members, "cursor")? else {
        return Ok(None);
    };
    let Some(key) = key_in(alloc, text, &members)? else {
        return Ok(None);
    };
    let Some(number) = optional_number(alloc, text, &members, "every")? else {
        return Ok(None);
    };
    let every = copied(alloc, number)?;
    Ok(Some(TablePart {
        name,
        schema,
        cursor,
        key,
        every,
    }))
}

// What the tables at these places say.
fn parts_at(
    alloc: Global,
    list: &[u8],
    spans: &[Span],
) -> Result<Option<Sequence<TablePart>>, NoMemory>
    requires { All (IsElementOf list.now) spans.now }
    ensures { IfOk result (IsAnswer (AllZip (λ span part. IsPart (text_at list.now span) part) spans.now)) }
{
    let mut parts = Sequence::with_capacity(alloc, spans.len())?;
    for span in spans {
        let Some(part) = part_of(alloc, span.of(list))? else {
            return Ok(None);
        };
        parts.push(part)?;
    }
    Ok(Some(parts))
}

// After how many records a state is due; `None` where the number is out of range.
fn every_of(number: &Option<Bytes>) -> Option<u32>
    ensures { IsAnswer (IsEvery number.now) result }
{
    match number {
        Some(text) => every_in_range(text.as_slice()),
        None => Some(USUAL_EVERY),
    }
}

// The number that a text says; `None` where it is out of range.
fn every_in_range(text: &[u8]) -> Option<u32>
    ensures { IsAnswer (IsInRange text.now) result }
{
    let Some(every) = whole_of(text) else {
        return None;
    };
    if every < 1 {
        return None;
    }
    if every > MOST_EVERY {
        return None;
    }
    Some(every as u32)
}

// The table with these members.
fn entry_of(alloc: Global, part: &TablePart) -> Result<Option<TableEntry>, NoMemory>
    ensures { IfOk result (IsAnswer (IsEntry part.now)) }
{
    let Some(every) = every_of(&part.every) else {
        return Ok(None);
    };
    let name = part.name.copy(alloc)?;
    let schema = part.schema.copy(alloc)?;
    let cursor = part.cursor.copy(alloc)?;
    let key = part.key.copy(alloc)?;
    Ok(Some(TableEntry {
        name,
        schema,
        cursor,
        key,
        every,
    }))
}

// The tables with these members.
fn entries_of(alloc: Global, parts: &[TablePart]) -> Result<Option<Sequence<TableEntry>>, NoMemory>
    ensures { IfOk result (IsAnswer (AllZip IsEntry parts.now)) }
{
    let mut entries = Sequence::with_capacity(alloc, parts.len())?;
    for part in parts {
        let Some(entry) = entry_of(alloc, part)? else {
            return Ok(None);
        };
        entries.push(entry)?;
    }
    Ok(Some(entries))
}

// The first table of each name.
fn firsts_of(alloc: Global, entries: Sequence<TableEntry>) -> Result<TableEntryList, NoMemory>
    ensures { IfOk result (λ tables. tables ≡ firsts entries) }
{
    let mut tables = TableEntryList::new(alloc);
    for entry in entries.into_vec() {
        tables = tables.with(alloc, entry)?;
    }
    Ok(tables)
}

// What the members of an object say.
fn parts_of(
    alloc: Global,
    text: &[u8],
    members: &MemberList,
) -> Result<Option<ConfigParts>, NoMemory>
    requires { IsCut text.now members.now }
    ensures { IfOk result (IsAnswer (HasParts text.now)) }
{
    let Some(database) = text_field(alloc, text, members, "database")? else {
        return Ok(None);
    };
    let Some(list) = field(alloc, text, members, "tables")? else {
        return Ok(None);
    };
    let Some(spans) = cut_list(alloc, list, MAX_DEPTH)? else {
        return Ok(None);
    };
    match parts_at(alloc, list, spans.as_slice())? {
        Some(tables) => Ok(Some(ConfigParts { database, tables })),
        None => Ok(None),
    }
}

// What a text reads as.
fn reading_of(alloc: Global, text: &[u8]) -> Result<Result<TableConfig, ConfigFault>, NoMemory>
    ensures { IfOk result (IsOnly (ReadsConfig text.now)) }
{
    let Some(members) = cut(alloc, text, MAX_DEPTH)? else {
        return Ok(Err(ConfigFault::NotJson));
    };
    let Some(parts) = parts_of(alloc, text, &members)? else {
        return Ok(Err(ConfigFault::Missing));
    };
    let Some(entries) = entries_of(alloc, parts.tables.as_slice())? else {
        return Ok(Err(ConfigFault::OutOfRange));
    };
    let tables = firsts_of(alloc, entries)?;
    Ok(Ok(TableConfig {
        database: parts.database,
        tables,
    }))
}

/// Reads the configuration of a source of tables: an object with a text `database` and an array `tables`, each of which has a
/// `name`, a `schema`, and maybe a `cursor`, a `key` and a number `every`. That all members have their forms is judged before any
/// number.
pub fn read_table_config(alloc: Global, text: &[u8]) -> Result<TableConfig, ConfigFault>
    ensures read { IfOk result (λ config. IsOnly (ReadsConfig text.now) (Ok config)) }
    ensures refused { IfErr result (λ why. why ≢ fault.NoMemory → IsOnly (ReadsConfig text.now) (Err why)) }
{
    match reading_of(alloc, text) {
        Ok(reading) => reading,
        Err(NoMemory) => Err(ConfigFault::NoMemory),
    }
}
