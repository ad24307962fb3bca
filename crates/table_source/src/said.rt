// What a source of tables says of itself.
ghost use Rattle.std.specs.Prelude.{◌≡◌, map, option_map, IfOk};
ghost use Rattle.table_source.specs.Discovered.{discover_line, failed_line, key_paths, name_path, spec_line, succeeded_line, table_text};

use airbyte_message::{CatalogMsg, ConnectionMsg, Message, SpecMsg};
use basics::{Bytes, BytesList, Name, NoMemory, Path};
use json_squeeze::squeeze;
use json_write::{put_list, put_member, put_optional_member, put_string, put_string_member};
use message_writer::write_message;
use std::alloc::Global;
use table_config::{TableConfig, TableEntry};

// A path of one name.
fn name_path_of(alloc: Global, name: &Name) -> Result<Bytes, NoMemory>
    ensures { IfOk result (λ path. path ≡ name_path name.now) }
{
    let mut path = Bytes::new(alloc);
    path.push(b'[')?;
    put_string(&mut path, name.as_str())?;
    path.push(b']')?;
    Ok(path)
}

// The path of a name that may be absent.
fn optional_path_of(alloc: Global, name: &Option<Name>) -> Result<Option<Bytes>, NoMemory>
    ensures { IfOk result (λ path. path ≡ option_map name_path name.now) }
{
    match name {
        Some(name) => Ok(Some(name_path_of(alloc, name)?)),
        None => Ok(None),
    }
}

// The paths of names, each of one name.
fn name_paths_of(alloc: Global, names: &Path) -> Result<BytesList, NoMemory>
    ensures { IfOk result (λ paths. paths ≡ map name_path names.now) }
{
    let mut paths = BytesList::with_capacity(alloc, names.len())?;
    for name in names.as_slice() {
        let path = name_path_of(alloc, name)?;
        paths.push(path)?;
    }
    Ok(paths)
}

// The array of the paths of a key; none where there is no key.
fn key_paths_of(alloc: Global, names: &Path) -> Result<Option<Bytes>, NoMemory>
    ensures { IfOk result (λ key. key ≡ key_paths names.now) }
{
    if names.is_empty() {
        return Ok(None);
    }
    let paths = name_paths_of(alloc, names)?;
    let mut key = Bytes::new(alloc);
    put_list(&mut key, &paths)?;
    Ok(Some(key))
}

// The stream of a table.
fn table_text_of(alloc: Global, entry: &TableEntry) -> Result<Bytes, NoMemory>
    ensures { IfOk result (λ text. text ≡ table_text entry.now) }
{
    let cursor = optional_path_of(alloc, &entry.cursor)?;
    let key = key_paths_of(alloc, &entry.key)?;
    let schema = squeeze(alloc, entry.schema.as_slice())?;
    let mut text = Bytes::new(alloc);
    put_string_member(&mut text, b'{', "name", entry.name.as_str())?;
    put_member(&mut text, b',', "json_schema", schema.as_slice())?;
    put_member(
        &mut text,
        b',',
        "supported_sync_modes",
        br#"["full_refresh","incremental"]"#,
    )?;
    put_member(&mut text, b',', "source_defined_cursor", b"false")?;
    put_optional_member(&mut text, "default_cursor_field", &cursor)?;
    put_optional_member(&mut text, "source_defined_primary_key", &key)?;
    put_member(&mut text, b',', "is_resumable", b"true")?;
    text.push(b'}')?;
    Ok(text)
}

// The streams of tables, in order.
fn table_texts_of(alloc: Global, tables: &[TableEntry]) -> Result<BytesList, NoMemory>
    ensures { IfOk result (λ texts. texts ≡ map table_text tables.now) }
{
    let mut texts = BytesList::with_capacity(alloc, tables.len())?;
    for entry in tables {
        let text = table_text_of(alloc, entry)?;
        texts.push(text)?;
    }
    Ok(texts)
}

/// The line of `discover`: the streams of a configuration.
pub fn discovered(alloc: Global, config: &TableConfig) -> Result<Bytes, NoMemory>
    ensures { IfOk result (λ line. line ≡ discover_line config.now) }
{
    let texts = table_texts_of(alloc, config.tables.as_slice())?;
    let mut streams = Bytes::new(alloc);
    put_list(&mut streams, &texts)?;
    write_message(alloc, &Message::Catalog(CatalogMsg { streams }))
}

/// The JSON schema of a configuration.
const SPECIFICATION: &str = r#"{"type":"object","required":["database","tables"]}"#;

/// The line of `spec`: what a configuration has to be.
pub fn specified(alloc: Global) -> Result<Bytes, NoMemory>
    ensures { IfOk result (λ line. line ≡ spec_line) }
{
    let specification = Bytes::copy_of(alloc, SPECIFICATION.as_bytes())?;
    write_message(alloc, &Message::Spec(SpecMsg { specification }))
}

/// The line of `check` where a configuration can be used.
pub fn succeeded(alloc: Global) -> Result<Bytes, NoMemory>
    ensures { IfOk result (λ line. line ≡ succeeded_line) }
{
    write_message(
        alloc,
        &Message::Connection(ConnectionMsg {
            succeeded: true,
            text: None,
        }),
    )
}

/// The line of `check` where it cannot, and why.
pub fn failed(alloc: Global, why: &str) -> Result<Bytes, NoMemory>
    ensures { IfOk result (λ line. line ≡ failed_line why.now) }
{
    let text = Some(Name::copy_of(alloc, why)?);
    write_message(
        alloc,
        &Message::Connection(ConnectionMsg {
            succeeded: false,
            text,
        }),
    )
}
