// What a source of files says of itself.
ghost use Rattle.std.specs.Prelude.{◌≡◌, ◌++◌, IfOk, OnOk};
ghost use Rattle.json_write.specs.Objects.{object_text};
ghost use Rattle.file_source.specs.Discovered.{column_parts, discover_line, failed_line, file_text, schema_text, spec_line, succeeded_line};

use airbyte_message::{CatalogMsg, ConnectionMsg, Message, SpecMsg};
use basics::{Bytes, BytesList, Name, NoMemory};
use csv_sheet::Sheet;
use json_write::{put_comma, put_key, put_list, put_member, put_string, put_string_member};
use message_writer::write_message;
use std::alloc::Global;

// Puts the object that says each column's type.
fn put_columns(text: &mut Bytes, sheet: &Sheet) -> Result<(), NoMemory>
    ensures { OnOk result (text.new ≡ text.old ++ object_text (column_parts sheet.now.header)) }
{
    text.push(b'{')?;
    for column in 0..sheet.columns() {
        put_comma(text, column == 0)?;
        put_string(text, sheet.name(column))?;
        text.extend(br#":{"type":"string"}"#)?;
    }
    text.push(b'}')
}

// The JSON schema of a file's rows.
fn schema_of(alloc: Global, sheet: &Sheet) -> Result<Bytes, NoMemory>
    ensures { IfOk result (λ schema. schema ≡ schema_text sheet.now.header) }
{
    let mut schema = Bytes::new(alloc);
    put_string_member(&mut schema, b'{', "type", "object")?;
    put_key(&mut schema, b',', "properties")?;
    put_columns(&mut schema, sheet)?;
    schema.push(b'}')?;
    Ok(schema)
}

/// The stream of a file.
pub fn file_text_of(alloc: Global, name: &Name, sheet: &Sheet) -> Result<Bytes, NoMemory>
    ensures { IfOk result (λ text. text ≡ file_text name.now sheet.now.header) }
{
    let schema = schema_of(alloc, sheet)?;
    let mut text = Bytes::new(alloc);
    put_string_member(&mut text, b'{', "name", name.as_str())?;
    put_member(&mut text, b',', "json_schema", schema.as_slice())?;
    put_member(
        &mut text,
        b',',
        "supported_sync_modes",
        b"[\"full_refresh\",\"incremental\"]",
    )?;
    put_member(&mut text, b',', "source_defined_cursor", b"true")?;
    put_member(&mut text, b',', "is_resumable", b"true")?;
    text.push(b'}')?;
    Ok(text)
}

/// The line of `discover`: the streams with these texts.
pub fn discovered(alloc: Global, texts: &BytesList) -> Result<Bytes, NoMemory>
    ensures { IfOk result (λ line. line ≡ discover_line texts.now) }
{
    let mut streams = Bytes::new(alloc);
    put_list(&mut streams, texts)?;
    write_message(alloc, &Message::Catalog(CatalogMsg { streams }))
}

/// The JSON schema of a configuration.
const SPECIFICATION: &str = r#"{"type":"object","required":["files"]}"#;

/// The line of `spec`: what a configuration has to be.
pub fn specified(alloc: Global) -> Result<Bytes, NoMemory>
    ensures { IfOk result (λ line. line ≡ spec_line) }
{
    let specification = Bytes::copy_of(alloc, SPECIFICATION.as_bytes())?;
    write_message(alloc, &Message::Spec(SpecMsg { specification }))
}

/// The line of `check` where a configuration can be used.
pub fn succeeded(alloc: Global) -> Result<Bytes, NoMemory>
    ensures { IfOk result (λ line. line ≡ succeeded_line) }
{
    write_message(
        alloc,
        &Message::Connection(ConnectionMsg {
            succeeded: true,
            text: None,
        }),
    )
}

/// The line of `check` where it cannot, and why.
pub fn failed(alloc: Global, why: &str) -> Result<Bytes, NoMemory>
    ensures { IfOk result (λ line. line ≡ failed_line why.now) }
{
    let text = Some(Name::copy_of(alloc, why)?);
    write_message(
        alloc,
        &Message::Connection(ConnectionMsg {
            succeeded: false,
            text,
        }),
    )
}
