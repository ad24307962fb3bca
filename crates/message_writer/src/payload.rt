// What a line tells, but for traces.
ghost use Rattle.std.specs.Prelude.{◌≡◌, ◌++◌, OnOk};
ghost use Rattle.message_writer.specs.Written.{catalog_text, log_text, record_text, spec_text, status_object};

use crate::parts::put_id;
use airbyte_message::{CatalogMsg, ConnectionMsg, LogMsg, RecordMsg, SpecMsg};
use basics::{Bytes, NoMemory};
use json_write::{
    put_member, put_number_member, put_optional_member, put_optional_string, put_string_member,
};

// Puts the `record` of a RECORD line.
pub fn put_record(text: &mut Bytes, content: &RecordMsg) -> Result<(), NoMemory>
    ensures { OnOk result (text.new ≡ text.old ++ record_text content.now) }
{
    put_id(text, "stream", &content.id)?;
    put_member(text, b',', "data", content.body.as_slice())?;
    put_number_member(text, b',', "emitted_at", content.emitted_at)?;
    put_optional_member(text, "meta", &content.meta)?;
    text.push(b'}')?;
    Ok(())
}

// Puts the `log` of a LOG line.
pub fn put_log(text: &mut Bytes, content: &LogMsg) -> Result<(), NoMemory>
    ensures { OnOk result (text.new ≡ text.old ++ log_text content.now) }
{
    put_string_member(text, b'{', "level", content.level.text())?;
    put_string_member(text, b',', "message", content.text.as_str())?;
    text.push(b'}')?;
    Ok(())
}

// Puts the `spec` of a SPEC line.
pub fn put_spec(text: &mut Bytes, content: &SpecMsg) -> Result<(), NoMemory>
    ensures { OnOk result (text.new ≡ text.old ++ spec_text content.now) }
{
    let specification = content.specification.as_slice();
    put_member(text, b'{', "connectionSpecification", specification)?;
    text.push(b'}')?;
    Ok(())
}

// Puts the `connectionStatus` of a CONNECTION_STATUS line.
pub fn put_connection(text: &mut Bytes, content: &ConnectionMsg) -> Result<(), NoMemory>
    ensures { OnOk result (text.new ≡ text.old ++ status_object content.now) }
{
    put_string_member(text, b'{', "status", content.status())?;
    put_optional_string(text, "message", &content.text)?;
    text.push(b'}')?;
    Ok(())
}

// Puts the `catalog` of a CATALOG line.
pub fn put_catalog(text: &mut Bytes, content: &CatalogMsg) -> Result<(), NoMemory>
    ensures { OnOk result (text.new ≡ text.old ++ catalog_text content.now) }
{
    put_member(text, b'{', "streams", content.streams.as_slice())?;
    text.push(b'}')?;
    Ok(())
}
