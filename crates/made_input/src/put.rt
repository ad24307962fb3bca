// The lines of made input, put behind a text.
ghost use Rattle.std.specs.Prelude.{◌≡◌, ◌<◌, [], ◌∷◌, ◌++◌, decimal, OnOk};
ghost use Rattle.json_write.specs.Fronts.{IsFrontOf};
ghost use Rattle.message_writer.specs.Written.{written};
ghost use Rattle.made_input.specs.Made.{end_messages, item_body, items, lines_text, record_of, row_messages, row_records, row_states, since_state as since_state_of, state_of, visit_body, visits};

use basics::{Bytes, NoMemory};
use json_write::put_number;

// Behind so many rows come the states.
const STATE_EVERY: u32 = 1000;

// So many items there are.
const ITEMS: u64 = 1000;

const ITEMS_COMPLETE: &[u8] =
    b"{\"type\":\"TRACE\",\"trace\":{\"type\":\"STREAM_STATUS\",\"emitted_at\":0,\"stream_status\":{\"stream_descriptor\":{\"name\":\"items\"},\"status\":\"COMPLETE\"}}}\n";

const VISITS_COMPLETE: &[u8] =
    b"{\"type\":\"TRACE\",\"trace\":{\"type\":\"STREAM_STATUS\",\"emitted_at\":0,\"stream_status\":{\"stream_descriptor\":{\"name\":\"visits\"},\"status\":\"COMPLETE\"}}}\n";

// How many records of each stream stand between the state before and the one behind this row.
fn since_state(row: u32) -> u32
    ensures { result ≡ since_state_of row }
{
    row % STATE_EVERY + 1
}

// Puts a text, and a number behind it.
fn put_numbered(text: &mut Bytes, before: &[u8], number: u64) -> Result<(), NoMemory>
    ensures ok { OnOk result (text.new ≡ text.old ++ (before.now ++ decimal number)) }
    ensures front { IsFrontOf text.old text.new }
{
    text.extend(before)?;
    put_number(text, number)
}

// Puts the record of an item.
fn put_item(text: &mut Bytes, row: u32) -> Result<(), NoMemory>
    ensures ok { OnOk result (text.new ≡ text.old ++ (written (record_of items (item_body row)) ++ 10 ∷ [])) }
    ensures front { IsFrontOf text.old text.new }
{
    let row = u64::from(row);
    put_numbered(
        text,
        br#"{"type":"RECORD","record":{"stream":"items","data":{"id":"#,
        row * 7 % ITEMS,
    )?;
    put_numbered(text, br#","version":"#, row)?;
    text.extend(b"},\"emitted_at\":0}}\n")
}

// Puts the record of a visit.
fn put_visit(text: &mut Bytes, row: u32) -> Result<(), NoMemory>
    ensures ok { OnOk result (text.new ≡ text.old ++ (written (record_of visits (visit_body row)) ++ 10 ∷ [])) }
    ensures front { IsFrontOf text.old text.new }
{
    put_numbered(
        text,
        br#"{"type":"RECORD","record":{"stream":"visits","data":{"version":"#,
        u64::from(row),
    )?;
    text.extend(b"},\"emitted_at\":0}}\n")
}

// Puts the state of the items behind a row.
fn put_item_state(text: &mut Bytes, row: u32) -> Result<(), NoMemory>
    ensures ok { OnOk result (text.new ≡ text.old ++ (written (state_of items row) ++ 10 ∷ [])) }
    ensures front { IsFrontOf text.old text.new }
{
    put_numbered(
        text,
        br#"{"type":"STATE","state":{"type":"STREAM","stream":{"stream_descriptor":{"name":"items"},"stream_state":{"row":"#,
        u64::from(row),
    )?;
    put_numbered(
        text,
        br#"}},"sourceStats":{"recordCount":"#,
        u64::from(since_state(row)),
    )?;
    text.extend(b"}}}\n")
}

// Puts the state of the visits behind a row.
fn put_visit_state(text: &mut Bytes, row: u32) -> Result<(), NoMemory>
    ensures ok { OnOk result (text.new ≡ text.old ++ (written (state_of visits row) ++ 10 ∷ [])) }
    ensures front { IsFrontOf text.old text.new }
{
    put_numbered(
        text,
        br#"{"type":"STATE","state":{"type":"STREAM","stream":{"stream_descriptor":{"name":"visits"},"stream_state":{"row":"#,
        u64::from(row),
    )?;
    put_numbered(
        text,
        br#"}},"sourceStats":{"recordCount":"#,
        u64::from(since_state(row)),
    )?;
    text.extend(b"}}}\n")
}

// Puts the records of a row.
#[tactic(auto, using(crate::proofs::PartLemmas::two_lines))]
fn put_records(text: &mut Bytes, row: u32) -> Result<(), NoMemory>
    ensures ok { OnOk result (text.new ≡ text.old ++ lines_text (row_records row)) }
    ensures front { IsFrontOf text.old text.new }
{
    put_item(text, row)?;
    put_visit(text, row)
}

// Puts the states behind a row.
#[tactic(auto, using(crate::proofs::PartLemmas::two_lines))]
fn put_states(text: &mut Bytes, row: u32) -> Result<(), NoMemory>
    ensures ok { OnOk result (text.new ≡ text.old ++ lines_text (row_states row)) }
    ensures front { IsFrontOf text.old text.new }
{
    put_item_state(text, row)?;
    put_visit_state(text, row)
}

// Puts the lines of a row among so many.
#[tactic(auto, using(crate::proofs::PartLemmas::row_with, crate::proofs::PartLemmas::row_without))]
pub fn put_row(text: &mut Bytes, rows: u32, row: u32) -> Result<(), NoMemory>
    requires { row < rows }
    ensures ok { OnOk result (text.new ≡ text.old ++ lines_text (row_messages rows row)) }
    ensures front { IsFrontOf text.old text.new }
{
    put_records(text, row)?;
    if (row + 1) % STATE_EVERY == 0 || row + 1 == rows {
        put_states(text, row)?;
    }
    Ok(())
}

// Puts the lines behind all rows.
pub fn put_end(text: &mut Bytes) -> Result<(), NoMemory>
    ensures ok { OnOk result (text.new ≡ text.old ++ lines_text end_messages) }
    ensures front { IsFrontOf text.old text.new }
{
    text.extend(ITEMS_COMPLETE)?;
    text.extend(VISITS_COMPLETE)
}
