// The rows of a batch.
ghost use Rattle.std.specs.Prelude.{◌≡◌, ◌++◌, List, IfErr, IfOk, IfSome, IfNone, OnOk, option_to_list};
ghost use Rattle.json_fields.specs.Answer.{IsOnly};
ghost use Rattle.airbyte_message.specs.Messages.{IsMessage};
ghost use Rattle.airbyte_message.specs.Views.{message_at};
ghost use Rattle.batch_prep.specs.Contents.{IsContentOf, HasNoContent};
ghost use Rattle.batch_prep.specs.Places.{IsLayout};
ghost use Rattle.outside.specs.declared.event.RawRow.{RawRow};
ghost use Rattle.batch_prep.specs.Items.{AddsRow, AreRows};

use crate::finder::Finder;
use crate::layout::{Layout, layout_of};
use crate::row::{Content, row_of};
use crate::{PrepPlan, Prepared, WorkItem};
use airbyte_message::{Message, MessageReader, MessageView};
use basics::{Bytes, NoMemory};
use outside::{RawRow, RawRowList, SeqLine};
use std::alloc::Global;

// What a row is made of, where a message is a record.
fn content_of<'a>(view: &'a MessageView<'_>) -> Option<Content<'a>>
    ensures some { IfSome result (IsContentOf (message_at view.now)) }
    ensures none { IfNone result (HasNoContent (message_at view.now)) }
{
    match view {
        MessageView::Rec(record) => Some(Content {
            body: record.body,
            emitted_at: record.emitted_at,
            meta: record.meta,
        }),
        MessageView::Owned(Message::Rec(record)) => Some(Content {
            body: record.body.as_slice(),
            emitted_at: record.emitted_at,
            meta: match &record.meta {
                Some(text) => Some(text.as_slice()),
                None => None,
            },
        }),
        MessageView::Owned(_) => None,
    }
}

// The row of a line that is this message, where that is a record.
fn view_row(
    alloc: Global,
    plan: &PrepPlan,
    layout: &Layout,
    finder: &mut Finder,
    line: &SeqLine,
    view: &MessageView<'_>,
) -> Result<Option<RawRow>, NoMemory>
    requires layout { IsLayout plan.now layout.now }
    requires message { IsOnly (IsMessage line.now.line) (message_at view.now) }
    ensures { IfOk result (λ row. (later : List RawRow) → AddsRow plan.now line.now later (option_to_list row ++ later)) }
{
    match content_of(view) {
        Some(content) => {
            let row = row_of(alloc, plan, layout, finder, line.seq, &content)?;
            Ok(Some(row))
        }
        None => Ok(None),
    }
}

// The row of a line, where it is a RECORD message.
fn line_row(
    alloc: Global,
    plan: &PrepPlan,
    layout: &Layout,
    reader: &mut MessageReader,
    finder: &mut Finder,
    line: &SeqLine,
) -> Result<Option<RawRow>, NoMemory>
    requires { IsLayout plan.now layout.now }
    ensures { IfOk result (λ row. (later : List RawRow) → AddsRow plan.now line.now later (option_to_list row ++ later)) }
{
    match reader.read(line.line.as_slice())? {
        Some(view) => view_row(alloc, plan, layout, finder, line, &view),
        None => Ok(None),
    }
}

// Puts a row behind the others, where there is one.
fn keep(rows: &mut RawRowList, row: Option<RawRow>) -> Result<(), NoMemory>
    ensures { OnOk result (rows.new ≡ rows.old ++ option_to_list row) }
{
    match row {
        Some(row) => rows.push(row),
        None => Ok(()),
    }
}

// The rows of a batch's lines.
fn rows_of(alloc: Global, item: &WorkItem) -> Result<RawRowList, NoMemory>
    ensures { IfOk result (AreRows item.now.plan item.now.lines) }
{
    let layout = layout_of(alloc, &item.plan)?;
    let mut reader = MessageReader::new(alloc);
    let mut finder = Finder::new(alloc);
    let mut rows = RawRowList::with_capacity(alloc, item.lines.len())?;
    for line in item.lines.as_slice() {
        let row = line_row(alloc, &item.plan, &layout, &mut reader, &mut finder, line)?;
        keep(&mut rows, row)?;
    }
    Ok(rows)
}

/// The rows of a batch: those of its lines that are RECORD messages, and no others. For want of memory the batch is handed
/// back as it was.
pub fn prepare(alloc: Global, item: WorkItem) -> Result<Prepared, WorkItem>
    ensures item { IfOk result (λ prepared. prepared.item ≡ item) }
    ensures rows { IfOk result (λ prepared. AreRows item.plan item.lines prepared.rows) }
    ensures back { IfErr result (λ back. back ≡ item) }
{
    match rows_of(alloc, &item) {
        Ok(rows) => Ok(Prepared::new(item, rows)),
        Err(NoMemory) => Err(item),
    }
}
