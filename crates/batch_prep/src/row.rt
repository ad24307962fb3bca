// The row of a record.
ghost use Rattle.std.specs.Prelude.{◌≡◌, ℕ, List, IfOk, IfSome, IfNone};
ghost use Rattle.airbyte_message.specs.declared.message.RecordMsg.{RecordMsg};
ghost use Rattle.column_types.specs.Rows.{IsRow};
ghost use Rattle.batch_prep.specs.Places.{IsLayout};
ghost use Rattle.batch_prep.specs.Contents.{content_parts};

use crate::PrepPlan;
use crate::cells::columns_text;
use crate::changes::changes_with;
use crate::finder::Finder;
use crate::ids::raw_id;
use crate::key::{cursor_text, key_text};
use crate::layout::Layout;
use basics::{Bytes, NoMemory};
use outside::RawRow;
use std::alloc::Global;

/// What a row is made of in its record, in place.
#[derive(Clone, Copy, Drop)]
pub struct Content<'a> {
    pub body: &'a [u8],
    pub emitted_at: u64,
    pub meta: Option<&'a [u8]>,
}

/// The row of a record.
pub fn row_of(
    alloc: Global,
    plan: &PrepPlan,
    layout: &Layout,
    finder: &mut Finder,
    seq: u64,
    content: &Content<'_>,
) -> Result<RawRow, NoMemory>
    requires { IsLayout plan.now layout.now }
    ensures { IfOk result (IsRow (content_parts plan.now seq content.now)) }
{
    finder.cut(alloc, layout, content.body)?;
    let mut changes = changes_with(alloc, content.meta)?;
    let columns = columns_text(alloc, plan, layout, finder, content.body, &mut changes)?;
    Ok(RawRow {
        load: plan.load,
        seq,
        generation: plan.generation,
        extracted_at: content.emitted_at,
        loaded_at: plan.moment,
        raw_id: raw_id(alloc, plan.load, seq)?,
        key: key_text(alloc, plan, layout, finder, content.body)?,
        cursor: cursor_text(alloc, plan, layout, finder, content.body)?,
        body: Bytes::copy_of(alloc, content.body)?,
        columns,
        meta: changes.closed()?,
    })
}
