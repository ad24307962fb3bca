// The changes of a row: those that came with the record, and the row's own.
ghost use Rattle.std.specs.Prelude.{◌≡◌, ◌∷◌, ◌++◌, [], ℕ, List, All, Some, codes, map, IfOk, OnOk};
ghost use Rattle.std.specs.Option.{option_copied};
ghost use Rattle.json.specs.Print.{quoted};
ghost use Rattle.json_span.specs.Members.{text_at, IsMemberOf};
ghost use Rattle.json_span.specs.Elements.{IsElementOf};
ghost use Rattle.json_fields.specs.Answer.{IsAnswer, IsOnly};
ghost use Rattle.json_fields.specs.Fields.{HasField};
ghost use Rattle.column_types.specs.Rows.{CameWith, change_text, meta_text};
ghost use Rattle.batch_prep.specs.Written.{AreOpen, HasCome};

use basics::{Bytes, NoMemory};
use json_fields::{cut, cut_list, field};
use json_span::{MAX_DEPTH, Span};
use json_write::{put_comma, put_key, put_member};
use std::alloc::Global;

/// The `meta` of a row, whose array of changes is still open.
#[derive(Drop)]
pub struct Changes {
    pub text: Bytes,
    /// Whether no change stands there yet.
    pub is_first: bool,
}

// The bytes of `{"changes":[]}`.
const NO_CHANGES: usize = 14;

/// No change stands there yet.
pub fn no_changes(alloc: Global) -> Result<Changes, NoMemory>
    ensures { IfOk result (AreOpen []) }
{
    let mut text = Bytes::with_capacity(alloc, NO_CHANGES)?;
    put_key(&mut text, b'{', "changes")?;
    text.push(b'[')?;
    Ok(Changes {
        text,
        is_first: true,
    })
}

impl Changes {
    ghost use Rattle.std.specs.Prelude.{◌≡◌, ◌∷◌, ◌++◌, [], ℕ, List, IfOk, OnOk};
    ghost use Rattle.json.specs.Print.{quoted};
    ghost use Rattle.column_types.specs.Rows.{change_text, meta_text};
    ghost use Rattle.batch_prep.specs.Written.{AreOpen};

    /// Puts a change that has this text.
    pub fn put(&mut self, change: &[u8]) -> Result<(), NoMemory>
        ensures { OnOk result ((items : List (List ℕ)) → AreOpen items self.old → AreOpen (items ++ change.now ∷ []) self.new) }
    {
        put_comma(&mut self.text, self.is_first)?;
        self.text.extend(change)?;
        self.is_first = false;
        Ok(())
    }

    /// Puts the change that the value of a column was nulled. `label` is the column's name as it is written.
    pub fn put_nulled(&mut self, label: &[u8]) -> Result<(), NoMemory>
        ensures { OnOk result ((items : List (List ℕ)) (name : List ℕ) → label.now ≡ quoted name → AreOpen items self.old → AreOpen (items ++ change_text name ∷ []) self.new) }
    {
        put_comma(&mut self.text, self.is_first)?;
        put_member(&mut self.text, b'{', "field", label)?;
        put_member(&mut self.text, b',', "change", b"\"NULLED\"")?;
        put_member(
            &mut self.text,
            b',',
            "reason",
            b"\"DESTINATION_TYPECAST_ERROR\"",
        )?;
        self.text.push(b'}')?;
        self.is_first = false;
        Ok(())
    }

    /// The `meta` of these changes.
    pub fn closed(self) -> Result<Bytes, NoMemory>
        ensures { IfOk result (λ meta. (items : List (List ℕ)) → AreOpen items self → meta ≡ meta_text items) }
    {
        let mut text = self.text;
        text.extend(b"]}")?;
        Ok(text)
    }
}

// The member `changes` of a record's meta.
fn changes_of<'a>(alloc: Global, meta: &'a [u8]) -> Result<Option<&'a [u8]>, NoMemory>
    ensures { IfOk result (λ found. IsAnswer (HasField meta.now (codes "changes")) (option_copied found)) }
{
    match cut(alloc, meta, MAX_DEPTH)? {
        Some(members) => field(alloc, meta, &members, "changes"),
        None => Ok(None),
    }
}

// Puts these elements of an array.
fn put_elements(changes: &mut Changes, list: &[u8], spans: &[Span]) -> Result<(), NoMemory>
    requires parts { All (IsElementOf list.now) spans.now }
    requires open { AreOpen [] changes.old }
    ensures { OnOk result (AreOpen (map (text_at list.now) spans.now) changes.new) }
{
    for span in spans {
        changes.put(span.of(list))?;
    }
    Ok(())
}

// Puts the elements of what stands in `changes`, where that is an array.
fn put_array(alloc: Global, changes: &mut Changes, meta: &[u8], list: &[u8]) -> Result<(), NoMemory>
    requires field { IsOnly (HasField meta.now (codes "changes")) list.now }
    requires open { AreOpen [] changes.old }
    ensures { OnOk result (HasCome (Some meta.now) changes.new) }
{
    match cut_list(alloc, list, MAX_DEPTH)? {
        Some(spans) => put_elements(changes, list, spans.as_slice()),
        None => Ok(()),
    }
}

/// The changes that came with a record.
pub fn changes_with(alloc: Global, meta: Option<&[u8]>) -> Result<Changes, NoMemory>
    ensures { IfOk result (HasCome (option_copied meta.entry)) }
{
    let mut changes = no_changes(alloc)?;
    let Some(text) = meta else {
        return Ok(changes);
    };
    match changes_of(alloc, text)? {
        Some(list) => {
            put_array(alloc, &mut changes, text, list)?;
            Ok(changes)
        }
        None => Ok(changes),
    }
}
