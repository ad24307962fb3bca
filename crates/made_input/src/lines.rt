// The lines of made input.
ghost use Rattle.std.specs.Prelude.{◌≡◌, IfOk};
ghost use Rattle.json_write.specs.Fronts.{IsFrontOf};
ghost use Rattle.made_input.specs.Made.{made_text};

use crate::put::{put_end, put_row};
use basics::{Bytes, NoMemory};
use std::alloc::Global;
use std::marker::Model;

// The bytes of a row's records, or nearly so, and of the last states and the end.
const ROW_BYTES: usize = 200;

const END_BYTES: usize = 600;

/// The lines of so many rows, which are made as they are asked for: none is kept. Contracts see the messages of each row
/// that is left, and the end behind them.
#[derive(Drop)]
pub struct MadeLines {
    rows: u32,
    // How many of them were given.
    given: u32,
    is_over: bool,
}

impl Model for MadeLines {
    ghost use Rattle.std.specs.Prelude.{◌≤◌, List};
    ghost use Rattle.airbyte_message.specs.declared.message.Message.{Message};
    ghost use Rattle.made_input.specs.Parts.{parts_left};

    ghost Value = { List (List Message) };

    ghost view = { λ made. parts_left made.rows made.given made.is_over };

    ghost invariant = { λ made. made.given ≤ made.rows };
}

impl MadeLines {
    ghost use Rattle.std.specs.Prelude.{◌≡◌, IfOk, OnErr};
    ghost use Rattle.made_input.specs.Made.{made_parts};
    ghost use Rattle.made_input.specs.Parts.{Puts};

    /// The lines of so many rows.
    pub fn new(rows: u32) -> Self
        ensures { result ≡ made_parts rows }
    {
        MadeLines {
            rows,
            given: 0,
            is_over: false,
        }
    }

    // Puts the lines of the next row behind a text, or else the end; whether there was one. Where memory is wanting the
    // text has grown by a part of them.
    #[tactic(auto, using(crate::proofs::PartLemmas::one_row, crate::proofs::PartLemmas::no_row))]
    fn put_part(&mut self, text: &mut Bytes) -> Result<bool, NoMemory>
        ensures puts { IfOk result (λ is_part. Puts is_part text.old text.new self.old self.new) }
        ensures err { OnErr result (self.new ≡ self.old) }
        ensures front { IsFrontOf text.old text.new }
    {
        if self.is_over {
            return Ok(false);
        }
        if self.given < self.rows {
            put_row(text, self.rows, self.given)?;
            self.given += 1;
        } else {
            put_end(text)?;
            self.is_over = true;
        }
        Ok(true)
    }

    /// Puts the lines of the next row behind a text, or else the end behind all rows; `false` where nothing is left. For want
    /// of memory all stays as it was.
    pub fn put_next(&mut self, text: &mut Bytes) -> Result<bool, NoMemory>
        ensures puts { IfOk result (λ is_part. Puts is_part text.old text.new self.old self.new) }
        ensures err { OnErr result ((self.new ≡ self.old) × (text.new ≡ text.old)) }
    {
        let before = text.len();
        let put = self.put_part(text);
        if put.is_err() {
            text.truncate(before);
        }
        put
    }
}

/// The lines of so many rows, each with its newline.
#[tactic(auto, using(crate::proofs::PartLemmas::row_given, crate::proofs::PartLemmas::all_given))]
pub fn made_lines(alloc: Global, rows: u32) -> Result<Bytes, NoMemory>
    ensures { IfOk result (λ text. text ≡ made_text rows) }
{
    let room = (rows as usize).saturating_mul(ROW_BYTES);
    let mut text = Bytes::with_capacity(alloc, room.saturating_add(END_BYTES))?;
    for row in 0..rows {
        put_row(&mut text, rows, row)?;
    }
    put_end(&mut text)?;
    Ok(text)
}
