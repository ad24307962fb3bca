// The lines of a text that are left.
ghost use Rattle.std.specs.Prelude.{◌≡◌};

use basics::{Bytes, NoMemory};
use std::alloc::Global;
use std::marker::Model;
use text_lines::next_line;

/// A place in a text: where it begins, and where what follows begins.
#[derive(Clone, Copy, Debug, PartialEq, Eq)]
pub struct Place {
    pub start: usize,
    pub end: usize,
}

/// The lines of a text that are left: some, by their places, and then all from a place on. No line is kept twice.
#[derive(Drop)]
pub struct LeftLines {
    text: Bytes,
    front: Vec<Place>,
    // How many of those in front were given.
    given: usize,
    behind: usize,
}

impl Model for LeftLines {
    ghost use Rattle.std.specs.Prelude.{◌≤◌, All, drop, length};
    ghost use Rattle.local_world.specs.LeftLines.{IsPlace, LeftView, lines_left};

    ghost Value = { LeftView };

    ghost view = { λ lines. record { text = lines.text; left = lines_left lines.text (drop lines.given lines.front.items) lines.behind } };

    ghost invariant = { λ lines. (lines.given ≤ length lines.front.items) × (lines.behind ≤ length lines.text) × All (IsPlace lines.text) lines.front.items };
}

impl LeftLines {
    ghost use Rattle.std.specs.Prelude.{◌≡◌, ◌≤◌, All, length, IfOk, OnErr};
    ghost use Rattle.text_lines.specs.Lines.{lines_of};
    ghost use Rattle.local_world.specs.LeftLines.{GivesLine, IsPlace, line_at, lines_left};

    /// All lines of a text.
    pub fn new(alloc: Global, text: Bytes) -> Self
        ensures text { result.text ≡ text }
        ensures left { result.left ≡ lines_of text }
    {
        LeftLines {
            text,
            front: Vec::new(alloc),
            given: 0,
            behind: 0,
        }
    }

    /// The text.
    pub fn text(&self) -> &[u8]
        ensures { result.now ≡ self.now.text }
    {
        self.text.as_slice()
    }

    /// Leaves the lines at these places, and all from `behind` on.
    pub fn leave(&mut self, front: Vec<Place>, behind: usize)
        requires places { All (IsPlace self.old.text) front.items }
        requires within { behind ≤ length self.old.text }
        ensures text { self.new.text ≡ self.old.text }
        ensures left { self.new.left ≡ lines_left self.old.text front.items behind }
    {
        self.front = front;
        self.given = 0;
        self.behind = behind;
    }

    // A copy of the line at a place.
    fn copy_at(&self, alloc: Global, place: Place) -> Result<Bytes, NoMemory>
        requires { IsPlace self.now.text place }
        ensures { IfOk result (λ line. line ≡ line_at self.now.text place) }
    {
        Bytes::copy_of(alloc, &self.text.as_slice()[place.start..place.end])
    }

    /// The next line; `None` where none is left.
    pub fn next_line(&mut self, alloc: Global) -> Result<Option<Bytes>, NoMemory>
        ensures line { IfOk result (λ found. GivesLine found self.old.left self.new.left) }
        ensures text { self.new.text ≡ self.old.text }
        ensures err { OnErr result (self.new ≡ self.old) }
    {
        if self.given < self.front.len() {
            let line = self.copy_at(alloc, self.front[self.given])?;
            self.given += 1;
            return Ok(Some(line));
        }
        let Some(place) = next_line(self.text.as_slice(), self.behind) else {
            return Ok(None);
        };
        let line = self.copy_at(
            alloc,
            Place {
                start: place.start,
                end: place.end,
            },
        )?;
        self.behind = place.end;
        Ok(Some(line))
    }
}
