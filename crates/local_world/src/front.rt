// The lines of a file that are left in front of its starts.
ghost use Rattle.std.specs.Prelude.{◌≡◌, ◌≤◌, ◌⊎◌, ◌<◌, All, None, IfOk, IfErr, IfSome, IfNone, OnOk, OnErr, length};
ghost use Rattle.std.specs.List.{Any};
ghost use Rattle.outside.specs.declared.faults.StateFault.TheVariants as fault;
ghost use Rattle.state_kinds.specs.StateLists.{list_fault};
ghost use Rattle.load_rules.specs.Lines.{Reading, ReadsText};
ghost use Rattle.local_world.specs.Starts.{IsNowhere, ReadsFile, file_lines};
ghost use Rattle.local_world.specs.Begun.{AreLeft, Begins, HasFault, left_until};
ghost use Rattle.local_world.specs.LeftLines.{IsKeptUnless, IsPlace, lines_left};
ghost use Rattle.local_world.specs.Awaited.{Passes};

use crate::awaited::Awaited;
use crate::left_lines::{LeftLines, Place};
use airbyte_message::MessageReader;
use basics::NoMemory;
use outside::StateFault;
use state_kinds::{StateList, read_list};
use std::alloc::Global;
use std::ops::Range;
use text_lines::next_line;

/// The lines that are left up to a place in a text, by their places; behind it all are.
#[derive(Drop)]
pub struct Front {
    pub places: Vec<Place>,
    pub behind: usize,
}

// Reads the line with this number, from 0, and notes what it is: whether it is left out.
fn passes_line(
    alloc: Global,
    reader: &mut MessageReader,
    awaited: &mut Awaited,
    number: usize,
    line: &[u8],
) -> Result<bool, NoMemory>
    requires { number < usize.MAX }
    ensures line { IfOk result (λ is_out. (read : Reading) → ReadsText read line.now → Passes number (read line.now) awaited.old awaited.new is_out) }
    ensures states { OnOk result (awaited.new.states ≡ awaited.old.states) }
{
    let found = reader.read(line)?;
    awaited.pass(alloc, number, &found)
}

// Puts the place of a line behind the others, unless it is left out.
fn keep_unless(is_out: bool, places: &mut Vec<Place>, place: Place) -> Result<(), NoMemory>
    ensures { OnOk result (IsKeptUnless is_out place places.old.items places.new.items) }
{
    if !is_out {
        places.push(place)?;
    }
    Ok(())
}

/// Looks for started states in the lines of a text, from its beginning on until each has come; `None` where one never comes.
/// Each line is read once at most.
pub fn read_front(alloc: Global, text: &[u8], states: StateList) -> Result<Option<Front>, NoMemory>
    requires { list_fault states ≡ None }
    ensures places { IfOk result (λ found. IfSome found (λ front. All (IsPlace text.now) front.places.items)) }
    ensures within { IfOk result (λ found. IfSome found (λ front. front.behind ≤ length text.now)) }
    ensures left { IfOk result (λ found. IfSome found (λ front. (read : Reading) → ReadsFile read text.now → AreLeft read text.now states (lines_left text.now front.places.items front.behind))) }
    ensures lacks { IfOk result (λ found. IfNone found ((read : Reading) → ReadsFile read text.now → Any (IsNowhere (file_lines read text.now)) states)) }
{
    let mut awaited = Awaited::new(alloc, states)?;
    let mut reader = MessageReader::new(alloc);
    let mut places = Vec::new(alloc);
    let mut behind = 0;
    let mut number = 0;
    'lines: while awaited.is_missing() {
        let Some(line) = next_line(text, behind) else {
            return Ok(None);
        };
        let Range { start, end } = line;
        let is_out = passes_line(alloc, &mut reader, &mut awaited, number, &text[start..end])?;
        keep_unless(is_out, &mut places, Place { start, end })?;
        behind = end;
        number += 1;
    }
    Ok(Some(Front { places, behind }))
}

/// Leaves of a text what is left of it behind the states of an array.
pub fn restart(alloc: Global, lines: &mut LeftLines, array: &[u8]) -> Result<(), StateFault>
    ensures begins { OnOk result (Begins lines.old.text array.now (left_until None lines.new.left)) }
    ensures fault { IfErr result (λ why. (why ≡ fault.NoMemory) ⊎ HasFault lines.old.text array.now why) }
    ensures text { lines.new.text ≡ lines.old.text }
    ensures err { OnErr result (lines.new ≡ lines.old) }
{
    let states = read_list(alloc, array)?;
    let Some(Front { places, behind }) = read_front(alloc, lines.text(), states)? else {
        return Err(StateFault::OutOfRange);
    };
    lines.leave(places, behind);
    Ok(())
}
