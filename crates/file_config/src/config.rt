// The configuration of a source of files.
ghost use Rattle.std.specs.Prelude.{◌≢◌, ◌≡◌, All, Err, IfErr, IfOk, Ok, option_copied};
ghost use Rattle.std.specs.List.{AllZip};
ghost use Rattle.json_span.specs.Members.{text_at};
ghost use Rattle.json_span.specs.Elements.{IsElementOf};
ghost use Rattle.json_fields.specs.Answer.{IsAnswer, IsOnly};
ghost use Rattle.outside.specs.declared.faults.ConfigFault.TheVariants as fault;
ghost use Rattle.json_fields.specs.Fields.{IsCut};
ghost use Rattle.file_config.specs.Config.{HasParts, IsEntry, IsEvery, IsInRange, IsPart, ReadsConfig};

use basics::{Bytes, Copies, Name, NoMemory, Sequence};
use json_fields::{cut, cut_list, field, optional_number, text_field};
use json_scalar::whole_of;
use json_span::{MAX_DEPTH, MemberList, Span};
use outside::ConfigFault;
use std::alloc::Global;

/// The most records between two states.
pub const MOST_EVERY: u64 = 1_000_000;

/// After how many records a state is due where the configuration does not say.
pub const USUAL_EVERY: u32 = 1_000;

/// A file that is a stream of its name.
#[derive(Debug, Drop)]
pub struct FileEntry {
    pub name: Name,
    pub path: Name,
    /// After how many records a state is due, from 1 to 1,000,000.
    pub every: u32,
}

/// The files of a configuration; of two with one name the first counts.
pub type FileEntryList = Sequence<FileEntry>;

/// What a source of files copies.
#[derive(Debug, Drop)]
pub struct FileConfig {
    pub files: FileEntryList,
}

// What an entry's members say, before its number is judged.
#[derive(Debug, Drop)]
struct EntryPart {
    name: Name,
    path: Name,
    // The number as it stands.
    every: Option<Bytes>,
}

// A text that may be absent, copied.
fn copied(alloc: Global, text: Option<&[u8]>) -> Result<Option<Bytes>, NoMemory>
    ensures { IfOk result (λ copy. copy ≡ option_copied text.entry) }
{
    match text {
        Some(text) => Ok(Some(Bytes::copy_of(alloc, text)?)),
        None => Ok(None),
    }
}

// What an entry's members say; `None` where one of them has another form.
fn part_of(alloc: Global, text: &[u8]) -> Result<Option<EntryPart>, NoMemory>
    ensures { IfOk result (IsAnswer (IsPart text.now)) }
{
    let Some(members) = cut(alloc, text, MAX_DEPTH)? else {
        return Ok(None);
    };
    let Some(name) = text_field(alloc, text, &members, "name")? else {
        return Ok(None);
    };
    let Some(path) = text_field(alloc, text, &members, "path")? else {
        return Ok(None);
    };
    let Some(number) = optional_number(alloc, text, &members, "every")? else {
        return Ok(None);
    };
    let every = copied(alloc, number)?;
    Ok(Some(EntryPart { name, path, every }))
}

// What the entries at these places say.
fn parts_at(
    alloc: Global,
    list: &[u8],
    spans: &[Span],
) -> Result<Option<Sequence<EntryPart>>, NoMemory>
    requires { All (IsElementOf list.now) spans.now }
    ensures { IfOk result (IsAnswer (AllZip (λ span part. IsPart (text_at list.now span) part) spans.now)) }
{
    let mut parts = Sequence::with_capacity(alloc, spans.len())?;
    for span in spans {
        let Some(part) = part_of(alloc, span.of(list))? else {
            return Ok(None);
        };
        parts.push(part)?;
    }
    Ok(Some(parts))
}

// After how many records a state is due; `None` where the number is out of range.
fn every_of(number: &Option<Bytes>) -> Option<u32>
    ensures { IsAnswer (IsEvery number.now) result }
{
    match number {
        Some(text) => every_in_range(text.as_slice()),
        None => Some(USUAL_EVERY),
    }
}

// The number that a text says; `None` where it is out of range.
fn every_in_range(text: &[u8]) -> Option<u32>
    ensures { IsAnswer (IsInRange text.now) result }
{
    let Some(every) = whole_of(text) else {
        return None;
    };
    if every < 1 {
        return None;
    }
    if every > MOST_EVERY {
        return None;
    }
    Some(every as u32)
}

// The entry with these members.
fn entry_of(alloc: Global, part: &EntryPart) -> Result<Option<FileEntry>, NoMemory>
    ensures { IfOk result (IsAnswer (IsEntry part.now)) }
{
    let Some(every) = every_of(&part.every) else {
        return Ok(None);
    };
    let name = part.name.copy(alloc)?;
    let path = part.path.copy(alloc)?;
    Ok(Some(FileEntry { name, path, every }))
}

// The entries with these members.
fn entries_of(alloc: Global, parts: &[EntryPart]) -> Result<Option<FileEntryList>, NoMemory>
    ensures { IfOk result (IsAnswer (AllZip IsEntry parts.now)) }
{
    let mut entries = Sequence::with_capacity(alloc, parts.len())?;
    for part in parts {
        let Some(entry) = entry_of(alloc, part)? else {
            return Ok(None);
        };
        entries.push(entry)?;
    }
    Ok(Some(entries))
}

// What the entries of an object say.
fn parts_of(
    alloc: Global,
    text: &[u8],
    members: &MemberList,
) -> Result<Option<Sequence<EntryPart>>, NoMemory>
    requires { IsCut text.now members.now }
    ensures { IfOk result (IsAnswer (HasParts text.now)) }
{
    let Some(list) = field(alloc, text, members, "files")? else {
        return Ok(None);
    };
    let Some(spans) = cut_list(alloc, list, MAX_DEPTH)? else {
        return Ok(None);
    };
    parts_at(alloc, list, spans.as_slice())
}

// What a text reads as.
fn reading_of(alloc: Global, text: &[u8]) -> Result<Result<FileConfig, ConfigFault>, NoMemory>
    ensures { IfOk result (IsOnly (ReadsConfig text.now)) }
{
    let Some(members) = cut(alloc, text, MAX_DEPTH)? else {
        return Ok(Err(ConfigFault::NotJson));
    };
    let Some(parts) = parts_of(alloc, text, &members)? else {
        return Ok(Err(ConfigFault::Missing));
    };
    let Some(files) = entries_of(alloc, parts.as_slice())? else {
        return Ok(Err(ConfigFault::OutOfRange));
    };
    Ok(Ok(FileConfig { files }))
}

/// Reads the configuration of a source of files: an object with an array `files`, each of which has a `name`, a `path` and maybe
/// a number `every`. That all members have their forms is judged before any number.
pub fn read_file_config(alloc: Global, text: &[u8]) -> Result<FileConfig, ConfigFault>
    ensures read { IfOk result (λ config. IsOnly (ReadsConfig text.now) (Ok config)) }
    ensures refused { IfErr result (λ why. why ≢ fault.NoMemory → IsOnly (ReadsConfig text.now) (Err why)) }
{
    match reading_of(alloc, text) {
        Ok(reading) => reading,
        Err(NoMemory) => Err(ConfigFault::NoMemory),
    }
}
