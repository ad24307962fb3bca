// Writing a configured catalog.
ghost use Rattle.std.specs.Prelude.{◌≡◌, ◌++◌, [], ◌∷◌, ◌↔◌, All, IfOk, IsTrue, OnOk, length};
ghost use Rattle.json_span.specs.Members.{IsMemberOf};
ghost use Rattle.json_fields.specs.Answer.{IsOnly};
ghost use Rattle.json_fields.specs.Parts.{NestsWithin};
ghost use Rattle.json_write.specs.Laws.{part_at};
ghost use Rattle.json_write.specs.Objects.{part_before};
ghost use Rattle.catalog.specs.Configured.{entry_depth};
ghost use Rattle.catalog.specs.Written.{CatalogsReadBack, GrowsByEntry, GrowsByKept, IsCatalogText, IsFit, IsGenerationKey, OneCatalogText, ReadsBack};

use crate::{Configured, Gen, GenList};
use basics::{Bytes, NoMemory};
use json_fields::cut;
use json_span::{MAX_DEPTH, Member, is_string_of};
use json_write::{put_comma, put_key, put_number_member};
use std::alloc::Global;

// Puts a mark, and a member as it stands.
fn put_part(text: &mut Bytes, mark: u8, entry: &[u8], member: Member) -> Result<(), NoMemory>
    requires { IsMemberOf entry.now member }
    ensures { OnOk result (text.new ≡ text.old ++ mark ∷ part_before (part_at entry.now member) []) }
{
    text.push(mark)?;
    text.extend(member.key.of(entry))?;
    text.push(b':')?;
    text.extend(member.value.of(entry))
}

// Whether a key is that of one of the two generations.
fn is_generation(alloc: Global, key: &[u8]) -> Result<bool, NoMemory>
    ensures { IfOk result (λ is. IsTrue is ↔ IsGenerationKey key.now) }
{
    if is_string_of(alloc, key, "generation_id")? {
        return Ok(true);
    }
    is_string_of(alloc, key, "minimum_generation_id")
}

// Puts the members of an object that are no generations as they stand, and hands out the mark before the next one.
fn put_kept(
    alloc: Global,
    text: &mut Bytes,
    entry: &[u8],
    members: &[Member],
) -> Result<u8, NoMemory>
    requires { All (IsMemberOf entry.now) members.now }
    ensures { IfOk result (λ mark. GrowsByKept entry.now members.now mark text.old text.new) }
{
    let mut mark = b'{';
    for member in members {
        if !is_generation(alloc, member.key.of(entry))? {
            put_part(text, mark, entry, *member)?;
            mark = b',';
        }
    }
    Ok(mark)
}

// Puts an entry with these generations in place of its own.
fn put_entry(alloc: Global, text: &mut Bytes, entry: &[u8], numbers: Gen) -> Result<(), NoMemory>
    requires { NestsWithin entry_depth entry.now }
    ensures { OnOk result (GrowsByEntry entry.now numbers text.old text.new) }
{
    let Some(members) = cut(alloc, entry, MAX_DEPTH)? else {
        unreachable!()
    };
    let mark = put_kept(alloc, text, entry, members.as_slice())?;
    put_number_member(text, mark, "generation_id", numbers.generation)?;
    put_number_member(text, b',', "minimum_generation_id", numbers.minimum)?;
    text.push(b'}')?;
    Ok(())
}

/// Writes a catalog with these generations, one for each stream: the members of each entry as they stood, in order, but for
/// `generation_id` and `minimum_generation_id`, which come last. Where the generations are such as a catalog may have, the text
/// reads back with them, and all else of each stream but its entry is as it was.
pub fn write_catalog(
    alloc: Global,
    configured: &Configured,
    gens: &GenList,
) -> Result<Bytes, NoMemory>
    requires { length gens.now ≡ length configured.now }
    ensures text { IfOk result (IsOnly (IsCatalogText configured.now gens.now)) }
    ensures back { IfOk result (λ text. All IsFit gens.now → ReadsBack configured.now gens.now text) }
{
    let mut text = Bytes::new(alloc);
    put_key(&mut text, b'{', "streams")?;
    text.push(b'[')?;
    for n in 0..configured.len() {
        put_comma(&mut text, n == 0)?;
        let numbers = *gens.at(n as usize);
        put_entry(
            alloc,
            &mut text,
            configured.stream(n).raw_entry.as_slice(),
            numbers,
        )?;
    }
    text.push(b']')?;
    text.push(b'}')?;
    Ok(text)
}

/// A law: streams with their generations have one text.
pub fn one_catalog_text()
    ensures { OneCatalogText }
{}

/// A law: the text of a catalog with generations that a catalog may have reads back with them, and with all else as it was.
pub fn catalogs_read_back()
    ensures { CatalogsReadBack }
{}
