// Paths and keys: arrays of names, and arrays of such arrays.
ghost use Rattle.std.specs.Prelude.{All, IfOk, IsTrue};
ghost use Rattle.std.specs.List.{AllZip};
ghost use Rattle.json_scalar.specs.Text.{IsString};
ghost use Rattle.json_span.specs.Members.{text_at};
ghost use Rattle.json_span.specs.Elements.{IsElementOf};
ghost use Rattle.json_fields.specs.Answer.{IsAnswer};
ghost use Rattle.json_fields.specs.Fields.{IsCut};
ghost use Rattle.json_fields.specs.Words.{is_word};
ghost use Rattle.catalog.specs.Entry.{HasOptionalList, IsKey, IsKeyPath, IsPath};

use basics::{NoMemory, Path, PathList};
use json_fields::{cut_list, optional_in};
use json_span::{MAX_DEPTH, Member, Span, text_of};
use std::alloc::Global;

// The names that the strings at these places stand for.
fn names_at(alloc: Global, text: &[u8], spans: &[Span]) -> Result<Option<Path>, NoMemory>
    requires { All (IsElementOf text.now) spans.now }
    ensures { IfOk result (IsAnswer (AllZip (λ span name. IsString (text_at text.now span) name) spans.now)) }
{
    let mut names = Path::with_capacity(alloc, spans.len())?;
    for span in spans {
        let Some(name) = text_of(alloc, span.of(text))? else {
            return Ok(None);
        };
        names.push(name)?;
    }
    Ok(Some(names))
}

// The path that a value is.
fn path_of(alloc: Global, text: &[u8]) -> Result<Option<Path>, NoMemory>
    ensures { IfOk result (IsAnswer (IsPath text.now)) }
{
    match cut_list(alloc, text, MAX_DEPTH)? {
        Some(spans) => names_at(alloc, text, spans.as_slice()),
        None => Ok(None),
    }
}

// The path of a key that a value is.
fn key_path_of(alloc: Global, text: &[u8]) -> Result<Option<Path>, NoMemory>
    ensures { IfOk result (IsAnswer (IsKeyPath text.now)) }
{
    match path_of(alloc, text)? {
        Some(path) if path.is_empty() => Ok(None),
        Some(path) => Ok(Some(path)),
        None => Ok(None),
    }
}

// The paths that the values at these places are.
fn paths_at(alloc: Global, text: &[u8], spans: &[Span]) -> Result<Option<PathList>, NoMemory>
    requires { All (IsElementOf text.now) spans.now }
    ensures { IfOk result (IsAnswer (AllZip (λ span path. IsKeyPath (text_at text.now span) path) spans.now)) }
{
    let mut paths = PathList::with_capacity(alloc, spans.len())?;
    for span in spans {
        let Some(path) = key_path_of(alloc, span.of(text))? else {
            return Ok(None);
        };
        paths.push(path)?;
    }
    Ok(Some(paths))
}

// The key that a value is.
fn key_of(alloc: Global, text: &[u8]) -> Result<Option<PathList>, NoMemory>
    ensures { IfOk result (IsAnswer (IsKey text.now)) }
{
    match cut_list(alloc, text, MAX_DEPTH)? {
        Some(spans) => paths_at(alloc, text, spans.as_slice()),
        None => Ok(None),
    }
}

/// An optional member that is a path, the empty one where it is absent, `None` where it is none.
pub fn optional_path(
    alloc: Global,
    text: &[u8],
    members: &[Member],
    name: &str,
) -> Result<Option<Path>, NoMemory>
    requires cut { IsCut text.now members.now }
    requires word { IsTrue (is_word name.now) }
    ensures { IfOk result (IsAnswer (HasOptionalList IsPath text.now name.now)) }
{
    match optional_in(alloc, text, members, name)? {
        Some(held) => path_of(alloc, held),
        None => Ok(Some(Path::new(alloc))),
    }
}

/// An optional member that is a list of paths, the empty one where it is absent, `None` where it is none.
pub fn optional_key(
    alloc: Global,
    text: &[u8],
    members: &[Member],
    name: &str,
) -> Result<Option<PathList>, NoMemory>
    requires cut { IsCut text.now members.now }
    requires word { IsTrue (is_word name.now) }
    ensures { IfOk result (IsAnswer (HasOptionalList IsKey text.now name.now)) }
{
    match optional_in(alloc, text, members, name)? {
        Some(held) => key_of(alloc, held),
        None => Ok(Some(PathList::new(alloc))),
    }
}
