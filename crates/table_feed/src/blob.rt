// The blobs that a stream of a table starts with.
ghost use Rattle.std.specs.Prelude.{◌≡◌, ◌⊎◌, ◌↔◌, All, IfNone, IfOk, IfSome, IsTrue, Some, length, map, option_map};
ghost use Rattle.json_span.specs.Members.{IsValue, text_at};
ghost use Rattle.json_span.specs.Elements.{IsElementOf};
ghost use Rattle.json_fields.specs.Answer.{IsAnswer};
ghost use Rattle.column_types.specs.Values.{IsValueOf};
ghost use Rattle.table_feed.specs.Parts.{AreParts, place_seen};
ghost use Rattle.table_feed.specs.Start.{AreKeyValues, AreValuesAt, IsEmptyBlob, IsPlaceBlob, IsPlaceCut, IsPlaceOf, IsStartBlob, StartsBehind, first_blob, instant_at};

use basics::{Bytes, Copies, NoMemory, Path, Sequence};
use column_types::{Columns, is_instant, value_along};
use json_fields::{cut, cut_list, field};
use json_span::{MAX_DEPTH, Span, SpanList};
use std::alloc::Global;
use table_source::Keying;
use value_order::Value;

// The texts of a blob that says a place.
#[derive(Drop)]
struct PlaceCut<'a> {
    cursor: &'a [u8],
    key: &'a [u8],
    spans: SpanList,
}

// The texts of a blob that says a place; `None` where it says none.
fn place_in<'a>(alloc: Global, text: &'a [u8]) -> Result<Option<PlaceCut<'a>>, NoMemory>
    ensures cut { IfOk result (λ found. IsAnswer (IsPlaceCut text.now) (option_map place_seen found)) }
    ensures parts { IfOk result (λ found. IfSome found (λ place. AreParts (place_seen place))) }
{
    let Some(members) = cut(alloc, text, MAX_DEPTH)? else {
        return Ok(None);
    };
    if members.len() != 2 {
        return Ok(None);
    }
    let Some(cursor) = field(alloc, text, &members, "cursor")? else {
        return Ok(None);
    };
    let Some(key) = field(alloc, text, &members, "key")? else {
        return Ok(None);
    };
    let Some(spans) = cut_list(alloc, key, MAX_DEPTH)? else {
        return Ok(None);
    };
    Ok(Some(PlaceCut { cursor, key, spans }))
}

// Whether a blob is an object without members.
fn is_empty_blob(alloc: Global, text: &[u8]) -> Result<bool, NoMemory>
    ensures { IfOk result (λ is. IsTrue is ↔ IsEmptyBlob text.now) }
{
    match cut(alloc, text, MAX_DEPTH)? {
        Some(members) => Ok(members.is_empty()),
        None => Ok(false),
    }
}

// Whether a blob says a place of so many values behind the cursor.
fn is_place_of(alloc: Global, text: &[u8], count: usize) -> Result<bool, NoMemory>
    ensures { IfOk result (λ is. IsTrue is ↔ IsPlaceOf count text.now) }
{
    match place_in(alloc, text)? {
        Some(place) => Ok(place.spans.len() == count),
        None => Ok(false),
    }
}

/// Whether a stream whose key has so many paths can start with this blob, or without one.
pub fn is_start_blob(alloc: Global, blob: &Option<Bytes>, count: usize) -> Result<bool, NoMemory>
    ensures { IfOk result (λ is. IsTrue is ↔ IsStartBlob count blob.now) }
{
    match blob {
        Some(text) => is_start_text(alloc, text.as_slice(), count),
        None => Ok(true),
    }
}

// Whether a stream whose key has so many paths can start with a blob.
fn is_start_text(alloc: Global, text: &[u8], count: usize) -> Result<bool, NoMemory>
    ensures { IfOk result (λ is. IsTrue is ↔ (IsEmptyBlob text.now ⊎ IsPlaceOf count text.now)) }
{
    if is_empty_blob(alloc, text)? {
        return Ok(true);
    }
    is_place_of(alloc, text, count)
}

/// The blob that a state carries before any row was written.
pub fn first_blob_of(alloc: Global, start: &Option<Bytes>) -> Result<Bytes, NoMemory>
    ensures { IfOk result (λ blob. blob ≡ first_blob start.now) }
{
    match start {
        Some(text) => text.copy(alloc),
        None => Bytes::copy_of(alloc, b"{}"),
    }
}

// The values of a key.
fn key_values(
    alloc: Global,
    columns: &Columns,
    paths: &[Path],
    text: &[u8],
    spans: &[Span],
) -> Result<Sequence<Value>, NoMemory>
    requires parts { All (IsElementOf text.now) spans.now }
    requires same { length spans.now ≡ length paths.now }
    ensures { IfOk result (AreKeyValues columns.now paths.now (map (text_at text.now) spans.now)) }
{
    let mut values = Sequence::with_capacity(alloc, paths.len())?;
    for at in 0..paths.len() {
        let held = spans[at].of(text);
        let value = value_along(alloc, held, &[], is_instant(columns, &paths[at]))?;
        values.push(value)?;
    }
    Ok(values)
}

// The value of a cursor.
fn cursor_value(alloc: Global, keying: &Keying, text: &[u8]) -> Result<Value, NoMemory>
    requires { IsValue text.now }
    ensures { IfOk result (IsValueOf (instant_at keying.now.columns keying.now.cursor) text.now) }
{
    match &keying.cursor {
        Some(path) => value_along(alloc, text, &[], is_instant(&keying.columns, path)),
        None => value_along(alloc, text, &[], false),
    }
}

// The values that a blob's place says.
fn place_values(
    alloc: Global,
    keying: &Keying,
    place: &PlaceCut<'_>,
) -> Result<Sequence<Value>, NoMemory>
    requires parts { AreParts (place_seen place.now) }
    requires same { length place.now.spans ≡ length keying.now.key }
    ensures { IfOk result (AreValuesAt keying.now (place_seen place.now)) }
{
    let cursor = cursor_value(alloc, keying, place.cursor)?;
    let key = key_values(
        alloc,
        &keying.columns,
        keying.key.as_slice(),
        place.key,
        place.spans.as_slice(),
    )?;
    let mut values = Sequence::with_capacity(alloc, 1 + key.len())?;
    values.push(cursor)?;
    values.append(key.into_vec())?;
    Ok(values)
}

// Behind which values a stream starts with a blob that says a place.
fn behind_place(
    alloc: Global,
    keying: &Keying,
    text: &[u8],
) -> Result<Option<Sequence<Value>>, NoMemory>
    ensures place { IfOk result (λ found. IfSome found (IsPlaceBlob keying.now text.now)) }
    ensures none { IfOk result (λ found. IfNone found (¬ IsPlaceOf (length keying.now.key) text.now)) }
{
    let Some(place) = place_in(alloc, text)? else {
        return Ok(None);
    };
    if place.spans.len() != keying.key.len() {
        return Ok(None);
    }
    Ok(Some(place_values(alloc, keying, &place)?))
}

// Behind which values a stream starts with a blob.
fn behind_text(
    alloc: Global,
    keying: &Keying,
    text: &[u8],
) -> Result<Option<Option<Sequence<Value>>>, NoMemory>
    ensures behind { IfOk result (λ found. IfSome found (StartsBehind keying.now (Some text.now))) }
    ensures none { IfOk result (λ found. IfNone found (¬ IsStartBlob (length keying.now.key) (Some text.now))) }
{
    if is_empty_blob(alloc, text)? {
        return Ok(Some(None));
    }
    match behind_place(alloc, keying, text)? {
        Some(place) => Ok(Some(Some(place))),
        None => Ok(None),
    }
}

/// Behind which values a stream starts with this blob, or without one: `Some(None)` before all rows, `None` where it cannot
/// start so.
pub fn behind_of(
    alloc: Global,
    keying: &Keying,
    start: &Option<Bytes>,
) -> Result<Option<Option<Sequence<Value>>>, NoMemory>
    ensures behind { IfOk result (λ found. IfSome found (StartsBehind keying.now start.now)) }
    ensures none { IfOk result (λ found. IfNone found (¬ IsStartBlob (length keying.now.key) start.now)) }
{
    match start {
        Some(text) => behind_text(alloc, keying, text.as_slice()),
        None => Ok(Some(None)),
    }
}
