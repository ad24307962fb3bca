// The checks of an entry, in their order.
ghost use Rattle.std.specs.Prelude.{◌≡◌, []};
ghost use Rattle.catalog.specs.Checks.{fault_of, is_above as is_above_limit, is_minimum_above as is_minimum_above_generation, is_too_large as is_id_too_large, judged_alone, lacks_key as lacks_its_key, or_else as or_else_list, unless_empty as unless_empty_path, stream_with};

use crate::entry::{Entry, Ids, StreamPart};
use crate::{ConfStream, DestMode, SyncMode};
use basics::{Bytes, GREATEST_GENERATION, Path, PathList, Sequence, StreamNo};
use outside::CatalogFault;

// Whether an id is above the limit.
fn is_above(id: Option<u64>) -> bool
    ensures { result ≡ is_above_limit id }
{
    match id {
        Some(id) => id > GREATEST_GENERATION,
        None => false,
    }
}

// Whether the generation, the minimum generation or the sync's id is above the limit.
fn is_too_large(ids: Ids) -> bool
    ensures { result ≡ is_id_too_large ids }
{
    is_above(ids.generation) || is_above(ids.minimum) || is_above(ids.sync_id)
}

// Whether the minimum generation is above the generation.
fn is_minimum_above(ids: Ids) -> bool
    ensures { result ≡ is_minimum_above_generation ids }
{
    ids.minimum.unwrap_or(0) > ids.generation.unwrap_or(0)
}

// Whether a stream that is deduplicated has no key.
fn lacks_key(dest: DestMode, key: &PathList) -> bool
    ensures { result ≡ lacks_its_key dest key.now }
{
    match dest {
        DestMode::AppendDedup => key.is_empty(),
        DestMode::Overwrite => false,
        DestMode::Append => false,
    }
}

// The first list, or the other where the first is empty.
fn or_else<T: Drop>(first: Sequence<T>, other: Sequence<T>) -> Sequence<T>
    ensures { result ≡ or_else_list first other }
{
    if first.is_empty() { other } else { first }
}

// A path, which is none where it is empty.
fn unless_empty(path: Path) -> Option<Path>
    ensures { result ≡ unless_empty_path path }
{
    if path.is_empty() { None } else { Some(path) }
}

// The first of the checks of stream n alone that fails.
fn fault_at(n: StreamNo, ids: Ids, dest: DestMode, key: &PathList) -> Option<CatalogFault>
    ensures { result ≡ fault_of n ids dest key.now }
{
    if is_too_large(ids) {
        return Some(CatalogFault::TooLarge { stream: n });
    }
    if is_minimum_above(ids) {
        return Some(CatalogFault::MinimumAboveGeneration { stream: n });
    }
    if lacks_key(dest, key) {
        return Some(CatalogFault::NoKey { stream: n });
    }
    None
}

// The stream that an entry with these modes is.
fn stream_of(entry: Entry, text: Bytes, sync: SyncMode, dest: DestMode) -> ConfStream
    ensures { result ≡ stream_with text entry sync dest }
{
    let Entry {
        stream,
        cursor,
        key,
        ids,
        ..
    } = entry;
    ConfStream {
        id: stream.id,
        sync,
        dest,
        cursor: unless_empty(or_else(cursor, stream.cursor)),
        key: or_else(key, stream.key),
        generation: ids.generation,
        minimum: ids.minimum.unwrap_or(0),
        sync_id: ids.sync_id,
        resumable: stream.resumable,
        schema: stream.schema,
        raw_entry: text,
    }
}

/// What an entry is as stream n, whatever streams stand before it.
pub fn judged(n: StreamNo, entry: Entry, text: Bytes) -> Result<ConfStream, CatalogFault>
    ensures { result ≡ judged_alone n text entry }
{
    let Some(sync) = SyncMode::of(entry.sync.as_str()) else {
        return Err(CatalogFault::BadMode { stream: n });
    };
    let Some(dest) = DestMode::of(entry.dest.as_str()) else {
        return Err(CatalogFault::BadMode { stream: n });
    };
    let ids = entry.ids;
    let stream = stream_of(entry, text, sync, dest);
    match fault_at(n, ids, dest, &stream.key) {
        Some(fault) => Err(fault),
        None => Ok(stream),
    }
}
