// What the tests have in common.
use basics::{Bytes, Name, NoMemory, Sequence, StreamId};
use catalog::{Configured, Gen, GenList};
use std::alloc::Global;

/// A catalog of one stream, `a`.
pub const ONE_STREAM: &str =
    r#"{"streams":[{"stream":{"name":"a","json_schema":{"type":"object","properties":{"id":{"type":"integer"},"v":{"type":"number"}}},"supported_sync_modes":["incremental"]},"sync_mode":"incremental","destination_sync_mode":"append"}]}"#;

/// A catalog of the streams `b`, and `a` in the namespace `n`.
pub const TWO_STREAMS: &str =
    r#"{"streams":[{"stream":{"name":"b"},"sync_mode":"incremental","destination_sync_mode":"append"},{"stream":{"name":"a","namespace":"n"},"sync_mode":"incremental","destination_sync_mode":"append"}]}"#;

/// A stream by its name and its namespace.
pub fn id_of(alloc: Global, name: &str, namespace: Option<&str>) -> Result<StreamId, NoMemory> {
    let namespace = match namespace {
        Some(text) => Some(Name::copy_of(alloc, text)?),
        None => None,
    };
    Ok(StreamId {
        name: Name::copy_of(alloc, name)?,
        namespace,
    })
}

/// Gives each stream of a catalog this generation, and the same as minimum.
pub fn generations(
    alloc: Global,
    configured: &Configured,
    generation: u64,
) -> Result<GenList, NoMemory> {
    let mut gens = Sequence::new(alloc);
    for _ in 0..configured.len() {
        gens.push(Gen {
            generation,
            minimum: generation,
        })?;
    }
    Ok(gens)
}

/// The names of a path, each with a slash before it.
pub fn put_path(text: &mut Bytes, path: &Sequence<Name>) -> Result<(), NoMemory> {
    for name in path.as_slice() {
        text.push(b'/')?;
        text.extend(name.as_str().as_bytes())?;
    }
    Ok(())
}
