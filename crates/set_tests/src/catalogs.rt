// Catalogs that are read, searched, dealt out and written.
use crate::parts::{ONE_STREAM, id_of, put_path};
use basics::{Bytes, NoMemory, Sequence};
use catalog::{Configured, Gen, read_configured, write_catalog};
use outside::CatalogFault;
use std::alloc::Global;
use std::test::Fail;

const USERS: &str =
    r#"{"streams":[{"stream":{"name":"users","json_schema":{"type":"object","properties":{"id":{"type":"integer"},"name":{"type":["null","string"]},"updated_at":{"type":["null","string"],"format":"date-time"}}},"supported_sync_modes":["full_refresh","incremental"]},"sync_mode":"incremental","destination_sync_mode":"append_dedup","cursor_field":["updated_at"],"primary_key":[["id"]]}]}"#;

// The first stream's name, cursor and key, and whether it is resumable.
fn shown(alloc: Global, configured: &Configured) -> Result<Bytes, NoMemory> {
    let mut text = Bytes::new(alloc);
    if configured.len() > 0 {
        let stream = configured.stream(0);
        text.extend(stream.id.name.as_str().as_bytes())?;
        text.extend(b" cursor ")?;
        if let Some(path) = &stream.cursor {
            put_path(&mut text, path)?;
        }
        text.extend(b" key ")?;
        for path in stream.key.as_slice() {
            put_path(&mut text, path)?;
        }
        text.extend(if stream.resumable { b" yes" } else { b" no" })?;
    }
    Ok(text)
}

// What a text's first stream is.
fn shown_of(alloc: Global, text: &str) -> Result<Bytes, CatalogFault> {
    let configured = read_configured(alloc, text.as_bytes())?;
    Ok(shown(alloc, &configured)?)
}

// The catalog of a text, written with generation and minimum 5.
fn rewritten(alloc: Global, text: &str) -> Result<Bytes, CatalogFault> {
    let configured = read_configured(alloc, text.as_bytes())?;
    let mut gens = Sequence::new(alloc);
    gens.push(Gen {
        generation: 5,
        minimum: 5,
    })?;
    if configured.len() != 1 {
        return Err(CatalogFault::TooMany);
    }
    Ok(write_catalog(alloc, &configured, &gens)?)
}

// How many streams a lane of a catalog has.
fn part_len(alloc: Global, text: &str, lanes: u32, lane: u32) -> Result<u32, CatalogFault> {
    let configured = read_configured(alloc, text.as_bytes())?;
    if lane >= lanes {
        return Ok(0);
    }
    let part = configured.part(alloc, lanes, lane)?;
    Ok(part.len())
}

// The place of a stream in a catalog.
fn place_of(
    alloc: Global,
    text: &str,
    name: &str,
    namespace: Option<&str>,
) -> Result<Option<u32>, CatalogFault> {
    let configured = read_configured(alloc, text.as_bytes())?;
    let id = id_of(alloc, name, namespace)?;
    Ok(configured.find(&id))
}

#[test]
fn a_stream_is_read_as_it_was_configured(rt: HostRuntime) -> Result<(), Fail> {
    for (text, want) in [
        (USERS, "users cursor /updated_at key /id no"),
        (ONE_STREAM, "a cursor  key  no"),
        (
            r#"{"streams":[{"stream":{"name":"a","is_resumable":true,"default_cursor_field":["x","y"],"source_defined_primary_key":[["k"],["l","m"]]},"sync_mode":"incremental","destination_sync_mode":"append"}]}"#,
            "a cursor /x/y key /k/l/m yes",
        ),
        (
            r#"{"streams":[{"stream":{"name":"a","is_resumable":"yes"},"sync_mode":"incremental","destination_sync_mode":"append"}]}"#,
            "a cursor  key  no",
        ),
    ] {
        let Ok(stream) = shown_of(rt.alloc(), text) else {
            return Err(Fail::from(NoMemory));
        };
        assert_eq!(rt; stream.as_slice(), want.as_bytes(), "of {text}");
    }
    Ok(())
}

#[test]
fn a_stream_is_found_by_its_name_and_its_namespace(rt: HostRuntime) {
    let alloc = rt.alloc();
    assert_eq!(rt; place_of(alloc, USERS, "users", None), Ok(Some(0)));
    assert_eq!(rt; place_of(alloc, USERS, "users", Some("x")), Ok(None));
    assert_eq!(rt; part_len(alloc, USERS, 1, 0), Ok(1));
    assert_eq!(rt; part_len(alloc, USERS, 2, 1), Ok(0));
}

#[test]
fn a_written_catalog_has_the_new_generations_and_all_else_as_it_stood(
    rt: HostRuntime,
) -> Result<(), Fail> {
    for (text, want) in [
        (
            ONE_STREAM,
            r#"{"streams":[{"stream":{"name":"a","json_schema":{"type":"object","properties":{"id":{"type":"integer"},"v":{"type":"number"}}},"supported_sync_modes":["incremental"]},"sync_mode":"incremental","destination_sync_mode":"append","generation_id":5,"minimum_generation_id":5}]}"#,
        ),
        (
            r#"{"streams":[{ "stream" : { "name" : "a" } ,"generation\u005fid": 7 , "x" : [1, 2], "sync_mode":"incremental","generation_id":1,"minimum_generation_i\u0064":0,"d\u0065stination_sync_mode":"append", "generation_id":null , "Generation_id":3}]}"#,
            r#"{"streams":[{"stream":{ "name" : "a" },"x":[1, 2],"sync_mode":"incremental","d\u0065stination_sync_mode":"append","Generation_id":3,"generation_id":5,"minimum_generation_id":5}]}"#,
        ),
    ] {
        let Ok(written) = rewritten(rt.alloc(), text) else {
            return Err(Fail::from(NoMemory));
        };
        assert_eq!(rt; written.as_slice(), want.as_bytes(), "of {text}");
    }
    Ok(())
}
