// Constant lines of sources and of destinations.

/// One stream, `a`.
pub const ONE_STREAM: &str =
    r#"{"streams":[{"stream":{"name":"a","json_schema":{"type":"object","properties":{"id":{"type":"integer"},"v":{"type":"number"}}},"supported_sync_modes":["incremental"]},"sync_mode":"incremental","destination_sync_mode":"append"}]}"#;

/// Two streams, `a`, and `b` in the namespace `n`.
pub const TWO_STREAMS: &str =
    r#"{"streams":[{"stream":{"name":"a"},"sync_mode":"incremental","destination_sync_mode":"append"},{"stream":{"name":"b","namespace":"n"},"sync_mode":"incremental","destination_sync_mode":"append"}]}"#;

/// A state of `a` is saved.
pub const SAVED_STREAM: &str =
    r#"{"version":1,"streams":[{"name":"a","generation":0,"state":{"type":"STREAM","stream":{"stream_descriptor":{"name":"a"},"stream_state":{}}}}],"global":null}"#;

/// A state of all streams is saved.
pub const SAVED_GLOBAL: &str =
    r#"{"version":1,"streams":[{"name":"a","generation":0,"state":null}],"global":{"type":"GLOBAL","global":{"stream_states":[]}}}"#;

pub const RECORD_OF_A: &str =
    r#"{"type":"RECORD","record":{"stream":"a","data":{},"emitted_at":1}}"#;

pub const RECORD_OF_B: &str =
    r#"{"type":"RECORD","record":{"stream":"b","namespace":"n","data":{},"emitted_at":1}}"#;

pub const RECORD_OF_ZZ: &str =
    r#"{"type":"RECORD","record":{"stream":"zz","data":{},"emitted_at":1}}"#;
