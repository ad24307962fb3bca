// Configurations of destinations.
use basics::{Bytes, NoMemory};
use dest_config::{DestConfig, DestKind, read_dest_config};
use outside::ConfigFault;
use std::alloc::Global;
use std::test::Fail;

// What is written, a configuration, and what it says: the place, slots, bytes, batch, workers and page.
const CONFIGS: &[(DestKind, &str, &str)] = &[
    (
        DestKind::Tables,
        r#"{"database":"d","workers":17}"#,
        "OutOfRange",
    ),
    (
        DestKind::Tables,
        r#"{"database":"d"}"#,
        "d 4096 67108864 1000 2 1000",
    ),
    (
        DestKind::Files,
        r#"{"folder":"f","database":"d"}"#,
        "f 4096 67108864 1000 2 1000",
    ),
    (DestKind::Files, r#"{"database":"d"}"#, "Missing"),
    (DestKind::Tables, r#"{"folder":"f"}"#, "Missing"),
    (DestKind::Tables, r#"[]"#, "NotJson"),
    (
        DestKind::Tables,
        r#"{"database":7,"workers":17}"#,
        "Missing",
    ),
    (
        DestKind::Tables,
        r#"{"database":"d","slots":0,"workers":"1"}"#,
        "Missing",
    ),
    (
        DestKind::Tables,
        r#"{"database":"d","slots":500}"#,
        "d 500 67108864 500 2 1000",
    ),
    (
        DestKind::Tables,
        r#"{"database":"d","slots":null,"bytes":null}"#,
        "d 4096 67108864 1000 2 1000",
    ),
    (
        DestKind::Tables,
        r#"{"database":"d","slots":1.5}"#,
        "OutOfRange",
    ),
    (
        DestKind::Tables,
        r#"{"database":"d","slots":1000001}"#,
        "OutOfRange",
    ),
    (
        DestKind::Tables,
        r#"{"database":"d","slots":4294967297}"#,
        "OutOfRange",
    ),
    (
        DestKind::Tables,
        r#"{"database":"d","bytes":20971519}"#,
        "OutOfRange",
    ),
    (
        DestKind::Tables,
        r#"{"database":"d","bytes":536870913}"#,
        "OutOfRange",
    ),
    (
        DestKind::Tables,
        r#"{"database":"d","batch":4097}"#,
        "OutOfRange",
    ),
    (
        DestKind::Tables,
        r#"{"database":"d","workers":0}"#,
        "OutOfRange",
    ),
    (
        DestKind::Tables,
        r#"{"database":"d","slots":1000000,"bytes":20971520,"batch":1,"workers":16,"more":1}"#,
        "d 1000000 20971520 1 16 1000",
    ),
];

fn put_config(alloc: Global, text: &mut Bytes, config: &DestConfig) -> Result<(), NoMemory> {
    let limits = config.limits;
    let slots = limits.slots;
    let bytes = limits.bytes;
    let batch = limits.batch;
    let workers = limits.workers;
    let page = limits.page;
    text.extend(config.place.as_str().as_bytes())?;
    let numbers = format!(in alloc; " {slots} {bytes} {batch} {workers} {page}")?;
    text.extend(numbers.as_bytes())
}

fn put_fault(alloc: Global, text: &mut Bytes, fault: ConfigFault) -> Result<(), NoMemory> {
    let word = format!(in alloc; "{fault:?}")?;
    text.extend(word.as_bytes())
}

fn described(alloc: Global, kind: DestKind, config: &str) -> Result<Bytes, NoMemory> {
    let mut text = Bytes::new(alloc);
    match read_dest_config(alloc, kind, config.as_bytes()) {
        Ok(config) => put_config(alloc, &mut text, &config)?,
        Err(fault) => put_fault(alloc, &mut text, fault)?,
    }
    Ok(text)
}

#[test]
fn configurations_say_their_limits(rt: HostRuntime) -> Result<(), Fail> {
    for (kind, config, want) in CONFIGS {
        let text = described(rt.alloc(), *kind, config)?;
        assert_eq!(rt; text.as_slice(), want.as_bytes(), "{config}");
    }
    Ok(())
}
