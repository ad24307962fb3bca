// The numbers and the texts of statuses, and copies of the small types.
use outside::{
    Breach, Bytes, CatalogFault, ConfigFault, Copies, Event, EventList, Exit, InputKind, NoMemory,
    RawRow, RawRowList, Side, StateFault, Status,
};
use std::alloc::Global;
use std::test::Fail;

// Whether the status has this number and this text.
fn is(alloc: Global, status: Status, number: u32, text: &str) -> Result<bool, NoMemory> {
    Ok(status.number() == number && status.text(alloc)?.as_slice() == text.as_bytes())
}

const OF_A_DESTINATION: &[(Status, u32, &str)] = &[
    (Status::Ok, 0, "0 Ok"),
    (Status::Usage, 2, "2 Usage"),
    (Status::Incomplete { stream: 1 }, 3, "3 Incomplete stream 1"),
    (
        Status::BadInput {
            kind: InputKind::TornTail,
            line: 9,
        },
        4,
        "4 BadInput TornTail line 9",
    ),
    (Status::StoreFault, 5, "5 StoreFault"),
    (Status::ReadFault, 6, "6 ReadFault"),
    (Status::WriteFault, 7, "7 WriteFault"),
    (Status::RowFault, 8, "8 RowFault"),
    (
        Status::BadRow { stream: 2, row: 40 },
        9,
        "9 BadRow stream 2 row 40",
    ),
    (
        Status::BadConfig(ConfigFault::OutOfRange),
        10,
        "10 BadConfig OutOfRange",
    ),
    (
        Status::BadCatalog(CatalogFault::TooMany),
        11,
        "11 BadCatalog TooMany",
    ),
    (
        Status::BadCatalog(CatalogFault::GenerationsSpent { stream: 3 }),
        11,
        "11 BadCatalog GenerationsSpent stream 3",
    ),
    (Status::BadState(StateFault::Blob), 12, "12 BadState Blob"),
    (Status::FileFault, 13, "13 FileFault"),
    (Status::TooManyLines, 50, "50 TooManyLines"),
];

#[test]
fn statuses_of_a_destination_have_their_numbers_and_texts(rt: HostRuntime) -> Result<(), Fail> {
    for (status, number, text) in OF_A_DESTINATION {
        assert!(rt; is(rt.alloc(), *status, *number, text)?, "{text}");
    }
    Ok(())
}

#[test]
fn faults_make_statuses(rt: HostRuntime) -> Result<(), Fail> {
    let alloc = rt.alloc();
    let no_memory = Status::from(CatalogFault::NoMemory);
    let mixed = Status::from(StateFault::Mixed);
    let not_json = Status::from(ConfigFault::NotJson);
    assert!(rt; is(alloc, no_memory, 70, "70 NoMemory")?);
    assert!(rt; is(alloc, mixed, 12, "12 BadState Mixed")?);
    assert!(rt; is(alloc, not_json, 10, "10 BadConfig NotJson")?);
    Ok(())
}

const OF_A_WORKER: &[(Status, u32, &str)] = &[
    (
        Status::SourceFailed(Exit::Code(3)),
        20,
        "20 SourceFailed code 3",
    ),
    (
        Status::SourceFailed(Exit::Signal),
        20,
        "20 SourceFailed signal",
    ),
    (
        Status::SourceBreach {
            breach: Breach::UnknownStream,
            line: 4,
        },
        21,
        "21 SourceBreach UnknownStream line 4",
    ),
    (
        Status::SourceBreach {
            breach: Breach::Miscount {
                said: 3,
                counted: 2,
            },
            line: 7,
        },
        21,
        "21 SourceBreach Miscount line 7 said 3 counted 2",
    ),
    (
        Status::SourceIncomplete { stream: 0 },
        22,
        "22 SourceIncomplete stream 0",
    ),
    (Status::Silent { waits: 5400 }, 23, "23 Silent waits 5400"),
    (
        Status::ConfigError {
            side: Side::Dest,
            line: 2,
        },
        24,
        "24 ConfigError dest line 2",
    ),
    (Status::CheckFailed { line: 1 }, 25, "25 CheckFailed line 1"),
    (Status::NoAnswer, 26, "26 NoAnswer"),
    (Status::DestFailed(Exit::Signal), 30, "30 DestFailed signal"),
    (
        Status::DestBreach {
            breach: Breach::Stranger,
            line: 8,
        },
        31,
        "31 DestBreach Stranger line 8",
    ),
    (
        Status::DestUnechoed { line: 6 },
        32,
        "32 DestUnechoed line 6",
    ),
    (Status::DestEarly, 33, "33 DestEarly"),
    (Status::LinkFault, 40, "40 LinkFault"),
    (Status::StateFault, 41, "41 StateFault"),
    (Status::SayFault, 42, "42 SayFault"),
    (Status::Unbuilt { line: 0 }, 60, "60 Unbuilt line 0"),
    (Status::Unbuilt { line: 7 }, 60, "60 Unbuilt line 7"),
    (
        Status::Unbuilt {
            line: 18_446_744_073_709_551_615,
        },
        60,
        "60 Unbuilt line 18446744073709551615",
    ),
    (Status::NoMemory, 70, "70 NoMemory"),
];

#[test]
fn statuses_of_a_worker_have_their_numbers_and_texts(rt: HostRuntime) -> Result<(), Fail> {
    for (status, number, text) in OF_A_WORKER {
        assert!(rt; is(rt.alloc(), *status, *number, text)?, "{text}");
    }
    Ok(())
}

// A row whose texts are single letters.
fn row_of(alloc: Global) -> Result<RawRow, NoMemory> {
    Ok(RawRow {
        load: 1,
        seq: 2,
        generation: 3,
        extracted_at: 4,
        loaded_at: 5,
        raw_id: Bytes::copy_of(alloc, b"i")?,
        key: Bytes::copy_of(alloc, b"k")?,
        cursor: Bytes::copy_of(alloc, b"c")?,
        body: Bytes::copy_of(alloc, b"b")?,
        columns: Bytes::copy_of(alloc, b"l")?,
        meta: Bytes::copy_of(alloc, b"m")?,
    })
}

// Rows that were committed, and an end.
fn events_of(alloc: Global) -> Result<EventList, NoMemory> {
    let mut rows = RawRowList::new(alloc);
    rows.push(row_of(alloc)?)?;
    let mut events = EventList::new(alloc);
    events.push(Event::Committed { stream: 7, rows })?;
    events.push(Event::Closed)?;
    Ok(events)
}

#[test]
fn events_are_copied(rt: HostRuntime) -> Result<(), Fail> {
    let copied = events_of(rt.alloc())?.copy(rt.alloc())?;
    assert_eq!(rt; copied.len(), 2);
    assert!(rt; matches!(copied.as_slice().get(1), Some(Event::Closed)));
    Ok(())
}
