// A desk of which one call fails.
use crate::desks::{CATALOG, LOCAL, desk_of, has_said, run_over, says};
use outside::{NoMemory, Status};
use std::alloc::Global;
use std::test::Fail;

const MESSAGES: &str =
    "hello\n{\"type\":\"RECORD\",\"record\":{\"stream\":\"a\",\"data\":{\"id\":7,\"v\":1},\"emitted_at\":1}}\n{\"type\":\"STATE\",\"state\":{\"type\":\"STREAM\",\"stream\":{\"stream_descriptor\":{\"name\":\"a\"},\"stream_state\":{\"n\":1}},\"sourceStats\":{\"recordCount\":1}}}\n";

const LINES: &[&str] = &[
    "source: hello",
    "saved {\"type\":\"STREAM\",\"stream\":{\"stream_descriptor\":{\"name\":\"a\"},\"stream_state\":{\"n\":1}},\"sourceStats\":{\"recordCount\":1}}",
    "attempt 1: 0 Ok",
    "table a rows 1",
    "row {\"id\":7,\"v\":1}",
    "status 0 Ok",
];

// Whether the run of which this call of the desk fails ends so and says these lines; 0: no call fails.
fn fails(alloc: Global, failing: u64, status: Status, lines: &[&str]) -> Result<bool, Fail> {
    let desk = desk_of(alloc, MESSAGES.as_bytes(), CATALOG.as_bytes(), failing)?;
    says(alloc, desk, LOCAL, status, lines)
}

#[test]
fn a_text_that_cannot_be_read_ends_the_run(rt: HostRuntime) -> Result<(), Fail> {
    for failing in 1..3 {
        let lines = ["status 13 FileFault"];
        let said = fails(rt.alloc(), failing, Status::FileFault, &lines)?;
        assert!(rt; said, "call {failing}");
    }
    Ok(())
}

#[test]
fn after_a_line_that_cannot_be_said_nothing_more_is_said(rt: HostRuntime) -> Result<(), Fail> {
    for said in 0..LINES.len() {
        let failing = said as u64 + 3;
        let is = fails(rt.alloc(), failing, Status::SayFault, &LINES[..said])?;
        assert!(rt; is, "after {said} lines");
    }
    Ok(())
}

#[test]
fn what_cannot_be_written_out_is_a_fault_of_saying(rt: HostRuntime) -> Result<(), Fail> {
    let flush = LINES.len() as u64 + 3;
    assert!(rt;
        fails(rt.alloc(), flush, Status::SayFault, LINES)?,
        "a flush that fails"
    );
    Ok(())
}

#[test]
fn a_desk_without_a_fault_says_all(rt: HostRuntime) -> Result<(), Fail> {
    assert!(rt; fails(rt.alloc(), 0, Status::Ok, LINES)?, "no fault");
    Ok(())
}

// Whether a run over the texts said all, or answered want of memory and said a front of it.
fn says_a_front(alloc: Global) -> Result<bool, NoMemory> {
    let mut desk = desk_of(alloc, MESSAGES.as_bytes(), CATALOG.as_bytes(), 0)?;
    match run_over(alloc, &mut desk, LOCAL)? {
        Status::Ok => Ok(has_said(&desk, LINES)),
        Status::NoMemory => Ok(
            desk.said().len() <= LINES.len() && has_said(&desk, &LINES[..desk.said().len()]),
        ),
        _ => Ok(false),
    }
}

#[test]
fn want_of_memory_leaves_a_front_of_what_is_said(rt: HostRuntime) {
    if let Ok(is) = says_a_front(rt.alloc()) {
        assert!(rt; is);
    }
}
