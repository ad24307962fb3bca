// Lines of a source that gives few bytes at once, and lines to a sink that takes few.
ghost use Rattle.std.specs.Prelude.{◌≡◌, ◌≤◌, IfOk, IfSome, length, None};

use line_streams::{InputLines, OutputLines};
use outside::{Bytes, Copies, FailList, Fault, NoMemory, Polled, Sink, Source};
use outside_mem::{MemSink, MemSource};
use std::alloc::Global;
use std::test::Fail;

// Gives few bytes of another source a call, and wants memory at every fourth where it is short of it.
#[derive(Drop)]
struct Drops {
    source: MemSource,
    most: usize,
    is_short: bool,
    calls: u64,
}

impl Source for Drops {
    ghost left = { λ _. None };

    ghost faults = { λ drops. drops.source.faults };

    fn read(&mut self, room: &mut [u8]) -> Result<u32, Fault> {
        self.calls = self.calls.saturating_add(1);
        if self.is_short && self.calls & 3 == 0 {
            return Err(Fault::NoMemory);
        }
        let most = room.len().min(self.most.max(1));
        self.source.read(&mut room[..most])
    }
}

fn tell(alloc: Global, told: &mut Bytes, polled: &Polled) -> Result<(), NoMemory> {
    let kind: &[u8] = match polled {
        Polled::Line(line) | Polled::Torn(line) => {
            told.extend(line.as_slice())?;
            b""
        }
        Polled::TooLong => b"TooLong",
        Polled::NotYet => b".",
        Polled::End => b"End",
        Polled::Failed => b"Failed",
        Polled::NoMemory => b"?",
    };
    told.extend(kind)?;
    told.extend(if matches!(polled, Polled::Torn(_)) {
        b" torn"
    } else {
        b""
    })?;
    told.push(b' ')
}

// What so many polls give.
fn poll_times<S: Source + Drop>(alloc: Global, source: S, times: u32) -> Result<Bytes, NoMemory> {
    let mut told = Bytes::new(alloc);
    let mut input = InputLines::new(alloc, source)?;
    for _ in 0..times {
        tell(alloc, &mut told, &input.poll())?;
    }
    Ok(told)
}

fn source_of(alloc: Global, text: &[u8], failing: u64) -> Result<MemSource, NoMemory> {
    let mut fails = FailList::new(alloc);
    fails.push(failing)?;
    Ok(MemSource::new(Bytes::copy_of(alloc, text)?, fails))
}

#[test]
fn lines_come_in_order_however_the_source_is_cut(rt: HostRuntime) -> Result<(), Fail> {
    let alloc = rt.alloc();
    let whole = poll_times(alloc, source_of(alloc, b"one\n\ntwo\n three", 2)?, 6)?;
    assert_eq!(rt;
        whole.as_slice(),
        b"one two Failed  three torn End End ".as_slice()
    );
    let drops = Drops {
        source: source_of(alloc, b"one\n\ntwo\n three", 3)?,
        most: 3,
        is_short: true,
        calls: 0,
    };
    let cut = poll_times(alloc, drops, 9)?;
    assert_eq!(rt;
        cut.as_slice(),
        b"one Failed ? two ?  three torn End End End ".as_slice()
    );
    Ok(())
}

// More bytes than polls in a row may bring nothing.
const LONG: usize = 12_000;

#[test]
fn a_line_that_comes_byte_by_byte_is_never_silence(rt: HostRuntime) -> Result<(), Fail> {
    let alloc = rt.alloc();
    let mut text = Bytes::new(alloc);
    for _ in 0..LONG {
        text.push(b'x')?;
    }
    let mut wanted = text.copy(alloc)?;
    text.extend(b"\ny")?;
    wanted.extend(b" y torn End ")?;
    let drops = Drops {
        source: source_of(alloc, text.as_slice(), 1_000_000)?,
        most: 1,
        is_short: false,
        calls: 0,
    };
    assert!(rt; poll_times(alloc, drops, 3)? == wanted);
    Ok(())
}

// What the sink has when these lines were emitted, behind a word for each.
fn emit_all(alloc: Global, failing: u64) -> Result<Bytes, NoMemory> {
    let mut told = Bytes::new(alloc);
    let mut fails = FailList::new(alloc);
    fails.push(failing)?;
    let mut output = OutputLines::new(alloc, MemSink::new(alloc, fails));
    for line in ["a", "", "bc"] {
        told.extend(match output.emit(line.as_bytes()) {
            Ok(()) => b"ok ",
            Err(Fault::Failed) => b"no ",
            Err(Fault::NoMemory) => return Err(NoMemory),
        })?;
    }
    Ok(told)
}

#[test]
fn after_a_line_that_failed_no_other_is_written(rt: HostRuntime) -> Result<(), Fail> {
    let alloc = rt.alloc();
    assert_eq!(rt; emit_all(alloc, 9)?.as_slice(), b"ok ok ok ".as_slice());
    assert_eq!(rt; emit_all(alloc, 2)?.as_slice(), b"ok no no ".as_slice());
    Ok(())
}
