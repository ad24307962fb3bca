// Streams of bytes: short and failing readers and writers, and streams in memory.
ghost use Rattle.std.specs.Prelude.{◌≡◌, ◌<◌, ◌^◌, length};

use outside::{Bytes, FailList, Fault, NoMemory, Sink, Source, StdSink, StdSource};
use outside_mem::{MemSink, MemSource};
use std::alloc::Global;
use std::io::{self, ErrorKind, Read, Write};
use std::test::Fail;

// A reader or a writer that moves one byte a call, and of whose calls, counted from 1, the second is interrupted and
// the fourth fails.
#[derive(Drop)]
struct Narrow {
    calls: u8,
}

impl Narrow {
    // How many bytes this call moves.
    fn next(&mut self) -> io::Result<usize> {
        self.calls = self.calls.saturating_add(1);
        match self.calls {
            2 => Err(io::Error::from(ErrorKind::Interrupted)),
            4 => Err(io::Error::from(ErrorKind::BrokenPipe)),
            _ => Ok(1),
        }
    }
}

impl Read for Narrow {
    fn read(&mut self, room: &mut [u8]) -> io::Result<usize> {
        let count = self.next()?.min(room.len());
        for byte in room.iter_mut() {
            *byte = b'x';
        }
        Ok(count)
    }
}

impl Write for Narrow {
    fn write(&mut self, piece: &[u8]) -> io::Result<usize> {
        Ok(self.next()?.min(piece.len()))
    }

    fn flush(&mut self) -> io::Result<()> {
        Ok(())
    }
}

fn tell(alloc: Global, told: &mut Bytes, moved: Result<u32, Fault>) -> Result<(), NoMemory> {
    match moved {
        Ok(count) => {
            let text = format!(in alloc; "{count} ")?;
            told.extend(text.as_bytes())
        }
        Err(Fault::Failed) => told.extend(b"failed "),
        Err(Fault::NoMemory) => Err(NoMemory),
    }
}

// Reads three times into a room of four bytes; what was read stands behind.
fn read_thrice<S: Source>(alloc: Global, source: &mut S) -> Result<Bytes, NoMemory> {
    let mut told = Bytes::new(alloc);
    let mut room = [b'.'; 4];
    for _ in 0..3 {
        let read = source.read(&mut room);
        tell(alloc, &mut told, read)?;
        told.extend(&room)?;
        told.extend(b" ")?;
    }
    Ok(told)
}

// Writes these pieces.
fn write_all<S: Sink>(alloc: Global, sink: &mut S, pieces: &[&str]) -> Result<Bytes, NoMemory> {
    let mut told = Bytes::new(alloc);
    for piece in pieces {
        if piece.len() < 100 {
            let written = sink.write(piece.as_bytes());
            tell(alloc, &mut told, written)?;
        }
    }
    Ok(told)
}

#[test]
fn an_interrupted_read_is_made_again_and_a_failed_one_answered(
    rt: HostRuntime,
) -> Result<(), Fail> {
    let mut source = StdSource::new(Narrow { calls: 0 });
    let told = read_thrice(rt.alloc(), &mut source)?;
    assert_eq!(rt; told.as_slice(), b"1 xxxx 1 xxxx failed xxxx ".as_slice());
    Ok(())
}

#[test]
fn an_interrupted_write_is_made_again_and_a_failed_one_answered(
    rt: HostRuntime,
) -> Result<(), Fail> {
    let mut sink = StdSink::new(Narrow { calls: 0 });
    let told = write_all(rt.alloc(), &mut sink, &["ab", "b", "b", ""])?;
    assert_eq!(rt; told.as_slice(), b"1 1 failed 0 ".as_slice());
    Ok(())
}

#[test]
fn a_source_in_memory_gives_its_bytes_and_then_their_end(rt: HostRuntime) -> Result<(), Fail> {
    let alloc = rt.alloc();
    let mut source = MemSource::new(Bytes::copy_of(alloc, b"abcdef")?, FailList::new(alloc));
    let told = read_thrice(alloc, &mut source)?;
    assert_eq!(rt; told.as_slice(), b"4 abcd 2 efcd 0 efcd ".as_slice());
    Ok(())
}

#[test]
fn a_call_of_a_stream_in_memory_that_is_to_fail_moves_nothing(rt: HostRuntime) -> Result<(), Fail> {
    let alloc = rt.alloc();
    let mut fails = FailList::new(alloc);
    fails.push(2)?;
    let mut sink = MemSink::new(alloc, fails);
    let told = write_all(alloc, &mut sink, &["ab", "cd", "", "ef"])?;
    assert_eq!(rt; told.as_slice(), b"2 failed 0 2 ".as_slice());
    assert_eq!(rt; sink.bytes().as_slice(), b"abef".as_slice());
    Ok(())
}
