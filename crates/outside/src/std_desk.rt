// The desk of a process: files, and standard output through one buffer.
ghost use Rattle.std.specs.Prelude.{◌≡◌, None, IfOk};

use crate::{Desk, Fault};
use basics::{Bytes, NoMemory};
use std::alloc::Global;
use std::fs::File;
use std::io::{self, BufWriter, ErrorKind, Printer, Read, Write};
use std::rt::Files;

const PIECE: usize = 65_536;

const LONGEST_TEXT: usize = 4_294_967_296;

/// The desk of a process. A text is the file of that name, at most 4,294,967,296 bytes of it; lines go to standard
/// output through one buffer of 64 KiB, which `flush` writes out. It tells neither texts nor lines.
#[derive(Drop)]
pub struct StdDesk<'a, R: Files + Print + Drop> {
    runtime: &'a R,
    output: BufWriter<Printer<'a, R>>,
    read_faults: u64,
    say_faults: u64,
}

impl<'a, R: Files + Print + Drop> StdDesk<'a, R> {
    /// A desk that has counted nothing yet.
    pub fn new(alloc: Global, runtime: &'a R) -> Result<Self, NoMemory>
        ensures { IfOk result (λ desk. (desk.read_faults ≡ 0) × (desk.say_faults ≡ 0)) }
    {
        let Ok(output) = BufWriter::with_capacity(alloc, PIECE, io::writer(runtime)) else {
            return Err(NoMemory);
        };
        Ok(StdDesk {
            runtime,
            output,
            read_faults: 0,
            say_faults: 0,
        })
    }
}

// The whole of a file.
fn read_file<R: Files>(runtime: &R, alloc: Global, name: &str) -> Result<Bytes, Fault> {
    let Ok(mut file) = File::open(runtime, name) else {
        return Err(Fault::Failed);
    };
    let mut text = Vec::new(alloc);
    let mut piece = [0u8; PIECE];
    for _ in 0..u64::MAX {
        match file.read(&mut piece) {
            Ok(0) => return Ok(Bytes::from_vec(text)),
            Ok(size) => text.extend_from_slice(&piece[..size])?,
            Err(error) if error.kind() == ErrorKind::Interrupted => {}
            Err(_) => return Err(Fault::Failed),
        }
        if text.len() > LONGEST_TEXT {
            return Err(Fault::Failed);
        }
    }
    Err(Fault::Failed)
}

impl<R: Files + Print + Drop> Desk for StdDesk<'_, R> {
    ghost seen = { λ desk. record { texts = None; said = None; read_faults = desk.read_faults; say_faults = desk.say_faults } };

    fn read_text(&mut self, alloc: Global, name: &str) -> Result<Bytes, Fault> {
        let text = read_file(self.runtime, alloc, name);
        if let Err(Fault::Failed) = text {
            self.read_faults = self.read_faults.saturating_add(1);
        }
        text
    }

    fn say(&mut self, line: &[u8]) -> Result<(), Fault> {
        if self.output.write_all(line).is_err() || self.output.write_all(b"\n").is_err() {
            self.say_faults = self.say_faults.saturating_add(1);
            return Err(Fault::Failed);
        }
        Ok(())
    }

    fn flush(&mut self) -> Result<(), Fault> {
        if self.output.flush().is_err() {
            self.say_faults = self.say_faults.saturating_add(1);
            return Err(Fault::Failed);
        }
        Ok(())
    }
}
