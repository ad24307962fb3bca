// The worker's top call.
ghost use Rattle.std.specs.Prelude.{◌≡◌, ◌≢◌, None, Some, IfNone, IsSome, map, string_bytes, IfOk, OnErr, IsErrOf};
ghost use Rattle.basics.specs.Told.{Rose, RoseIf};
ghost use Rattle.outside.specs.Desk.{SaysOnly};
ghost use Rattle.outside.specs.FaultCounts.{StaysUnlessFailed};
ghost use Rattle.worker_run.specs.Faults.{StaysUnlessSayFault};
ghost use Rattle.worker_run.specs.Reading.{Reads, ReadsSome, Attempted, StopsShort, SaysBody, SaysLast, EndsAtFault, WritesOut, Says, EndsWithoutCommand, EndsAndSays, IsOnlyEnd, EndsWithStatus, NothingUnbuilt, IsOkOrNoMemory, IsReadFault, IsSayFault, IsUsageEnd};
ghost use Rattle.worker_run.specs.Words.{asked as asked_of};

use crate::catalog::stream_of;
use crate::end::End;
use crate::output::{say_end, say_other, say_saved, say_status, say_usage};
use crate::words::{TextNames, asked};
use crate::{PlainWorld, Step};
use outside::{Bytes, Desk, Fault, Link, Name, Status};
use std::alloc::Global;

// What a fault of reading makes of a run.
fn read_fault(fault: Fault) -> End
    ensures { IsReadFault fault result }
{
    match fault {
        Fault::Failed => End::FileFault,
        Fault::NoMemory => End::NoMemory,
    }
}

// What a fault of saying makes of a run.
fn say_fault(fault: Fault) -> End
    ensures { IsSayFault fault result }
{
    match fault {
        Fault::Failed => End::SayFault,
        Fault::NoMemory => End::NoMemory,
    }
}

// Takes the lines of a world one by one, and says what each of them says.
fn take_lines<K: Desk>(alloc: Global, desk: &mut K, world: &mut PlainWorld) -> Result<End, Fault>
    ensures lines { IfOk result (λ end. Reads world.old world.new end (K.seen desk.old).said (K.seen desk.new).said) }
    ensures fault { OnErr result (ReadsSome world.old (K.seen desk.old).said (K.seen desk.new).said) }
    ensures only { SaysOnly (IsErrOf result Fault.Failed) (K.seen desk.old) (K.seen desk.new) }
    ensures stays { StaysUnlessFailed result (K.seen desk.old).say_faults (K.seen desk.new).say_faults }
{
    'lines: for _ in 0..u64::MAX {
        match world.step()? {
            Step::Record => {}
            Step::Saved(object) => say_saved(alloc, desk, object.as_slice())?,
            Step::Other(said) => say_other(desk, said)?,
            Step::Done => return Ok(End::Ok),
            Step::Unbuilt(line) => return Ok(End::Unbuilt { line }),
        }
    }
    Err(Fault::NoMemory)
}

// One attempt over the messages, with its lines; at Ok the table follows.
fn run_attempt<K: Desk>(
    alloc: Global,
    desk: &mut K,
    messages: Bytes,
    stream: Name,
) -> Result<End, Fault>
    ensures attempt { IfOk result (λ end. Attempted messages stream end (K.seen desk.old).said (K.seen desk.new).said) }
    ensures fault { OnErr result (StopsShort messages stream (K.seen desk.old).said (K.seen desk.new).said) }
    ensures only { SaysOnly (IsErrOf result Fault.Failed) (K.seen desk.old) (K.seen desk.new) }
    ensures stays { StaysUnlessFailed result (K.seen desk.old).say_faults (K.seen desk.new).say_faults }
{
    let mut world = PlainWorld::new(alloc, messages, stream)?;
    let end = take_lines(alloc, desk, &mut world)?;
    say_end(alloc, desk, &world, end)?;
    Ok(end)
}

// The command `local`, but for its last line.
fn run_local<K: Desk>(alloc: Global, desk: &mut K, names: TextNames<'_>) -> End
    ensures says { SaysBody (K.seen desk.old).texts (Some (record { messages = names.entry.messages.now; catalog = names.entry.catalog.now })) result (K.seen desk.old).said (K.seen desk.new).said }
    ensures read_faults { RoseIf (result ≡ End.FileFault) (K.seen desk.old).read_faults (K.seen desk.new).read_faults }
    ensures say_faults { RoseIf (result ≡ End.SayFault) (K.seen desk.old).say_faults (K.seen desk.new).say_faults }
    ensures stays { StaysUnlessSayFault result (K.seen desk.old).say_faults (K.seen desk.new).say_faults }
    ensures texts { (K.seen desk.new).texts ≡ (K.seen desk.old).texts }
{
    let catalog = match desk.read_text(alloc, names.catalog) {
        Ok(text) => text,
        Err(fault) => return read_fault(fault),
    };
    let stream = match stream_of(alloc, catalog.as_slice()) {
        Ok(Some(stream)) => stream,
        Ok(None) => return End::Unbuilt { line: 0 },
        Err(_) => return End::NoMemory,
    };
    let messages = match desk.read_text(alloc, names.messages) {
        Ok(text) => text,
        Err(fault) => return read_fault(fault),
    };
    match run_attempt(alloc, desk, messages, stream) {
        Ok(end) => end,
        Err(fault) => say_fault(fault),
    }
}

// Does what the words ask for, but for the last line.
fn run_words<K: Desk>(alloc: Global, desk: &mut K, words: &[String]) -> End
    ensures says { SaysBody (K.seen desk.old).texts (asked_of (map string_bytes words.now)) result (K.seen desk.old).said (K.seen desk.new).said }
    ensures read_faults { RoseIf (result ≡ End.FileFault) (K.seen desk.old).read_faults (K.seen desk.new).read_faults }
    ensures say_faults { RoseIf (result ≡ End.SayFault) (K.seen desk.old).say_faults (K.seen desk.new).say_faults }
    ensures stays { StaysUnlessSayFault result (K.seen desk.old).say_faults (K.seen desk.new).say_faults }
    ensures texts { (K.seen desk.new).texts ≡ (K.seen desk.old).texts }
    ensures other_words { IfNone (asked_of (map string_bytes words.now)) (EndsWithoutCommand result) }
{
    match asked(words) {
        Some(names) => run_local(alloc, desk, names),
        None => match say_usage(desk) {
            Ok(()) => End::Usage,
            Err(fault) => say_fault(fault),
        },
    }
}

// Says how the run ended, unless a line could not be said before or memory is wanting.
fn say_last<K: Desk>(alloc: Global, desk: &mut K, end: End) -> End
    ensures last { SaysLast end result (K.seen desk.old).said (K.seen desk.new).said }
    ensures only { SaysOnly (EndsAtFault end result) (K.seen desk.old) (K.seen desk.new) }
    ensures stays { StaysUnlessSayFault result (K.seen desk.old).say_faults (K.seen desk.new).say_faults }
{
    if matches!(end, End::SayFault | End::NoMemory) {
        return end;
    }
    match say_status(alloc, desk, end.status()) {
        Ok(()) => end,
        Err(fault) => say_fault(fault),
    }
}

// Writes out what was said.
fn write_out<K: Desk>(desk: &mut K, last: End) -> End
    ensures writes { WritesOut last result }
    ensures said { (K.seen desk.new).said ≡ (K.seen desk.old).said }
    ensures only { SaysOnly (EndsAtFault last result) (K.seen desk.old) (K.seen desk.new) }
    ensures stays { StaysUnlessSayFault result (K.seen desk.old).say_faults (K.seen desk.new).say_faults }
{
    match desk.flush() {
        Ok(()) => last,
        Err(Fault::Failed) => End::SayFault,
        Err(Fault::NoMemory) => unreachable!(),
    }
}

// Does what the words ask for, says its lines and writes them out.
fn run_to_end<K: Desk>(alloc: Global, desk: &mut K, words: &[String]) -> End
    ensures says { Says (K.seen desk.old).texts (asked_of (map string_bytes words.now)) (Rose (K.seen desk.old).read_faults (K.seen desk.new).read_faults) result (K.seen desk.old).said (K.seen desk.new).said }
    ensures read_faults { RoseIf (result ≡ End.FileFault) (K.seen desk.old).read_faults (K.seen desk.new).read_faults }
    ensures say_faults { RoseIf (result ≡ End.SayFault) (K.seen desk.old).say_faults (K.seen desk.new).say_faults }
    ensures stays { StaysUnlessSayFault result (K.seen desk.old).say_faults (K.seen desk.new).say_faults }
    ensures texts { (K.seen desk.new).texts ≡ (K.seen desk.old).texts }
    ensures other_words { IfNone (asked_of (map string_bytes words.now)) (EndsWithoutCommand result) }
{
    let end = run_words(alloc, desk, words);
    let last = say_last(alloc, desk, end);
    write_out(desk, last)
}

/// Runs the worker: does what the words ask for, says its lines on the desk, writes them out, and answers how it ended.
///
/// After a line that could not be said, and without memory, nothing more is said; else the last line said is `status `
/// and the text of the answer. Where what was said cannot be written out, the answer is `SayFault`. The link is not used
/// by the commands that are built.
pub fn run<K: Desk, L: Link>(alloc: Global, desk: &mut K, _link: &mut L, words: &[String]) -> Status
    ensures says { EndsAndSays (K.seen desk.old).texts (asked_of (map string_bytes words.now)) (Rose (K.seen desk.old).read_faults (K.seen desk.new).read_faults) result (K.seen desk.old).said (K.seen desk.new).said }
    ensures only { IsOnlyEnd (K.seen desk.old).texts (asked_of (map string_bytes words.now)) result }
    ensures last { EndsWithStatus result (K.seen desk.old).said (K.seen desk.new).said }
    ensures usage { result ≡ Status.Usage → asked_of (map string_bytes words.now) ≡ None }
    ensures other_words { IfNone (asked_of (map string_bytes words.now)) (IsUsageEnd result) }
    ensures read_faults { RoseIf (result ≡ Status.FileFault) (K.seen desk.old).read_faults (K.seen desk.new).read_faults }
    ensures say_faults { RoseIf (result ≡ Status.SayFault) (K.seen desk.old).say_faults (K.seen desk.new).say_faults }
    ensures stays { result ≢ Status.SayFault → (K.seen desk.new).say_faults ≡ (K.seen desk.old).say_faults }
    ensures complete { IsSome (asked_of (map string_bytes words.now)) → NothingUnbuilt (K.seen desk.old).texts (asked_of (map string_bytes words.now)) → ¬ Rose (K.seen desk.old).read_faults (K.seen desk.new).read_faults → ¬ Rose (K.seen desk.old).say_faults (K.seen desk.new).say_faults → IsOkOrNoMemory result }
    ensures texts { (K.seen desk.new).texts ≡ (K.seen desk.old).texts }
    ensures link { L.seen _link.new ≡ L.seen _link.old }
{
    run_to_end(alloc, desk, words).status()
}
