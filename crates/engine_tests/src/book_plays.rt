// Calls on a book over a dock in memory, and what they answer.
ghost use Rattle.std.specs.Prelude.{◌≡◌, ◌<◌, IsTrue, length};
ghost use Rattle.outside.specs.Limits.{AreLimits};

use basics::{Bytes, FailList, NoMemory, StreamNo};
use batch_prep::{Prepared, WorkItem, prepare};
use book_rules::{Accepted, BookState, Finished, Put};
use catalog::{Configured, read_configured};
use dest_book::Book;
use json_write::put_number;
use outside::{Event, HandDock, Limits, SeqLineList, Status};
use outside_mem::MemDock;
use std::alloc::Global;

/// A line of the input.
#[derive(Clone, Copy)]
pub enum Line {
    Text(&'static str),
    /// A record of stream `a` with so many bytes.
    Long(usize),
}

/// What stands behind the lines.
#[derive(Clone, Copy)]
pub enum Tail {
    /// More may come.
    Open,
    End,
    /// A piece that has no newline.
    Torn(&'static str),
}

/// The lines of an input, and what stands behind them.
pub type Input = (&'static [Line], Tail);

/// What is done with a book.
#[derive(Clone, Copy)]
pub enum Act {
    Accept,
    /// The input ends.
    Close,
    Pick,
    /// The batch that was picked at this place, from 0, is prepared and put.
    Put(usize),
    /// The same, but with no line in it.
    PutEmptied(usize),
    /// The batch that was picked at this place is given back.
    GiveBack(usize),
    Recall,
    /// The stream with this number is finished.
    Finish(StreamNo),
}

/// The bounds of a book: slots, bytes, records in a batch, and rows in a page.
pub type Bounds = (u32, u64, u32, u32);

// A line that is a record of stream `a`, with so many bytes.
fn long_record(alloc: Global, len: usize) -> Result<Bytes, NoMemory> {
    let front = br#"{"type":"RECORD","record":{"stream":"a","data":{"x":""#;
    let back = br#""},"emitted_at":1}}"#;
    let mut line = Bytes::with_capacity(alloc, len)?;
    line.extend(front)?;
    let fill = len.saturating_sub(front.len() + back.len());
    line.extend(vec![in alloc; b'x'; fill]?.as_slice())?;
    line.extend(back)?;
    Ok(line)
}

fn put_status(
    alloc: Global,
    told: &mut Bytes,
    front: &[u8],
    status: Status,
) -> Result<(), NoMemory> {
    let text = status.text(alloc)?;
    told.extend(front)?;
    told.extend(text.as_slice())?;
    told.push(b'\n')
}

fn put_accepted(alloc: Global, told: &mut Bytes, answer: Accepted) -> Result<(), NoMemory> {
    match answer {
        Accepted::Took => told.extend(b"took\n"),
        Accepted::NotYet => told.extend(b"not yet\n"),
        Accepted::End => told.extend(b"end\n"),
        Accepted::Full => told.extend(b"full\n"),
        Accepted::Broken(stop) => put_status(alloc, told, b"broken ", stop),
    }
}

fn put_item(told: &mut Bytes, item: &WorkItem) -> Result<(), NoMemory> {
    told.extend(b"batch")?;
    for line in item.lines.as_slice() {
        told.push(b' ')?;
        put_number(told, line.seq)?;
    }
    told.push(b'\n')
}

fn put_put(alloc: Global, told: &mut Bytes, answer: Put) -> Result<(), NoMemory> {
    match answer {
        Put::Done => told.extend(b"done\n"),
        Put::Stranger(_) => told.extend(b"stranger\n"),
        Put::Broken(stop) => put_status(alloc, told, b"broken ", stop),
    }
}

// The item that was picked at this place, which is held no more.
fn take_item(items: &mut Vec<Option<WorkItem>>, place: usize) -> Option<WorkItem> {
    match items.get_mut(place) {
        Some(held) => held.take(),
        None => None,
    }
}

fn prepared(alloc: Global, item: WorkItem) -> Result<Prepared, NoMemory> {
    match prepare(alloc, item) {
        Ok(done) => Ok(done),
        Err(_) => Err(NoMemory),
    }
}

fn put_batch(
    alloc: Global,
    book: &mut Book<MemDock>,
    item: WorkItem,
    told: &mut Bytes,
) -> Result<(), NoMemory>
    ensures { book.new.catalog ≡ book.old.catalog }
{
    let done = prepared(alloc, item)?;
    let answer = book.put(done);
    put_put(alloc, told, answer)
}

// Accepts, and tells what became of it.
fn accept_on(alloc: Global, book: &mut Book<MemDock>, told: &mut Bytes) -> Result<(), NoMemory>
    ensures { book.new.catalog ≡ book.old.catalog }
{
    let answer = book.accept();
    put_accepted(alloc, told, answer)
}

// Keeps a batch that was picked, and tells its records.
fn keep(
    items: &mut Vec<Option<WorkItem>>,
    item: WorkItem,
    told: &mut Bytes,
) -> Result<(), NoMemory> {
    put_item(told, &item)?;
    items.push(Some(item))?;
    Ok(())
}

fn pick_on(
    book: &mut Book<MemDock>,
    items: &mut Vec<Option<WorkItem>>,
    told: &mut Bytes,
) -> Result<(), NoMemory>
    ensures { book.new.catalog ≡ book.old.catalog }
{
    match book.pick()? {
        Some(item) => keep(items, item, told),
        None => told.extend(b"none\n"),
    }
}

// Puts a batch that was picked, and tells what became of it; or that none was held.
fn put_on(
    alloc: Global,
    book: &mut Book<MemDock>,
    held: Option<WorkItem>,
    told: &mut Bytes,
) -> Result<(), NoMemory>
    ensures { book.new.catalog ≡ book.old.catalog }
{
    match held {
        Some(item) => put_batch(alloc, book, item, told),
        None => told.extend(b"?\n"),
    }
}

// The same item with no line.
fn emptied(alloc: Global, held: Option<WorkItem>) -> Option<WorkItem> {
    let mut item = held?;
    item.lines = SeqLineList::new(alloc);
    Some(item)
}

fn give_back_on(
    book: &mut Book<MemDock>,
    held: Option<WorkItem>,
    told: &mut Bytes,
) -> Result<(), NoMemory>
    ensures { book.new.catalog ≡ book.old.catalog }
{
    let Some(item) = held else {
        return told.extend(b"?\n");
    };
    match book.give_back(item) {
        None => told.extend(b"sealed\n"),
        Some(_) => told.extend(b"back\n"),
    }
}

fn put_finished(
    alloc: Global,
    told: &mut Bytes,
    answer: Result<Finished, Status>,
) -> Result<(), NoMemory> {
    match answer {
        Ok(Finished::Kept) => told.extend(b"kept\n"),
        Ok(Finished::Shown) => told.extend(b"shown\n"),
        Ok(Finished::NotComplete) => told.extend(b"not complete\n"),
        Ok(Finished::Undrained) => told.extend(b"undrained\n"),
        Err(stop) => put_status(alloc, told, b"broken ", stop),
    }
}

// Finishes a stream of the catalog, and tells what became of it.
fn finish_on(
    alloc: Global,
    book: &mut Book<MemDock>,
    stream: StreamNo,
    told: &mut Bytes,
) -> Result<(), NoMemory>
    requires { stream < length book.old.catalog }
    ensures { book.new.catalog ≡ book.old.catalog }
{
    let answer = book.finish(stream);
    put_finished(alloc, told, answer)
}

fn act_on(
    alloc: Global,
    book: &mut Book<MemDock>,
    streams: u32,
    items: &mut Vec<Option<WorkItem>>,
    act: Act,
    told: &mut Bytes,
) -> Result<(), NoMemory>
    requires { streams ≡ length book.old.catalog }
    ensures { book.new.catalog ≡ book.old.catalog }
{
    match act {
        Act::Finish(stream) => {
            if stream < streams {
                finish_on(alloc, book, stream, told)?;
            }
        }
        Act::Close => book.close_input(None),
        Act::Recall => book.recall(),
        Act::Accept => accept_on(alloc, book, told)?,
        Act::Pick => pick_on(book, items, told)?,
        Act::Put(place) => put_on(alloc, book, take_item(items, place), told)?,
        Act::PutEmptied(place) => {
            let held = emptied(alloc, take_item(items, place));
            put_on(alloc, book, held, told)?;
        }
        Act::GiveBack(place) => give_back_on(book, take_item(items, place), told)?,
    }
    Ok(())
}

fn put_emitted(book: &mut Book<MemDock>, told: &mut Bytes) -> Result<(), NoMemory>
    ensures { book.new.catalog ≡ book.old.catalog }
{
    'lines: for _ in 0..1_000 {
        let Some(line) = book.take_output() else {
            return Ok(());
        };
        told.extend(b"> ")?;
        told.extend(line.as_slice())?;
        told.push(b'\n')?;
    }
    Ok(())
}

// The rows that were committed, by load and sequence, one commit behind another.
fn put_rows(dock: &MemDock, told: &mut Bytes) -> Result<(), NoMemory> {
    told.extend(b"rows")?;
    for event in dock.events().as_slice() {
        if let Event::Committed { rows, .. } = event {
            for row in rows.as_slice() {
                told.push(b' ')?;
                put_number(told, row.load)?;
                told.push(b':')?;
                put_number(told, row.seq)?;
            }
        }
    }
    Ok(())
}

fn put_state(alloc: Global, told: &mut Bytes, state: BookState) -> Result<(), NoMemory> {
    match state {
        BookState::Running => told.extend(b"running\n"),
        BookState::Ended => told.extend(b"ended\n"),
        BookState::Broken(stop) => put_status(alloc, told, b"stays broken ", stop),
    }
}

// The bytes of a line.
fn text_of(alloc: Global, line: Line) -> Result<Bytes, NoMemory> {
    match line {
        Line::Text(text) => Bytes::copy_of(alloc, text.as_bytes()),
        Line::Long(len) => long_record(alloc, len),
    }
}

// Puts this into the dock's input, which is open.
fn fill(alloc: Global, dock: &mut MemDock, input: Input) -> Result<(), NoMemory>
    requires { IsTrue dock.old.hand.is_open }
{
    let (lines, tail) = input;
    for line in lines {
        let text = text_of(alloc, *line)?;
        dock.push_input(text)?;
    }
    match tail {
        Tail::Open => {}
        Tail::End => dock.close_input(None),
        Tail::Torn(torn) => dock.close_input(Some(Bytes::copy_of(alloc, torn.as_bytes())?)),
    }
    Ok(())
}

// A new dock with this input, whose calls with these numbers fail.
fn dock_with(alloc: Global, input: Input, fails: &[u64]) -> Result<MemDock, NoMemory> {
    let mut failing = FailList::new(alloc);
    for number in fails {
        failing.push(*number)?;
    }
    let mut dock = MemDock::new(alloc, 0, failing)?;
    fill(alloc, &mut dock, input)?;
    Ok(dock)
}

// One page or showing after another: of a merge how many winners it wrote and its mark, of a showing the floor and the top.
fn put_turns(dock: &MemDock, told: &mut Bytes) -> Result<(), NoMemory> {
    for event in dock.events().as_slice() {
        match event {
            Event::Merged {
                stream,
                winners,
                mark,
            } => put_numbers(told, b"\nmerged", *stream, winners.len() as u64, *mark)?,
            Event::Shown { stream, floor, top } => {
                put_numbers(told, b"\nshown", *stream, *floor, *top)?
            }
            _ => {}
        }
    }
    Ok(())
}

fn put_numbers(
    told: &mut Bytes,
    front: &[u8],
    stream: StreamNo,
    first: u64,
    second: u64,
) -> Result<(), NoMemory> {
    told.extend(front)?;
    for number in [u64::from(stream), first, second] {
        told.push(b' ')?;
        put_number(told, number)?;
    }
    Ok(())
}

// Does all this with a book that was started, and tells how it stands then; its dock comes back.
fn play_book(
    alloc: Global,
    mut book: Book<MemDock>,
    streams: u32,
    acts: &[Act],
    told: &mut Bytes,
) -> Result<MemDock, NoMemory>
    requires { streams ≡ length book.catalog }
{
    let mut items = Vec::new(alloc);
    for act in acts {
        act_on(alloc, &mut book, streams, &mut items, *act, told)?;
        put_emitted(&mut book, told)?;
    }
    put_state(alloc, told, book.state())?;
    Ok(book.into_dock())
}

// The limits with these bounds.
fn limits_of(bounds: Bounds) -> Limits {
    let (slots, bytes, batch, page) = bounds;
    Limits {
        slots,
        bytes,
        batch,
        workers: 1,
        page,
    }
}

// Does all this with a book of the catalog over the dock, which comes back; a start that is refused is told.
fn play_load(
    alloc: Global,
    dock: MemDock,
    configured: &Configured,
    limits: Limits,
    acts: &[Act],
    told: &mut Bytes,
) -> Result<MemDock, NoMemory>
    requires { AreLimits limits }
{
    match Book::start(alloc, dock, configured, limits) {
        Ok(book) => play_book(alloc, book, configured.len(), acts, told),
        Err((dock, status)) => {
            put_status(alloc, told, b"refused ", status)?;
            Ok(dock)
        }
    }
}

/// What a book over a new dock with this input, whose calls with these numbers fail, answers to each act, with the lines that it
/// emits, how it stands in the end, the rows that were committed, and the merges and showings.
pub fn play(
    alloc: Global,
    catalog: &str,
    bounds: Bounds,
    fails: &[u64],
    input: Input,
    acts: &[Act],
) -> Result<Bytes, NoMemory> {
    let mut told = Bytes::new(alloc);
    let Ok(configured) = read_configured(alloc, catalog.as_bytes()) else {
        return Ok(told);
    };
    let limits = limits_of(bounds);
    if !limits.are_limits() {
        return Ok(told);
    }
    let dock = dock_with(alloc, input, fails)?;
    let dock = play_load(alloc, dock, &configured, limits, acts, &mut told)?;
    put_rows(&dock, &mut told)?;
    put_turns(&dock, &mut told)?;
    Ok(told)
}

/// A catalog, an input, and what is done with a book of them.
pub type Load = (&'static str, Input, &'static [Act]);

// The next load over the dock, whose input is opened anew.
fn play_next(
    alloc: Global,
    mut dock: MemDock,
    bounds: Bounds,
    load: Load,
    told: &mut Bytes,
) -> Result<MemDock, NoMemory> {
    let (catalog, input, acts) = load;
    let Ok(configured) = read_configured(alloc, catalog.as_bytes()) else {
        return Ok(dock);
    };
    let limits = limits_of(bounds);
    if !limits.are_limits() {
        return Ok(dock);
    }
    dock.reopen();
    fill(alloc, &mut dock, input)?;
    play_load(alloc, dock, &configured, limits, acts, told)
}

/// The same for loads one after another over one dock.
pub fn play_loads(alloc: Global, bounds: Bounds, loads: &[Load]) -> Result<Bytes, NoMemory> {
    let mut told = Bytes::new(alloc);
    let mut dock = MemDock::new(alloc, 0, FailList::new(alloc))?;
    for load in loads {
        dock = play_next(alloc, dock, bounds, *load, &mut told)?;
    }
    put_rows(&dock, &mut told)?;
    put_turns(&dock, &mut told)?;
    Ok(told)
}
