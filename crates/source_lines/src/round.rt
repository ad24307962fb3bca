// A round over a source's streams, one behind the other.
ghost use Rattle.std.specs.Prelude.{◌≡◌, ◌≤◌, [], Err, length, IfOk, IfErr, IsTrue, OnErr};
ghost use Rattle.basics.specs.Told.{RoseIf};
ghost use Rattle.outside.specs.declared.status.Status.TheVariants as status;
ghost use Rattle.source_lines.specs.Turns.{GivesLine};
ghost use Rattle.source_lines.specs.Giving.{MayGiveRound, listed_lines};
ghost use Rattle.source_lines.specs.Rounds.{Advances, OpensNext, OpensNotNext};
ghost use Rattle.source_lines.specs.Sources.{OpensAlike};

use crate::{ListedRows, OpenStream, StreamSource, StreamTurn};
use basics::{Bytes, Copies, NoMemory, Sequence, StreamId, StreamNo};
use catalog::Configured;
use outside::Status;
use std::alloc::Global;
use std::marker::Model;

// The stream whose turn it is. Contracts see its lines that are to come.
#[derive(Drop)]
pub struct Current<L: ListedRows + Drop> {
    turn: StreamTurn,
    rows: L,
}

impl<L: ListedRows + Drop> Model for Current<L> {
    ghost use Rattle.std.specs.Prelude.{ℕ, List, ◌≤◌, length};
    ghost use Rattle.source_lines.specs.Turns.{left_at};

    ghost Value = { List (List ℕ) };

    ghost view = { λ current. left_at current.turn (L.rows current.rows) };

    ghost invariant = { λ current. current.turn.given ≤ length (L.rows current.rows) };
}

impl<L: ListedRows + Drop> Current<L> {
    ghost use Rattle.std.specs.Prelude.{◌≡◌, IfOk, OnErr};
    ghost use Rattle.source_lines.specs.Turns.{GivesLine};
    ghost use Rattle.source_lines.specs.Streams.{stream_lines};

    // A stream that was opened, before its first line.
    fn new(
        alloc: Global,
        id: StreamId,
        moment: u64,
        opened: OpenStream<L>,
    ) -> Result<Self, NoMemory>
        ensures { IfOk result (λ current. current ≡ stream_lines (record { id = id; moment = moment; every = opened.every }) opened.blob (L.rows opened.rows)) }
    {
        let turn = StreamTurn::new(alloc, id, moment, opened.every, opened.blob)?;
        Ok(Current {
            turn,
            rows: opened.rows,
        })
    }

    // The next of its lines.
    fn next_line(&mut self, alloc: Global) -> Result<Option<Bytes>, NoMemory>
        ensures line { IfOk result (λ found. GivesLine found self.old self.new) }
        ensures err { OnErr result (self.new ≡ self.old) }
    {
        self.turn.next_line(alloc, &self.rows)
    }
}

// The streams that a feed was begun with, in the order of the catalog, where each starts, and which of them come next.
#[derive(Drop)]
pub struct Round<T: Drop, L: ListedRows + Drop> {
    streams: Configured,
    starts: Sequence<T>,
    current: Option<Current<L>>,
    next: StreamNo,
}

impl<T: Drop, L: ListedRows + Drop> Model for Round<T, L> {
    ghost use Rattle.std.specs.Prelude.{◌≡◌, [], length, unwrap_or};
    ghost use Rattle.source_lines.specs.Giving.{Round as RoundSeen};

    ghost Value = { RoundSeen T };

    ghost view = { λ round. record { lines = unwrap_or round.current []; next = round.next; streams = round.streams; starts = round.starts } };

    ghost invariant = { λ round. length round.starts ≡ length round.streams };
}

impl<T: Drop, L: ListedRows + Drop> Round<T, L> {
    ghost use Rattle.std.specs.Prelude.{◌≡◌, length, IfOk, OnErr};
    ghost use Rattle.source_lines.specs.Giving.{first_round};
    ghost use Rattle.source_lines.specs.Turns.{GivesLine};

    // Before the first of these streams.
    pub fn new(streams: Configured, starts: Sequence<T>) -> Self
        requires { length starts ≡ length streams }
        ensures { result ≡ first_round streams starts }
    {
        Round {
            streams,
            starts,
            current: None,
            next: 0,
        }
    }

    // The next line of the stream whose turn it is.
    fn next_line(&mut self, alloc: Global) -> Result<Option<Bytes>, NoMemory>
        ensures line { IfOk result (λ found. GivesLine found self.old.lines self.new.lines) }
        ensures others { self.new ≡ record (self.old) { lines = self.new.lines } }
        ensures err { OnErr result (self.new ≡ self.old) }
    {
        match &mut self.current {
            Some(current) => current.next_line(alloc),
            None => Ok(None),
        }
    }
}

// Opens the next stream of a round; `false` where there is none.
fn open_next<S: StreamSource>(
    alloc: Global,
    source: &mut S,
    moment: u64,
    round: &mut Round<S::Start, S::Rows>,
) -> Result<bool, Status>
    requires { round.old.lines ≡ [] }
    ensures opened { IfOk result (λ some. IsTrue some → OpensNext (S.Opens source.old) moment round.old round.new) }
    ensures none { IfOk result (λ some. ¬ IsTrue some → (length round.old.streams ≤ round.old.next) × (round.new ≡ round.old)) }
    ensures refused { IfErr result (λ why. (round.new ≡ round.old) × OpensNotNext (S.Opens source.old) round.old why) }
    ensures alike { OpensAlike (S.Opens source.old) (S.Opens source.new) }
    ensures faults { RoseIf (result ≡ Err status.RowFault) (S.seen source.old).faults (S.seen source.new).faults }
    ensures stays { ¬ (result ≡ Err status.RowFault) → (S.seen source.new).faults ≡ (S.seen source.old).faults }
    ensures others { S.seen source.new ≡ record (S.seen source.old) { faults = (S.seen source.new).faults } }
{
    if round.next >= round.streams.len() {
        return Ok(false);
    }
    let stream = round.streams.stream(round.next);
    let opened = source.open_stream(
        alloc,
        round.next,
        stream,
        round.starts.at(round.next as usize),
    )?;
    match started(alloc, &stream.id, moment, opened) {
        Ok(current) => {
            round.current = Some(current);
            round.next += 1;
            Ok(true)
        }
        Err(NoMemory) => Err(Status::NoMemory),
    }
}

// A stream that was opened, before its first line.
fn started<L: ListedRows + Drop>(
    alloc: Global,
    id: &StreamId,
    moment: u64,
    opened: OpenStream<L>,
) -> Result<Current<L>, NoMemory>
    ensures { IfOk result (λ current. current ≡ listed_lines moment id.now (record { every = opened.every; blob = opened.blob; rows = L.rows opened.rows })) }
{
    Current::new(alloc, id.copy(alloc)?, moment, opened)
}

// The next line of a round; `None` where all were given.
pub fn advance<S: StreamSource>(
    alloc: Global,
    source: &mut S,
    moment: u64,
    round: &mut Round<S::Start, S::Rows>,
) -> Result<Option<Bytes>, Status>
    ensures goes { Advances result (MayGiveRound (S.Opens source.old) moment round.old) (MayGiveRound (S.Opens source.new) moment round.new) }
    ensures alike { OpensAlike (S.Opens source.old) (S.Opens source.new) }
    ensures faults { RoseIf (result ≡ Err status.RowFault) (S.seen source.old).faults (S.seen source.new).faults }
    ensures stays { ¬ (result ≡ Err status.RowFault) → (S.seen source.new).faults ≡ (S.seen source.old).faults }
    ensures others { S.seen source.new ≡ record (S.seen source.old) { faults = (S.seen source.new).faults } }
{
    if let Some(line) = line_of(alloc, round)? {
        return Ok(Some(line));
    }
    if open_next(alloc, source, moment, round)? {
        line_of(alloc, round)
    } else {
        Ok(None)
    }
}

// The next line of the stream whose turn it is.
fn line_of<T: Drop, L: ListedRows + Drop>(
    alloc: Global,
    round: &mut Round<T, L>,
) -> Result<Option<Bytes>, Status>
    ensures line { IfOk result (λ found. GivesLine found round.old.lines round.new.lines) }
    ensures others { round.new ≡ record (round.old) { lines = round.new.lines } }
    ensures memory { IfErr result (λ why. why ≡ status.NoMemory) }
    ensures err { OnErr result (round.new ≡ round.old) }
{
    match round.next_line(alloc) {
        Ok(found) => Ok(found),
        Err(NoMemory) => Err(Status::NoMemory),
    }
}
