// The book of a load.
ghost use Rattle.std.specs.Prelude.{◌≡◌, ◌<◌, ◌+◌, IfErr, IfOk, IfSome, length};
ghost use Rattle.catalog.specs.Configured.{AreConfigured};
ghost use Rattle.outside.specs.Dock.{DockGrew, DockMoves};
ghost use Rattle.outside.specs.Hand.{IsOpen};
ghost use Rattle.outside.specs.Limits.{AreLimits};
ghost use Rattle.book_rules.specs.Accepts.{AcceptAnswer};
ghost use Rattle.book_rules.specs.Books.{IsAcceptRun, IsBook, IsFinishRun, IsGiveBackRun, IsNoRun, IsPickRun, IsPutRun, IsRecallRun, KeepsOpened, KeepsSafe, KeepsSafeOf, OwnLoadIsSafe, Runs};
ghost use Rattle.book_rules.specs.Finishes.{FinishAnswer};
ghost use Rattle.book_rules.specs.Hands.{PushAnswer, TakeOutputAnswer, closed};
ghost use Rattle.book_rules.specs.Puts.{GiveBackAnswer, PickAnswer, PutAnswer, recalled};
ghost use Rattle.book_rules.specs.Starts.{RefusedBy, Starts};
ghost use Rattle.book_rules.specs.Views.{BookView, state_of};

use basics::{Bytes, NoMemory, StreamNo};
use batch_prep::{Prepared, WorkItem};
use book_parts::{Parts, new_parts};
use book_rules::{Accepted, BookState, Finished, Put};
use catalog::Configured;
use outside::{Dock, HandDock, Limits, Status};
use std::alloc::Global;
use std::marker::Model;

/// The book of a load: it takes lines from a dock's input, keeps their records until they are committed, and releases each
/// state once all records before it are.
#[derive(Drop)]
pub struct Book<D: Dock> {
    parts: Parts<D>,
}

impl<D: Dock> Model for Book<D> {
    ghost use Rattle.book_rules.specs.Books.{IsBook};
    ghost use Rattle.book_rules.specs.Views.{BookView};

    ghost Value = { BookView };

    ghost view = { λ book. book.parts };

    ghost invariant = { λ book. IsBook book.parts };
}

impl<D: Dock + Drop> Book<D> {
    /// Opens a load of the catalog's streams in the dock's store. The dock comes back where none was opened, or may have been.
    #[tactic(auto, using(book_rules::proofs::Starting::started_book, book_rules::proofs::Starting::started_own, book_rules::proofs::Starting::started_safe, book_rules::proofs::Starting::refused_safe))]
    pub fn start(
        alloc: Global,
        dock: D,
        configured: &Configured,
        limits: Limits,
    ) -> Result<Self, (D, Status)>
        requires { AreLimits limits }
        ensures ok { IfOk result (Starts configured.now limits (D.seen dock)) }
        ensures own { IfOk result OwnLoadIsSafe }
        ensures safe { IfOk result (λ book. KeepsSafeOf configured.now (limits.slots + 1) (D.seen dock) book.seen) }
        ensures refused { IfErr result (λ back. RefusedBy back.1 configured.now (D.seen dock) (D.seen back.0)) }
        ensures left { IfErr result (λ back. KeepsSafeOf configured.now (limits.slots + 1) (D.seen dock) (D.seen back.0)) }
    {
        match new_parts(alloc, dock, configured, limits) {
            Ok(parts) => Ok(Book { parts }),
            Err(back) => Err(back),
        }
    }

    /// How it stands.
    #[tactic(auto, using(book_rules::proofs::Safe::own_is_safe))]
    pub fn state(&self) -> BookState
        ensures state { result ≡ state_of self.now.tally }
        ensures safe { OwnLoadIsSafe self.now }
    {
        self.parts.state()
    }

    /// Takes a line from the input, where one stands ready, or tries again the record that waits for room. A line may bring
    /// states with it that are released.
    #[tactic(auto, using(book_rules::proofs::Kept::books_are_ready, book_rules::proofs::Kept::accept_book, book_rules::proofs::Kept::accept_opened, book_rules::proofs::Kept::accept_runs, book_rules::proofs::Kept::accept_moves, book_rules::proofs::Kept::accept_grew, book_rules::proofs::Kept::accept_own, book_rules::proofs::Kept::accept_safe))]
    pub fn accept(&mut self) -> Accepted
        ensures answer { AcceptAnswer result self.old self.new }
        ensures opened { KeepsOpened self.old self.new }
        ensures runs { Runs IsAcceptRun self.old self.new }
        ensures moves { DockMoves self.old.seen self.new.seen }
        ensures grew { DockGrew self.old.seen self.new.seen }
        ensures own { OwnLoadIsSafe self.new }
        ensures safe { KeepsSafe self.old self.new }
    {
        self.parts.accept()
    }

    /// Hands out a batch: the front of the sealed records of the stream whose first one is oldest.
    #[tactic(auto, using(book_rules::proofs::Kept::book_streams, book_rules::proofs::Kept::pick_book, book_rules::proofs::Kept::pick_opened, book_rules::proofs::Kept::pick_runs, book_rules::proofs::Kept::pick_own, book_rules::proofs::Kept::pick_safe))]
    pub fn pick(&mut self) -> Result<Option<WorkItem>, NoMemory>
        ensures answer { PickAnswer result self.old self.new }
        ensures opened { KeepsOpened self.old self.new }
        ensures runs { Runs IsPickRun self.old self.new }
        ensures own { OwnLoadIsSafe self.new }
        ensures safe { KeepsSafe self.old self.new }
    {
        self.parts.pick()
    }

    /// Commits a batch that is handed out, and releases all states that this sets free.
    #[tactic(auto, using(book_rules::proofs::Kept::books_can_put, book_rules::proofs::Kept::put_book, book_rules::proofs::Kept::put_opened, book_rules::proofs::Kept::put_runs, book_rules::proofs::Kept::put_moves, book_rules::proofs::Kept::put_grew, book_rules::proofs::Kept::put_own, book_rules::proofs::Kept::put_safe))]
    pub fn put(&mut self, done: Prepared) -> Put
        ensures answer { PutAnswer done result self.old self.new }
        ensures opened { KeepsOpened self.old self.new }
        ensures runs { Runs IsPutRun self.old self.new }
        ensures moves { DockMoves self.old.seen self.new.seen }
        ensures grew { DockGrew self.old.seen self.new.seen }
        ensures own { OwnLoadIsSafe self.new }
        ensures safe { KeepsSafe self.old self.new }
    {
        self.parts.put(done)
    }

    /// Seals a batch again; it comes back where no batch with its number is handed out.
    #[tactic(auto, using(book_rules::proofs::Kept::give_back_book, book_rules::proofs::Kept::give_back_opened, book_rules::proofs::Kept::give_back_runs, book_rules::proofs::Kept::give_back_own, book_rules::proofs::Kept::give_back_safe))]
    pub fn give_back(&mut self, item: WorkItem) -> Option<WorkItem>
        ensures answer { GiveBackAnswer item result self.old self.new }
        ensures opened { KeepsOpened self.old self.new }
        ensures runs { Runs (IsGiveBackRun item.batch) self.old self.new }
        ensures own { OwnLoadIsSafe self.new }
        ensures safe { KeepsSafe self.old self.new }
    {
        self.parts.give_back(item)
    }

    /// Seals every batch again that is handed out.
    #[tactic(auto, using(book_rules::proofs::Kept::recall_book, book_rules::proofs::Kept::recall_opened, book_rules::proofs::Kept::recall_runs, book_rules::proofs::Kept::recall_own, book_rules::proofs::Kept::recall_safe))]
    pub fn recall(&mut self)
        ensures answer { self.new ≡ recalled self.old }
        ensures opened { KeepsOpened self.old self.new }
        ensures runs { Runs IsRecallRun self.old self.new }
        ensures own { OwnLoadIsSafe self.new }
        ensures safe { KeepsSafe self.old self.new }
    {
        self.parts.recall();
    }

    /// Merges a stream's rows, page by page, where it is deduplicated, and shows it, where it is hidden and was not shown yet: once
    /// the input has ended, all records are committed, and its source said last that it is complete.
    #[tactic(auto, using(book_rules::proofs::Finishing::books_can_finish, book_rules::proofs::Finishing::finish_book, book_rules::proofs::Finishing::finish_opened, book_rules::proofs::Finishing::finish_runs, book_rules::proofs::Finishing::finish_moves, book_rules::proofs::Finishing::finish_grew, book_rules::proofs::Finishing::finish_own, book_rules::proofs::Finishing::finish_safe))]
    pub fn finish(&mut self, stream: StreamNo) -> Result<Finished, Status>
        requires { stream < length self.old.catalog }
        ensures answer { FinishAnswer stream result self.old self.new }
        ensures opened { KeepsOpened self.old self.new }
        ensures runs { Runs IsFinishRun self.old self.new }
        ensures moves { DockMoves self.old.seen self.new.seen }
        ensures grew { DockGrew self.old.seen self.new.seen }
        ensures own { OwnLoadIsSafe self.new }
        ensures safe { KeepsSafe self.old self.new }
    {
        self.parts.finish(stream)
    }

    /// A book is a run of the machine, and what its dock tells is the load of that run: so much holds of every one.
    pub fn stands(&self)
        ensures { IsBook self.now }
    {
        let _ = &self.parts;
    }

    /// How many streams its catalog has.
    pub fn streams(&self) -> u32
        ensures { result ≡ length self.now.catalog }
    {
        self.parts.streams()
    }

    /// How many records of the load were taken, committed or not.
    pub fn taken(&self) -> u64
        ensures { result ≡ self.now.gate.next }
    {
        self.parts.taken()
    }

    /// How many states were released: their echoes are emitted.
    pub fn emitted(&self) -> u64
        ensures { result ≡ self.now.tally.emitted }
    {
        self.parts.emitted()
    }

    /// Waits until something may have changed in the dock's input, or for about a second.
    pub fn wait(&mut self)
        ensures { self.new ≡ self.old }
    {
        self.parts.wait();
    }

    /// The dock, to look at.
    pub fn dock(&self) -> &D
        ensures { D.seen result.now ≡ self.now.seen }
    {
        self.parts.dock()
    }

    /// The dock, as it stands.
    #[tactic(auto, using(book_rules::proofs::Safe::own_is_safe))]
    pub fn into_dock(self) -> D
        ensures dock { D.seen result ≡ self.seen }
        ensures safe { OwnLoadIsSafe self }
    {
        self.parts.into_dock()
    }
}

impl<D: HandDock + Drop> Book<D> {
    /// Puts a line behind those that wait in the dock's input.
    #[tactic(auto, using(book_rules::proofs::Handing::push_book, book_rules::proofs::Handing::push_opened, book_rules::proofs::Handing::push_runs, book_rules::proofs::Handing::push_own))]
    pub fn push_input(&mut self, line: Bytes) -> Result<(), NoMemory>
        requires { IsOpen self.old.seen.face.hand }
        ensures answer { PushAnswer result line self.old self.new }
        ensures opened { KeepsOpened self.old self.new }
        ensures runs { Runs IsNoRun self.old self.new }
        ensures own { OwnLoadIsSafe self.new }
    {
        self.parts.push_input(line)
    }

    /// Ends the dock's input, with a last piece that has no newline. A blank one is nothing.
    #[tactic(auto, using(book_rules::proofs::Handing::close_book, book_rules::proofs::Handing::close_opened, book_rules::proofs::Handing::close_runs, book_rules::proofs::Handing::close_own))]
    pub fn close_input(&mut self, torn: Option<Bytes>)
        ensures answer { self.new ≡ closed torn self.old }
        ensures opened { KeepsOpened self.old self.new }
        ensures runs { Runs IsNoRun self.old self.new }
        ensures own { OwnLoadIsSafe self.new }
    {
        self.parts.close_input(torn);
    }

    /// The next emitted line that was not taken out; `None` exactly where there is none.
    #[tactic(auto, using(book_rules::proofs::Handing::take_output_book, book_rules::proofs::Handing::take_output_opened, book_rules::proofs::Handing::take_output_runs, book_rules::proofs::Handing::take_output_own))]
    pub fn take_output(&mut self) -> Option<Bytes>
        ensures answer { TakeOutputAnswer result self.old self.new }
        ensures opened { KeepsOpened self.old self.new }
        ensures runs { Runs IsNoRun self.old self.new }
        ensures own { OwnLoadIsSafe self.new }
    {
        self.parts.take_output()
    }

    /// How many pushed lines were not given.
    pub fn waiting(&self) -> u64
        ensures { IfSome self.now.seen.face.hand (λ hand. result ≡ length hand.waiting) }
    {
        self.parts.waiting()
    }
}
