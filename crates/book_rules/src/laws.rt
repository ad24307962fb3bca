// What each call on a book leads to, as contracts of functions that do nothing.
ghost use Rattle.book_rules.specs.Endings.{DrainedEndsLoad, EndsFinished, EndsIncomplete, FinishIsDone, FinishLeaves, FinishLeavesDone, ReadersReadLast};
ghost use Rattle.book_rules.specs.Laws.{AcceptKeeps, BooksAreReady, BooksAreSafe, BooksCanFinish, BooksCanPut, CloseKeeps, FinishKeeps, GiveBackKeeps, PickKeeps, PushKeeps, PutKeeps, RecallKeeps, RefusedKeeps, StartsBegin, TakeOutputKeeps};

/// A call on the input is a run of the machine: a line at most, then seals, then releases.
pub fn accept_keeps()
    ensures { AcceptKeeps }
{}

/// A batch is handed out by one step at most.
pub fn pick_keeps()
    ensures { PickKeeps }
{}

/// A put is one commit, of the book's own rows, with its releases.
pub fn put_keeps()
    ensures { PutKeeps }
{}

/// A batch is taken back by its number.
pub fn give_back_keeps()
    ensures { GiveBackKeeps }
{}

/// All batches are taken back.
pub fn recall_keeps()
    ensures { RecallKeeps }
{}

/// A finish is merges and a showing, and nothing else.
pub fn finish_keeps()
    ensures { FinishKeeps }
{}

/// A line that is pushed is no event.
pub fn push_keeps()
    ensures { PushKeeps }
{}

/// Nor is the end of an input in memory.
pub fn close_keeps()
    ensures { CloseKeeps }
{}

/// Nor is a line of the output that is taken out.
pub fn take_output_keeps()
    ensures { TakeOutputKeeps }
{}

/// A book that was started is a book.
pub fn starts_begin()
    ensures { StartsBegin }
{}

/// A start that is refused leaves a trace safe and bounded.
pub fn refused_keeps()
    ensures { RefusedKeeps }
{}

/// Of every book its own load is safe and bounded.
pub fn books_are_safe()
    ensures { BooksAreSafe }
{}

/// A book that is not broken can take a line.
pub fn books_are_ready()
    ensures { BooksAreReady }
{}

/// A batch can be put to a book that is not broken.
pub fn books_can_put()
    ensures { BooksCanPut }
{}

/// Each stream of a book can be finished.
pub fn books_can_finish()
    ensures { BooksCanFinish }
{}

/// A stream whose finish is answered `Kept` or `Shown` is merged, where it is deduplicated, and not hidden any more.
pub fn finish_is_done()
    ensures { FinishIsDone }
{}

/// A finish leaves each stream done that was done.
pub fn finish_leaves_done()
    ensures { FinishLeavesDone }
{}

/// A finish leaves all else of a book.
pub fn finish_leaves()
    ensures { FinishLeaves }
{}

/// Who reads a whole trace rightly reads its last load rightly.
pub fn readers_read_last()
    ensures { ReadersReadLast }
{}

/// The load of a book that has drained is done.
pub fn drained_ends_load()
    ensures { DrainedEndsLoad }
{}

/// Where each stream is complete and done, the load is finished.
pub fn ends_finished()
    ensures { EndsFinished }
{}

/// Where each stream that is complete is done, and one is not complete, the load is finished but for such streams.
pub fn ends_incomplete()
    ensures { EndsIncomplete }
{}
