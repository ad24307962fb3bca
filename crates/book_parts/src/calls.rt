// How a book stands, and the calls of a dock in memory, handed on.
ghost use Rattle.std.specs.Prelude.{◌≡◌, IfSome, length};
ghost use Rattle.outside.specs.Hand.{IsOpen};
ghost use Rattle.book_rules.specs.Hands.{PushAnswer, TakeOutputAnswer, closed};
ghost use Rattle.book_rules.specs.Views.{state_of};

use crate::parts::Parts;
use basics::{Bytes, NoMemory};
use book_rules::BookState;
use outside::{Dock, HandDock};

impl<D: Dock + Drop> Parts<D> {
    /// How the book stands.
    pub fn state(&self) -> BookState
        ensures { result ≡ state_of self.now.tally }
    {
        match self.tally.broken {
            Some(stop) => BookState::Broken(stop),
            None => {
                if self.tally.is_ended {
                    BookState::Ended
                } else {
                    BookState::Running
                }
            }
        }
    }

    /// How many streams the catalog has.
    pub fn streams(&self) -> u32
        ensures { result ≡ length self.now.catalog }
    {
        self.opened.catalog().len()
    }

    /// How many records were taken.
    pub fn taken(&self) -> u64
        ensures { result ≡ self.now.gate.next }
    {
        self.gate.next()
    }

    /// How many echoes were emitted.
    pub fn emitted(&self) -> u64
        ensures { result ≡ self.now.tally.emitted }
    {
        self.tally.emitted
    }

    /// Waits until something may have changed in the input.
    pub fn wait(&mut self)
        ensures { self.new ≡ self.old }
    {
        self.dock.wait();
    }

    /// The dock, to look at.
    pub fn dock(&self) -> &D
        ensures { D.seen result.now ≡ self.now.seen }
    {
        &self.dock
    }

    /// The dock, as it stands.
    pub fn into_dock(self) -> D
        ensures { D.seen result ≡ self.seen }
    {
        let Parts { dock, .. } = self;
        dock
    }
}

impl<D: HandDock + Drop> Parts<D> {
    /// Puts a line behind those that wait in the dock's input.
    pub fn push_input(&mut self, line: Bytes) -> Result<(), NoMemory>
        requires { IsOpen self.old.seen.face.hand }
        ensures { PushAnswer result line self.old self.new }
    {
        self.dock.push_input(line)
    }

    /// Ends the dock's input, with a last piece that has no newline. A blank one is nothing.
    pub fn close_input(&mut self, torn: Option<Bytes>)
        ensures { self.new ≡ closed torn self.old }
    {
        self.dock.close_input(torn);
    }

    /// The next emitted line that was not taken out; `None` exactly where there is none.
    pub fn take_output(&mut self) -> Option<Bytes>
        ensures { TakeOutputAnswer result self.old self.new }
    {
        self.dock.take_output()
    }

    /// How many pushed lines were not given.
    pub fn waiting(&self) -> u64
        ensures { IfSome self.now.seen.face.hand (λ hand. result ≡ length hand.waiting) }
    {
        self.dock.waiting()
    }
}
