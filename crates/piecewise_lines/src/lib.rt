//! Lines of bytes that come in pieces: the same lines as those of the whole text, however it is cut.
#![tactic(auto)]

ghost use Rattle.std.specs.Prelude.{◌≡◌, ◌≤◌, ◌<◌, [], ◌∷◌, length, drop, slice_range, slice_index, false, All, IfOk, OnOk, OnErr, IfSome, IfNone};
ghost use Rattle.std.specs.Vec.{vec_len};
ghost use Rattle.text_lines.specs.Lines.{is_newline, lines_of};
ghost use Rattle.piecewise_lines.specs.Unread.{IsSearched};
ghost use Rattle.piecewise_lines.specs.Next.{answer_of, torn_line, left_of, fed, given_by, IsInOrder, IsTorn, StaysTooLong};
ghost use Rattle.piecewise_lines.specs.Turns.{GivesAllLines};
ghost use Rattle.piecewise_lines.specs.Found.{IsFound};
ghost use Rattle.piecewise_lines.specs.declared.NextLine.TheVariants as answer;

use basics::{Bytes, NoMemory};
use memchr::memchr;
use std::alloc::Global;
use std::marker::Model;
use std::mem;
use text_lines::is_line;

/// What comes next of the bytes that were fed.
#[derive(Debug, Drop)]
pub enum NextLine {
    /// A line, without its newline.
    Line(Bytes),
    /// A piece has more bytes than the limit allows. It stays so.
    TooLong,
    /// No line has its newline yet.
    More,
}

/// Bytes that are fed in pieces, and given back line by line. A piece between newlines is a line where it is not
/// blank; no piece may have more than `limit` bytes.
#[derive(Drop)]
pub struct Lines {
    limit: u64,
    alloc: Global,
    bytes: Vec<u8>,
    start: usize,
    searched: usize,
}

impl Model for Lines {
    ghost use Rattle.std.specs.Prelude.{drop};
    ghost use Rattle.piecewise_lines.specs.Unread.{Unread, IsSearched};

    ghost Value = { Unread };

    ghost view = { λ lines. record { limit = lines.limit; bytes = drop lines.start lines.bytes.items } };

    ghost invariant = { λ lines. IsSearched lines.bytes.items lines.start lines.searched };
}

impl Lines {
    /// Nothing has been fed. A piece may have at most `limit` bytes.
    pub fn new(alloc: Global, limit: u64) -> Self
        ensures { result ≡ record { limit = limit; bytes = [] } }
    {
        Lines {
            limit,
            alloc,
            bytes: Vec::new(alloc),
            start: 0,
            searched: 0,
        }
    }

    /// Takes more bytes.
    pub fn feed(&mut self, chunk: &[u8]) -> Result<(), NoMemory>
        ensures ok { OnOk result (self.new ≡ fed self.old chunk.now) }
        ensures err { OnErr result (self.new ≡ self.old) }
    {
        self.compact();
        self.bytes.extend_from_slice(chunk)?;
        Ok(())
    }

    // Moves what is left to the front, once at least as many bytes have been given as are left.
    fn compact(&mut self)
        ensures { self.new ≡ self.old }
    {
        if self.start > 0 && self.start >= self.bytes.len() - self.start {
            drop_front(&mut self.bytes, self.start);
            self.searched -= self.start;
            self.start = 0;
        }
    }

    /// The next line that has its newline; blank pieces are passed over. What was given is kept no longer.
    pub fn next(&mut self) -> Result<NextLine, NoMemory>
        ensures answer { IfOk result (λ given. given ≡ answer_of self.old) }
        ensures left { OnOk result (self.new ≡ left_of self.old) }
        ensures order { IfOk result (λ given. IsInOrder self.old self.new (given_by given)) }
        ensures torn { IfOk result (λ given. given ≡ answer.More → IsTorn self.new) }
        ensures err { OnErr result (self.new ≡ self.old) }
    {
        match find(&self.bytes, self.start, self.searched, self.limit) {
            Found::Line(start, end) => {
                let line = Bytes::copy_of(self.alloc, &self.bytes[start..end])?;
                self.start = end + 1;
                self.searched = end + 1;
                Ok(NextLine::Line(line))
            }
            Found::TooLong(start, searched) => {
                self.start = start;
                self.searched = searched;
                Ok(NextLine::TooLong)
            }
            Found::More(start) => {
                self.start = start;
                self.searched = self.bytes.len();
                Ok(NextLine::More)
            }
        }
    }

    /// The last piece, which has no newline, where it is not blank. `None`, and nothing changes, where it is blank,
    /// and where `next` would not answer that it wants more.
    pub fn end(&mut self) -> Option<Bytes>
        ensures torn { result ≡ torn_line self.old }
        ensures line { IfSome result (λ line. lines_of self.old.bytes ≡ line ∷ []) }
        ensures taken { IfSome result (λ line. self.new ≡ record self.old { bytes = [] }) }
        ensures none { IfNone result (self.new ≡ self.old) }
        ensures blank { IfNone result (answer_of self.old ≡ answer.More → lines_of self.old.bytes ≡ []) }
    {
        let Found::More(start) = find(&self.bytes, self.start, self.searched, self.limit) else {
            return None;
        };
        if !is_line(&self.bytes[start..]) {
            return None;
        }
        let mut torn = mem::replace(&mut self.bytes, Vec::new(self.alloc));
        self.start = 0;
        self.searched = 0;
        drop_front(&mut torn, start);
        Some(Bytes::from_vec(torn))
    }
}

// What a search finds.
#[derive(Clone, Copy)]
enum Found {
    // A line from the first place to its newline at the second.
    Line(usize, usize),

    // A piece that is too long, and how far no newline stands in it.
    TooLong(usize, usize),

    // A last piece without a newline, from this place on.
    More(usize),
}

// What comes next of the bytes from `start` on, where no newline stands before `searched`.
fn find(bytes: &[u8], start: usize, searched: usize, limit: u64) -> Found
    requires { IsSearched bytes.now start searched }
    ensures { IsFound limit bytes.now start result }
{
    let mut start = start;
    let mut searched = searched;
    loop {
        let end = newline_or_end(bytes, searched);
        if (end - start) as u64 > limit {
            return Found::TooLong(start, end);
        }
        if end == bytes.len() {
            return Found::More(start);
        }
        if is_line(&bytes[start..end]) {
            return Found::Line(start, end);
        }
        start = end + 1;
        searched = start;
    }
}

// The place of the first newline from here on, or the end.
fn newline_or_end(bytes: &[u8], from: usize) -> usize
    requires { from ≤ length bytes.now }
    ensures place { (from ≤ result) × (result ≤ length bytes.now) }
    ensures none { All (λ byte. is_newline byte ≡ false) (slice_range bytes.now from result) }
    ensures newline { result < length bytes.now → slice_index bytes.now result ≡ 10 }
{
    match memchr(b'\n', &bytes[from..]) {
        Some(size) => from + size,
        None => bytes.len(),
    }
}

// Drops so many bytes from the front, and moves the others there.
fn drop_front(bytes: &mut Vec<u8>, count: usize)
    requires { count ≤ vec_len bytes.old }
    ensures { bytes.new.items ≡ drop count bytes.old.items }
{
    let len = bytes.len();
    bytes.copy_within(count..len, 0);
    bytes.truncate(len - count);
}

/// A law: what is too long stays too long, whatever is fed.
pub fn stays_too_long()
    ensures { StaysTooLong }
{}

/// A law: however the bytes are cut, the lines that were given and those of what is left are the lines of all bytes.
pub fn gives_all_lines()
    ensures { GivesAllLines }
{}
