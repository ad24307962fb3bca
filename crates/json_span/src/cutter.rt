// What has been cut so far of the object or the array, and the places of the member or the element that is being read.
use crate::frames::Frames;
use crate::phase::Frame;
use crate::{Member, MemberList, Span, SpanList};
use basics::{NoMemory, Sequence};

/// The members or the elements so far, and the places of the next.
#[derive(Drop)]
pub struct Cutter {
    pub key_start: u64,
    pub key_end: u64,
    pub value_start: u64,
    pub members: MemberList,
    pub elements: SpanList,
}

impl Cutter {
    ghost use Rattle.std.specs.Prelude.{◌≡◌, OnOk};
    ghost use Rattle.json_span.specs.Machine.{uncut, key_begun, key_ended, value_begun, ended_in, value_ended};

    /// Forgets what has been cut, and keeps the memory.
    pub fn restart(&mut self)
        ensures { self.new ≡ uncut }
    {
        self.key_start = 0;
        self.key_end = 0;
        self.value_start = 0;
        self.members.clear();
        self.elements.clear();
    }

    /// A key begins here.
    #[inline(always)]
    pub fn begin_key(&mut self, frames: &Frames, place: u64)
        ensures { self.new ≡ key_begun frames.now self.old place }
    {
        if frames.is_outermost() {
            self.key_start = place;
        }
    }

    /// A key ends before this place.
    #[inline(always)]
    pub fn end_key(&mut self, frames: &Frames, place: u64)
        ensures { self.new ≡ key_ended frames.now self.old place }
    {
        if frames.is_outermost() {
            self.key_end = place;
        }
    }

    /// A value begins here.
    #[inline(always)]
    pub fn begin_value(&mut self, frames: &Frames, place: u64)
        ensures { self.new ≡ value_begun frames.now self.old place }
    {
        if frames.is_outermost() {
            self.value_start = place;
        }
    }

    /// A value ends before this place, and a member or an element with it.
    #[inline(always)]
    pub fn end_value(&mut self, frames: &Frames, place: u64) -> Result<(), NoMemory>
        ensures { OnOk result (self.new ≡ value_ended frames.now self.old place) }
    {
        if frames.is_outermost() {
            self.keep(frames, place)?;
        }
        Ok(())
    }

    /// Keeps the member or the element whose value ends before this place.
    #[inline(never)]
    fn keep(&mut self, frames: &Frames, place: u64) -> Result<(), NoMemory>
        ensures { OnOk result (self.new ≡ ended_in frames.now self.old place) }
    {
        let value = Span {
            start: self.value_start,
            end: place,
        };
        match frames.innermost() {
            Some(Frame::Array) => self.elements.push(value)?,
            Some(Frame::Object) => self.members.push(Member {
                key: Span {
                    start: self.key_start,
                    end: self.key_end,
                },
                value,
            })?,
            None => (),
        }
        Ok(())
    }
}
