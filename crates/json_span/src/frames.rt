// The arrays and objects that are open, the innermost first.
use crate::phase::Frame;
use basics::NoMemory;
use std::alloc::Global;
use std::marker::Model;

/// What is open. Contracts see it as a list, the innermost first.
#[derive(Drop)]
pub struct Frames {
    frames: Vec<Frame>,
}

impl Model for Frames {
    ghost use Rattle.std.specs.Prelude.{List, reverse};
    ghost use Rattle.json_span.specs.declared.phase.Frame.{Frame};

    ghost Value = { List Frame };

    ghost view = { λ s. reverse s.frames.items };
}

impl Frames {
    ghost use Rattle.std.specs.Prelude.{◌≡◌, [], ◌∷◌, List, OnOk, IsTrue, length, MatchOption};
    ghost use Rattle.json_span.specs.declared.phase.Frame.{Frame};
    ghost use Rattle.json_span.specs.declared.phase.Frame.TheVariants as frame;
    ghost use Rattle.json_span.specs.Machine.{is_outermost, is_innermost, outer};

    /// Nothing is open.
    pub fn new(alloc: Global) -> Self
        ensures { result ≡ [] }
    {
        Frames {
            frames: Vec::new(alloc),
        }
    }

    /// How many are open.
    pub fn len(&self) -> usize
        ensures { result ≡ length self.now }
    {
        self.frames.len()
    }

    /// Opens one.
    pub fn push(&mut self, frame: Frame) -> Result<(), NoMemory>
        ensures { OnOk result (self.new ≡ frame ∷ self.old) }
    {
        self.frames.push(frame)?;
        Ok(())
    }

    /// Shuts all.
    pub fn clear(&mut self)
        ensures { self.new ≡ [] }
    {
        self.frames.clear();
    }

    /// Shuts the innermost.
    pub fn shut(&mut self)
        ensures { self.new ≡ outer self.old }
    {
        let _ = self.frames.pop();
    }

    /// Whether one of this kind is the innermost.
    pub fn is_innermost(&self, frame: Frame) -> bool
        ensures { result ≡ is_innermost frame self.now }
    {
        match (self.innermost(), frame) {
            (Some(Frame::Array), Frame::Array) => true,
            (Some(Frame::Object), Frame::Object) => true,
            (Some(Frame::Array), Frame::Object) => false,
            (Some(Frame::Object), Frame::Array) => false,
            (None, _) => false,
        }
    }

    /// The innermost.
    pub fn innermost(&self) -> Option<Frame>
        ensures { MatchOption result (self.now ≡ []) (λ frame. (rest : List Frame) × (self.now ≡ frame ∷ rest)) }
    {
        self.frames.last().copied()
    }

    /// Whether one object is open, and no more.
    #[inline(always)]
    pub fn is_one_object(&self) -> bool
        ensures { IsTrue result → self.now ≡ frame.Object ∷ [] }
    {
        match self.innermost() {
            Some(Frame::Object) => self.is_outermost(),
            _ => false,
        }
    }

    /// Whether one is open, and no more.
    #[inline(always)]
    pub fn is_outermost(&self) -> bool
        ensures { result ≡ is_outermost self.now }
    {
        self.frames.len() == 1
    }
}
