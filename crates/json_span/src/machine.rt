// The machine that reads an object or an array byte by byte, with what is open on a stack of its own.
use crate::MAX_DEPTH;
use crate::class::classify;
use crate::cutter::Cutter;
use crate::frames::Frames;
use crate::phase::{Frame, Phase, Role, Spot};
use crate::table::{Move, behind_value, move_at};
use basics::{NoMemory, Sequence};
use std::alloc::Global;

/// What has been read so far.
#[derive(Drop)]
pub struct Machine {
    pub phase: Phase,
    pub frames: Frames,
    pub deepest: usize,
    pub cutter: Cutter,
}

impl Machine {
    ghost use Rattle.std.specs.Prelude.{◌≡◌, ◌+◌, ◌<◌, ◌≤◌, ◌^◌, OnOk, length};
    ghost use Rattle.json_span.specs.Machine.{initial, opened, closed, made, moved, stepped};
    ghost use Rattle.json_span.specs.Reading.{passed};

    /// Nothing has been read of an array, or of an object.
    pub fn new(alloc: Global, frame: Frame) -> Self
        ensures { result ≡ initial frame }
    {
        Machine {
            phase: Phase::Start(frame),
            frames: Frames::new(alloc),
            deepest: 0,
            cutter: Cutter {
                key_start: 0,
                key_end: 0,
                value_start: 0,
                members: Sequence::new(alloc),
                elements: Sequence::new(alloc),
            },
        }
    }

    /// Forgets what has been read, and keeps the memory.
    pub fn restart(&mut self, frame: Frame)
        ensures { self.new ≡ initial frame }
    {
        self.phase = Phase::Start(frame);
        self.frames.clear();
        self.deepest = 0;
        self.cutter.restart();
    }

    /// A member's value between these places has been read, and it nests so deep.
    pub fn pass_value(&mut self, from: u64, to: u64, deep: usize) -> Result<(), NoMemory>
        requires { deep ≤ MAX_DEPTH }
        ensures { OnOk result (self.new ≡ passed self.old from to deep) }
    {
        self.cutter.begin_value(&self.frames, from);
        self.cutter.end_value(&self.frames, to)?;
        self.deepest = self.deepest.max(deep + 1);
        self.phase = Phase::After;
        Ok(())
    }

    /// An array or an object begins here.
    fn enter(&mut self, frame: Frame, here: u64) -> Result<(), NoMemory>
        ensures { OnOk result (self.new ≡ opened frame self.old here) }
    {
        self.cutter.begin_value(&self.frames, here);
        self.frames.push(frame)?;
        self.deepest = self.deepest.max(self.frames.len());
        self.phase = match frame {
            Frame::Array => Phase::FirstItem,
            Frame::Object => Phase::FirstKey,
        };
        Ok(())
    }

    /// An array or an object ends before this place.
    fn leave(&mut self, frame: Frame, behind: u64) -> Result<(), NoMemory>
        ensures { OnOk result (self.new ≡ closed frame self.old.frames self.old behind) }
    {
        if !self.frames.is_innermost(frame) {
            self.phase = Phase::Broken;
            return Ok(());
        }
        self.frames.shut();
        self.phase = if self.frames.len() == 0 {
            Phase::Done
        } else {
            Phase::After
        };
        self.cutter.end_value(&self.frames, behind)
    }

    /// Makes a move at this place.
    #[inline(always)]
    pub fn make(&mut self, next: Move, here: u64) -> Result<(), NoMemory>
        requires { here + 1 < 2 ^ 64 }
        ensures { OnOk result (self.new ≡ made next self.old here (here + 1)) }
    {
        match next {
            Move::Go(phase) => self.phase = phase,
            Move::BeginKey => {
                self.cutter.begin_key(&self.frames, here);
                self.phase = Phase::Text(Role::Key, Spot::Plain);
            }
            Move::EndKey => {
                self.cutter.end_key(&self.frames, here + 1);
                self.phase = Phase::Colon;
            }
            Move::Begin(phase) => {
                self.cutter.begin_value(&self.frames, here);
                self.phase = phase;
            }
            Move::End => {
                self.cutter.end_value(&self.frames, here + 1)?;
                self.phase = Phase::After;
            }
            Move::EndNumber => self.phase = Phase::Broken,
            Move::Open(frame) => self.enter(frame, here)?,
            Move::Close(frame) => self.leave(frame, here + 1)?,
            Move::Comma => {
                self.phase = match self.frames.innermost() {
                    Some(Frame::Array) => Phase::Value,
                    Some(Frame::Object) => Phase::Key,
                    None => Phase::Broken,
                }
            }
        }
        Ok(())
    }

    /// Reads the byte at this place.
    #[inline(always)]
    pub fn step(&mut self, byte: u8, here: u64) -> Result<(), NoMemory>
        requires { here + 1 < 2 ^ 64 }
        ensures { OnOk result (self.new ≡ stepped self.old byte here (here + 1)) }
    {
        match move_at(self.phase, byte) {
            Move::EndNumber => {
                self.cutter.end_value(&self.frames, here)?;
                self.make(behind_value(classify(byte)), here)
            }
            next => self.make(next, here),
        }
    }
}
