// Reading both levels of an object in one pass: one machine reads the text, and where a member's value begins as an
// object another reads that, so that each byte is read once.
ghost use Rattle.std.specs.Prelude.{◌≡◌, ◌≢◌, ◌<◌, ◌≤◌, ℕ, List, Option, Some, All, IfOk, OnOk, length, slice_get};
ghost use Rattle.json_span.specs.Members.{IsMemberOf, IsValue, IsDeeper};
ghost use Rattle.json_span.specs.Levels.{IsInside, AreInside, AreShallow};
ghost use Rattle.json_span.specs.Reading.{IsReadAlone, AreReadInside, IsPadded};
ghost use Rattle.json_span.specs.declared.Member.{Member};

use crate::cut::{is_object, members};
use crate::machine::Machine;
use crate::phase::{Frame, Phase, Run, is_done};
use crate::skip::skip;
use crate::{MAX_DEPTH, Member, MemberList, SpanFault};
use basics::{NoMemory, Sequence};
use std::alloc::Global;
use std::mem;

/// What is inside each value of an object, by the index of its member.
pub type InnerList = Sequence<Option<MemberList>>;

/// The two machines, and what the inner one has cut.
#[derive(Drop)]
pub struct Reader {
    pub alloc: Global,
    pub outside: Machine,
    pub inside: Machine,
    pub inner: InnerList,

    /// Lists that are not in use.
    pub spare: Sequence<MemberList>,
}

impl Reader {
    ghost use Rattle.std.specs.Prelude.{◌≡◌, ◌<◌, ◌≤◌, [], ◌∷◌, All, IfOk, OnOk, IsErrOf, IsTrue, ◌-◌, length, get_or, slice_index};
    ghost use Rattle.json_span.specs.Members.{AreMembers, HasOnlyMembers, IsMemberOf, IsNoObject, IsDeeper};
    ghost use Rattle.json_span.specs.Machine.{initial, read_whole, IsDone, IsTaken};
    ghost use Rattle.json_span.specs.Levels.{AreInside};
    ghost use Rattle.json_span.specs.Reading.{AreReadInside};
    ghost use Rattle.json_span.specs.declared.phase.Frame.TheVariants as frame;
    ghost use Rattle.json_span.specs.declared.phase.Phase.TheVariants as phase;

    /// Nothing has been read.
    pub fn new(alloc: Global) -> Self
        ensures outside { result.outside ≡ initial frame.Object }
        ensures inner { result.inner ≡ [] }
    {
        Reader {
            alloc,
            outside: Machine::new(alloc, Frame::Object),
            inside: Machine::new(alloc, Frame::Object),
            inner: Sequence::new(alloc),
            spare: Sequence::new(alloc),
        }
    }

    /// Forgets what was read, and keeps the memory.
    pub fn clear(&mut self)
        ensures outside { self.new.outside ≡ initial frame.Object }
        ensures inner { self.new.inner ≡ [] }
    {
        for _ in 0..self.inner.len() {
            if let Some(Some(list)) = self.inner.pop() {
                // Without memory to keep it, the list goes.
                let _ = self.spare.push(list);
            }
        }
        self.inner.clear();
        self.outside.restart(Frame::Object);
    }

    /// Cuts both levels of an object, where nothing has been read.
    pub fn cut(&mut self, text: &[u8]) -> Result<(), SpanFault>
        requires outside { self.old.outside ≡ initial frame.Object }
        requires inner { self.old.inner ≡ [] }
        ensures found { OnOk result (AreMembers MAX_DEPTH text.now self.new.outside.cutter.members) }
        ensures only { OnOk result (HasOnlyMembers MAX_DEPTH text.now self.new.outside.cutter.members) }
        ensures parts { OnOk result (All (IsMemberOf text.now) self.new.outside.cutter.members) }
        ensures inside { OnOk result (AreInside MAX_DEPTH text.now self.new.outside.cutter.members self.new.inner) }
        ensures not_object { IsErrOf result SpanFault.NotObject → IsNoObject text.now }
        ensures too_deep { IsErrOf result SpanFault.TooDeep → IsDeeper MAX_DEPTH text.now }
        ensures never_not_array { ¬ IsErrOf result SpanFault.NotArray }
    {
        if !simdutf8::is_utf8(text) {
            return Err(SpanFault::NotObject);
        }
        self.read(text)?;
        if !is_done(self.outside.phase) {
            return Err(SpanFault::NotObject);
        }
        if self.outside.deepest > MAX_DEPTH {
            return Err(SpanFault::TooDeep);
        }
        complete(
            self.alloc,
            text,
            self.outside.cutter.members.as_slice(),
            &mut self.inner,
        )?;
        Ok(())
    }

    /// Reads the whole text.
    fn read(&mut self, text: &[u8]) -> Result<(), NoMemory>
        requires outside { self.old.outside ≡ initial frame.Object }
        requires inner { self.old.inner ≡ [] }
        ensures outside { OnOk result (self.new.outside ≡ read_whole frame.Object text.now) }
        ensures inner { OnOk result (AreReadInside text.now self.new.outside.cutter.members self.new.inner) }
    {
        let mut at = 0;
        while at < text.len() {
            at = self.take(text, at)?;
        }
        Ok(())
    }

    /// Reads the next token, or the object that a member's value is.
    #[inline(always)]
    fn take(&mut self, text: &[u8], at: usize) -> Result<usize, NoMemory>
        requires place { at < length text.now }
        requires inner { AreReadInside text.now self.old.outside.cutter.members self.old.inner }
        ensures taken { IfOk result (IsTaken text.now self.old.outside at self.new.outside) }
        ensures further { IfOk result (λ to. (at < to) × (to ≤ length text.now)) }
        ensures inner { OnOk result (AreReadInside text.now self.new.outside.cutter.members self.new.inner) }
    {
        match self.outside.phase {
            Phase::Value if text[at] == b'{' && self.outside.frames.is_one_object() => {
                self.take_object(text, at)
            }
            _ => self.outside.take(text, at),
        }
    }

    /// Whether what was read inside is an object to its end, and not too deep.
    fn has_read_object(&self, value: &[u8]) -> bool
        ensures { IsTrue result → IsDone self.now.inside.phase × (self.now.inside.deepest ≤ MAX_DEPTH) × (get_or value.now (length value.now - 1) 0 ≡ 125) }
    {
        if !is_done(self.inside.phase) || self.inside.deepest > MAX_DEPTH || value.is_empty() {
            return false;
        }
        value[value.len() - 1] == b'}'
    }

    /// Reads the object that a member's value is, or its first byte where it is none that stands alone.
    fn take_object(&mut self, text: &[u8], at: usize) -> Result<usize, NoMemory>
        requires place { at < length text.now }
        requires byte { slice_index text.now at ≡ 123 }
        requires phase { self.old.outside.phase ≡ phase.Value }
        requires frames { self.old.outside.frames ≡ frame.Object ∷ [] }
        requires inner { AreReadInside text.now self.old.outside.cutter.members self.old.inner }
        ensures taken { IfOk result (IsTaken text.now self.old.outside at self.new.outside) }
        ensures further { IfOk result (λ to. (at < to) × (to ≤ length text.now)) }
        ensures inner { OnOk result (AreReadInside text.now self.new.outside.cutter.members self.new.inner) }
    {
        let value = &text[at..];
        let size = self.inside.read_front(value, Frame::Object)?;
        if !self.has_read_object(&value[..size]) {
            return self.outside.take(text, at);
        }
        pad(&mut self.inner, self.outside.cutter.members.len())?;
        let fresh = fresh_list(self.alloc, &mut self.spare);
        self.inner
            .push(Some(mem::replace(&mut self.inside.cutter.members, fresh)))?;
        self.outside
            .pass_value(at as u64, (at + size) as u64, self.inside.deepest)?;
        Ok(skip(text, at + size, Run::Blanks))
    }
}

// A list that is in use nowhere.
fn fresh_list(alloc: Global, spare: &mut Sequence<MemberList>) -> MemberList {
    match spare.pop() {
        Some(list) => list,
        None => Sequence::new(alloc),
    }
}

// Puts None behind the others, up to so many.
fn pad(inner: &mut InnerList, count: usize) -> Result<(), NoMemory>
    ensures { OnOk result (IsPadded count inner.old inner.new) }
{
    while inner.len() < count {
        inner.push(None)?;
    }
    Ok(())
}

// Completes what was read on the way: a value that was not read alone is cut where it is an object.
fn complete(
    alloc: Global,
    text: &[u8],
    outer: &[Member],
    inner: &mut InnerList,
) -> Result<(), NoMemory>
    requires parts { All (IsMemberOf text.now) outer.now }
    requires shallow { AreShallow MAX_DEPTH text.now outer.now }
    requires inner { AreReadInside text.now outer.now inner.old }
    ensures { OnOk result (AreInside MAX_DEPTH text.now outer.now inner.new) }
{
    pad(inner, outer.len())?;
    for (index, member) in outer.iter().enumerate() {
        complete_at(alloc, member.value.of(text), inner, index)?;
    }
    Ok(())
}

// Completes what is inside one value.
fn complete_at(
    alloc: Global,
    value: &[u8],
    inner: &mut InnerList,
    index: usize,
) -> Result<(), NoMemory>
    requires place { index < length inner.old }
    requires value { IsValue value.now }
    requires shallow { ¬ IsDeeper MAX_DEPTH value.now }
    requires alone { (members : List Member) → slice_get inner.old index ≡ Some (Some members) → IsReadAlone value.now members }
    ensures inside { OnOk result ((found : Option (List Member)) → slice_get inner.new index ≡ Some found → IsInside MAX_DEPTH value.now found) }
    ensures others { OnOk result ((k : ℕ) → k ≢ index → slice_get inner.new k ≡ slice_get inner.old k) }
    ensures size { OnOk result (length inner.new ≡ length inner.old) }
{
    if inner.at(index).is_some() {
        return Ok(());
    }
    if !is_object(value) {
        return Ok(());
    }
    let found = cut_value(alloc, value)?;
    inner.set(index, found);
    Ok(())
}

// What is inside a value.
fn cut_value(alloc: Global, value: &[u8]) -> Result<Option<MemberList>, NoMemory>
    requires { ¬ IsDeeper MAX_DEPTH value.now }
    ensures { IfOk result (IsInside MAX_DEPTH value.now) }
{
    match members(alloc, value) {
        Ok(found) => Ok(Some(found)),
        Err(SpanFault::NotObject) => Ok(None),
        Err(SpanFault::TooDeep) => unreachable!(),
        Err(SpanFault::NotArray) => unreachable!(),
        Err(SpanFault::NoMemory) => Err(NoMemory),
    }
}
