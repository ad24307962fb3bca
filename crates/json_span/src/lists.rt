// Reading an object and the first of its values that is an array in one pass: one machine reads the text, and where a
// member's value begins as an array another reads that, so that each byte is read once.
ghost use Rattle.std.specs.Prelude.{◌≡◌, Some, All, IfOk, IsErrOf};
ghost use Rattle.json_span.specs.Members.{AreMembers, HasOnlyMembers, IsMemberOf, IsNoObject, IsDeeper};
ghost use Rattle.json_span.specs.Elements.{IsSomeArray, IsDeeperArray};
ghost use Rattle.json_span.specs.Lists.{AreShallowArrays, IsArrayCutInto, IsFirst, IsFirstArray, IsListed, IsListRead};

use crate::array::{elements_within, is_array};
use crate::machine::Machine;
use crate::phase::{Frame, Phase, Run, is_done};
use crate::skip::skip;
use crate::{MAX_DEPTH, Member, MemberList, SpanFault, SpanList};
use basics::{NoMemory, Sequence};
use std::alloc::Global;

/// An object's members, and the elements of the first of their values that is an array.
#[derive(Drop)]
pub struct ListedMembers {
    pub members: MemberList,

    /// The index of the first member whose value is an array, if one is.
    pub listed: Option<usize>,

    /// The elements of that value, with places from where it begins; none where no value is an array.
    pub elements: SpanList,
}

/// The two machines, and the index of the member whose value the inner one has read.
#[derive(Drop)]
struct ListReader {
    pub outside: Machine,
    pub inside: Machine,
    pub listed: Option<usize>,
}

impl ListReader {
    ghost use Rattle.std.specs.Prelude.{◌≡◌, ◌<◌, ◌≤◌, [], ◌∷◌, None, IfOk, OnOk, IsTrue, ◌-◌, length, get_or, slice_index};
    ghost use Rattle.json_span.specs.Machine.{initial, read_whole, IsDone, IsTaken};
    ghost use Rattle.json_span.specs.Lists.{IsListRead};
    ghost use Rattle.json_span.specs.declared.phase.Frame.TheVariants as frame;
    ghost use Rattle.json_span.specs.declared.phase.Phase.TheVariants as phase;

    /// Nothing has been read.
    fn new(alloc: Global) -> Self
        ensures outside { result.outside ≡ initial frame.Object }
        ensures listed { result.listed ≡ None }
    {
        ListReader {
            outside: Machine::new(alloc, Frame::Object),
            inside: Machine::new(alloc, Frame::Array),
            listed: None,
        }
    }

    /// Reads the whole text.
    fn read(&mut self, text: &[u8]) -> Result<(), NoMemory>
        requires outside { self.old.outside ≡ initial frame.Object }
        requires listed { self.old.listed ≡ None }
        ensures outside { OnOk result (self.new.outside ≡ read_whole frame.Object text.now) }
        ensures list { OnOk result (IsListRead text.now self.new.outside.cutter.members self.new.listed self.new.inside.cutter.elements) }
    {
        let mut at = 0;
        while at < text.len() {
            at = self.take(text, at)?;
        }
        Ok(())
    }

    /// Reads the next token, or the first array that a member's value is.
    #[inline(always)]
    fn take(&mut self, text: &[u8], at: usize) -> Result<usize, NoMemory>
        requires place { at < length text.now }
        requires list { IsListRead text.now self.old.outside.cutter.members self.old.listed self.old.inside.cutter.elements }
        ensures taken { IfOk result (IsTaken text.now self.old.outside at self.new.outside) }
        ensures further { IfOk result (λ to. (at < to) × (to ≤ length text.now)) }
        ensures list { OnOk result (IsListRead text.now self.new.outside.cutter.members self.new.listed self.new.inside.cutter.elements) }
    {
        if text[at] == b'[' && self.is_before_a_list() {
            return self.take_array(text, at);
        }
        self.outside.take(text, at)
    }

    /// Whether a member's value is wanted, and no array has been read yet.
    fn is_before_a_list(&self) -> bool
        ensures { IsTrue result → (self.now.outside.phase ≡ phase.Value) × (self.now.outside.frames ≡ frame.Object ∷ []) × (self.now.listed ≡ None) }
    {
        match (self.outside.phase, self.listed) {
            (Phase::Value, None) => self.outside.frames.is_one_object(),
            _ => false,
        }
    }

    /// Whether what was read inside is an array to its end, and not too deep.
    fn has_read_array(&self, value: &[u8]) -> bool
        ensures { IsTrue result → IsDone self.now.inside.phase × (self.now.inside.deepest ≤ MAX_DEPTH) × (get_or value.now (length value.now - 1) 0 ≡ 93) }
    {
        if !is_done(self.inside.phase) || self.inside.deepest > MAX_DEPTH || value.is_empty() {
            return false;
        }
        value[value.len() - 1] == b']'
    }

    /// Reads the array that a member's value is, or its first byte where it is none that stands alone.
    fn take_array(&mut self, text: &[u8], at: usize) -> Result<usize, NoMemory>
        requires place { at < length text.now }
        requires byte { slice_index text.now at ≡ 91 }
        requires phase { self.old.outside.phase ≡ phase.Value }
        requires frames { self.old.outside.frames ≡ frame.Object ∷ [] }
        requires listed { self.old.listed ≡ None }
        ensures taken { IfOk result (IsTaken text.now self.old.outside at self.new.outside) }
        ensures further { IfOk result (λ to. (at < to) × (to ≤ length text.now)) }
        ensures list { OnOk result (IsListRead text.now self.new.outside.cutter.members self.new.listed self.new.inside.cutter.elements) }
    {
        let value = &text[at..];
        let size = self.inside.read_front(value, Frame::Array)?;
        if !self.has_read_array(&value[..size]) {
            return self.outside.take(text, at);
        }
        self.listed = Some(self.outside.cutter.members.len());
        self.outside
            .pass_value(at as u64, (at + size) as u64, self.inside.deepest)?;
        Ok(skip(text, at + size, Run::Blanks))
    }
}

// The index of the first member whose value is an array.
fn first_array(text: &[u8], members: &[Member]) -> Option<usize>
    requires { All (IsMemberOf text.now) members.now }
    ensures { IsFirst text.now members.now result }
{
    for (index, member) in members.iter().enumerate() {
        if is_array(member.value.of(text)) {
            return Some(index);
        }
    }
    None
}

// The elements of the first array among the values.
fn cut_at(
    alloc: Global,
    text: &[u8],
    members: &[Member],
    index: usize,
) -> Result<SpanList, NoMemory>
    requires parts { All (IsMemberOf text.now) members.now }
    requires shallow { AreShallowArrays MAX_DEPTH text.now members.now }
    requires first { IsFirstArray text.now members.now index }
    ensures { IfOk result (IsListed MAX_DEPTH text.now members.now (Some index)) }
{
    cut_array(alloc, members[index].value.of(text))
}

// The elements of the first array: what was read on the way where that is it.
fn array_at(
    alloc: Global,
    text: &[u8],
    members: &[Member],
    first: Option<usize>,
    listed: Option<usize>,
    read: SpanList,
) -> Result<SpanList, NoMemory>
    requires parts { All (IsMemberOf text.now) members.now }
    requires shallow { AreShallowArrays MAX_DEPTH text.now members.now }
    requires first { IsFirst text.now members.now first }
    requires read { IsListRead text.now members.now listed read }
    ensures { IfOk result (IsListed MAX_DEPTH text.now members.now first) }
{
    let Some(index) = first else {
        return Ok(Sequence::new(alloc));
    };
    match listed {
        Some(place) if place == index => Ok(read),
        _ => cut_at(alloc, text, members, index),
    }
}

// The elements of a value that is an array.
fn cut_array(alloc: Global, value: &[u8]) -> Result<SpanList, NoMemory>
    requires array { IsSomeArray value.now }
    requires shallow { ¬ IsDeeperArray MAX_DEPTH value.now }
    ensures { IfOk result (IsArrayCutInto MAX_DEPTH value.now) }
{
    match elements_within(alloc, value, MAX_DEPTH) {
        Ok(found) => Ok(found),
        Err(SpanFault::NotArray) => unreachable!(),
        Err(SpanFault::NotObject) => unreachable!(),
        Err(SpanFault::TooDeep) => unreachable!(),
        Err(SpanFault::NoMemory) => Err(NoMemory),
    }
}

/// Cuts an object that nests at most 127 deep into its members, as `members` does, and in the same pass the first of its
/// values that is an array into its elements.
pub fn members_and_list(alloc: Global, text: &[u8]) -> Result<ListedMembers, SpanFault>
    ensures found { IfOk result (λ cut. AreMembers MAX_DEPTH text.now cut.members) }
    ensures only { IfOk result (λ cut. HasOnlyMembers MAX_DEPTH text.now cut.members) }
    ensures parts { IfOk result (λ cut. All (IsMemberOf text.now) cut.members) }
    ensures list { IfOk result (λ cut. IsListed MAX_DEPTH text.now cut.members cut.listed cut.elements) }
    ensures not_object { IsErrOf result SpanFault.NotObject → IsNoObject text.now }
    ensures too_deep { IsErrOf result SpanFault.TooDeep → IsDeeper MAX_DEPTH text.now }
    ensures never_not_array { ¬ IsErrOf result SpanFault.NotArray }
{
    if !simdutf8::is_utf8(text) {
        return Err(SpanFault::NotObject);
    }
    let mut reader = ListReader::new(alloc);
    reader.read(text)?;
    if !is_done(reader.outside.phase) {
        return Err(SpanFault::NotObject);
    }
    if reader.outside.deepest > MAX_DEPTH {
        return Err(SpanFault::TooDeep);
    }
    let ListReader {
        outside,
        inside,
        listed,
    } = reader;
    let outer = outside.cutter;
    let inner = inside.cutter;
    let first = first_array(text, outer.members.as_slice());
    let elements = array_at(
        alloc,
        text,
        outer.members.as_slice(),
        first,
        listed,
        inner.elements,
    )?;
    Ok(ListedMembers {
        members: outer.members,
        listed: first,
        elements,
    })
}
