// What the names of a plan hold in the data of a record.
ghost use Rattle.std.specs.Prelude.{◌≡◌, ◌<◌, All, Some, OnOk, length, slice_get};
ghost use Rattle.json_span.specs.Members.{IsMemberOf, IsValue, text_at};
ghost use Rattle.json_span.specs.declared.Member.{Member};
ghost use Rattle.batch_prep.specs.Places.{AreDataMembers, AreHeldFrom, AreLabels, AreUnknown, noted};

use crate::layout::{Layout, slot_of};
use basics::NoMemory;
use json_span::{DeepMembers, Member, SpanFault};
use std::alloc::Global;

/// Finds what the names of a plan hold. The lists into which data is cut are kept for the next record.
#[derive(Drop)]
pub struct Finder {
    pub levels: DeepMembers,
    /// Where the last member of each name stands.
    pub places: Vec<Option<usize>>,
}

// Notes the place of a name's member, where none is noted yet.
fn note(places: &mut Vec<Option<usize>>, slot: usize, place: usize)
    requires { slot < length places.old.items }
    ensures { places.new.items ≡ noted places.old.items slot place }
{
    if places[slot].is_none() {
        places[slot] = Some(place);
    }
}

// No place is noted of so many names.
fn clear(places: &mut Vec<Option<usize>>, names: usize) -> Result<(), NoMemory>
    ensures { OnOk result (AreUnknown names places.new.items) }
{
    places.clear();
    for _ in 0..names {
        places.push(None)?;
    }
    Ok(())
}

// Notes where the last member of each name stands: from the last member on, so that the first that is found counts. The
// names of columns are mostly met in their order, so the one before the last that was met is tried first.
fn locate(
    alloc: Global,
    layout: &Layout,
    body: &[u8],
    members: &[Member],
    places: &mut Vec<Option<usize>>,
) -> Result<(), NoMemory>
    requires labels { AreLabels layout.now.names layout.now.labels }
    requires parts { All (IsMemberOf body.now) members.now }
    ensures { OnOk result (AreHeldFrom body.now layout.now.names members.now 0 places.new.items) }
{
    clear(places, layout.names.len())?;
    let mut next = layout.slots.len();
    let mut at = members.len();
    while at > 0 {
        at -= 1;
        let key = members[at].key.of(body);
        if let Some(slot) = slot_of(alloc, layout, key, next.saturating_sub(1))? {
            note(places, slot, at);
            next = slot;
        }
    }
    Ok(())
}

// Cuts data into its members. What is no object, or nests too deep, has none.
fn cut_data(levels: &mut DeepMembers, body: &[u8]) -> Result<(), NoMemory>
    ensures cut { OnOk result (AreDataMembers body.now levels.new.outer) }
    ensures parts { OnOk result (All (IsMemberOf body.now) levels.new.outer) }
{
    match levels.cut(body) {
        Ok(()) => Ok(()),
        Err(SpanFault::NotObject) => Ok(()),
        Err(SpanFault::TooDeep) => Ok(()),
        Err(SpanFault::NotArray) => unreachable!(),
        Err(SpanFault::NoMemory) => Err(NoMemory),
    }
}

// What the member at a place holds.
fn held_by<'a>(members: &[Member], body: &'a [u8], place: usize) -> &'a [u8]
    requires place { place < length members.now }
    requires parts { All (IsMemberOf body.now) members.now }
    ensures held { (member : Member) → slice_get members.now place ≡ Some member → result.now ≡ text_at body.now member.value }
    ensures value { IsValue result.now }
{
    members[place].value.of(body)
}

impl Finder {
    ghost use Rattle.std.specs.Prelude.{◌≡◌, ◌<◌, All, IfSome, OnOk, length};
    ghost use Rattle.std.specs.Option.{option_copied};
    ghost use Rattle.json_span.specs.Members.{IsValue};
    ghost use Rattle.batch_prep.specs.Places.{AreFound, AreLabels, IsHeldAt};

    /// Nothing is found yet.
    pub fn new(alloc: Global) -> Self {
        Finder {
            levels: DeepMembers::new(alloc),
            places: Vec::new(alloc),
        }
    }

    /// Cuts data, once, and finds its members by their names.
    pub fn cut(&mut self, alloc: Global, layout: &Layout, body: &[u8]) -> Result<(), NoMemory>
        requires { AreLabels layout.now.names layout.now.labels }
        ensures { OnOk result (AreFound body.now layout.now.names self.new.levels.outer self.new.places.items) }
    {
        cut_data(&mut self.levels, body)?;
        locate(alloc, layout, body, self.levels.outer(), &mut self.places)
    }

    /// What the member of the name at a place holds.
    pub fn held<'a>(&self, layout: &Layout, body: &'a [u8], slot: usize) -> Option<&'a [u8]>
        requires found { AreFound body.now layout.now.names self.now.levels.outer self.now.places.items }
        requires slot { slot < length layout.now.names }
        ensures held { IsHeldAt body.now layout.now.names slot (option_copied result) }
        ensures value { IfSome result (λ held. IsValue held.now) }
    {
        match self.places[slot] {
            Some(place) => Some(held_by(self.levels.outer(), body, place)),
            None => None,
        }
    }
}
