// Cutting an object and those of its values that are objects, into lists that are kept from text to text.
use crate::reader::Reader;
use crate::{MAX_DEPTH, Member, SpanFault};
use std::alloc::Global;
use std::marker::Model;

/// The members of an object, and those of each of its values that is an object. The lists are kept: a next text is
/// cut in their memory.
#[derive(Drop)]
pub struct DeepMembers {
    reader: Reader,
}

impl Model for DeepMembers {
    ghost use Rattle.std.specs.Prelude.{◌≡◌, length};
    ghost use Rattle.json_span.specs.Levels.{Levels};

    ghost Value = { Levels };

    ghost view = { λ deep. record { outer = deep.reader.outside.cutter.members; inner = deep.reader.inner } };

    ghost invariant = { λ deep. length deep.reader.inner ≡ length deep.reader.outside.cutter.members };
}

impl DeepMembers {
    ghost use Rattle.std.specs.Prelude.{◌≡◌, ◌<◌, All, OnOk, OnErr, IsErrOf, Some, length, slice_get, option_map};
    ghost use Rattle.json_span.specs.Members.{AreMembers, HasOnlyMembers, IsMemberOf, IsNoObject, IsDeeper};
    ghost use Rattle.json_span.specs.Levels.{no_levels, AreInside};

    /// Nothing is cut yet.
    pub fn new(alloc: Global) -> Self
        ensures { result ≡ no_levels }
    {
        DeepMembers {
            reader: Reader::new(alloc),
        }
    }

    /// Cuts an object that nests at most 127 deep into its members, and each value that is an object into its own, as
    /// `members` does. What was cut before is gone, and nothing is held after a fault.
    pub fn cut(&mut self, text: &[u8]) -> Result<(), SpanFault>
        ensures found { OnOk result (AreMembers MAX_DEPTH text.now self.new.outer) }
        ensures only { OnOk result (HasOnlyMembers MAX_DEPTH text.now self.new.outer) }
        ensures parts { OnOk result (All (IsMemberOf text.now) self.new.outer) }
        ensures inside { OnOk result (AreInside MAX_DEPTH text.now self.new.outer self.new.inner) }
        ensures not_object { IsErrOf result SpanFault.NotObject → IsNoObject text.now }
        ensures too_deep { IsErrOf result SpanFault.TooDeep → IsDeeper MAX_DEPTH text.now }
        ensures never_not_array { ¬ IsErrOf result SpanFault.NotArray }
        ensures emptied { OnErr result (self.new ≡ no_levels) }
    {
        self.reader.clear();
        match self.reader.cut(text) {
            Ok(()) => Ok(()),
            Err(fault) => {
                self.reader.clear();
                Err(fault)
            }
        }
    }

    /// The members of the object.
    pub fn outer(&self) -> &[Member]
        ensures { result.now ≡ self.now.outer }
    {
        self.reader.outside.cutter.members.as_slice()
    }

    /// The members of the value at this index, with places from where the value begins; `None` where it is no object.
    pub fn inner(&self, index: usize) -> Option<&[Member]>
        requires { index < length self.now.outer }
        ensures { slice_get self.now.inner index ≡ Some (option_map (λ members. members.now) result) }
    {
        match self.reader.inner.at(index) {
            Some(members) => Some(members.as_slice()),
            None => None,
        }
    }
}
