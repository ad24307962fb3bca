//! Cuts JSON texts (RFC 8259) without copying: the places of an object's members, and of an array's elements.
#![tactic(auto)]

use basics::{NoMemory, Sequence};
pub use json_scalar::{is_string_of, quote, text_of, whole_of};

/// Arrays and objects nest at most so deep.
pub const MAX_DEPTH: usize = 127;

/// A place in a text, in bytes from its start; `end` is the place behind the last byte.
#[derive(Clone, Copy, Debug, PartialEq, Eq)]
pub struct Span {
    pub start: u64,
    pub end: u64,
}

impl Span {
    ghost use Rattle.std.specs.Prelude.{◌≡◌, length};
    ghost use Rattle.json_span.specs.Members.{IsWithin, text_at};

    /// The text at this place.
    pub fn of<'a>(&self, text: &'a [u8]) -> &'a [u8]
        requires { IsWithin (length text.now) self.now }
        ensures { result.now ≡ text_at text.now self.now }
    {
        &text[self.start as usize..self.end as usize]
    }
}

/// A member of an object: the place of its key, quotation marks included, and that of its value. White space
/// around them is left out.
#[derive(Clone, Copy, Debug, PartialEq, Eq)]
pub struct Member {
    pub key: Span,
    pub value: Span,
}

/// The members of an object, in the order of the text.
pub type MemberList = Sequence<Member>;

/// The places of an array's elements, in the order of the text. White space around them is left out.
pub type SpanList = Sequence<Span>;

/// Why a text was not cut.
#[derive(Clone, Copy, Debug, PartialEq, Eq)]
pub enum SpanFault {
    /// It is no JSON object, or not UTF-8.
    NotObject,
    /// It is no JSON array, or not UTF-8.
    NotArray,
    /// It is a JSON object, or a JSON array, that nests too deep.
    TooDeep,
    NoMemory,
}

impl From<NoMemory> for SpanFault {
    ghost use Rattle.std.specs.Prelude.{◌≡◌};
    ghost use Rattle.json_span.specs.declared.SpanFault.{SpanFault};
    ghost use Rattle.json_span.specs.declared.SpanFault.TheVariants as fault;

    ghost from_gives = { λ _ f. f ≡ fault.NoMemory };

    fn from(_: NoMemory) -> Self {
        SpanFault::NoMemory
    }
}

mod array;
mod class;
mod cut;
mod cutter;
mod frames;
mod levels;
mod lists;
mod machine;
mod phase;
mod reader;
mod skip;
mod table;
mod token;

pub use array::{elements, elements_within, is_array};
pub use cut::{is_object, members, members_within, no_object_in_front};
pub use levels::DeepMembers;
pub use lists::{ListedMembers, members_and_list};
