// Members by names that are words, as texts and numbers of their own.
ghost use Rattle.std.specs.Prelude.{IfOk, IsTrue};
ghost use Rattle.json_fields.specs.Answer.{IsAnswer};
ghost use Rattle.json_fields.specs.Fields.{HasOptionalText, HasText, IsCut};
ghost use Rattle.json_fields.specs.Parts.{HasOptionalCount};
ghost use Rattle.json_fields.specs.Words.{is_word};

use basics::{Name, NoMemory};
use json_fields::{optional_in, optional_text_in, text_in};
use json_span::{Member, whole_of};
use std::alloc::Global;

/// The text that the member of this name stands for, `None` where it is no string.
pub fn name_in(
    alloc: Global,
    text: &[u8],
    members: &[Member],
    name: &str,
) -> Result<Option<Name>, NoMemory>
    requires cut { IsCut text.now members.now }
    requires word { IsTrue (is_word name.now) }
    ensures { IfOk result (IsAnswer (HasText text.now name.now)) }
{
    match text_in(alloc, text, members, name)? {
        Some(view) => Ok(Some(view.copied(alloc)?)),
        None => Ok(None),
    }
}

/// The text that an optional member stands for, `Some(None)` where it is absent, `None` where it is no string.
pub fn optional_name_in(
    alloc: Global,
    text: &[u8],
    members: &[Member],
    name: &str,
) -> Result<Option<Option<Name>>, NoMemory>
    requires cut { IsCut text.now members.now }
    requires word { IsTrue (is_word name.now) }
    ensures { IfOk result (IsAnswer (HasOptionalText text.now name.now)) }
{
    match optional_text_in(alloc, text, members, name)? {
        Some(Some(view)) => Ok(Some(Some(view.copied(alloc)?))),
        Some(None) => Ok(Some(None)),
        None => Ok(None),
    }
}

/// An optional member that is a whole number, `Some(None)` where it is absent, `None` where it is no such number.
pub fn optional_count_in(
    alloc: Global,
    text: &[u8],
    members: &[Member],
    name: &str,
) -> Result<Option<Option<u64>>, NoMemory>
    requires cut { IsCut text.now members.now }
    requires word { IsTrue (is_word name.now) }
    ensures { IfOk result (IsAnswer (HasOptionalCount text.now name.now)) }
{
    match optional_in(alloc, text, members, name)? {
        Some(held) => match whole_of(held) {
            Some(count) => Ok(Some(Some(count))),
            None => Ok(None),
        },
        None => Ok(Some(None)),
    }
}
