// The elements of an array, put behind a text.
ghost use Rattle.std.specs.Prelude.{◌≡◌, [], ◌∷◌, ◌++◌, OnOk, if◌then◌else◌};
ghost use Rattle.json_write.specs.Fronts.{IsFrontOf};
ghost use Rattle.json_write.specs.Objects.{list_text};

use basics::{Bytes, BytesList, NoMemory};

/// Puts the comma before an element, unless it is the first.
pub fn put_comma(text: &mut Bytes, is_first: bool) -> Result<(), NoMemory>
    ensures ok { OnOk result (text.new ≡ text.old ++ (if is_first then [] else 44 ∷ [])) }
    ensures front { IsFrontOf text.old text.new }
{
    if is_first { Ok(()) } else { text.push(b',') }
}

/// Puts the array whose elements have these texts.
pub fn put_list(text: &mut Bytes, items: &BytesList) -> Result<(), NoMemory>
    ensures ok { OnOk result (text.new ≡ text.old ++ list_text items.now) }
    ensures front { IsFrontOf text.old text.new }
{
    text.push(b'[')?;
    for (i, item) in items.as_slice().iter().enumerate() {
        put_comma(text, i == 0)?;
        text.extend(item.as_slice())?;
    }
    text.push(b']')?;
    Ok(())
}
