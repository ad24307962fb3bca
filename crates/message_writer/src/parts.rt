// Parts that payloads have in common.
ghost use Rattle.std.specs.Prelude.{◌≡◌, [], ◌∷◌, ◌++◌, OnOk, codes, option_map};
ghost use Rattle.json.specs.Print.{quoted};
ghost use Rattle.json_write.specs.Objects.{more_text, named, optional, part_before};

use basics::{Bytes, NoMemory, StreamId};
use json_write::{put_optional_string, put_string_member};

/// Puts a stream as the first members of an object: its name in the member of this name, and its namespace where it has
/// one.
pub fn put_id(text: &mut Bytes, member: &str, id: &StreamId) -> Result<(), NoMemory>
    ensures { OnOk result (text.new ≡ text.old ++ (123 ∷ part_before (named member.now (quoted id.now.name)) []) ++ more_text (optional (codes "namespace") (option_map quoted id.now.namespace) [])) }
{
    put_string_member(text, b'{', member, id.name.as_str())?;
    put_optional_string(text, "namespace", &id.namespace)
}
