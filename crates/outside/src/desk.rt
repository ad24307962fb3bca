// The desk: where texts are read from, and where lines are said.
ghost use Rattle.std.specs.Prelude.{◌≡◌, [], ◌∷◌, Some, IfOk, IfSome, OnOk, IsErrOf};
ghost use Rattle.basics.specs.Told.{RoseIf};
ghost use Rattle.outside.specs.Desk.{DeskSeen, SaidLines, SaidFront};
ghost use Rattle.outside.specs.FaultCounts.{StaysUnlessFailed};

use crate::Fault;
use basics::Bytes;
use std::alloc::Global;

/// Where a program reads whole texts by name, and says its lines.
///
/// A call changes only what its clauses name. Where a desk tells its texts or its lines, the clauses on content
/// hold; a real desk tells neither. Its two counts of faults never fall, stay in a call that does not fail, and end at
/// the largest `u64`.
pub trait Desk {
    /// The texts and the lines said, each where it is told, and the counts of faults.
    ghost seen: { Self → DeskSeen };

    /// The whole text of that name. A missing one is `Failed`, which raises `read_faults`.
    fn read_text(&mut self, alloc: Global, name: &str) -> Result<Bytes, Fault>
        ensures text { IfOk result (λ text. IfSome (seen self.old).texts (λ by_name. by_name name.now ≡ Some text)) }
        ensures faults { RoseIf (IsErrOf result Fault.Failed) (seen self.old).read_faults (seen self.new).read_faults }
        ensures stays { StaysUnlessFailed result (seen self.old).read_faults (seen self.new).read_faults }
        ensures others { seen self.new ≡ record (seen self.old) { read_faults = (seen self.new).read_faults } };

    /// Says a line; the newline behind it is the desk's. At `Failed`, which raises `say_faults`, the whole line was
    /// said, or nothing. A line that was said may wait in the desk until `flush`.
    fn say(&mut self, line: &[u8]) -> Result<(), Fault>
        ensures ok { OnOk result (SaidLines (line.now ∷ []) (seen self.old) (seen self.new)) }
        ensures front { SaidFront (IsErrOf result Fault.Failed) (line.now ∷ []) (seen self.old) (seen self.new) }
        ensures no_memory { IsErrOf result Fault.NoMemory → SaidLines [] (seen self.old) (seen self.new) }
        ensures stays { StaysUnlessFailed result (seen self.old).say_faults (seen self.new).say_faults };

    /// Writes out what was said. What could not be written is `Failed`, which raises `say_faults`; it stays said. It
    /// takes no memory.
    fn flush(&mut self) -> Result<(), Fault>
        ensures no_memory { ¬ IsErrOf result Fault.NoMemory }
        ensures faults { RoseIf (IsErrOf result Fault.Failed) (seen self.old).say_faults (seen self.new).say_faults }
        ensures stays { StaysUnlessFailed result (seen self.old).say_faults (seen self.new).say_faults }
        ensures others { seen self.new ≡ record (seen self.old) { say_faults = (seen self.new).say_faults } };
}
