// The laws of files that are given again, each as the contract of a function that does nothing.
ghost use Rattle.local_world.specs.Laws.{FilesReplay, FilesResume, OthersStay};

/// A law: behind any array of its states that is not refused, a file whose states are of one kind and of which no two are
/// the same gives the rest of each lane, with each state at its own place.
pub fn files_replay()
    ensures { FilesReplay }
{}

/// A law: such a file, begun again with a state that it gave, gives the lines of the state's lane behind it.
pub fn files_resume()
    ensures { FilesResume }
{}

/// A law: lines that are no records and no states stay, wherever the file starts.
pub fn others_stay()
    ensures { OthersStay }
{}
