// What is written of a set reads back.
ghost use Rattle.state_kinds.specs.Writable.{SetsReadBack, SetsStayWritable};

/// A law: the text of a set, whose state objects are states of their lanes and stand without white space around them, and
/// whose generations are at most 2^62, reads as that set, and as nothing else.
pub fn sets_read_back()
    ensures { SetsReadBack }
{}

/// A law: sets that read back stay so, where an attempt begins with generations that are at most 2^62 for streams whose names are
/// texts, and where a state that is right is put.
pub fn sets_stay_writable()
    ensures { SetsStayWritable }
{}
