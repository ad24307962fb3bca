// Laws.
ghost use Rattle.source_lines.specs.Checkpoints.{CutsAnew};
ghost use Rattle.source_lines.specs.Laws.{GivenByTurns, LinesResume};

/// A law: the rows behind a state, cut anew, are cut where the whole list was. So a stream that is started with one of
/// its states gives the rest.
pub fn cuts_anew()
    ensures { CutsAnew }
{}

/// A law: the lines of a stream, given one by one.
pub fn lines_by_turns()
    ensures { GivenByTurns }
{}

/// A law: a stream that is started with one of its states, at another moment, gives the lines that stood behind that state.
pub fn lines_resume()
    ensures { LinesResume }
{}
