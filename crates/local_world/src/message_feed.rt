// A file of lines as a source.
ghost use Rattle.std.specs.Prelude.{◌≡◌};

use crate::front::restart;
use crate::left_lines::LeftLines;
use basics::Bytes;
use outside::{Exit, Feed, Status};
use std::alloc::Global;
use std::marker::Model;

/// A source that gives the lines of a file, from where saved states say.
///
/// Begun with states, it leaves out for each of them the records and states of its stream, or for a state of all streams every
/// record and state, up to the first line that holds the same state, and that line too. All other lines stay. It tells what it
/// will give. The catalog is not looked at, since a file has the lines that it has. A new feed gives all lines.
#[derive(Drop)]
pub struct MessageFeed {
    lines: LeftLines,
    ended: Option<Status>,
}

impl Model for MessageFeed {
    ghost use Rattle.local_world.specs.Begun.{Replay, left_until};

    ghost Value = { Replay };

    ghost view = { λ feed. record { text = feed.lines.text; left = left_until feed.ended feed.lines.left; seen = record { ended = feed.ended; faults = 0 } } };
}

impl MessageFeed {
    ghost use Rattle.std.specs.Prelude.{◌≡◌, None};
    ghost use Rattle.outside.specs.Feed.{GivesNext, anything};
    ghost use Rattle.text_lines.specs.Lines.{lines_of};
    ghost use Rattle.local_world.specs.Begun.{Gives, MayGive, gives_all};

    /// A feed over the lines of a text, which gives all of them.
    pub fn new(alloc: Global, text: Bytes) -> Self
        ensures { result ≡ gives_all text (lines_of text) }
    {
        MessageFeed {
            lines: LeftLines::new(alloc, text),
            ended: None,
        }
    }

    // The next line of a feed that has not ended.
    fn give_line(&mut self, alloc: Global) -> Result<Option<Bytes>, Status>
        requires { self.old.seen.ended ≡ None }
        ensures next { GivesNext result (MayGive self.old.left) (MayGive self.new.left) self.old.seen self.new.seen }
        ensures open { self.new.seen.ended ≡ None → MayGive self.new.left anything }
        ensures gives { Gives result self.old self.new }
        ensures text { self.new.text ≡ self.old.text }
        ensures no_faults { self.new.seen.faults ≡ 0 }
    {
        let found = self.lines.next_line(alloc).map_err(|_| Status::NoMemory)?;
        if found.is_none() {
            self.ended = Some(Status::Ok);
        }
        Ok(found)
    }
}

impl Feed for MessageFeed {
    ghost use Rattle.std.specs.Prelude.{◌≡◌, None, Err, IfErr, IfSome, OnOk};
    ghost use Rattle.basics.specs.Told.{RoseIf};
    ghost use Rattle.outside.specs.Feed.{
      AnswersAgain,
      Begins as BeginsTo,
      GivesNext,
      RefusesTexts,
      StartsAlike,
      anything,
      ended_with,
      nothing_left,
    };
    ghost use Rattle.local_world.specs.Begun.{Begins, Gives, MayBegin, MayGive, Refuses};

    ghost seen = { λ feed. feed.seen };

    ghost MayGive = { λ feed. MayGive feed.left };

    ghost MayBegin = { λ feed. MayBegin feed.text };

    // What the feed will give, by the array of states; and a refusal's cause.
    fn begin(&mut self, alloc: Global, _catalog: &[u8], states: &[u8]) -> Result<(), Status>
        ensures ok { OnOk result (self.new.seen.ended ≡ None) }
        ensures begins { OnOk result (BeginsTo (MayBegin self.old.text) _catalog.now states.now (MayGive self.new.left)) }
        ensures open { OnOk result (MayGive self.new.left anything) }
        ensures refused { IfErr result (λ why. self.new.seen ≡ record (ended_with why self.old.seen) { faults = self.new.seen.faults }) }
        ensures causes { IfErr result (RefusesTexts (MayBegin self.old.text) _catalog.now states.now) }
        ensures no_refusal { ¬ (result ≡ Err Status.Ok) }
        ensures starts { StartsAlike (MayBegin self.old.text) (MayBegin self.new.text) }
        ensures faults { RoseIf (result ≡ Err Status.RowFault) self.old.seen.faults self.new.seen.faults }
        ensures stays { ¬ (result ≡ Err Status.RowFault) → self.new.seen.faults ≡ self.old.seen.faults }
        ensures left { OnOk result (Begins self.old.text states.now self.new.left) }
        ensures refuses { IfErr result (Refuses self.old.text states.now) }
        ensures over { IfErr result (λ why. self.new.left ≡ nothing_left why) }
        ensures text { self.new.text ≡ self.old.text }
        ensures no_faults { self.new.seen.faults ≡ 0 }
    {
        match restart(alloc, &mut self.lines, states) {
            Ok(()) => {
                self.ended = None;
                Ok(())
            }
            Err(fault) => {
                let why = Status::from(fault);
                self.ended = Some(why);
                Err(why)
            }
        }
    }

    fn next_line(&mut self, alloc: Global) -> Result<Option<Bytes>, Status>
        ensures again { IfSome self.old.seen.ended (λ why. AnswersAgain result why self.old.seen self.new.seen) }
        ensures next { self.old.seen.ended ≡ None → GivesNext result (MayGive self.old.left) (MayGive self.new.left) self.old.seen self.new.seen }
        ensures open { self.new.seen.ended ≡ None → MayGive self.new.left anything }
        ensures starts { StartsAlike (MayBegin self.old.text) (MayBegin self.new.text) }
        ensures gives { Gives result self.old self.new }
        ensures text { self.new.text ≡ self.old.text }
        ensures no_faults { self.new.seen.faults ≡ 0 }
    {
        match self.ended {
            Some(Status::Ok) => Ok(None),
            Some(why) => Err(why),
            None => self.give_line(alloc),
        }
    }

    fn exit(&self) -> Exit {
        match self.ended {
            Some(why) => Exit::Code(why.number()),
            None => unreachable!(),
        }
    }
}
