// A feed of a source's streams.
ghost use Rattle.std.specs.Prelude.{◌≡◌, ◌≢◌, Ok, Err, IfOk, IfErr};
ghost use Rattle.basics.specs.Told.{RoseIf};
ghost use Rattle.json_fields.specs.Answer.{IsOnly};
ghost use Rattle.outside.specs.declared.status.Status.TheVariants as status;
ghost use Rattle.source_lines.specs.Begins.{BeginsAs};
ghost use Rattle.source_lines.specs.Giving.{first_round};
ghost use Rattle.source_lines.specs.Rounds.{wants_memory};
ghost use Rattle.source_lines.specs.Sources.{OpensAlike};

use crate::round::{Round, advance};
use crate::{ListedRows, StreamSource, begin_checks};
use basics::Bytes;
use outside::{Exit, Feed, Status};
use std::alloc::Global;
use std::marker::Model;

// How far a feed is.
#[derive(Drop)]
enum Progress<T: Drop, L: ListedRows + Drop> {
    Going(Round<T, L>),
    Ended(Status),
}

/// The lines of a source: those of its streams, in the order of the catalog, one stream behind the other. A feed that never
/// began has ended with `Ok`.
#[derive(Drop)]
pub struct SourceFeed<S: StreamSource + Drop> {
    source: S,
    moment: u64,
    progress: Progress<S::Start, S::Rows>,
}

impl<S: StreamSource + Drop> Model for SourceFeed<S> {
    ghost use Rattle.source_lines.specs.SourceFeeds.{SourceFeedSeen, reached_by};

    ghost Value = { SourceFeedSeen S S.Start };

    ghost view = { λ feed. record { source = feed.source; moment = feed.moment; reached = reached_by feed.progress } };
}

impl<S: StreamSource + Drop> SourceFeed<S> {
    ghost use Rattle.std.specs.Prelude.{◌≡◌};
    ghost use Rattle.outside.specs.declared.status.Status.TheVariants as status;
    ghost use Rattle.source_lines.specs.SourceFeeds.{Reached.Ended};

    /// A feed over this source, whose lines were read at this moment, in milliseconds since 1970.
    pub fn new(source: S, now_ms: u64) -> Self
        ensures { result ≡ record { source = source; moment = now_ms; reached = Ended status.Ok } }
    {
        SourceFeed {
            source,
            moment: now_ms,
            progress: Progress::Ended(Status::Ok),
        }
    }

    /// The source.
    pub fn into_source(self) -> S
        ensures { result ≡ self.source }
    {
        self.source
    }
}

// Whether memory was wanting.
fn is_memory(why: Status) -> bool
    ensures { result ≡ wants_memory why }
{
    matches!(why, Status::NoMemory)
}

// Where a feed begins with these texts.
fn begun<S: StreamSource>(
    alloc: Global,
    source: &mut S,
    catalog: &[u8],
    states: &[u8],
) -> Result<Round<S::Start, S::Rows>, Status>
    ensures first { IfOk result (λ round. round ≡ first_round round.streams round.starts) }
    ensures read { IfOk result (λ round. IsOnly (BeginsAs S.Starts (S.seen source.old).is_known catalog.now states.now) (Ok (round.streams, round.starts))) }
    ensures refused { IfErr result (λ why. why ≢ status.NoMemory → why ≢ status.RowFault → IsOnly (BeginsAs S.Starts (S.seen source.old).is_known catalog.now states.now) (Err why)) }
    ensures no_refusal { IfErr result (λ why. why ≢ status.Ok) }
    ensures alike { OpensAlike (S.Opens source.old) (S.Opens source.new) }
    ensures faults { RoseIf (result ≡ Err status.RowFault) (S.seen source.old).faults (S.seen source.new).faults }
    ensures stays { ¬ (result ≡ Err status.RowFault) → (S.seen source.new).faults ≡ (S.seen source.old).faults }
    ensures others { S.seen source.new ≡ record (S.seen source.old) { faults = (S.seen source.new).faults } }
{
    let (streams, starts) = begin_checks(alloc, source, catalog, states)?;
    source.make_ready(alloc)?;
    Ok(Round::new(streams, starts))
}

impl<S: StreamSource + Drop> Feed for SourceFeed<S> {
    ghost use Rattle.std.specs.Prelude.{◌≡◌, ◌≢◌, None, Ok, Err, IfErr, IfSome, OnOk};
    ghost use Rattle.basics.specs.Told.{RoseIf};
    ghost use Rattle.json_fields.specs.Answer.{IsOnly};
    ghost use Rattle.outside.specs.Feed.{AnswersAgain, Begins, GivesNext, RefusesTexts, StartsAlike, anything, ended_with};
    ghost use Rattle.outside.specs.declared.status.Status.TheVariants as status;
    ghost use Rattle.source_lines.specs.Begins.{BeginsAs};
    ghost use Rattle.source_lines.specs.Sources.{OpensAlike};
    ghost use Rattle.source_lines.specs.SourceFeeds.{BeginsWith, MayBeginFrom, MayGiveFrom, ended_as, feed_seen};

    ghost seen = { λ feed. feed_seen (S.seen feed.source) feed.reached };

    ghost MayGive = { λ feed. MayGiveFrom (S.Opens feed.source) feed.moment feed.reached };

    ghost MayBegin = { λ feed. MayBeginFrom S.Starts (S.seen feed.source) (S.Opens feed.source) feed.moment };

    fn begin(&mut self, alloc: Global, catalog: &[u8], states: &[u8]) -> Result<(), Status>
        ensures ok { OnOk result (ended_as self.new.reached ≡ None) }
        ensures begins { OnOk result (Begins (MayBeginFrom S.Starts (S.seen self.old.source) (S.Opens self.old.source) self.old.moment) catalog.now states.now (MayGiveFrom (S.Opens self.new.source) self.new.moment self.new.reached)) }
        ensures open { OnOk result (MayGiveFrom (S.Opens self.new.source) self.new.moment self.new.reached anything) }
        ensures refused { IfErr result (λ why. feed_seen (S.seen self.new.source) self.new.reached ≡ record (ended_with why (feed_seen (S.seen self.old.source) self.old.reached)) { faults = (S.seen self.new.source).faults }) }
        ensures causes { IfErr result (RefusesTexts (MayBeginFrom S.Starts (S.seen self.old.source) (S.Opens self.old.source) self.old.moment) catalog.now states.now) }
        ensures no_refusal { ¬ (result ≡ Err status.Ok) }
        ensures starts { StartsAlike (MayBeginFrom S.Starts (S.seen self.old.source) (S.Opens self.old.source) self.old.moment) (MayBeginFrom S.Starts (S.seen self.new.source) (S.Opens self.new.source) self.new.moment) }
        ensures faults { RoseIf (result ≡ Err status.RowFault) (S.seen self.old.source).faults (S.seen self.new.source).faults }
        ensures stays { ¬ (result ≡ Err status.RowFault) → (S.seen self.new.source).faults ≡ (S.seen self.old.source).faults }
        ensures goes { OnOk result (BeginsWith (BeginsAs S.Starts (S.seen self.old.source).is_known catalog.now states.now) self.new.reached) }
        ensures by_texts { IfErr result (λ why. why ≢ status.NoMemory → why ≢ status.RowFault → IsOnly (BeginsAs S.Starts (S.seen self.old.source).is_known catalog.now states.now) (Err why)) }
        ensures alike { OpensAlike (S.Opens self.old.source) (S.Opens self.new.source) }
        ensures source { S.seen self.new.source ≡ record (S.seen self.old.source) { faults = (S.seen self.new.source).faults } }
        ensures moment { self.new.moment ≡ self.old.moment }
    {
        self.progress = Progress::Ended(Status::Ok);
        match begun(alloc, &mut self.source, catalog, states) {
            Ok(round) => {
                self.progress = Progress::Going(round);
                Ok(())
            }
            Err(why) => {
                self.progress = Progress::Ended(why);
                Err(why)
            }
        }
    }

    fn next_line(&mut self, alloc: Global) -> Result<Option<Bytes>, Status>
        ensures again { IfSome (ended_as self.old.reached) (λ why. AnswersAgain result why (feed_seen (S.seen self.old.source) self.old.reached) (feed_seen (S.seen self.new.source) self.new.reached)) }
        ensures next { ended_as self.old.reached ≡ None → GivesNext result (MayGiveFrom (S.Opens self.old.source) self.old.moment self.old.reached) (MayGiveFrom (S.Opens self.new.source) self.new.moment self.new.reached) (feed_seen (S.seen self.old.source) self.old.reached) (feed_seen (S.seen self.new.source) self.new.reached) }
        ensures open { ended_as self.new.reached ≡ None → MayGiveFrom (S.Opens self.new.source) self.new.moment self.new.reached anything }
        ensures starts { StartsAlike (MayBeginFrom S.Starts (S.seen self.old.source) (S.Opens self.old.source) self.old.moment) (MayBeginFrom S.Starts (S.seen self.new.source) (S.Opens self.new.source) self.new.moment) }
        ensures alike { OpensAlike (S.Opens self.old.source) (S.Opens self.new.source) }
        ensures source { S.seen self.new.source ≡ record (S.seen self.old.source) { faults = (S.seen self.new.source).faults } }
        ensures moment { self.new.moment ≡ self.old.moment }
    {
        let answer = match &mut self.progress {
            Progress::Going(round) => advance(alloc, &mut self.source, self.moment, round),
            Progress::Ended(Status::Ok) => return Ok(None),
            Progress::Ended(why) => return Err(*why),
        };
        match answer {
            Ok(Some(line)) => Ok(Some(line)),
            Ok(None) => {
                self.progress = Progress::Ended(Status::Ok);
                Ok(None)
            }
            Err(why) => {
                if is_memory(why) {
                    return Err(why);
                }
                self.progress = Progress::Ended(why);
                Err(why)
            }
        }
    }

    fn exit(&self) -> Exit {
        match &self.progress {
            Progress::Going(_round) => unreachable!(),
            Progress::Ended(why) => Exit::Code(why.number()),
        }
    }
}
