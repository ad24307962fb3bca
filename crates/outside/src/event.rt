// What happens in a load and in an attempt, as the list of events that an object may tell.
use basics::{Boxed, Bytes, Copies, Name, NoMemory, Sequence, StreamId, StreamNo};
use std::alloc::Global;

/// A record as a destination keeps it. The texts are JSON, but for `raw_id`, `key` and `cursor`.
#[derive(Debug, Drop)]
pub struct RawRow {
    /// The number of the load, from 1.
    pub load: u64,
    /// The record's number among those of its load, from 0.
    pub seq: u64,
    pub generation: u64,
    /// When the source read the record, in milliseconds since 1970.
    pub extracted_at: u64,
    /// When the load began, in milliseconds since 1970.
    pub loaded_at: u64,
    pub raw_id: Bytes,
    pub key: Bytes,
    pub cursor: Bytes,
    /// The record's `data`, as it stood in its line.
    pub body: Bytes,
    pub columns: Bytes,
    pub meta: Bytes,
}

impl Copies for RawRow {
    fn copy(&self, alloc: Global) -> Result<Self, NoMemory> {
        Ok(RawRow {
            load: self.load,
            seq: self.seq,
            generation: self.generation,
            extracted_at: self.extracted_at,
            loaded_at: self.loaded_at,
            raw_id: self.raw_id.copy(alloc)?,
            key: self.key.copy(alloc)?,
            cursor: self.cursor.copy(alloc)?,
            body: self.body.copy(alloc)?,
            columns: self.columns.copy(alloc)?,
            meta: self.meta.copy(alloc)?,
        })
    }
}

/// Rows in order.
pub type RawRowList = Sequence<RawRow>;

/// What a load does with one stream.
#[derive(Debug, Drop)]
pub struct StreamPlan {
    pub id: StreamId,
    pub dedup: bool,
    pub generation: u64,
    pub minimum: u64,
    pub hidden: bool,
}

impl Copies for StreamPlan {
    fn copy(&self, alloc: Global) -> Result<Self, NoMemory> {
        Ok(StreamPlan {
            id: self.id.copy(alloc)?,
            dedup: self.dedup,
            generation: self.generation,
            minimum: self.minimum,
            hidden: self.hidden,
        })
    }
}

/// The plans of a load's streams, in the order of the catalog.
pub type LoadPlan = Sequence<StreamPlan>;

/// What is asked of one child.
#[derive(Clone, Copy, Debug, PartialEq, Eq)]
pub enum AskKind {
    Spec,
    Check,
    Discover,
}

/// What an attempt runs.
#[derive(Debug, Drop)]
pub enum Job {
    /// A file of messages, in this process.
    Local,
    /// A source and a destination.
    Sync {
        source: Name,
        source_config: Name,
        dest: Name,
        dest_config: Name,
    },
    /// One child, for one answer.
    Ask {
        program: Name,
        kind: AskKind,
        config: Option<Name>,
    },
}

impl Copies for Job {
    fn copy(&self, alloc: Global) -> Result<Self, NoMemory> {
        match self {
            Job::Local => Ok(Job::Local),
            Job::Sync {
                source,
                source_config,
                dest,
                dest_config,
            } => Ok(Job::Sync {
                source: source.copy(alloc)?,
                source_config: source_config.copy(alloc)?,
                dest: dest.copy(alloc)?,
                dest_config: dest_config.copy(alloc)?,
            }),
            Job::Ask {
                program,
                kind,
                config,
            } => Ok(Job::Ask {
                program: program.copy(alloc)?,
                kind: *kind,
                config: config.copy(alloc)?,
            }),
        }
    }
}

/// What an attempt starts with.
#[derive(Debug, Drop)]
pub struct AttemptPlan {
    /// From 1.
    pub number: u32,
    pub job: Job,
    /// The name of the state store.
    pub store: Name,
    /// The text of the configured catalog.
    pub catalog: Bytes,
    /// The saved states, as a JSON array.
    pub states: Bytes,
}

impl Copies for AttemptPlan {
    fn copy(&self, alloc: Global) -> Result<Self, NoMemory> {
        Ok(AttemptPlan {
            number: self.number,
            job: self.job.copy(alloc)?,
            store: self.store.copy(alloc)?,
            catalog: self.catalog.copy(alloc)?,
            states: self.states.copy(alloc)?,
        })
    }
}

/// How a child ended.
#[derive(Clone, Copy, Debug, PartialEq, Eq)]
pub enum Exit {
    Code(u32),
    Signal,
}

/// How the two children ended, as far as that is known.
#[derive(Clone, Copy, Debug, PartialEq, Eq)]
pub struct Codes {
    pub source: Option<Exit>,
    pub dest: Option<Exit>,
}

/// What happened, at one moment. A destination's store adds the first seven, a link the others.
#[derive(Debug, Drop)]
pub enum Event {
    /// A load was opened.
    Opened {
        load: u64,
        moment: u64,
        plan: LoadPlan,
    },
    /// The destination took a line.
    Took(Bytes),
    /// The destination reached the end of its input.
    TookEnd,
    /// Rows of a stream were committed.
    Committed {
        stream: StreamNo,
        rows: RawRowList,
    },
    /// The destination wrote a line.
    Emitted(Bytes),
    /// The winners of a stream were merged, up to the row at `mark`.
    Merged {
        stream: StreamNo,
        winners: RawRowList,
        mark: u64,
    },
    /// A stream's hidden side was shown.
    Shown {
        stream: StreamNo,
        floor: u64,
        top: u64,
    },
    /// An attempt was started.
    Started(Boxed<AttemptPlan>),
    /// The worker read a line of the source.
    ReadLine(Bytes),
    /// The worker reached the end of the source's output.
    ReadEnd,
    /// The destination was given a line.
    Given(Bytes),
    /// The destination's input was closed.
    Closed,
    /// The worker got a line of the destination.
    Got(Bytes),
    /// The worker reached the end of the destination's output.
    GotEnd,
    /// The state store was replaced by this text.
    Saved(Bytes),
    /// Both children have ended.
    Ended(Codes),
}

impl Copies for Event {
    fn copy(&self, alloc: Global) -> Result<Self, NoMemory> {
        match self {
            Event::Opened { load, moment, plan } => Ok(Event::Opened {
                load: *load,
                moment: *moment,
                plan: plan.copy(alloc)?,
            }),
            Event::Took(line) => Ok(Event::Took(line.copy(alloc)?)),
            Event::TookEnd => Ok(Event::TookEnd),
            Event::Committed { stream, rows } => Ok(Event::Committed {
                stream: *stream,
                rows: rows.copy(alloc)?,
            }),
            Event::Emitted(line) => Ok(Event::Emitted(line.copy(alloc)?)),
            Event::Merged {
                stream,
                winners,
                mark,
            } => Ok(Event::Merged {
                stream: *stream,
                winners: winners.copy(alloc)?,
                mark: *mark,
            }),
            Event::Shown { stream, floor, top } => Ok(Event::Shown {
                stream: *stream,
                floor: *floor,
                top: *top,
            }),
            Event::Started(plan) => Ok(Event::Started(plan.copy(alloc)?)),
            Event::ReadLine(line) => Ok(Event::ReadLine(line.copy(alloc)?)),
            Event::ReadEnd => Ok(Event::ReadEnd),
            Event::Given(line) => Ok(Event::Given(line.copy(alloc)?)),
            Event::Closed => Ok(Event::Closed),
            Event::Got(line) => Ok(Event::Got(line.copy(alloc)?)),
            Event::GotEnd => Ok(Event::GotEnd),
            Event::Saved(text) => Ok(Event::Saved(text.copy(alloc)?)),
            Event::Ended(codes) => Ok(Event::Ended(*codes)),
        }
    }
}

/// Events in the order in which they happened.
pub type EventList = Sequence<Event>;
