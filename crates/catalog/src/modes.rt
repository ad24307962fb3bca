// How a stream is read, and how it is written.
ghost use Rattle.std.specs.Prelude.{◌≡◌};
ghost use Rattle.catalog.specs.Modes.{sync_mode_of, dest_mode_of};

/// How the source reads a stream.
#[derive(Clone, Copy, Debug, PartialEq, Eq)]
pub enum SyncMode {
    /// From its beginning, in each sync.
    FullRefresh,
    /// From where the last sync ended.
    Incremental,
}

impl SyncMode {
    /// The mode of this word.
    pub fn of(word: &str) -> Option<Self>
        ensures { result ≡ sync_mode_of word.now }
    {
        if word == "full_refresh" {
            return Some(SyncMode::FullRefresh);
        }
        if word == "incremental" {
            return Some(SyncMode::Incremental);
        }
        None
    }
}

/// How the destination writes a stream.
#[derive(Clone, Copy, Debug, PartialEq, Eq)]
pub enum DestMode {
    /// The table holds the records of the last refresh.
    Overwrite,
    /// The table holds all records.
    Append,
    /// The table holds the last record of each primary key.
    AppendDedup,
}

impl DestMode {
    /// The mode of this word.
    pub fn of(word: &str) -> Option<Self>
        ensures { result ≡ dest_mode_of word.now }
    {
        if word == "overwrite" {
            return Some(DestMode::Overwrite);
        }
        if word == "append" {
            return Some(DestMode::Append);
        }
        if word == "append_dedup" {
            return Some(DestMode::AppendDedup);
        }
        None
    }
}
