// A destination's tables in SQLite.
use kept_dock::{Keeper, KeptDock, KeptLoad};
use outside::{Fault, LoadPlan, MarksList, RawRow, RawRowList, StreamIdList, StreamNo, Unmerged};
use sqlite_calls::Opener;
use sqlite_tables::SqlTables;
use std::alloc::Global;

/// A destination whose tables an SQLite database keeps.
pub type SqliteDock<O, I, W> = KeptDock<SqliteKeeper<O>, I, W>;

/// Keeps a destination's tables in an SQLite database.
///
/// Each commit, merge, show and opening of a load is one transaction, on the disk before the call answers.
#[derive(Drop)]
pub struct SqliteKeeper<O: Opener + Drop> {
    alloc: Global,
    opener: O,
    tables: Option<SqlTables<O::Base>>,
}

impl<O: Opener + Drop> SqliteKeeper<O> {
    /// A keeper whose database is not open yet.
    pub fn new(alloc: Global, opener: O) -> Self {
        SqliteKeeper {
            alloc,
            opener,
            tables: None,
        }
    }

    fn opened(&mut self) -> Result<&mut SqlTables<O::Base>, Fault> {
        match &mut self.tables {
            Some(tables) => Ok(tables),
            None => Err(Fault::Failed),
        }
    }
}

impl<O: Opener + Drop> Keeper for SqliteKeeper<O> {
    fn open(&mut self, name: &str) -> Result<(), Fault> {
        self.tables = None;
        let base = self.opener.open(name)?;
        self.tables = Some(SqlTables::over(self.alloc, base)?);
        Ok(())
    }

    fn marks(&mut self, alloc: Global, streams: &StreamIdList) -> Result<MarksList, Fault> {
        self.opened()?.marks(alloc, streams)
    }

    fn open_load(&mut self, plan: &LoadPlan, moment: u64) -> Result<KeptLoad, Fault> {
        let opened = self.opened()?.open_load(plan, moment)?;
        Ok(KeptLoad {
            load: opened.load,
            side_marks: opened.side_marks,
        })
    }

    fn commit(&mut self, stream: StreamNo, rows: &RawRowList) -> Result<(), Fault> {
        self.opened()?.commit(stream as usize, rows)
    }

    fn unmerged(&mut self, alloc: Global, stream: StreamNo, most: u32) -> Result<Unmerged, Fault> {
        self.opened()?.unmerged(alloc, stream as usize, most)
    }

    fn winner(
        &mut self,
        alloc: Global,
        stream: StreamNo,
        key: &[u8],
    ) -> Result<Option<RawRow>, Fault> {
        self.opened()?.winner(alloc, stream as usize, key)
    }

    fn merge(&mut self, stream: StreamNo, winners: &RawRowList, mark: u64) -> Result<(), Fault> {
        self.opened()?.merge(stream as usize, winners, mark)
    }

    fn show(&mut self, stream: StreamNo) -> Result<(), Fault> {
        self.opened()?.show(stream as usize)
    }
}
