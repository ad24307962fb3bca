// A destination's tables in one file.
use crate::folder::Folder;
use crate::form::well_formed;
use crate::places::do_rise;
use crate::read::Stored;
use crate::write::text_of;
use kept_dock::{Keeper, KeptDock, KeptLoad};
use outside::{
    Copies, Fault, LoadPlan, MarksList, RawRow, RawRowList, Sequence, StreamIdList, StreamNo,
    StreamPlan, Tables, Unmerged,
};
use std::alloc::Global;

/// A destination whose tables one file keeps.
pub type FileDock<F, I, W> = KeptDock<FileKeeper<F>, I, W>;

/// Keeps a destination's tables in one text, which it holds in memory and writes as a whole at each change: meant for small
/// tables. A store that could not be written is closed, since the folder may have the one before. A text that is not that of
/// a store, to the last byte, is `Failed` at the opening, and stays as it was.
#[derive(Drop)]
pub struct FileKeeper<F: Folder + Drop> {
    alloc: Global,
    folder: F,
    store: Option<Stored>,
}

// The place up to which the side of a stream of the load is merged.
fn side_mark(tables: &Tables, plan: &StreamPlan) -> u64 {
    for table in tables.streams.as_slice() {
        if table.id == plan.id {
            return if plan.hidden {
                table.hidden.mark
            } else {
                table.shown.mark
            };
        }
    }
    0
}

fn side_marks(alloc: Global, tables: &Tables) -> Result<Sequence<u64>, Fault> {
    let mut marks = Sequence::with_capacity(alloc, tables.plan.len())?;
    for plan in tables.plan.as_slice() {
        marks.push(side_mark(tables, plan))?;
    }
    Ok(marks)
}

// Opens a load in a store that nobody else sees.
fn open_load(
    alloc: Global,
    store: &mut Stored,
    plan: &LoadPlan,
    moment: u64,
) -> Result<KeptLoad, Fault> {
    let Some(load) = store.tables.load.checked_add(1) else {
        return Err(Fault::Failed);
    };
    store.moments.push(moment)?;
    raw_tables::open_load(alloc, &mut store.tables, load, plan)?;
    Ok(KeptLoad {
        load,
        side_marks: side_marks(alloc, &store.tables)?,
    })
}

impl<F: Folder + Drop> FileKeeper<F> {
    /// A keeper whose folder is not open yet.
    pub fn new(alloc: Global, folder: F) -> Self {
        FileKeeper {
            alloc,
            folder,
            store: None,
        }
    }

    fn opened(&self) -> Result<&Stored, Fault> {
        match &self.store {
            Some(store) => Ok(store),
            None => Err(Fault::Failed),
        }
    }

    // The plan of a stream of the load that is open.
    fn plan(&self, stream: StreamNo) -> Result<&StreamPlan, Fault> {
        match self.opened()?.tables.plan.as_slice().get(stream as usize) {
            Some(plan) => Ok(plan),
            None => Err(Fault::Failed),
        }
    }

    // Takes the store out, to be changed and kept again.
    fn take(&mut self) -> Result<Stored, Fault> {
        match self.store.take() {
            Some(store) => Ok(store),
            None => Err(Fault::Failed),
        }
    }

    // Writes a changed store and keeps it; one that could not be written is no more.
    fn keep(&mut self, store: Stored) -> Result<(), Fault> {
        let Ok(text) = text_of(self.alloc, &store.moments, &store.tables) else {
            return Err(Fault::Failed);
        };
        if self.folder.replace(&text).is_err() {
            return Err(Fault::Failed);
        }
        self.store = Some(store);
        Ok(())
    }

    // Keeps a store that was changed, or that is as it was for want of memory.
    fn settle(&mut self, store: Stored, is_changed: bool) -> Result<(), Fault> {
        if is_changed {
            return self.keep(store);
        }
        self.store = Some(store);
        Err(Fault::NoMemory)
    }
}

impl<F: Folder + Drop> Keeper for FileKeeper<F> {
    fn open(&mut self, name: &str) -> Result<(), Fault> {
        self.store = None;
        self.folder.go_to(name)?;
        self.store = match self.folder.read()? {
            Some(text) => Some(well_formed(self.alloc, text.as_slice())?),
            None => Some(well_formed(self.alloc, b"")?),
        };
        Ok(())
    }

    fn marks(&mut self, alloc: Global, streams: &StreamIdList) -> Result<MarksList, Fault> {
        let store = self.opened()?;
        Ok(raw_tables::read_marks(alloc, &store.tables, streams.as_slice())?)
    }

    fn open_load(&mut self, plan: &LoadPlan, moment: u64) -> Result<KeptLoad, Fault> {
        let mut store = self.take()?;
        match open_load(self.alloc, &mut store, plan, moment) {
            Ok(load) => {
                self.keep(store)?;
                Ok(load)
            }
            // some streams may be open in memory, and none is in the folder
            Err(_) => Err(Fault::Failed),
        }
    }

    fn commit(&mut self, stream: StreamNo, rows: &RawRowList) -> Result<(), Fault> {
        self.plan(stream)?;
        let mut store = self.take()?;
        let done = raw_tables::commit(self.alloc, &mut store.tables, stream, rows);
        self.settle(store, done.is_ok())
    }

    fn unmerged(&mut self, alloc: Global, stream: StreamNo, most: u32) -> Result<Unmerged, Fault> {
        self.plan(stream)?;
        let store = self.opened()?;
        if !do_rise(&store.tables) {
            return Err(Fault::Failed);
        }
        Ok(raw_tables::read_page(alloc, &store.tables, stream, most as usize)?)
    }

    fn winner(
        &mut self,
        alloc: Global,
        stream: StreamNo,
        key: &[u8],
    ) -> Result<Option<RawRow>, Fault> {
        self.plan(stream)?;
        let store = self.opened()?;
        Ok(raw_tables::read_winner(alloc, &store.tables, stream, key)?)
    }

    fn merge(&mut self, stream: StreamNo, winners: &RawRowList, mark: u64) -> Result<(), Fault> {
        self.plan(stream)?;
        let copied = winners.copy(self.alloc)?;
        let mut store = self.take()?;
        let done = raw_tables::merge(self.alloc, &mut store.tables, stream, copied, mark);
        self.settle(store, done.is_ok())
    }

    fn show(&mut self, stream: StreamNo) -> Result<(), Fault> {
        if !self.plan(stream)?.hidden {
            return Ok(());
        }
        let mut store = self.take()?;
        let done = raw_tables::show(self.alloc, &mut store.tables, stream);
        self.settle(store, done.is_ok())
    }
}
