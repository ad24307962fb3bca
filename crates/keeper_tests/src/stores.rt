// Stores in files: closed and opened again, taken by another, and no store at all.
use crate::files::{remove, write_text};
use crate::play::{calls_before_opening, play};
use crate::source_tables::make_with;
use file_dock::{FileDock, FileKeeper, Folder, StdFolder};
use outside::{Bytes, Dock, FailList, Fault};
use outside_mem::{MemDock, MemSink, MemSource};
use sqlite_dock::{SqliteDock, SqliteKeeper};
use sqlite_file::FileOpener;
use std::alloc::Global;
use std::fs;
use std::test::Fail;

const MOMENT: u64 = 1_700_000_000_000;

type FolderDock<'a> = FileDock<StdFolder<'a>, MemSource, MemSink>;

const SEEDS: u64 = 5;

const LOADS: u32 = 3;

type DatabaseDock<'a> = SqliteDock<FileOpener<'a>, MemSource, MemSink>;

fn database_dock(rt: &HostRuntime) -> Result<DatabaseDock<'_>, Fault> {
    let alloc = rt.alloc();
    let source = MemSource::new(Bytes::new(alloc), FailList::new(alloc));
    let sink = MemSink::new(alloc, FailList::new(alloc));
    Ok(SqliteDock::new(
        alloc,
        MOMENT,
        SqliteKeeper::new(alloc, FileOpener::new(rt)),
        source,
        sink,
    )?)
}

// What the loads of a seed tell on a store in a file, which is opened for them and closed.
fn play_in_file(rt: &HostRuntime, name: &str, seed: u64) -> Result<Bytes, Fault> {
    let mut dock = database_dock(rt)?;
    play(rt.alloc(), &mut dock, name, seed, LOADS)
}

fn memory_dock(alloc: Global) -> Result<MemDock, Fault> {
    Ok(MemDock::new(alloc, MOMENT, FailList::new(alloc))?)
}

// How many bytes the seeds tell until one tells others on the file than in memory, whose dock lasts.
fn same_bytes(rt: &HostRuntime, name: &str) -> Result<usize, Fault> {
    let mut memory = memory_dock(rt.alloc())?;
    let mut count = 0usize;
    for seed in 0..SEEDS {
        let told = play(rt.alloc(), &mut memory, name, seed, LOADS)?;
        if play_in_file(rt, name, seed)? != told {
            return Ok(0);
        }
        count = count.saturating_add(told.len());
    }
    Ok(count)
}

#[test]
fn a_store_that_is_opened_again_answers_as_one_in_memory_that_lasts(
    rt: HostRuntime,
) -> Result<(), Fail> {
    remove(&rt, "keeper_again.db")?;
    let count = same_bytes(&rt, "keeper_again.db")?;
    assert!(rt; count > 10_000);
    remove(&rt, "keeper_again.db")?;
    Ok(())
}

// Opens a store twice at once: what the second open answers, and then the same once the first is closed.
fn open_twice(rt: &HostRuntime, name: &str) -> Result<(bool, bool), Fault> {
    let mut second = database_dock(rt)?;
    let taken = {
        let mut first = database_dock(rt)?;
        first.open_store(name)?;
        second.open_store(name) == Err(Fault::Failed)
    };
    let free = second.open_store(name) == Ok(());
    Ok((taken, free && second.counts().store_faults == 1))
}

#[test]
fn a_store_that_is_taken_fails_and_then_opens(rt: HostRuntime) -> Result<(), Fail> {
    remove(&rt, "keeper_taken.db")?;
    assert_eq!(rt; open_twice(&rt, "keeper_taken.db")?, (true, true));
    remove(&rt, "keeper_taken.db")?;
    Ok(())
}

fn folder_dock(rt: &HostRuntime) -> Result<FolderDock<'_>, Fault> {
    let alloc = rt.alloc();
    let source = MemSource::new(Bytes::new(alloc), FailList::new(alloc));
    let sink = MemSink::new(alloc, FailList::new(alloc));
    Ok(FileDock::new(
        alloc,
        MOMENT,
        FileKeeper::new(alloc, StdFolder::new(rt)),
        source,
        sink,
    )?)
}

// How many bytes the seeds tell until one tells others in the folder than in memory, whose dock lasts.
fn same_bytes_in_folder(rt: &HostRuntime, name: &str) -> Result<usize, Fault> {
    let mut memory = memory_dock(rt.alloc())?;
    let mut count = 0usize;
    for seed in 0..SEEDS {
        let told = play(rt.alloc(), &mut memory, name, seed, LOADS)?;
        let mut dock = folder_dock(rt)?;
        if play(rt.alloc(), &mut dock, name, seed, LOADS)? != told {
            return Ok(0);
        }
        count = count.saturating_add(told.len());
    }
    Ok(count)
}

#[test]
fn a_folder_that_is_opened_again_answers_as_one_in_memory_that_lasts(
    rt: HostRuntime,
) -> Result<(), Fail> {
    let _ = fs::remove_file(&rt, "keeper_folder/deeper/store.csv");
    let count = same_bytes_in_folder(&rt, "keeper_folder/deeper")?;
    assert!(rt; count > 10_000);
    write_text(&rt, "keeper_folder/deeper/store.csv", "loads,2,7\n")?;
    assert_eq!(rt;
        folder_dock(&rt)?.open_store("keeper_folder/deeper"),
        Err(Fault::Failed)
    );
    remove(&rt, "keeper_folder/deeper/store.csv")?;
    Ok(())
}

// How often the store failed where a text, and then no folder, stands in its place, and no store was opened before.
fn faults_of_no_store(rt: &HostRuntime, name: &str) -> Result<u64, Fault> {
    let mut dock = database_dock(rt)?;
    let _ = dock.open_store(name);
    let _ = dock.open_store("keeper_missing/store.db");
    calls_before_opening(rt.alloc(), &mut dock)?;
    Ok(dock.counts().store_faults)
}

#[test]
fn no_store_fails_and_stays_as_it_was(rt: HostRuntime) -> Result<(), Fail> {
    let text = "no database, but a text that is a little longer than the header of one";
    write_text(&rt, "keeper_text.db", text)?;
    assert_eq!(rt; faults_of_no_store(&rt, "keeper_text.db")?, 4);
    assert_eq!(rt; fs::read_to_string(&rt, "keeper_text.db")?.as_str(), text);
    remove(&rt, "keeper_text.db")?;
    Ok(())
}

// What breaks a store: another column, a table too few, a row without a place, and one of a load to come.
const BROKEN: [&str; 4] = [
    "UPDATE raw_rows SET pos = 0 WHERE pos = 1",
    "UPDATE raw_rows SET load = 1000 WHERE pos = 1",
    "DROP TABLE final_rows",
    "DROP TABLE loads; CREATE TABLE loads (load INTEGER PRIMARY KEY, moment INTEGER NOT NULL, more INTEGER)",
];

// How many of them make the store one that does not open.
fn broken_stores(rt: &HostRuntime, name: &str) -> Result<usize, Fault> {
    let mut count = 0usize;
    for sql in &BROKEN {
        remove(rt, name)?;
        play_in_file(rt, name, 1)?;
        make_with(&mut FileOpener::new(rt), name, sql)?;
        if database_dock(rt)?.open_store(name) == Err(Fault::Failed) {
            count = count.saturating_add(1);
        }
    }
    Ok(count)
}

#[test]
fn a_malformed_store_fails(rt: HostRuntime) -> Result<(), Fail> {
    assert_eq!(rt; broken_stores(&rt, "keeper_broken.db")?, BROKEN.len());
    remove(&rt, "keeper_broken.db")?;
    Ok(())
}

#[test]
fn the_empty_name_is_no_store(rt: HostRuntime) -> Result<(), Fail> {
    assert_eq!(rt; database_dock(&rt)?.open_store(""), Err(Fault::Failed));
    let mut dock = folder_dock(&rt)?;
    assert_eq!(rt; dock.open_store(""), Err(Fault::Failed));
    assert_eq!(rt; dock.counts().store_faults, 1);
    Ok(())
}

// A folder that takes no text.
#[derive(Drop)]
struct FullFolder;

impl Folder for FullFolder {
    fn go_to(&mut self, _name: &str) -> Result<(), Fault> {
        Ok(())
    }

    fn read(&mut self) -> Result<Option<Bytes>, Fault> {
        Ok(None)
    }

    fn replace(&mut self, _text: &[u8]) -> Result<(), Fault> {
        Err(Fault::Failed)
    }
}

// How often the store failed whose folder takes no text, when marks were read and a load was opened.
fn faults_of_full_folder(alloc: Global) -> Result<u64, Fault> {
    let source = MemSource::new(Bytes::new(alloc), FailList::new(alloc));
    let sink = MemSink::new(alloc, FailList::new(alloc));
    let keeper = FileKeeper::new(alloc, FullFolder);
    let mut dock = FileDock::new(alloc, MOMENT, keeper, source, sink)?;
    dock.open_store("full")?;
    calls_before_opening(alloc, &mut dock)?;
    Ok(dock.counts().store_faults)
}

#[test]
fn a_store_that_cannot_be_written_is_a_fault(rt: HostRuntime) -> Result<(), Fail> {
    assert_eq!(rt; faults_of_full_folder(rt.alloc())?, 1);
    Ok(())
}
