//! Databases in files. This crate alone names the connection's type, and one function of it alone calls through that.
#![tactic(auto)]

mod call;

use crate::call::{Call, Reply, answer};
use outside::Fault;
use sqlite::{Connection, File, FileStore};
use sqlite_calls::{Database, OpenDatabase, Opener, Parameter, ResultSet, Statement};

/// A database in a file.
pub struct FileDatabase {
    database: OpenDatabase<FileStore<File>>,
}

impl Drop for FileDatabase {
    fn drop(self) {
        let FileDatabase { database: _ } = self;
    }
}

impl FileDatabase {
    fn ask(&mut self, call: Call<'_>) -> Result<Reply, Fault> {
        answer(&mut self.database, call)
    }
}

impl Database for FileDatabase {
    fn execute_batch(&mut self, sql: &str) -> Result<(), Fault> {
        self.ask(Call::ExecuteBatch(sql))?;
        Ok(())
    }

    fn prepare(&mut self, sql: &str) -> Result<Statement, Fault> {
        match self.ask(Call::Prepare(sql))? {
            Reply::Statement(statement) => Ok(statement),
            _ => Err(Fault::Failed),
        }
    }

    fn execute(
        &mut self,
        statement: &Statement,
        parameters: &[Parameter<'_>],
    ) -> Result<(), Fault> {
        self.ask(Call::Execute(statement, parameters))?;
        Ok(())
    }

    fn query(
        &mut self,
        statement: &Statement,
        parameters: &[Parameter<'_>],
    ) -> Result<ResultSet, Fault> {
        match self.ask(Call::Query(statement, parameters))? {
            Reply::Rows(rows) => Ok(rows),
            _ => Err(Fault::Failed),
        }
    }

    fn is_autocommit(&mut self) -> bool {
        matches!(self.ask(Call::IsAutocommit), Ok(Reply::IsAutocommit(true)))
    }
}

/// Opens databases in files, each by the path of its file. The empty path is `Failed`.
///
/// An open reads and checks the whole file, and holds the bytes of its largest table meanwhile. The file is locked until
/// the database is dropped; one that another program has locked is `Failed` at once. Beside it stands a log, whose name
/// has `-wal` behind the file's, and which is part of the database. The library syncs the file, its log and their folder
/// at each open, so that a database that is new outlives a power cut.
#[derive(Drop)]
pub struct FileOpener<'a> {
    runtime: &'a HostRuntime,
}

impl<'a> FileOpener<'a> {
    /// What opens files by this runtime.
    pub fn new(runtime: &'a HostRuntime) -> Self {
        FileOpener { runtime }
    }
}

impl Opener for FileOpener<'_> {
    type Base = FileDatabase;

    fn open(&mut self, name: &str) -> Result<FileDatabase, Fault> {
        if name.is_empty() {
            return Err(Fault::Failed);
        }
        let opened = Connection::open(self.runtime, name);
        let database = OpenDatabase::over(self.runtime.alloc(), opened)?;
        Ok(FileDatabase { database })
    }

    fn open_existing(&mut self, name: &str) -> Result<FileDatabase, Fault> {
        match std::fs::File::open(self.runtime, name) {
            Ok(_) => self.open(name),
            Err(_) => Err(Fault::Failed),
        }
    }
}
