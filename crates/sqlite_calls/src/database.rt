// What is asked of a database, and of what opens one.
use crate::{Parameter, ResultSet};
use outside::Fault;

/// A compiled statement.
pub struct Statement {
    compiled: sqlite::Statement,
}

impl Drop for Statement {
    fn drop(self) {
        let Statement { compiled: _ } = self;
    }
}

impl Statement {
    pub(crate) fn new(compiled: sqlite::Statement) -> Self {
        Statement { compiled }
    }

    pub(crate) fn compiled(&self) -> &sqlite::Statement {
        &self.compiled
    }
}

/// A database. A statement that answers a fault outside a transaction has changed nothing, or what it says; within one,
/// the transaction may have been rolled back, which `is_autocommit` tells.
pub trait Database {
    /// Runs statements, parted by semicolons, that give no rows.
    fn execute_batch(&mut self, sql: &str) -> Result<(), Fault>;

    /// Compiles a statement.
    fn prepare(&mut self, sql: &str) -> Result<Statement, Fault>;

    /// Runs a compiled statement that gives no rows.
    fn execute(&mut self, statement: &Statement, parameters: &[Parameter<'_>]) -> Result<(), Fault>;

    /// All rows that a compiled statement gives.
    fn query(
        &mut self,
        statement: &Statement,
        parameters: &[Parameter<'_>],
    ) -> Result<ResultSet, Fault>;

    /// Whether no transaction is open.
    fn is_autocommit(&mut self) -> bool;
}

/// What opens databases by their names. The empty name is `Failed`.
pub trait Opener {
    type Base: Database + Drop;

    /// Opens the database of that name, or makes it.
    fn open(&mut self, name: &str) -> Result<Self::Base, Fault>;

    /// Opens the database of that name; a missing one is `Failed`, and is not made.
    fn open_existing(&mut self, name: &str) -> Result<Self::Base, Fault>;
}
