// A database over any store of the library.
use crate::fault::fault_of;
use crate::parameter::values_of;
use crate::{Database, Parameter, ResultSet, Statement};
use outside::Fault;
use sqlite::{Alter, Connection, Error};
use std::alloc::Global;

/// A database over any store of the library.
pub struct OpenDatabase<S: Alter + Drop> {
    connection: Connection<S>,
    alloc: Global,
}

impl<S: Alter + Drop> Drop for OpenDatabase<S> {
    fn drop(self) {
        let OpenDatabase {
            connection: _,
            alloc: _,
        } = self;
    }
}

impl<S: Alter + Drop> OpenDatabase<S> {
    /// The database of a connection that was opened, or why it was not.
    pub fn over(alloc: Global, opened: Result<Connection<S>, Error>) -> Result<Self, Fault> {
        match opened {
            Ok(connection) => Ok(OpenDatabase { connection, alloc }),
            Err(error) => Err(fault_of(error)),
        }
    }
}

impl<S: Alter + Drop> Database for OpenDatabase<S> {
    fn execute_batch(&mut self, sql: &str) -> Result<(), Fault> {
        match self.connection.execute_batch(sql) {
            Ok(()) => Ok(()),
            Err(error) => Err(fault_of(error)),
        }
    }

    fn prepare(&mut self, sql: &str) -> Result<Statement, Fault> {
        match self.connection.prepare(sql) {
            Ok(statement) => Ok(Statement::new(statement)),
            Err(error) => Err(fault_of(error)),
        }
    }

    fn execute(
        &mut self,
        statement: &Statement,
        parameters: &[Parameter<'_>],
    ) -> Result<(), Fault> {
        let values = values_of(self.alloc, parameters)?;
        let executed = statement
            .compiled()
            .execute(&mut self.connection, values.as_slice());
        match executed {
            Ok(_) => Ok(()),
            Err(error) => Err(fault_of(error)),
        }
    }

    fn query(
        &mut self,
        statement: &Statement,
        parameters: &[Parameter<'_>],
    ) -> Result<ResultSet, Fault> {
        let values = values_of(self.alloc, parameters)?;
        let found = statement
            .compiled()
            .query_all(&mut self.connection, values.as_slice());
        match found {
            Ok(rows) => Ok(ResultSet::new(rows)),
            Err(error) => Err(fault_of(error)),
        }
    }

    fn is_autocommit(&mut self) -> bool {
        self.connection.is_autocommit()
    }
}
