// The calls on a database as values, so that one function makes them all.
use outside::Fault;
use sqlite_calls::{Database, Parameter, ResultSet, Statement};

#[derive(Clone, Copy)]
pub enum Call<'a> {
    ExecuteBatch(&'a str),
    Prepare(&'a str),
    Execute(&'a Statement, &'a [Parameter<'a>]),
    Query(&'a Statement, &'a [Parameter<'a>]),
    IsAutocommit,
}

#[derive(Drop)]
pub enum Reply {
    Done,
    Statement(Statement),
    Rows(ResultSet),
    IsAutocommit(bool),
}

pub fn answer<D: Database>(database: &mut D, call: Call<'_>) -> Result<Reply, Fault> {
    match call {
        Call::ExecuteBatch(sql) => {
            database.execute_batch(sql)?;
            Ok(Reply::Done)
        }
        Call::Prepare(sql) => Ok(Reply::Statement(database.prepare(sql)?)),
        Call::Execute(statement, parameters) => {
            database.execute(statement, parameters)?;
            Ok(Reply::Done)
        }
        Call::Query(statement, parameters) => {
            Ok(Reply::Rows(database.query(statement, parameters)?))
        }
        Call::IsAutocommit => Ok(Reply::IsAutocommit(database.is_autocommit())),
    }
}
