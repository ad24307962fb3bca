// Changes that are made wholly or not at all.
use outside::Fault;
use sqlite_calls::Database;

/// Ends a transaction: commits it where its parts went well, and takes it back where one failed or the commit did. A
/// transaction that could not be taken back is `Failed`, whatever went before.
pub fn end_transaction<B: Database, T: Drop>(
    base: &mut B,
    done: Result<T, Fault>,
) -> Result<T, Fault> {
    match commit(base, done) {
        Ok(value) => Ok(value),
        Err(fault) => {
            if !base.is_autocommit() && base.execute_batch("ROLLBACK").is_err() {
                return Err(Fault::Failed);
            }
            Err(fault)
        }
    }
}

fn commit<B: Database, T: Drop>(base: &mut B, done: Result<T, Fault>) -> Result<T, Fault> {
    let value = done?;
    base.execute_batch("COMMIT")?;
    Ok(value)
}
