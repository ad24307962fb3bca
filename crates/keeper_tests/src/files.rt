// Files of the tests.
use outside::Fault;
use std::fs;

/// Removes a database and its log, where they stand.
pub fn remove(rt: &HostRuntime, name: &str) -> Result<(), Fault> {
    let log = format!(in rt.alloc(); "{name}-wal")?;
    let _ = fs::remove_file(rt, name);
    let _ = fs::remove_file(rt, log.as_str());
    Ok(())
}

/// Writes a text, in place of what stands there.
pub fn write_text(rt: &HostRuntime, name: &str, text: &str) -> Result<(), Fault> {
    remove(rt, name)?;
    match fs::write(rt, name, text) {
        Ok(()) => Ok(()),
        Err(_) => Err(Fault::Failed),
    }
}
