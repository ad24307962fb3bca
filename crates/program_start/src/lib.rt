//! What a program is started with: the words behind its name, and the moment.
#![tactic(auto)]

ghost use Rattle.std.specs.Prelude.{◌<◌, ◌^◌};

use outside::NoMemory;
use std::env;
use std::io::ErrorKind;
use std::time::{SystemTime, UNIX_EPOCH};

/// The words behind the program's name. A word that is not UTF-8 is none that any command takes, so there are no words then.
pub fn words_of(rt: &HostRuntime) -> Result<Vec<String>, NoMemory> {
    let mut words = Vec::new(rt.alloc());
    let args = match env::args(rt) {
        Ok(args) => args,
        Err(error) if error.kind() == ErrorKind::OutOfMemory => return Err(NoMemory),
        Err(_) => return Ok(words),
    };
    for word in args.skip(1) {
        words.push(word)?;
    }
    Ok(words)
}

/// The moment, in milliseconds since 1970. A clock that cannot be read, or says another time, counts as 1970.
pub fn moment(rt: &HostRuntime) -> u64
    ensures { result < 2 ^ 63 }
{
    let Ok(now) = SystemTime::now(rt) else {
        return 0;
    };
    match now.duration_since(UNIX_EPOCH) {
        Ok(since) => since.as_millis().min(i64::MAX as u128) as u64,
        Err(_) => 0,
    }
}
