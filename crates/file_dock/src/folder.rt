// The folder of a store.
use basics::Name;
use outside::{Bytes, Fault};
use std::fs::{self, File};
use std::io::{ErrorKind, Write};

/// The most bytes of a store's text.
pub const LONGEST_STORE: usize = 4_294_967_295;

/// Where a store's one text lies; no call promises anything.
pub trait Folder {
    /// Goes to the folder of that name, which is made where it is missing. The empty name is `Failed`.
    fn go_to(&mut self, name: &str) -> Result<(), Fault>;

    /// The text, none where there is no file. One of more than `LONGEST_STORE` bytes is `Failed`, and is not read.
    fn read(&mut self) -> Result<Option<Bytes>, Fault>;

    /// Puts a text in the place of the one before, as a whole, on the disk before it answers. One of more than
    /// `LONGEST_STORE` bytes is `Failed`, and the one before stays. At another `Failed` the one before stands or this one.
    fn replace(&mut self, text: &[u8]) -> Result<(), Fault>;
}

/// A folder of the system: the text is its file `store.csv`, and is written as `store.tmp` first. The file is synced before
/// it is renamed, and the folder behind that; of a folder that is made, the one that it lies in is synced.
#[derive(Drop)]
pub struct StdFolder<'a> {
    runtime: &'a HostRuntime,
    name: Option<Name>,
}

impl<'a> StdFolder<'a> {
    /// No folder yet.
    pub fn new(runtime: &'a HostRuntime) -> Self {
        StdFolder {
            runtime,
            name: None,
        }
    }

    fn folder(&self) -> Result<&str, Fault> {
        match &self.name {
            Some(name) => Ok(name.as_str()),
            None => Err(Fault::Failed),
        }
    }

    fn path(&self, file: &str) -> Result<String, Fault> {
        let folder = self.folder()?;
        Ok(format!(in self.runtime.alloc(); "{folder}/{file}")?)
    }
}

// Writes a file, and waits until the disk has it.
fn write_synced(runtime: &HostRuntime, path: &str, text: &[u8]) -> Result<(), Fault> {
    let Ok(mut file) = File::create(runtime, path) else {
        return Err(Fault::Failed);
    };
    if file.write_all(text).is_err() || file.sync_all().is_err() {
        return Err(Fault::Failed);
    }
    Ok(())
}

// Waits until the disk has the names in a folder.
fn sync_folder(runtime: &HostRuntime, folder: &str) -> Result<(), Fault> {
    let Ok(opened) = File::open(runtime, folder) else {
        return Err(Fault::Failed);
    };
    match opened.sync_all() {
        Ok(()) => Ok(()),
        Err(_) => Err(Fault::Failed),
    }
}

// The folder that a path lies in.
fn parent_of(path: &str) -> &str {
    match path.rsplit_once('/') {
        Some((parent, _)) => { if parent.is_empty() { "/" } else { parent } }
        None => ".",
    }
}

fn is_folder(runtime: &HostRuntime, path: &str) -> bool {
    match fs::metadata(runtime, path) {
        Ok(found) => found.is_dir(),
        Err(_) => false,
    }
}

// Makes a folder where it is missing; the one that it lies in is there.
fn make_last(runtime: &HostRuntime, path: &str) -> Result<(), Fault> {
    if is_folder(runtime, path) {
        return Ok(());
    }
    match fs::create_dir(runtime, path) {
        Ok(()) => sync_folder(runtime, parent_of(path)),
        // another program may have made it meanwhile
        Err(_) if is_folder(runtime, path) => Ok(()),
        Err(_) => Err(Fault::Failed),
    }
}

// Makes a folder where it is missing, and those that it lies in.
fn make_folder(runtime: &HostRuntime, path: &str) -> Result<(), Fault> {
    if is_folder(runtime, path) {
        return Ok(());
    }
    for end in 1..path.len() {
        if let Some((front, rest)) = path.split_at_checked(end) {
            if rest.starts_with('/') {
                make_last(runtime, front)?;
            }
        }
    }
    make_last(runtime, path)
}

// The whole of a file, where it is not too long.
fn read_file(runtime: &HostRuntime, path: &str) -> Result<Option<Bytes>, Fault> {
    match fs::metadata(runtime, path) {
        Ok(found) if found.len() > LONGEST_STORE as u64 => return Err(Fault::Failed),
        Ok(_) => {}
        Err(error) if error.kind() == ErrorKind::NotFound => return Ok(None),
        Err(_) => return Err(Fault::Failed),
    }
    match fs::read(runtime, path) {
        Ok(text) => Ok(Some(Bytes::from_vec(text))),
        Err(_) => Err(Fault::Failed),
    }
}

impl Folder for StdFolder<'_> {
    fn go_to(&mut self, name: &str) -> Result<(), Fault> {
        self.name = None;
        if name.is_empty() {
            return Err(Fault::Failed);
        }
        make_folder(self.runtime, name)?;
        self.name = Some(Name::copy_of(self.runtime.alloc(), name)?);
        Ok(())
    }

    fn read(&mut self) -> Result<Option<Bytes>, Fault> {
        let path = self.path("store.csv")?;
        read_file(self.runtime, path.as_str())
    }

    fn replace(&mut self, text: &[u8]) -> Result<(), Fault> {
        if text.len() > LONGEST_STORE {
            return Err(Fault::Failed);
        }
        let written = self.path("store.tmp")?;
        let kept = self.path("store.csv")?;
        write_synced(self.runtime, written.as_str(), text)?;
        if fs::rename(self.runtime, written.as_str(), kept.as_str()).is_err() {
            return Err(Fault::Failed);
        }
        sync_folder(self.runtime, self.folder()?)
    }
}
