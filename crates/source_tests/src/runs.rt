// A source of files over a desk in memory.
use basics::{Bytes, FailList, Name, NoMemory};
use outside_mem::{MemDesk, NamedText, NamedTextList};
use std::alloc::{AllocError, Global};

/// A text with its name.
pub type Text = (&'static str, &'static [u8]);

// A copy of a text.
fn named(alloc: Global, name: &str, text: &[u8]) -> Result<NamedText, NoMemory> {
    Ok(NamedText {
        name: Name::copy_of(alloc, name)?,
        text: Bytes::copy_of(alloc, text)?,
    })
}

// Copies of these words.
fn words_of(alloc: Global, texts: &[&str]) -> Result<Vec<String>, AllocError> {
    let mut words = Vec::new(alloc);
    for text in texts {
        words.push(String::from_str(alloc, text)?)?;
    }
    Ok(words)
}

// The lines that a desk said, each with its newline.
fn lines_of(alloc: Global, desk: &MemDesk) -> Result<Bytes, NoMemory> {
    let mut all = Bytes::new(alloc);
    for line in desk.said().as_slice() {
        all.extend(line.as_slice())?;
        all.push(b'\n')?;
    }
    Ok(all)
}

/// What a run over these texts says at the moment 5, each line with its newline, and behind it the text of its status. The calls of the
/// desk with these numbers fail.
pub fn run(
    alloc: Global,
    texts: &[Text],
    words: &[&str],
    fails: &[u64],
) -> Result<Bytes, NoMemory> {
    let mut list = NamedTextList::new(alloc);
    for (name, text) in texts {
        list.push(named(alloc, name, text)?)?;
    }
    let mut failing = FailList::new(alloc);
    for call in fails {
        failing.push(*call)?;
    }
    let mut desk = MemDesk::new(alloc, list, failing);
    let words = words_of(alloc, words)?;
    let status = file_run::run_source(alloc, &mut desk, 5, &words);
    let mut all = lines_of(alloc, &desk)?;
    all.extend(status.text(alloc)?.as_slice())?;
    Ok(all)
}
