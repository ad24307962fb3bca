// Desks in memory with two texts, and words that ask for them.
ghost use Rattle.std.specs.Prelude.{◌≡◌, ◌==◌, if◌then◌else◌, List, ℕ, [], ◌∷◌, IfOk, codes, string_bytes, map};
ghost use Rattle.outside_mem.specs.MemDesk.{begun};

use outside::{Bytes, FailList, Name, NoLink, NoMemory, Status};
use outside_mem::{MemDesk, NamedText, NamedTextList};
use std::alloc::{AllocError, Global};
use std::test::Fail;

/// The catalog of one append stream `a`.
pub const CATALOG: &str =
    "{\"streams\":[{\"stream\":{\"name\":\"a\",\"json_schema\":{\"type\":\"object\",\"properties\":{\"id\":{\"type\":\"integer\"},\"v\":{\"type\":\"number\"}}},\"supported_sync_modes\":[\"incremental\"]},\"sync_mode\":\"incremental\",\"destination_sync_mode\":\"append\"}]}";

/// Words that ask for the two texts of the desk.
pub const LOCAL: &[&str] = &["local", "--messages", "m", "--catalog", "c"];

fn named(alloc: Global, name: &str, text: &[u8]) -> Result<NamedText, NoMemory>
    ensures { IfOk result (λ made. made ≡ record { name = name.now; text = text.now }) }
{
    Ok(NamedText {
        name: Name::copy_of(alloc, name)?,
        text: Bytes::copy_of(alloc, text)?,
    })
}

// The number of a call, if it is not 0.
fn fails_of(alloc: Global, failing: u64) -> Result<FailList, NoMemory>
    ensures { IfOk result (λ fails. fails ≡ (if failing == 0 then [] else failing ∷ [])) }
{
    let mut fails = FailList::new(alloc);
    if failing != 0 {
        fails.push(failing)?;
    }
    Ok(fails)
}

/// A desk with the texts `m` and `c`, of which the call with this number fails, if it is not 0.
pub fn desk_of(
    alloc: Global,
    messages: &[u8],
    catalog: &[u8],
    failing: u64,
) -> Result<MemDesk, NoMemory>
    ensures { IfOk result (λ desk. desk ≡ begun (record { name = codes "m"; text = messages.now } ∷ record { name = codes "c"; text = catalog.now } ∷ []) (if failing == 0 then [] else failing ∷ [])) }
{
    let mut texts = NamedTextList::new(alloc);
    texts.push(named(alloc, "m", messages)?)?;
    texts.push(named(alloc, "c", catalog)?)?;
    Ok(MemDesk::new(alloc, texts, fails_of(alloc, failing)?))
}

// Copies of these words.
fn words_of(alloc: Global, texts: &[&str]) -> Result<Vec<String>, AllocError> {
    let mut words = Vec::new(alloc);
    for text in texts {
        words.push(String::from_str(alloc, text)?)?;
    }
    Ok(words)
}

/// Whether these lines were said, and no others.
pub fn has_said(desk: &MemDesk, lines: &[&str]) -> bool {
    let said = desk.said().as_slice();
    let mut pairs = said.iter().zip(lines);
    said.len() == lines.len() && pairs.all(|(said, line)| said.as_slice() == line.as_bytes())
}

/// Runs the worker on the words over the desk, without a link.
pub fn run_over(alloc: Global, desk: &mut MemDesk, words: &[&str]) -> Result<Status, AllocError> {
    let words = words_of(alloc, words)?;
    Ok(worker_run::run(alloc, desk, &mut NoLink::new(), &words))
}

/// Whether the run on the words over the desk ends so and says these lines.
pub fn says(
    alloc: Global,
    mut desk: MemDesk,
    words: &[&str],
    status: Status,
    lines: &[&str],
) -> Result<bool, Fail> {
    let answer = run_over(alloc, &mut desk, words)?;
    Ok(answer == status && has_said(&desk, lines))
}

/// The same of the words `LOCAL`, over a desk with these texts of which no call fails.
pub fn local_says(
    alloc: Global,
    messages: &str,
    catalog: &str,
    status: Status,
    lines: &[&str],
) -> Result<bool, Fail> {
    let desk = desk_of(alloc, messages.as_bytes(), catalog.as_bytes(), 0)?;
    says(alloc, desk, LOCAL, status, lines)
}
