// What the words of the worker ask for.
ghost use Rattle.std.specs.Prelude.{◌≡◌, map, option_map, string_bytes, codes};
ghost use Rattle.cli_words.specs.Commands.{Side, asked, attempts_said, number_said, local_asked, sync_asked, spec_asked, program_asked, check_of, discover_of, made_asked};
ghost use Rattle.cli_words.specs.Pairs.{value_of as value_in};
ghost use Rattle.cli_words.specs.Shown.{shown};

use crate::pairs::{are_pairs_of, number_in, value_of};

/// What the words of the worker ask for.
#[derive(Clone, Copy, Debug)]
pub enum Command<'a> {
    /// Copies a file of messages into tables in memory, and says them.
    Local {
        messages: &'a str,
        catalog: &'a str,
        attempts: u32,
    },
    /// Copies from one program to another.
    Sync {
        source: &'a str,
        source_config: &'a str,
        dest: &'a str,
        dest_config: &'a str,
        catalog: &'a str,
        state: &'a str,
        attempts: u32,
    },
    Spec {
        program: &'a str,
    },
    Check {
        program: &'a str,
        config: &'a str,
    },
    Discover {
        program: &'a str,
        config: &'a str,
    },
    /// Loads rows that are made up into tables in memory.
    Made {
        rows: u32,
        workers: u32,
    },
}

// How often a sync is attempted where no word says so.
const ATTEMPTS: u32 = 3;

fn attempts(words: &[String]) -> Option<u32>
    ensures { result ≡ attempts_said (value_in (codes "--attempts") (map string_bytes words.now)) }
{
    match value_of(words, "--attempts") {
        Some(word) => number_in(word, 1, 20),
        None => Some(ATTEMPTS),
    }
}

fn local(words: &[String]) -> Option<Command<'_>>
    ensures { option_map shown result ≡ local_asked (map string_bytes words.now) }
{
    if !are_pairs_of(&["--messages", "--catalog", "--attempts"], words) {
        return None;
    }
    Some(Command::Local {
        messages: value_of(words, "--messages")?,
        catalog: value_of(words, "--catalog")?,
        attempts: attempts(words)?,
    })
}

// A program and its configuration.
#[derive(Clone, Copy)]
struct Side<'a> {
    program: &'a str,
    config: &'a str,
}

fn sync(words: &[String]) -> Option<Command<'_>>
    ensures { option_map shown result ≡ sync_asked (map string_bytes words.now) }
{
    let options = [
        "--source",
        "--source-config",
        "--dest",
        "--dest-config",
        "--catalog",
        "--state",
        "--attempts",
    ];
    if !are_pairs_of(&options, words) {
        return None;
    }
    Some(Command::Sync {
        source: value_of(words, "--source")?,
        source_config: value_of(words, "--source-config")?,
        dest: value_of(words, "--dest")?,
        dest_config: value_of(words, "--dest-config")?,
        catalog: value_of(words, "--catalog")?,
        state: value_of(words, "--state")?,
        attempts: attempts(words)?,
    })
}

fn spec(words: &[String]) -> Option<Command<'_>>
    ensures { option_map shown result ≡ spec_asked (map string_bytes words.now) }
{
    if !are_pairs_of(&["--program"], words) {
        return None;
    }
    Some(Command::Spec {
        program: value_of(words, "--program")?,
    })
}

fn read_side(words: &[String]) -> Option<Side<'_>>
    ensures { option_map (λ found. record { program = found.program.now; config = found.config.now }) result ≡ program_asked (map string_bytes words.now) }
{
    if !are_pairs_of(&["--program", "--config"], words) {
        return None;
    }
    Some(Side {
        program: value_of(words, "--program")?,
        config: value_of(words, "--config")?,
    })
}

fn check(words: &[String]) -> Option<Command<'_>>
    ensures { option_map shown result ≡ check_of (program_asked (map string_bytes words.now)) }
{
    let Side { program, config } = read_side(words)?;
    Some(Command::Check { program, config })
}

fn discover(words: &[String]) -> Option<Command<'_>>
    ensures { option_map shown result ≡ discover_of (program_asked (map string_bytes words.now)) }
{
    let Side { program, config } = read_side(words)?;
    Some(Command::Discover { program, config })
}

fn number(words: &[String], option: &str, most: u32) -> Option<u32>
    ensures { result ≡ number_said 1 most (value_in option.now (map string_bytes words.now)) }
{
    number_in(value_of(words, option)?, 1, most)
}

fn made(words: &[String]) -> Option<Command<'_>>
    ensures { option_map shown result ≡ made_asked (map string_bytes words.now) }
{
    if !are_pairs_of(&["--rows", "--workers"], words) {
        return None;
    }
    Some(Command::Made {
        rows: number(words, "--rows", 1_000_000)?,
        workers: number(words, "--workers", 16)?,
    })
}

/// What the words of the worker ask for, `None` where they have another form.
pub fn read_words(words: &[String]) -> Option<Command<'_>>
    ensures { option_map shown result ≡ asked (map string_bytes words.now) }
{
    let (command, words) = words.split_first()?;
    let command = command.as_str();
    if command == "local" {
        return local(words);
    }
    if command == "sync" {
        return sync(words);
    }
    if command == "spec" {
        return spec(words);
    }
    if command == "check" {
        return check(words);
    }
    if command == "discover" {
        return discover(words);
    }
    if command == "made" {
        return made(words);
    }
    None
}
