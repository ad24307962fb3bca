// What the words of a source or a destination ask for.
ghost use Rattle.std.specs.Prelude.{◌≡◌, map, option_map, string_bytes};
ghost use Rattle.cli_words.specs.Connectors.{source_asked, dest_asked, config_asked, read_asked, write_asked};
ghost use Rattle.cli_words.specs.Shown.{source_shown, dest_shown};

use crate::pairs::{are_pairs_of, value_of};

/// What the words of a source ask for.
#[derive(Clone, Copy, Debug)]
pub enum SourceCommand<'a> {
    Spec,
    Check {
        config: &'a str,
    },
    Discover {
        config: &'a str,
    },
    Read {
        config: &'a str,
        catalog: &'a str,
        state: Option<&'a str>,
    },
}

/// What the words of a destination ask for.
#[derive(Clone, Copy, Debug)]
pub enum DestCommand<'a> {
    Spec,
    Check { config: &'a str },
    Write { config: &'a str, catalog: &'a str },
}

fn config(words: &[String]) -> Option<&str>
    ensures { option_map (λ found. found.now) result ≡ config_asked (map string_bytes words.now) }
{
    if !are_pairs_of(&["--config"], words) {
        return None;
    }
    value_of(words, "--config")
}

fn read(words: &[String]) -> Option<SourceCommand<'_>>
    ensures { option_map source_shown result ≡ read_asked (map string_bytes words.now) }
{
    if !are_pairs_of(&["--config", "--catalog", "--state"], words) {
        return None;
    }
    Some(SourceCommand::Read {
        config: value_of(words, "--config")?,
        catalog: value_of(words, "--catalog")?,
        state: value_of(words, "--state"),
    })
}

/// What the words of a source ask for, `None` where they have another form.
pub fn source_words(words: &[String]) -> Option<SourceCommand<'_>>
    ensures { option_map source_shown result ≡ source_asked (map string_bytes words.now) }
{
    let (command, words) = words.split_first()?;
    let command = command.as_str();
    if command == "spec" {
        return words.is_empty().then_some(SourceCommand::Spec);
    }
    if command == "check" {
        return config(words).map(|config| SourceCommand::Check { config });
    }
    if command == "discover" {
        return config(words).map(|config| SourceCommand::Discover { config });
    }
    if command == "read" {
        return read(words);
    }
    None
}

fn write(words: &[String]) -> Option<DestCommand<'_>>
    ensures { option_map dest_shown result ≡ write_asked (map string_bytes words.now) }
{
    if !are_pairs_of(&["--config", "--catalog"], words) {
        return None;
    }
    Some(DestCommand::Write {
        config: value_of(words, "--config")?,
        catalog: value_of(words, "--catalog")?,
    })
}

/// What the words of a destination ask for, `None` where they have another form.
pub fn dest_words(words: &[String]) -> Option<DestCommand<'_>>
    ensures { option_map dest_shown result ≡ dest_asked (map string_bytes words.now) }
{
    let (command, words) = words.split_first()?;
    let command = command.as_str();
    if command == "spec" {
        return words.is_empty().then_some(DestCommand::Spec);
    }
    if command == "check" {
        return config(words).map(|config| DestCommand::Check { config });
    }
    if command == "write" {
        return write(words);
    }
    None
}
