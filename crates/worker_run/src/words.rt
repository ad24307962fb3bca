// The words of the worker's command.
ghost use Rattle.std.specs.Prelude.{◌≡◌, map, option_map, string_bytes};
ghost use Rattle.worker_run.specs.Words.{asked as asked_of, pairs as pairs_of, is_value as is_value_of};

/// What the words ask for: the names of two texts.
#[derive(Clone, Copy)]
pub struct TextNames<'a> {
    pub messages: &'a str,
    pub catalog: &'a str,
}

// A value is not empty and begins with no hyphen.
fn is_value(word: &str) -> bool
    ensures { result ≡ is_value_of word.now }
{
    match word.as_bytes() {
        [] => false,
        [first, ..] => *first != b'-',
    }
}

// Two pairs of option and value.
fn pairs<'a>(a: &str, x: &'a str, b: &str, y: &'a str) -> Option<TextNames<'a>>
    ensures { option_map (λ found. record { messages = found.messages.now; catalog = found.catalog.now }) result ≡ pairs_of a.now x.entry.now b.now y.entry.now }
{
    if a == "--messages" && b == "--catalog" && is_value(x) && is_value(y) {
        return Some(TextNames {
            messages: x,
            catalog: y,
        });
    }
    if a == "--catalog" && b == "--messages" && is_value(x) && is_value(y) {
        return Some(TextNames {
            messages: y,
            catalog: x,
        });
    }
    None
}

/// What the words ask for, `None` where they have another form.
pub fn asked(words: &[String]) -> Option<TextNames<'_>>
    ensures { option_map (λ found. record { messages = found.messages.now; catalog = found.catalog.now }) result ≡ asked_of (map string_bytes words.now) }
{
    match words {
        [command, a, x, b, y] if command.as_str() == "local" => {
            pairs(a.as_str(), x.as_str(), b.as_str(), y.as_str())
        }
        _ => None,
    }
}
