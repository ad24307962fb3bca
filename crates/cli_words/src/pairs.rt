// Words behind a command: options, each with its value.
ghost use Rattle.std.specs.Prelude.{◌≡◌, map, option_map, string_bytes, true};
ghost use Rattle.std.specs.List.{list_any};
ghost use Rattle.std.specs.Str.Parse.{digits_value};
ghost use Rattle.std.specs.Str.{bytes_eq, all_ascii_digits};
ghost use Rattle.cli_words.specs.Pairs.{is_value as is_value_of, value_of as value_in, is_pair_of as is_pair_in, are_pairs_of as are_pairs_in, is_plain as is_plain_of, below_32, number_in as number_of};

// A value is not empty and begins with no hyphen.
fn is_value(word: &str) -> bool
    ensures { result ≡ is_value_of word.now }
{
    match word.as_bytes() {
        [] => false,
        [first, ..] => *first != b'-',
    }
}

/// The value of an option, of words that are pairs of an option and its value.
pub fn value_of<'a>(words: &'a [String], option: &str) -> Option<&'a str>
    ensures { option_map (λ found. found.now) result ≡ value_in option.now (map string_bytes words.now) }
{
    let mut rest = words;
    while let [name, value, others @ ..] = rest {
        if name.as_str() == option {
            return Some(value.as_str());
        }
        rest = others;
    }
    None
}

fn is_one_of(options: &[&str], word: &str) -> bool
    ensures { result ≡ list_any (bytes_eq word.now) (map (λ option. option.now) options.now) }
{
    for option in options {
        if word == *option {
            return true;
        }
    }
    false
}

// The option is one of these and does not stand behind, and its value is one.
fn is_pair_of(options: &[&str], name: &String, value: &String, behind: &[String]) -> bool
    ensures { result ≡ is_pair_in (map (λ option. option.now) options.now) (string_bytes name.now) (string_bytes value.now) (map string_bytes behind.now) }
{
    is_one_of(options, name.as_str())
        && is_value(value.as_str())
        && value_of(behind, name.as_str()).is_none()
}

/// Whether the words are pairs of an option and its value: each option is one of these, and stands once.
// It calls itself for as many words as there are options, and no more: it ends at an option that stands again.
pub fn are_pairs_of(options: &[&str], words: &[String]) -> bool
    ensures { result ≡ are_pairs_in (map (λ option. option.now) options.now) (map string_bytes words.now) }
{
    let Some((name, behind)) = words.split_first() else {
        return true;
    };
    let Some((value, others)) = behind.split_first() else {
        return false;
    };
    is_pair_of(options, name, value, others) && are_pairs_of(options, others)
}

fn are_digits(word: &[u8]) -> bool
    ensures { result ≡ all_ascii_digits word.now }
{
    for byte in word {
        if !byte.is_ascii_digit() {
            return false;
        }
    }
    true
}

// Decimal digits, and no zero in front.
fn is_plain(word: &[u8]) -> bool
    ensures { result ≡ is_plain_of word.now }
{
    match word {
        [] => false,
        [first, ..] => *first != b'0' && are_digits(word),
    }
}

// The number that decimal digits say, where it is below 2^32.
#[tactic(auto, using(crate::proofs::PairLemmas::parsed))]
fn number(word: &str) -> Option<u32>
    requires { is_plain_of word.now ≡ true }
    ensures { result ≡ below_32 (digits_value 10 word.now) }
{
    word.parse::<u32>().ok()
}

/// The number that a word says, where it is between these.
pub fn number_in(word: &str, low: u32, high: u32) -> Option<u32>
    ensures { result ≡ number_of low high word.now }
{
    if !is_plain(word.as_bytes()) {
        return None;
    }
    match number(word) {
        Some(number) if number >= low && number <= high => Some(number),
        _ => None,
    }
}
