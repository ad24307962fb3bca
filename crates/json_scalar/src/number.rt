// Numbers: whether a literal's value is whole, and which number it is.
ghost use Rattle.std.specs.Prelude.{◌≡◌, ◌≢◌, ◌+◌, ◌*◌, ◌^◌, ◌<◌, ◌≤◌, ℕ, IfSome, IfNone, SomeIff, length, option_map};
ghost use Rattle.std.specs.List.{prefix_len};
ghost use Rattle.std.specs.Char.{is_ascii_digit};
ghost use Rattle.json_scalar.specs.Number.{IsWhole};
ghost use Rattle.json_scalar.specs.Digits.{AreDigits, spelled_behind, spelled, IsTrimmed, IsLong, IsCapped, Meets};
ghost use Rattle.json_scalar.specs.Parts.{begins, without, front_digits, behind_digits, cut_fraction, cut_exponent, cut, IsValue, HasDigits};

// The least number that is too large to be an answer.
const LIMIT: u64 = 1 << 63;

// From here on the size of an exponent changes no answer, since no text has so many digits.
const EXPONENT_CAP: u128 = 1 << 66;

// The least number of more than 38 digits.
const DECIMAL_LIMIT: u128 = 100_000_000_000_000_000_000_000_000_000_000_000_000;

// So many digits always spell a number below the limit.
const PLAIN_DIGITS: usize = 18;

/// The number that a JSON number's text stands for, where it is whole, not negative and below 2^63. The value
/// decides and not the spelling: `1.0E1`, `100e-1` and `10` are 10, and `-0` is 0.
pub fn whole_of(text: &[u8]) -> Option<u64>
    ensures found { IfSome result (IsWhole text.now) }
    ensures small { IfSome result (λ n. n < 2 ^ 63) }
    ensures only { IfSome result (λ n. (m : ℕ) → IsWhole text.now m → m ≡ n) }
    ensures none { IfNone result ((n : ℕ) → n < 2 ^ 63 → ¬ IsWhole text.now n) }
{
    match plain_digits(text) {
        Some(number) => Some(number),
        None => Parts::of(text)?.whole_value(),
    }
}

// The number of a few digits with nothing around them, of which the first is not 0.
fn plain_digits(text: &[u8]) -> Option<u64>
    ensures found { IfSome result (IsWhole text.now) }
    ensures small { IfSome result (λ n. n < 2 ^ 63) }
{
    if text.is_empty() || text.len() > PLAIN_DIGITS || text[0] == b'0' {
        return None;
    }
    let mut number = 0;
    for byte in text {
        if !byte.is_ascii_digit() {
            return None;
        }
        number = number * 10 + (*byte - b'0') as u64;
    }
    Some(number)
}

// The parts of a number's text.
#[derive(Clone, Copy)]
pub struct Parts<'a> {
    pub is_negative: bool,

    // The digits before the point, and those behind it.
    pub whole: &'a [u8],
    pub fraction: &'a [u8],

    // Whether the exponent has a minus, and its digits.
    pub lowers: bool,
    pub exponent: &'a [u8],
}

// Whether the text begins with the byte, and what follows the byte if so.
fn without_byte(text: &[u8], byte: u8) -> (bool, &[u8])
    ensures begins { result.0 ≡ begins byte text.now }
    ensures rest { result.1.now ≡ without byte text.now }
{
    if !text.is_empty() && text[0] == byte {
        (true, &text[1..])
    } else {
        (false, text)
    }
}

// The digits at the front, and what follows them.
fn split_digits(text: &[u8]) -> (&[u8], &[u8])
    ensures digits { result.0.now ≡ front_digits text.now }
    ensures rest { result.1.now ≡ behind_digits text.now }
{
    text.split_at(digits_len(text))
}

// How many digits stand at the front.
fn digits_len(text: &[u8]) -> usize
    ensures { result ≡ prefix_len is_ascii_digit text.now }
{
    for (index, byte) in text.iter().enumerate() {
        if !byte.is_ascii_digit() {
            return index;
        }
    }
    text.len()
}

// The digits behind a point, none where there is no point, and what follows them.
fn take_fraction(text: &[u8]) -> Option<(&[u8], &[u8])>
    ensures { option_map (λ p. (p.0.now, p.1.now)) result ≡ cut_fraction text.now }
{
    let (has_point, behind_point) = without_byte(text, b'.');
    if !has_point {
        return Some((&[], text));
    }
    let (digits, rest) = split_digits(behind_point);
    if digits.is_empty() {
        return None;
    }
    Some((digits, rest))
}

// Whether the exponent has a minus, and its digits, where nothing follows them.
fn take_exponent(text: &[u8]) -> Option<(bool, &[u8])>
    ensures { option_map (λ p. (p.0, p.1.now)) result ≡ cut_exponent text.now }
{
    if text.is_empty() {
        return Some((false, &[]));
    }
    if text[0] != b'e' && text[0] != b'E' {
        return None;
    }
    let (has_plus, behind_plus) = without_byte(&text[1..], b'+');
    let (has_minus, behind_minus) = without_byte(behind_plus, b'-');
    let (digits, rest) = split_digits(behind_minus);
    if has_plus && has_minus || digits.is_empty() || !rest.is_empty() {
        return None;
    }
    Some((has_minus, digits))
}

impl Parts<'_> {
    ghost use Rattle.json_scalar.specs.Seen.{cut_of};

    // The parts of a text that is a number.
    pub fn of(text: &[u8]) -> Option<Parts<'_>>
        ensures { option_map cut_of result ≡ cut text.now }
    {
        let (is_negative, unsigned) = without_byte(text, b'-');
        let (whole, behind_whole) = split_digits(unsigned);
        if whole.is_empty() || (whole.len() > 1 && whole[0] == b'0') {
            return None;
        }
        let (fraction, behind_fraction) = take_fraction(behind_whole)?;
        let (lowers, exponent) = take_exponent(behind_fraction)?;
        Some(Parts {
            is_negative,
            whole,
            fraction,
            lowers,
            exponent,
        })
    }

    // The value, where it is whole, not negative and below the limit.
    fn whole_value(&self) -> Option<u64>
        requires { HasDigits (cut_of self.now) }
        ensures found { IfSome result (IsValue (cut_of self.now)) }
        ensures small { IfSome result (λ n. n < 2 ^ 63) }
        ensures none { IfNone result ((n : ℕ) → n < 2 ^ 63 → ¬ IsValue (cut_of self.now) n) }
    {
        let significand = Significand::ZERO
            .followed_by(self.whole)?
            .followed_by(self.fraction)?;
        if significand.core == 0 {
            return Some(0);
        }
        if self.is_negative {
            return None;
        }
        let exponent = capped_exponent(self.exponent);
        let places = self.fraction.len() as u128;
        if self.lowers {
            significand.shifted(0, places + exponent)
        } else {
            significand.shifted(exponent, places)
        }
    }
}

// A number without the zeros at its end: it is core × 10^zeros.
#[derive(Clone, Copy)]
pub struct Significand {
    pub core: u128,
    pub zeros: u128,
}

impl Significand {
    ghost use Rattle.json_scalar.specs.Seen.{number_of};

    pub const ZERO: Significand = Significand { core: 0, zeros: 0 };

    // The number times a power of ten and over another, where that is whole and below the limit.
    fn shifted(self, raised: u128, lowered: u128) -> Option<u64>
        requires some { self.core ≢ 0 }
        requires trimmed { IsTrimmed self.core }
        requires room { self.zeros + raised < 2 ^ 128 }
        ensures small { IfSome result (λ n. n < 2 ^ 63) }
        ensures value { IfSome result (Meets self.core self.zeros raised lowered) }
        ensures none { IfNone result ((n : ℕ) → n < 2 ^ 63 → ¬ Meets self.core self.zeros raised lowered n) }
    {
        let up = self.zeros + raised;
        if up < lowered {
            return None;
        }
        times_power(self.core, up - lowered)
    }

    // The number with these digits behind its own, `None` where its core passes the limit.
    pub fn followed_by(self, digits: &[u8]) -> Option<Significand>
        requires digits { AreDigits digits.now }
        requires trimmed { IsTrimmed self.core }
        requires room { self.zeros + length digits.now < 2 ^ 66 }
        ensures value { IfSome result (λ s. number_of s ≡ spelled_behind (number_of self) digits.now) }
        ensures trimmed { IfSome result (λ s. IsTrimmed s.core) }
        ensures room { IfSome result (λ s. s.zeros ≤ self.zeros + length digits.now) }
        ensures long { IfNone result (IsLong (spelled_behind (number_of self) digits.now)) }
    {
        let mut number = self;
        for byte in digits {
            number = number.with_digit((*byte - b'0') as u128)?;
        }
        Some(number)
    }

    // The number with one more digit behind its own.
    fn with_digit(self, digit: u128) -> Option<Significand>
        requires digit { digit < 10 }
        requires trimmed { IsTrimmed self.core }
        requires room { self.zeros < 2 ^ 66 }
        ensures value { IfSome result (λ s. number_of s ≡ number_of self * 10 + digit) }
        ensures trimmed { IfSome result (λ s. IsTrimmed s.core) }
        ensures room { IfSome result (λ s. s.zeros ≤ self.zeros + 1) }
        ensures long { IfNone result (IsLong (number_of self * 10 + digit)) }
    {
        if digit == 0 {
            let zeros = if self.core == 0 { 0 } else { self.zeros + 1 };
            return Some(Significand {
                core: self.core,
                zeros,
            });
        }
        let core = with_zeros(self.core, self.zeros + 1)? + digit;
        if core >= DECIMAL_LIMIT {
            return None;
        }
        Some(Significand { core, zeros: 0 })
    }
}

// The number times a power of ten, where that is below the limit of an answer.
fn times_power(number: u128, power: u128) -> Option<u64>
    ensures { SomeIff result (number * 10 ^ power < 2 ^ 63) (number * 10 ^ power) }
{
    if number == 0 {
        return Some(0);
    }
    if power > 18 {
        return None;
    }
    let product = number.checked_mul(10u128.checked_pow(power as u32)?)?;
    if product >= LIMIT as u128 {
        return None;
    }
    Some(product as u64)
}

// The number with so many zeros behind it, where that has at most 38 digits.
fn with_zeros(number: u128, zeros: u128) -> Option<u128>
    ensures { SomeIff result (number * 10 ^ zeros < 10 ^ 38) (number * 10 ^ zeros) }
{
    if number == 0 {
        return Some(0);
    }
    if zeros > 37 {
        return None;
    }
    let product = number.checked_mul(10u128.checked_pow(zeros as u32)?)?;
    if product >= DECIMAL_LIMIT {
        return None;
    }
    Some(product)
}

// The number that the digits spell, or some number that is not below the cap where that is not either.
pub fn capped_exponent(digits: &[u8]) -> u128
    requires { AreDigits digits.now }
    ensures capped { IsCapped result (spelled digits.now) }
    ensures room { result < 2 ^ 70 }
{
    let mut exponent = 0;
    for byte in digits {
        if exponent < EXPONENT_CAP {
            exponent = exponent * 10 + (*byte - b'0') as u128;
        }
    }
    exponent
}
