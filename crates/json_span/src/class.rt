// What a byte is, outside strings and inside escapes.
ghost use Rattle.std.specs.Prelude.{◌≡◌};
ghost use Rattle.json_span.specs.Table.{class_of, hex_of};

/// What a byte is to the grammar, outside strings and words.
#[derive(Clone, Copy)]
pub enum Class {
    /// White space.
    Blank,
    Quote,
    Comma,
    Colon,
    ArrayStart,
    ArrayEnd,
    ObjectStart,
    ObjectEnd,
    Minus,
    Plus,
    Point,
    Zero,
    /// A digit but 0.
    Digit,
    /// The letter e or E.
    Mark,
    LetterT,
    LetterF,
    LetterN,
    Other,
}

/// What a byte is.
#[inline(always)]
pub fn classify(byte: u8) -> Class
    ensures { result ≡ class_of byte }
{
    match byte {
        b' ' | b'\t' | b'\n' | b'\r' => Class::Blank,
        b'"' => Class::Quote,
        b',' => Class::Comma,
        b':' => Class::Colon,
        b'[' => Class::ArrayStart,
        b']' => Class::ArrayEnd,
        b'{' => Class::ObjectStart,
        b'}' => Class::ObjectEnd,
        b'-' => Class::Minus,
        b'+' => Class::Plus,
        b'.' => Class::Point,
        b'0' => Class::Zero,
        b'1'..=b'9' => Class::Digit,
        b'e' | b'E' => Class::Mark,
        b't' => Class::LetterT,
        b'f' => Class::LetterF,
        b'n' => Class::LetterN,
        _ => Class::Other,
    }
}

/// What a hexadecimal digit says of the surrogates, whose first digit is D and whose second is from 8 on.
#[derive(Clone, Copy)]
pub enum Hex {
    /// 0 to 7.
    Below8,
    /// 8 to B.
    From8,
    /// D.
    D,
    /// C, E or F.
    FromC,
    /// No hexadecimal digit.
    None,
}

/// What a byte is in a code unit.
pub fn hex_class(byte: u8) -> Hex
    ensures { result ≡ hex_of byte }
{
    match char::from(byte).to_digit(16) {
        None => Hex::None,
        Some(digit) => {
            if digit < 8 {
                Hex::Below8
            } else if digit < 12 {
                Hex::From8
            } else if digit == 13 {
                Hex::D
            } else {
                Hex::FromC
            }
        }
    }
}
