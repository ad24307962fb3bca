// What a byte does, by what is waited for: a table that knows nothing of what is open.
ghost use Rattle.std.specs.Prelude.{◌≡◌};
ghost use Rattle.json_span.specs.Table.{escape_move, plain_move, first_move, second_move, low_first_move, low_second_move, any_move, exact_move, next_spot, text_move, letter_byte, letter_move, word_move, number_move, value_move, after_move, table, move_of};

use crate::class::{Class, Hex, classify, hex_class};
use crate::phase::{Frame, Letter, Part, Phase, Role, Spot};

/// What a byte does.
#[derive(Clone, Copy)]
pub enum Move {
    /// Something else is waited for.
    Go(Phase),
    /// A key begins with it.
    BeginKey,
    /// A key ends with it.
    EndKey,
    /// A value begins with it that is no array and no object.
    Begin(Phase),
    /// Such a value ends with it.
    End,
    /// A number has ended before it.
    EndNumber,
    /// An array or an object begins.
    Open(Frame),
    /// An array or an object ends.
    Close(Frame),
    Comma,
}

/// What a byte does in a string.
#[derive(Clone, Copy)]
pub enum TextMove {
    Go(Spot),
    End,
    Fail,
}

/// What the byte behind a backslash does.
fn escaped(byte: u8) -> TextMove
    ensures { result ≡ escape_move byte }
{
    match byte {
        b'"' | b'\\' | b'/' | b'b' | b'f' | b'n' | b'r' | b't' => TextMove::Go(Spot::Plain),
        b'u' => TextMove::Go(Spot::First),
        _ => TextMove::Fail,
    }
}

/// What a byte does where a byte that stands for itself may come.
#[inline(always)]
fn unescaped(byte: u8) -> TextMove
    ensures { result ≡ plain_move byte }
{
    match byte {
        b'"' => TextMove::End,
        b'\\' => TextMove::Go(Spot::Escape),
        0..=31 => TextMove::Fail,
        _ => TextMove::Go(Spot::Plain),
    }
}

/// What the first digit of a code unit does.
fn first_digit(digit: Hex) -> TextMove
    ensures { result ≡ first_move digit }
{
    match digit {
        Hex::D => TextMove::Go(Spot::SecondOfD),
        Hex::None => TextMove::Fail,
        _ => TextMove::Go(Spot::Second),
    }
}

/// What the second digit does behind a D. Behind it the second half of a pair may not stand alone.
fn second_digit(digit: Hex) -> TextMove
    ensures { result ≡ second_move digit }
{
    match digit {
        Hex::Below8 => TextMove::Go(Spot::Third),
        Hex::From8 => TextMove::Go(Spot::HighThird),
        _ => TextMove::Fail,
    }
}

/// What the first digit of the second half of a pair does.
fn low_first_digit(digit: Hex) -> TextMove
    ensures { result ≡ low_first_move digit }
{
    match digit {
        Hex::D => TextMove::Go(Spot::LowSecond),
        _ => TextMove::Fail,
    }
}

/// What the second digit of the second half of a pair does.
fn low_second_digit(digit: Hex) -> TextMove
    ensures { result ≡ low_second_move digit }
{
    match digit {
        Hex::D | Hex::FromC => TextMove::Go(Spot::Third),
        _ => TextMove::Fail,
    }
}

/// What a digit does, before another spot.
fn any_digit(digit: Hex, next: Spot) -> TextMove
    ensures { result ≡ any_move digit next }
{
    match digit {
        Hex::None => TextMove::Fail,
        _ => TextMove::Go(next),
    }
}

/// What a byte does that is wanted as it is, before another spot.
fn exactly(byte: u8, wanted: u8, next: Spot) -> TextMove
    ensures { result ≡ exact_move byte wanted next }
{
    if byte == wanted {
        TextMove::Go(next)
    } else {
        TextMove::Fail
    }
}

/// What a byte does in a string.
#[inline(always)]
fn next_in_text(spot: Spot, byte: u8) -> TextMove
    ensures { result ≡ next_spot spot byte }
{
    match spot {
        Spot::Plain => unescaped(byte),
        Spot::Escape => escaped(byte),
        Spot::First => first_digit(hex_class(byte)),
        Spot::Second => any_digit(hex_class(byte), Spot::Third),
        Spot::SecondOfD => second_digit(hex_class(byte)),
        Spot::Third => any_digit(hex_class(byte), Spot::Fourth),
        Spot::Fourth => any_digit(hex_class(byte), Spot::Plain),
        Spot::HighThird => any_digit(hex_class(byte), Spot::HighFourth),
        Spot::HighFourth => any_digit(hex_class(byte), Spot::LowBackslash),
        Spot::LowBackslash => exactly(byte, b'\\', Spot::LowLetter),
        Spot::LowLetter => exactly(byte, b'u', Spot::LowFirst),
        Spot::LowFirst => low_first_digit(hex_class(byte)),
        Spot::LowSecond => low_second_digit(hex_class(byte)),
    }
}

/// What a byte does in a key or a value that is a string.
#[inline(always)]
fn in_text(role: Role, step: TextMove) -> Move
    ensures { result ≡ text_move role step }
{
    match step {
        TextMove::Go(spot) => Move::Go(Phase::Text(role, spot)),
        TextMove::Fail => Move::Go(Phase::Broken),
        TextMove::End => match role {
            Role::Key => Move::EndKey,
            Role::Value => Move::End,
        },
    }
}

/// The letter that a word wants, and what it does.
fn wanted_letter(letter: Letter) -> (u8, Move)
    ensures letter { result.0 ≡ letter_byte letter }
    ensures moves { result.1 ≡ letter_move letter }
{
    let go = |next: Letter| Move::Go(Phase::Word(next));
    match letter {
        Letter::NullSecond => (b'u', go(Letter::NullThird)),
        Letter::NullThird => (b'l', go(Letter::NullLast)),
        Letter::NullLast => (b'l', Move::End),
        Letter::TrueSecond => (b'r', go(Letter::TrueThird)),
        Letter::TrueThird => (b'u', go(Letter::TrueLast)),
        Letter::TrueLast => (b'e', Move::End),
        Letter::FalseSecond => (b'a', go(Letter::FalseThird)),
        Letter::FalseThird => (b'l', go(Letter::FalseFourth)),
        Letter::FalseFourth => (b's', go(Letter::FalseLast)),
        Letter::FalseLast => (b'e', Move::End),
    }
}

/// What a byte does in a word.
fn in_word(letter: Letter, byte: u8) -> Move
    ensures { result ≡ word_move letter byte }
{
    let (wanted, next) = wanted_letter(letter);
    if byte == wanted {
        next
    } else {
        Move::Go(Phase::Broken)
    }
}

/// What a byte does in a number.
#[inline(always)]
fn in_number(part: Part, class: Class) -> Move
    ensures { result ≡ number_move part class }
{
    let go = |next: Part| Move::Go(Phase::Number(next));
    match (part, class) {
        (Part::Minus, Class::Zero) => go(Part::Zero),
        (Part::Minus, Class::Digit) => go(Part::Whole),
        (Part::Whole, Class::Zero | Class::Digit) => go(Part::Whole),
        (Part::Zero | Part::Whole, Class::Point) => go(Part::Point),
        (Part::Point | Part::Fraction, Class::Zero | Class::Digit) => go(Part::Fraction),
        (Part::Zero | Part::Whole | Part::Fraction, Class::Mark) => go(Part::Mark),
        (Part::Mark, Class::Plus | Class::Minus) => go(Part::Sign),
        (Part::Mark | Part::Sign, Class::Zero | Class::Digit) => go(Part::Exponent),
        (Part::Exponent, Class::Zero | Class::Digit) => go(Part::Exponent),
        (Part::Minus | Part::Point | Part::Mark | Part::Sign, _) => Move::Go(Phase::Broken),
        _ => Move::EndNumber,
    }
}

/// What a byte does where a value is wanted.
#[inline(always)]
fn at_value(class: Class) -> Move
    ensures { result ≡ value_move class }
{
    match class {
        Class::Blank => Move::Go(Phase::Value),
        Class::Quote => Move::Begin(Phase::Text(Role::Value, Spot::Plain)),
        Class::ArrayStart => Move::Open(Frame::Array),
        Class::ObjectStart => Move::Open(Frame::Object),
        Class::Minus => Move::Begin(Phase::Number(Part::Minus)),
        Class::Zero => Move::Begin(Phase::Number(Part::Zero)),
        Class::Digit => Move::Begin(Phase::Number(Part::Whole)),
        Class::LetterN => Move::Begin(Phase::Word(Letter::NullSecond)),
        Class::LetterT => Move::Begin(Phase::Word(Letter::TrueSecond)),
        Class::LetterF => Move::Begin(Phase::Word(Letter::FalseSecond)),
        _ => Move::Go(Phase::Broken),
    }
}

/// What a byte does behind a value.
#[inline(always)]
pub fn behind_value(class: Class) -> Move
    ensures { result ≡ after_move class }
{
    match class {
        Class::Blank => Move::Go(Phase::After),
        Class::Comma => Move::Comma,
        Class::ArrayEnd => Move::Close(Frame::Array),
        Class::ObjectEnd => Move::Close(Frame::Object),
        _ => Move::Go(Phase::Broken),
    }
}

/// What a byte does.
#[inline(always)]
pub fn move_at(phase: Phase, byte: u8) -> Move
    ensures { result ≡ move_of phase byte }
{
    match phase {
        Phase::Text(role, spot) => in_text(role, next_in_text(spot, byte)),
        Phase::Word(letter) => in_word(letter, byte),
        _ => between(phase, classify(byte)),
    }
}

/// What a byte does outside strings and words.
#[inline(always)]
fn between(phase: Phase, class: Class) -> Move
    ensures { result ≡ table phase class }
{
    match (phase, class) {
        (Phase::Number(part), _) => in_number(part, class),
        (Phase::Value, _) => at_value(class),
        (Phase::After, _) => behind_value(class),
        (Phase::FirstItem, Class::ArrayEnd) => Move::Close(Frame::Array),
        (Phase::FirstItem, Class::Blank) => Move::Go(Phase::FirstItem),
        (Phase::FirstItem, _) => at_value(class),
        (Phase::FirstKey, Class::ObjectEnd) => Move::Close(Frame::Object),
        (Phase::FirstKey | Phase::Key, Class::Quote) => Move::BeginKey,
        (Phase::Colon, Class::Colon) => Move::Go(Phase::Value),
        (Phase::Start(Frame::Object), Class::ObjectStart) => Move::Open(Frame::Object),
        (Phase::Start(Frame::Array), Class::ArrayStart) => Move::Open(Frame::Array),
        (Phase::Start(frame), Class::Blank) => Move::Go(Phase::Start(frame)),
        (Phase::FirstKey, Class::Blank) => Move::Go(Phase::FirstKey),
        (Phase::Key, Class::Blank) => Move::Go(Phase::Key),
        (Phase::Colon, Class::Blank) => Move::Go(Phase::Colon),
        (Phase::Done, Class::Blank) => Move::Go(Phase::Done),
        _ => Move::Go(Phase::Broken),
    }
}
