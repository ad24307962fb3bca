// What the reader of an object or an array waits for.
ghost use Rattle.std.specs.Prelude.{◌≡◌, ◌↔◌, IsTrue};
ghost use Rattle.json_span.specs.Machine.{text_run, number_run, run_of, IsDone};

/// An array or an object that is open.
#[derive(Clone, Copy)]
pub enum Frame {
    Array,
    Object,
}

/// What a string is.
#[derive(Clone, Copy)]
pub enum Role {
    Key,
    Value,
}

/// A spot in a string: what the next byte is to it (RFC 8259, section 7).
#[derive(Clone, Copy)]
pub enum Spot {
    /// A byte that stands for itself, the end, or a backslash.
    Plain,
    /// The letter behind a backslash.
    Escape,
    /// The first digit of a code unit.
    First,
    /// The second digit, where the first is not D.
    Second,
    /// The second digit, where the first is D: a surrogate may come.
    SecondOfD,
    /// The third digit of a code unit that ends a character.
    Third,
    /// The fourth digit of that.
    Fourth,
    /// The third digit of the first half of a pair.
    HighThird,
    /// The fourth digit of that.
    HighFourth,
    /// The backslash of the second half.
    LowBackslash,
    /// The u of the second half.
    LowLetter,
    /// The first digit of the second half.
    LowFirst,
    /// The second digit of the second half.
    LowSecond,
}

/// A spot in a number: what has been read of it (RFC 8259, section 6).
#[derive(Clone, Copy)]
pub enum Part {
    Minus,
    Zero,
    Whole,
    Point,
    Fraction,
    Mark,
    Sign,
    Exponent,
}

/// A spot in `null`, `true` or `false`: the letter that comes next.
#[derive(Clone, Copy)]
pub enum Letter {
    NullSecond,
    NullThird,
    NullLast,
    TrueSecond,
    TrueThird,
    TrueLast,
    FalseSecond,
    FalseThird,
    FalseFourth,
    FalseLast,
}

/// What is waited for.
#[derive(Clone, Copy)]
pub enum Phase {
    /// The object, or the array.
    Start(Frame),
    /// The first key of an object, or its end.
    FirstKey,
    /// A key, behind a comma.
    Key,
    /// The colon behind a key.
    Colon,
    /// The first item of an array, or its end.
    FirstItem,
    /// A value.
    Value,
    /// A comma or a bracket, behind a value.
    After,
    /// Nothing but white space, behind the object or the array.
    Done,
    /// More of a string.
    Text(Role, Spot),
    /// More of a number.
    Number(Part),
    /// More of a word.
    Word(Letter),
    /// Nothing: the text is not what was wanted.
    Broken,
}

/// Bytes that leave a phase as it is.
#[derive(Clone, Copy)]
pub enum Run {
    /// Bytes that stand for themselves in a string.
    Plain,
    Digits,
    /// White space.
    Blanks,
    /// No byte does.
    Nothing,
}

/// Which bytes leave the phase as it is.
#[inline(always)]
pub fn run_at(phase: Phase) -> Run
    ensures { result ≡ run_of phase }
{
    match phase {
        Phase::Text(_, spot) => run_in_text(spot),
        Phase::Number(part) => run_in_number(part),
        Phase::Word(_) | Phase::Broken => Run::Nothing,
        _ => Run::Blanks,
    }
}

#[inline(always)]
fn run_in_text(spot: Spot) -> Run
    ensures { result ≡ text_run spot }
{
    match spot {
        Spot::Plain => Run::Plain,
        _ => Run::Nothing,
    }
}

#[inline(always)]
fn run_in_number(part: Part) -> Run
    ensures { result ≡ number_run part }
{
    match part {
        Part::Whole | Part::Fraction | Part::Exponent => Run::Digits,
        _ => Run::Nothing,
    }
}

/// Whether the object or the array has been read to its end.
pub fn is_done(phase: Phase) -> bool
    ensures { IsTrue result ↔ IsDone phase }
{
    match phase {
        Phase::Done => true,
        _ => false,
    }
}

/// Whether there is nothing more to read: the object or the array has been read, or the text is none.
#[inline(always)]
pub fn is_over(phase: Phase) -> bool {
    match phase {
        Phase::Done | Phase::Broken => true,
        _ => false,
    }
}
