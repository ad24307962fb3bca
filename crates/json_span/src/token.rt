// Reading a token at a time: the bytes of a key, of a value and of what stands around them in one go. Where a token
// does not go on as it mostly does, what stands here is read byte by byte.
use crate::machine::Machine;
use crate::phase::{Frame, Letter, Part, Phase, Role, Spot, is_over, run_at};
use crate::skip::{skip, skip_blanks_or_none};
use crate::table::Move;
use basics::NoMemory;

#[tactic(auto, using(crate::proofs::Run::read_on, crate::proofs::Run::read_none))]
impl Machine {
    ghost use Rattle.std.specs.Prelude.{◌≡◌, ◌⊎◌, ◌+◌, ◌<◌, ◌≤◌, IfOk, OnOk, IsTrue, length, slice_index};
    ghost use Rattle.json_span.specs.Table.{move_of, class_of, after_move};
    ghost use Rattle.json_span.specs.Machine.{IsTaken, IsSimple, IsEnding, initial, made, read_to};
    ghost use Rattle.json_span.specs.declared.phase.Frame.TheVariants as frame;
    ghost use Rattle.json_span.specs.declared.phase.Role.TheVariants as role;
    ghost use Rattle.json_span.specs.declared.phase.Spot.TheVariants as spot;
    ghost use Rattle.json_span.specs.declared.phase.Part.TheVariants as part;
    ghost use Rattle.json_span.specs.declared.phase.Letter.TheVariants as letter;
    ghost use Rattle.json_span.specs.declared.phase.Phase.TheVariants as phase;
    ghost use Rattle.json_span.specs.declared.table.Move.TheVariants as moves;

    /// Reads the byte that stands here, and the run behind it.
    #[inline(never)]
    fn advance(&mut self, text: &[u8], at: usize) -> Result<usize, NoMemory>
        requires { at < length text.now }
        ensures taken { IfOk result (IsTaken text.now self.old at self.new) }
        ensures further { IfOk result (λ to. (at < to) × (to ≤ length text.now)) }
    {
        self.step(text[at], at as u64)?;
        Ok(skip(text, at + 1, run_at(self.phase)))
    }

    /// Makes the move that the byte here is known to make, and passes over the run behind it.
    #[inline(always)]
    fn make_at(&mut self, text: &[u8], at: usize, next: Move) -> Result<usize, NoMemory>
        requires place { at < length text.now }
        requires simple { IsSimple next }
        requires known { move_of self.old.phase (slice_index text.now at) ≡ next }
        ensures taken { IfOk result (IsTaken text.now self.old at self.new) }
        ensures further { IfOk result (λ to. (at < to) × (to ≤ length text.now)) }
        ensures made { OnOk result (self.new ≡ made next self.old at (at + 1)) }
    {
        self.make(next, at as u64)?;
        Ok(skip(text, at + 1, run_at(self.phase)))
    }

    /// Makes the move that the byte here is known to make.
    #[inline(always)]
    fn make_one(&mut self, text: &[u8], at: usize, next: Move) -> Result<(), NoMemory>
        requires place { at < length text.now }
        requires simple { IsSimple next }
        requires known { move_of self.old.phase (slice_index text.now at) ≡ next }
        ensures taken { OnOk result (IsTaken text.now self.old at self.new (at + 1)) }
        ensures made { OnOk result (self.new ≡ made next self.old at (at + 1)) }
    {
        self.make(next, at as u64)?;
        Ok(())
    }

    /// Makes the move that the byte here is known to make, where mostly white space may stand behind it.
    #[inline(always)]
    fn make_short(&mut self, text: &[u8], at: usize, next: Move) -> Result<usize, NoMemory>
        requires place { at < length text.now }
        requires simple { IsSimple next }
        requires known { move_of self.old.phase (slice_index text.now at) ≡ next }
        ensures taken { IfOk result (IsTaken text.now self.old at self.new) }
        ensures further { IfOk result (λ to. (at < to) × (to ≤ length text.now)) }
        ensures made { OnOk result (self.new ≡ made next self.old at (at + 1)) }
    {
        self.make(next, at as u64)?;
        Ok(skip_blanks_or_none(text, at + 1, run_at(self.phase)))
    }

    /// Reads a string to its end, or up to an escape.
    #[inline(always)]
    fn take_string(&mut self, text: &[u8], at: usize) -> Result<usize, NoMemory>
        requires place { at < length text.now }
        requires begins { move_of self.old.phase (slice_index text.now at) ≡ moves.Begin (phase.Text role.Value spot.Plain) }
        ensures taken { IfOk result (IsTaken text.now self.old at self.new) }
        ensures further { IfOk result (λ to. (at < to) × (to ≤ length text.now)) }
    {
        let end = self.make_at(text, at, Move::Begin(Phase::Text(Role::Value, Spot::Plain)))?;
        if end == text.len() || text[end] != b'"' {
            return Ok(end);
        }
        self.make_at(text, end, Move::End)
    }

    /// Reads more of a string, up to an escape or behind one.
    #[inline(always)]
    fn take_more(&mut self, text: &[u8], at: usize, role: Role) -> Result<usize, NoMemory>
        requires place { at < length text.now }
        requires phase { self.old.phase ≡ phase.Text role spot.Plain }
        ensures taken { IfOk result (IsTaken text.now self.old at self.new) }
        ensures further { IfOk result (λ to. (at < to) × (to ≤ length text.now)) }
    {
        if text[at] == b'\\' {
            return self.take_escape(text, at, role);
        }
        if text[at] == b'"' {
            return match role {
                Role::Key => self.end_key(text, at),
                Role::Value => self.make_at(text, at, Move::End),
            };
        }
        self.advance(text, at)
    }

    /// Reads an escape and what stands for itself behind it; of a code unit the beginning.
    #[inline(always)]
    fn take_escape(&mut self, text: &[u8], at: usize, role: Role) -> Result<usize, NoMemory>
        requires place { at < length text.now }
        requires byte { slice_index text.now at ≡ 92 }
        requires phase { self.old.phase ≡ phase.Text role spot.Plain }
        ensures taken { IfOk result (IsTaken text.now self.old at self.new) }
        ensures further { IfOk result (λ to. (at < to) × (to ≤ length text.now)) }
    {
        let letter = self.make_at(text, at, Move::Go(Phase::Text(role, Spot::Escape)))?;
        if letter == text.len() {
            return Ok(letter);
        }
        match text[letter] {
            b'"' | b'\\' | b'/' | b'b' | b'f' | b'n' | b'r' | b't' => {
                self.make_at(text, letter, Move::Go(Phase::Text(role, Spot::Plain)))
            }
            _ => Ok(letter),
        }
    }

    /// Reads the byte behind a number, which makes this move behind a value.
    #[inline(always)]
    fn end_number(&mut self, text: &[u8], at: usize, next: Move) -> Result<usize, NoMemory>
        requires place { at < length text.now }
        requires known { move_of self.old.phase (slice_index text.now at) ≡ moves.EndNumber }
        requires behind { after_move (class_of (slice_index text.now at)) ≡ next }
        ensures taken { IfOk result (IsTaken text.now self.old at self.new) }
        ensures further { IfOk result (λ to. (at < to) × (to ≤ length text.now)) }
    {
        self.cutter.end_value(&self.frames, at as u64)?;
        self.make(next, at as u64)?;
        Ok(skip_blanks_or_none(text, at + 1, run_at(self.phase)))
    }

    /// Reads the end of a number, where a comma or a bracket stands.
    #[inline(always)]
    fn leave_number(&mut self, text: &[u8], at: usize) -> Result<usize, NoMemory>
        requires place { at ≤ length text.now }
        requires ends { IsEnding self.old.phase }
        ensures taken { IfOk result (IsTaken text.now self.old at self.new) }
        ensures further { IfOk result (λ to. (at ≤ to) × (to ≤ length text.now)) }
    {
        if at == text.len() {
            return Ok(at);
        }
        match text[at] {
            b',' => self.end_number(text, at, Move::Comma),
            b'}' => self.end_number(text, at, Move::Close(Frame::Object)),
            b']' => self.end_number(text, at, Move::Close(Frame::Array)),
            _ => Ok(at),
        }
    }

    /// Reads a number that begins with a digit but 0, or the front of one.
    #[inline(always)]
    fn take_number(&mut self, text: &[u8], at: usize) -> Result<usize, NoMemory>
        requires place { at < length text.now }
        requires begins { move_of self.old.phase (slice_index text.now at) ≡ moves.Begin (phase.Number part.Whole) }
        ensures taken { IfOk result (IsTaken text.now self.old at self.new) }
        ensures further { IfOk result (λ to. (at < to) × (to ≤ length text.now)) }
    {
        let end = self.make_at(text, at, Move::Begin(Phase::Number(Part::Whole)))?;
        self.take_point(text, end)
    }

    /// Reads a number that begins with 0.
    #[inline(always)]
    fn take_zero(&mut self, text: &[u8], at: usize) -> Result<usize, NoMemory>
        requires place { at < length text.now }
        requires begins { move_of self.old.phase (slice_index text.now at) ≡ moves.Begin (phase.Number part.Zero) }
        ensures taken { IfOk result (IsTaken text.now self.old at self.new) }
        ensures further { IfOk result (λ to. (at < to) × (to ≤ length text.now)) }
    {
        let end = self.make_at(text, at, Move::Begin(Phase::Number(Part::Zero)))?;
        self.take_point(text, end)
    }

    /// Reads a number that begins with a minus.
    #[inline(always)]
    fn take_minus(&mut self, text: &[u8], at: usize) -> Result<usize, NoMemory>
        requires place { at < length text.now }
        requires begins { move_of self.old.phase (slice_index text.now at) ≡ moves.Begin (phase.Number part.Minus) }
        ensures taken { IfOk result (IsTaken text.now self.old at self.new) }
        ensures further { IfOk result (λ to. (at < to) × (to ≤ length text.now)) }
    {
        let digit = self.make_at(text, at, Move::Begin(Phase::Number(Part::Minus)))?;
        if digit == text.len() {
            return Ok(digit);
        }
        let end = match text[digit] {
            b'0' => self.make_at(text, digit, Move::Go(Phase::Number(Part::Zero)))?,
            b'1'..=b'9' => self.make_at(text, digit, Move::Go(Phase::Number(Part::Whole)))?,
            _ => return Ok(digit),
        };
        self.take_point(text, end)
    }

    /// Reads what stands behind the digits before the point.
    #[inline(always)]
    fn take_point(&mut self, text: &[u8], at: usize) -> Result<usize, NoMemory>
        requires place { at ≤ length text.now }
        requires phase { (self.old.phase ≡ phase.Number part.Zero) ⊎ (self.old.phase ≡ phase.Number part.Whole) }
        ensures taken { IfOk result (IsTaken text.now self.old at self.new) }
        ensures further { IfOk result (λ to. (at ≤ to) × (to ≤ length text.now)) }
    {
        if at == text.len() {
            return Ok(at);
        }
        match text[at] {
            b'.' => self.take_fraction(text, at),
            b'e' | b'E' => self.take_exponent(text, at),
            _ => self.leave_number(text, at),
        }
    }

    /// Reads the point of a number and the digits behind it.
    #[inline(always)]
    fn take_fraction(&mut self, text: &[u8], at: usize) -> Result<usize, NoMemory>
        requires place { at < length text.now }
        requires known { move_of self.old.phase (slice_index text.now at) ≡ moves.Go (phase.Number part.Point) }
        ensures taken { IfOk result (IsTaken text.now self.old at self.new) }
        ensures further { IfOk result (λ to. (at < to) × (to ≤ length text.now)) }
    {
        let digit = self.make_at(text, at, Move::Go(Phase::Number(Part::Point)))?;
        if digit == text.len() || text[digit] < b'0' || text[digit] > b'9' {
            return Ok(digit);
        }
        let end = self.make_at(text, digit, Move::Go(Phase::Number(Part::Fraction)))?;
        if end < text.len() && (text[end] == b'e' || text[end] == b'E') {
            return self.take_exponent(text, end);
        }
        self.leave_number(text, end)
    }

    /// Reads the letter of an exponent and what stands behind it.
    fn take_exponent(&mut self, text: &[u8], at: usize) -> Result<usize, NoMemory>
        requires place { at < length text.now }
        requires known { move_of self.old.phase (slice_index text.now at) ≡ moves.Go (phase.Number part.Mark) }
        ensures taken { IfOk result (IsTaken text.now self.old at self.new) }
        ensures further { IfOk result (λ to. (at < to) × (to ≤ length text.now)) }
    {
        let next = self.make_at(text, at, Move::Go(Phase::Number(Part::Mark)))?;
        if next == text.len() {
            return Ok(next);
        }
        match text[next] {
            b'+' | b'-' => self.take_signed(text, next),
            b'0'..=b'9' => self.take_power(text, next),
            _ => Ok(next),
        }
    }

    /// Reads the sign of an exponent and its digits.
    fn take_signed(&mut self, text: &[u8], at: usize) -> Result<usize, NoMemory>
        requires place { at < length text.now }
        requires known { move_of self.old.phase (slice_index text.now at) ≡ moves.Go (phase.Number part.Sign) }
        ensures taken { IfOk result (IsTaken text.now self.old at self.new) }
        ensures further { IfOk result (λ to. (at < to) × (to ≤ length text.now)) }
    {
        let digit = self.make_at(text, at, Move::Go(Phase::Number(Part::Sign)))?;
        if digit == text.len() || text[digit] < b'0' || text[digit] > b'9' {
            return Ok(digit);
        }
        self.take_power(text, digit)
    }

    /// Reads the digits of an exponent behind its letter or its sign.
    #[inline(always)]
    fn take_power(&mut self, text: &[u8], at: usize) -> Result<usize, NoMemory>
        requires place { at < length text.now }
        requires known { move_of self.old.phase (slice_index text.now at) ≡ moves.Go (phase.Number part.Exponent) }
        ensures taken { IfOk result (IsTaken text.now self.old at self.new) }
        ensures further { IfOk result (λ to. (at < to) × (to ≤ length text.now)) }
    {
        let end = self.make_at(text, at, Move::Go(Phase::Number(Part::Exponent)))?;
        self.leave_number(text, end)
    }

    /// Reads `true`, or the front of it.
    #[inline(always)]
    fn take_true(&mut self, text: &[u8], at: usize) -> Result<usize, NoMemory>
        requires place { at < length text.now }
        requires begins { move_of self.old.phase (slice_index text.now at) ≡ moves.Begin (phase.Word letter.TrueSecond) }
        ensures taken { IfOk result (IsTaken text.now self.old at self.new) }
        ensures further { IfOk result (λ to. (at < to) × (to ≤ length text.now)) }
    {
        let second = self.make_at(text, at, Move::Begin(Phase::Word(Letter::TrueSecond)))?;
        if second == text.len() || text[second] != b'r' {
            return Ok(second);
        }
        let third = self.make_at(text, second, Move::Go(Phase::Word(Letter::TrueThird)))?;
        if third == text.len() || text[third] != b'u' {
            return Ok(third);
        }
        let last = self.make_at(text, third, Move::Go(Phase::Word(Letter::TrueLast)))?;
        if last == text.len() || text[last] != b'e' {
            return Ok(last);
        }
        self.make_at(text, last, Move::End)
    }

    /// Reads `false`, or the front of it.
    #[inline(always)]
    fn take_false(&mut self, text: &[u8], at: usize) -> Result<usize, NoMemory>
        requires place { at < length text.now }
        requires begins { move_of self.old.phase (slice_index text.now at) ≡ moves.Begin (phase.Word letter.FalseSecond) }
        ensures taken { IfOk result (IsTaken text.now self.old at self.new) }
        ensures further { IfOk result (λ to. (at < to) × (to ≤ length text.now)) }
    {
        let second = self.make_at(text, at, Move::Begin(Phase::Word(Letter::FalseSecond)))?;
        if second == text.len() || text[second] != b'a' {
            return Ok(second);
        }
        let third = self.make_at(text, second, Move::Go(Phase::Word(Letter::FalseThird)))?;
        if third == text.len() || text[third] != b'l' {
            return Ok(third);
        }
        let fourth = self.make_at(text, third, Move::Go(Phase::Word(Letter::FalseFourth)))?;
        if fourth == text.len() || text[fourth] != b's' {
            return Ok(fourth);
        }
        let last = self.make_at(text, fourth, Move::Go(Phase::Word(Letter::FalseLast)))?;
        if last == text.len() || text[last] != b'e' {
            return Ok(last);
        }
        self.make_at(text, last, Move::End)
    }

    /// Reads `null`, or the front of it.
    #[inline(always)]
    fn take_null(&mut self, text: &[u8], at: usize) -> Result<usize, NoMemory>
        requires place { at < length text.now }
        requires begins { move_of self.old.phase (slice_index text.now at) ≡ moves.Begin (phase.Word letter.NullSecond) }
        ensures taken { IfOk result (IsTaken text.now self.old at self.new) }
        ensures further { IfOk result (λ to. (at < to) × (to ≤ length text.now)) }
    {
        let second = self.make_at(text, at, Move::Begin(Phase::Word(Letter::NullSecond)))?;
        if second == text.len() || text[second] != b'u' {
            return Ok(second);
        }
        let third = self.make_at(text, second, Move::Go(Phase::Word(Letter::NullThird)))?;
        if third == text.len() || text[third] != b'l' {
            return Ok(third);
        }
        let last = self.make_at(text, third, Move::Go(Phase::Word(Letter::NullLast)))?;
        if last == text.len() || text[last] != b'l' {
            return Ok(last);
        }
        self.make_at(text, last, Move::End)
    }

    /// Reads a value that is no string, or the front of one.
    #[inline(never)]
    fn take_plain(&mut self, text: &[u8], at: usize) -> Result<usize, NoMemory>
        requires place { at < length text.now }
        requires phase { (self.old.phase ≡ phase.Value) ⊎ (self.old.phase ≡ phase.FirstItem) }
        ensures taken { IfOk result (IsTaken text.now self.old at self.new) }
        ensures further { IfOk result (λ to. (at < to) × (to ≤ length text.now)) }
    {
        match text[at] {
            b'1'..=b'9' => self.take_number(text, at),
            b'{' => self.make_short(text, at, Move::Open(Frame::Object)),
            b'[' => self.make_short(text, at, Move::Open(Frame::Array)),
            b't' => self.take_true(text, at),
            b'f' => self.take_false(text, at),
            b'n' => self.take_null(text, at),
            b'0' => self.take_zero(text, at),
            b'-' => self.take_minus(text, at),
            _ => self.advance(text, at),
        }
    }

    /// Reads a value, or the front of one.
    #[inline(always)]
    fn take_value(&mut self, text: &[u8], at: usize) -> Result<usize, NoMemory>
        requires place { at < length text.now }
        requires phase { (self.old.phase ≡ phase.Value) ⊎ (self.old.phase ≡ phase.FirstItem) }
        ensures taken { IfOk result (IsTaken text.now self.old at self.new) }
        ensures further { IfOk result (λ to. (at < to) × (to ≤ length text.now)) }
    {
        if text[at] == b'"' {
            return self.take_string(text, at);
        }
        self.take_plain(text, at)
    }

    /// Reads the end of a key, the colon right behind it and the value right behind that, or as much of the value as
    /// stands here. An object or an array is left to be read.
    #[inline(always)]
    fn take_near(&mut self, text: &[u8], at: usize) -> Result<usize, NoMemory>
        requires place { at + 2 < length text.now }
        requires ends { move_of self.old.phase (slice_index text.now at) ≡ moves.EndKey }
        requires colon { slice_index text.now (at + 1) ≡ 58 }
        ensures taken { IfOk result (IsTaken text.now self.old at self.new) }
        ensures further { IfOk result (λ to. (at < to) × (to ≤ length text.now)) }
    {
        self.make_one(text, at, Move::EndKey)?;
        let colon = at + 1;
        self.make_one(text, colon, Move::Go(Phase::Value))?;
        let value = colon + 1;
        if text[value] == b'{' || text[value] == b'[' {
            return Ok(value);
        }
        self.take_value(text, value)
    }

    /// Reads a key, its colon and its value, or as much of them as stands here.
    #[inline(always)]
    fn take_key(&mut self, text: &[u8], at: usize) -> Result<usize, NoMemory>
        requires place { at < length text.now }
        requires begins { move_of self.old.phase (slice_index text.now at) ≡ moves.BeginKey }
        ensures taken { IfOk result (IsTaken text.now self.old at self.new) }
        ensures further { IfOk result (λ to. (at < to) × (to ≤ length text.now)) }
    {
        let end = self.make_at(text, at, Move::BeginKey)?;
        if end == text.len() || text[end] != b'"' {
            return Ok(end);
        }
        // Mostly no white space stands around the colon.
        if text.len() - end > 2 && text[end + 1] == b':' && text[end + 2] > b' ' {
            return self.take_near(text, end);
        }
        self.end_key(text, end)
    }

    /// Reads the end of a key, its colon and its value, or as much of them as stands here. An object or an array is
    /// left to be read.
    #[inline(always)]
    fn take_colon(&mut self, text: &[u8], at: usize) -> Result<usize, NoMemory>
        requires place { at < length text.now }
        requires ends { move_of self.old.phase (slice_index text.now at) ≡ moves.EndKey }
        ensures taken { IfOk result (IsTaken text.now self.old at self.new) }
        ensures further { IfOk result (λ to. (at < to) × (to ≤ length text.now)) }
    {
        let colon = self.make_at(text, at, Move::EndKey)?;
        if colon == text.len() || text[colon] != b':' {
            return Ok(colon);
        }
        let value = self.make_at(text, colon, Move::Go(Phase::Value))?;
        if value == text.len() || text[value] == b'{' || text[value] == b'[' {
            return Ok(value);
        }
        self.take_value(text, value)
    }

    /// The same, out of line.
    #[inline(never)]
    fn end_key(&mut self, text: &[u8], at: usize) -> Result<usize, NoMemory>
        requires place { at < length text.now }
        requires ends { move_of self.old.phase (slice_index text.now at) ≡ moves.EndKey }
        ensures taken { IfOk result (IsTaken text.now self.old at self.new) }
        ensures further { IfOk result (λ to. (at < to) × (to ≤ length text.now)) }
    {
        self.take_colon(text, at)
    }

    /// Reads a value that is no member's, or the front of one.
    #[inline(never)]
    fn take_item(&mut self, text: &[u8], at: usize) -> Result<usize, NoMemory>
        requires place { at < length text.now }
        requires phase { (self.old.phase ≡ phase.Value) ⊎ (self.old.phase ≡ phase.FirstItem) }
        ensures taken { IfOk result (IsTaken text.now self.old at self.new) }
        ensures further { IfOk result (λ to. (at < to) × (to ≤ length text.now)) }
    {
        self.take_value(text, at)
    }

    /// Reads what stands behind a value.
    #[inline(always)]
    fn take_behind(&mut self, text: &[u8], at: usize) -> Result<usize, NoMemory>
        requires place { at < length text.now }
        requires phase { self.old.phase ≡ phase.After }
        ensures taken { IfOk result (IsTaken text.now self.old at self.new) }
        ensures further { IfOk result (λ to. (at < to) × (to ≤ length text.now)) }
    {
        match text[at] {
            b',' => self.make_short(text, at, Move::Comma),
            b'}' => self.make_short(text, at, Move::Close(Frame::Object)),
            b']' => self.make_short(text, at, Move::Close(Frame::Array)),
            _ => self.advance(text, at),
        }
    }

    /// Reads a member and the comma behind it, or as much of them as stands here.
    #[inline(always)]
    fn take_member(&mut self, text: &[u8], at: usize) -> Result<usize, NoMemory>
        requires place { at < length text.now }
        requires begins { move_of self.old.phase (slice_index text.now at) ≡ moves.BeginKey }
        ensures taken { IfOk result (IsTaken text.now self.old at self.new) }
        ensures further { IfOk result (λ to. (at < to) × (to ≤ length text.now)) }
    {
        let behind = self.take_key(text, at)?;
        if behind == text.len() || text[behind] != b',' {
            return Ok(behind);
        }
        match self.phase {
            Phase::After => self.make_short(text, behind, Move::Comma),
            _ => Ok(behind),
        }
    }

    /// Whether a key behind a comma begins here.
    #[inline(always)]
    fn is_at_key(&self, text: &[u8], at: usize) -> bool
        ensures { IsTrue result → (at < length text.now) × (move_of self.now.phase (slice_index text.now at) ≡ moves.BeginKey) }
    {
        if at >= text.len() || text[at] != b'"' {
            return false;
        }
        match self.phase {
            Phase::Key => true,
            _ => false,
        }
    }

    /// Reads members up to one whose value is an array or an object, or as much of them as stands here.
    #[inline(never)]
    fn take_members(&mut self, text: &[u8], at: usize) -> Result<usize, NoMemory>
        requires place { at < length text.now }
        requires begins { move_of self.old.phase (slice_index text.now at) ≡ moves.BeginKey }
        ensures taken { IfOk result (IsTaken text.now self.old at self.new) }
        ensures further { IfOk result (λ to. (at < to) × (to ≤ length text.now)) }
    {
        let mut place = at;
        let mut is_more = true;
        while is_more {
            place = self.take_member(text, place)?;
            is_more = self.is_at_key(text, place);
        }
        Ok(place)
    }

    /// Reads the next token, or a part of it: at least one byte.
    #[inline(always)]
    pub fn take(&mut self, text: &[u8], at: usize) -> Result<usize, NoMemory>
        requires { at < length text.now }
        ensures taken { IfOk result (IsTaken text.now self.old at self.new) }
        ensures further { IfOk result (λ to. (at < to) × (to ≤ length text.now)) }
    {
        match self.phase {
            Phase::FirstKey if text[at] == b'"' => self.take_members(text, at),
            Phase::Key if text[at] == b'"' => self.take_members(text, at),
            Phase::Value => self.take_item(text, at),
            Phase::After => self.take_behind(text, at),
            Phase::FirstItem if text[at] == b']' => {
                self.make_short(text, at, Move::Close(Frame::Array))
            }
            Phase::FirstItem => self.take_item(text, at),
            Phase::Text(role, Spot::Plain) => self.take_more(text, at, role),
            Phase::Start(Frame::Object) if text[at] == b'{' => {
                self.make_short(text, at, Move::Open(Frame::Object))
            }
            _ => self.advance(text, at),
        }
    }

    /// Reads the object or the array that a text begins with, and no further than to its end; where it is none, to where
    /// that shows or to the end of the text.
    pub fn read_front(&mut self, text: &[u8], wanted: Frame) -> Result<usize, NoMemory>
        ensures read { IfOk result (λ to. self.new ≡ read_to text.now (initial wanted) 0 to) }
        ensures place { IfOk result (λ to. to ≤ length text.now) }
    {
        self.restart(wanted);
        let mut at = 0;
        while at < text.len() && !is_over(self.phase) {
            at = self.take(text, at)?;
        }
        Ok(at)
    }
}
