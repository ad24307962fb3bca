// The value of a number in normal form.
use crate::number::{Parts, Significand, capped_exponent};

/// A number in normal form: digits × 10^raised / 10^lowered, below zero where it is negative. One of the two powers is
/// 0, the digits end in no zero, and zero itself has no sign and no power.
#[derive(Clone, Copy, Debug, PartialEq, Eq)]
pub struct Decimal {
    pub is_negative: bool,
    pub digits: u128,
    pub raised: u16,
    pub lowered: u16,
}

ghost use Rattle.std.specs.Prelude.{◌≡◌, ◌≢◌, ◌+◌, ◌<◌, ◌^◌, IfSome, IfNone};
ghost use Rattle.json_scalar.specs.Decimal.{IsDecimal, IsNormal};
ghost use Rattle.json_scalar.specs.DecimalParts.{IsDecimalOf, IsPlaced, IsFar};
ghost use Rattle.json_scalar.specs.Parts.{HasDigits};
ghost use Rattle.json_scalar.specs.Seen.{cut_of};
ghost use Rattle.json_scalar.specs.declared.decimal.Decimal.{Decimal};

// The greatest exponent, either way.
const FARTHEST: u128 = 400;

/// The value of a JSON number's text, where its normal form has at most 38 digits and an exponent from -400 to 400.
/// Digits and exponents of any length are read to their end.
pub fn decimal_of(text: &[u8]) -> Option<Decimal>
    ensures found { IfSome result (IsDecimal text.now) }
    ensures normal { IfSome result IsNormal }
    ensures only { IfSome result (λ d. (o : Decimal) → IsNormal o → IsDecimal text.now o → o ≡ d) }
    ensures none { IfNone result ((d : Decimal) → IsNormal d → ¬ IsDecimal text.now d) }
{
    decimal_of_parts(&Parts::of(text)?)
}

// The value of the parts of a number.
fn decimal_of_parts(parts: &Parts<'_>) -> Option<Decimal>
    requires { HasDigits (cut_of parts.now) }
    ensures found { IfSome result (IsDecimalOf (cut_of parts.now)) }
    ensures normal { IfSome result IsNormal }
    ensures none { IfNone result ((d : Decimal) → IsNormal d → ¬ IsDecimalOf (cut_of parts.now) d) }
{
    let significand = Significand::ZERO
        .followed_by(parts.whole)?
        .followed_by(parts.fraction)?;
    if significand.core == 0 {
        return Some(Decimal {
            is_negative: false,
            digits: 0,
            raised: 0,
            lowered: 0,
        });
    }
    let exponent = capped_exponent(parts.exponent);
    let places = parts.fraction.len() as u128;
    if parts.lowers {
        return placed(
            parts.is_negative,
            significand.core,
            significand.zeros,
            places + exponent,
        );
    }
    placed(
        parts.is_negative,
        significand.core,
        significand.zeros + exponent,
        places,
    )
}

// The digits with an exponent that is the difference of two.
fn placed(is_negative: bool, core: u128, up: u128, down: u128) -> Option<Decimal>
    ensures some { IfSome result (IsPlaced is_negative core up down) }
    ensures none { IfNone result (IsFar up down) }
{
    if up < down {
        if down - up > FARTHEST {
            return None;
        }
        return Some(Decimal {
            is_negative,
            digits: core,
            raised: 0,
            lowered: (down - up) as u16,
        });
    }
    if up - down > FARTHEST {
        return None;
    }
    Some(Decimal {
        is_negative,
        digits: core,
        raised: (up - down) as u16,
        lowered: 0,
    })
}
