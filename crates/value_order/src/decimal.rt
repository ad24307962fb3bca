// Exact decimal numbers.
ghost use Rattle.std.specs.Prelude.{IfSome, IfNone};
ghost use Rattle.std.proofs.Props.{props};
ghost use Rattle.value_order.specs.Normal.{IsNormal};

// More than 38 digits.
const DIGITS_LIMIT: u128 = 100_000_000_000_000_000_000_000_000_000_000_000_000;

const LEAST_EXPONENT: i128 = -400;

const GREATEST_EXPONENT: i128 = 400;

/// An exact decimal number: its sign, its digits as one number, and the power of ten that they are multiplied by. It is
/// normal: the digits do not end in 0, and zero is the digits 0 with the exponent 0 and no sign. So each number has
/// one `Decimal`. There are at most 38 digits, and the exponent is from -400 to 400.
#[derive(Clone, Copy, Debug)]
pub struct Decimal {
    pub negative: bool,
    pub digits: u128,
    pub exponent: i32,
    pub ghost normal: { IsNormal negative digits exponent } by { Prim.hlevel props },
}

impl Decimal {
    ghost use Rattle.value_order.specs.Parts.{HasParts};
    ghost use Rattle.value_order.specs.declared.decimal.Decimal.{Decimal};

    /// The decimal of these parts, `None` where they are not normal or pass the limits.
    pub fn normal(negative: bool, digits: u128, exponent: i128) -> Option<Self>
        ensures found { IfSome result (HasParts negative digits exponent) }
        ensures none { IfNone result ((d : Decimal) → ¬ HasParts negative digits exponent d) }
    {
        if digits >= DIGITS_LIMIT || exponent < LEAST_EXPONENT || exponent > GREATEST_EXPONENT {
            return None;
        }
        if digits == 0 && (negative || exponent != 0) {
            return None;
        }
        if digits != 0 && digits % 10 == 0 {
            return None;
        }
        Some(Decimal {
            negative,
            digits,
            exponent: exponent as i32,
        })
    }
}
