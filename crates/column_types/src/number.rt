// The numbers of JSON as decimals.
ghost use Rattle.std.specs.Prelude.{◌≡◌, IfSome, IfNone};
ghost use Rattle.json_scalar.specs.Decimal.{IsNormal};
ghost use Rattle.column_types.specs.Numbers.{IsNumberOf};
ghost use Rattle.column_types.specs.Words.{IsConverted};
ghost use Rattle.value_order.specs.declared.decimal.Decimal.{Decimal};

use value_order::Decimal;

/// The decimal that a JSON number's text stands for, `None` where it is too long or no number.
pub fn number_of(text: &[u8]) -> Option<Decimal>
    ensures found { IfSome result (IsNumberOf text.now) }
    ensures only { IfSome result (λ d. (other : Decimal) → IsNumberOf text.now other → other ≡ d) }
    ensures none { IfNone result ((d : Decimal) → ¬ IsNumberOf text.now d) }
{
    match json_scalar::decimal_of(text) {
        Some(parts) => Some(converted(&parts)),
        None => None,
    }
}

// The same decimal, with its exponent as one number.
fn converted(parts: &json_scalar::Decimal) -> Decimal
    requires { IsNormal parts.now }
    ensures { IsConverted parts.now result }
{
    let exponent = if parts.lowered == 0 {
        parts.raised as i32
    } else {
        -(parts.lowered as i32)
    };
    Decimal {
        negative: parts.is_negative,
        digits: parts.digits,
        exponent,
    }
}
