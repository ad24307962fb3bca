// The order of values.
ghost use Rattle.std.specs.Prelude.{◌≡◌, ◌≢◌, ◌<◌, ◌≤◌, ◌+◌, ◌*◌, ◌^◌};
ghost use Rattle.std.specs.Cmp.{IsTotalOrder};
ghost use Rattle.std.specs.Ordering.{nat_cmp, int_cmp};
ghost use Rattle.value_order.specs.Order.{class_of, order_of, order_within, raised as raised_of, scaled, size_of, TiesAreEqual};
ghost use Rattle.value_order.specs.Places.{SamePlace};

use crate::{Decimal, Value};
use std::cmp::Ordering;

/// Which of two values comes first. Decimals are compared as exact numbers, whatever their exponents.
pub fn compare(a: &Value, b: &Value) -> Ordering
    ensures { result ≡ order_of a.now b.now }
{
    match class(a).cmp(&class(b)) {
        Ordering::Equal => compare_within(a, b),
        apart => apart,
    }
}

/// A law: the order is total and transitive, and `b` stands to `a` as `a` to `b`, turned round.
pub fn order_is_total()
    ensures { IsTotalOrder order_of }
{}

/// A law: the order tells any two values apart.
pub fn ties_are_equal()
    ensures { TiesAreEqual }
{}

// The place of a value's class.
fn class(value: &Value) -> u8
    ensures { result ≡ class_of value.now }
{
    match value {
        Value::Null => 0,
        Value::False => 1,
        Value::True => 2,
        Value::Number(_) => 3,
        Value::Text(_) => 4,
        Value::Instant(_) => 5,
        Value::Other(_) => 6,
    }
}

// The order of two values of one class.
fn compare_within(a: &Value, b: &Value) -> Ordering
    requires { class_of a.now ≡ class_of b.now }
    ensures { result ≡ order_within a.now b.now }
{
    match a {
        Value::Number(x) => match b {
            Value::Number(y) => compare_decimals(x, y),
            _ => Ordering::Equal,
        },
        Value::Text(x) => match b {
            Value::Text(y) => x.cmp(y),
            _ => Ordering::Equal,
        },
        Value::Instant(x) => match b {
            Value::Instant(y) => x.cmp(y),
            _ => Ordering::Equal,
        },
        Value::Other(x) => match b {
            Value::Other(y) => x.cmp(y),
            _ => Ordering::Equal,
        },
        _ => Ordering::Equal,
    }
}

// The order of two decimals, by sign and then by size.
fn compare_decimals(a: &Decimal, b: &Decimal) -> Ordering
    ensures { result ≡ int_cmp (scaled a.now) (scaled b.now) }
{
    match (a.negative, b.negative) {
        (true, false) => Ordering::Less,
        (false, true) => Ordering::Greater,
        (false, false) => compare_sizes(a, b),
        (true, true) => compare_sizes(b, a),
    }
}

// The order of two decimals without their signs: by the place of the first digit, and then by the digits.
fn compare_sizes(a: &Decimal, b: &Decimal) -> Ordering
    ensures { result ≡ nat_cmp (size_of a.now) (size_of b.now) }
{
    if a.digits == 0 || b.digits == 0 {
        return a.digits.cmp(&b.digits);
    }
    let place = digit_count(a.digits) + raised(a);
    let other_place = digit_count(b.digits) + raised(b);
    match place.cmp(&other_place) {
        Ordering::Equal => compare_aligned(a, b),
        apart => apart,
    }
}

// How far a decimal's exponent is above -400.
fn raised(number: &Decimal) -> u32
    ensures value { result ≡ raised_of number.now.exponent }
    ensures small { result ≤ 800 }
{
    (number.exponent + 400) as u32
}

// How many digits a number has.
fn digit_count(number: u128) -> u32
    requires some { 0 < number }
    requires short { number < 10 ^ 38 }
    ensures above { number < 10 ^ result }
    ensures least { 10 ^ result ≤ number * 10 }
    ensures short { result ≤ 38 }
{
    let mut count = 1;
    let mut power: u128 = 10;
    while power <= number {
        power *= 10;
        count += 1;
    }
    count
}

// The order of two decimals whose first digits have the same place: by the digits, of which the fewer get zeros.
fn compare_aligned(a: &Decimal, b: &Decimal) -> Ordering
    requires { SamePlace a.now b.now }
    ensures { result ≡ nat_cmp (size_of a.now) (size_of b.now) }
{
    let raise = raised(a);
    let other_raise = raised(b);
    if raise >= other_raise {
        (a.digits * 10u128.pow(raise - other_raise)).cmp(&b.digits)
    } else {
        a.digits.cmp(&(b.digits * 10u128.pow(other_raise - raise)))
    }
}
