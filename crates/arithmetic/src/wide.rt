// Whole numbers of two words, for products that 64 bits do not hold. None of them wraps, and all of them may be negative.
ghost use Rattle.std.specs.Prelude.{pos, ◌*ℤ◌, ◌+ℤ◌};
ghost use Rattle.arithmetic.specs.Wide.{value_of, IsWide, OfWord, OfProduct, OfSum, OfDigit, NextDigit, OfDivision, Divides};

use crate::floor::floor;

const BASE: u64 = 4_294_967_296;

// high · 2^32 + low, with low below 2^32.
#[derive(Drop)]
pub struct Wide {
    pub high: i64,
    pub low: u64,
}

// A floor, and what is left of the number.
#[derive(Drop)]
pub struct Quotient {
    pub floor: i64,
    pub rest: u64,
}

#[derive(Drop)]
struct Digit {
    digit: u64,
    rest: u64,
}

// x / d rounded down, with the rest, of one word. The rest comes of a product, as `rem_euclid` would divide a second time.
fn split(x: i64, d: u64) -> Quotient
    requires { OfWord x d }
    ensures { Divides x d result }
{
    let divisor = d as i64;
    let floor = floor(x, divisor);
    let rest = x - floor * divisor;
    Quotient {
        floor,
        rest: rest as u64,
    }
}

pub fn product(a: u64, b: i64) -> Wide
    requires { OfProduct b }
    ensures { IsWide (pos a *ℤ b) result }
{
    let upper = (a / BASE) as i64 * b;
    let lower = split((a % BASE) as i64 * b, BASE);
    Wide {
        high: upper + lower.floor,
        low: lower.rest,
    }
}

pub fn sum(x: Wide, y: Wide) -> Wide
    requires { OfSum x y }
    ensures { IsWide (value_of x +ℤ value_of y) result }
{
    let low = x.low + y.low;
    Wide {
        high: x.high + y.high + (low / BASE) as i64,
        low: low % BASE,
    }
}

// One step of a long division by 16 bits: what is left so far, with the number's next bits behind it.
fn next_digit(rest: u64, bits: u64, d: u64) -> Digit
    requires { OfDigit rest bits d }
    ensures { NextDigit rest bits d result }
{
    let number = rest * 65536 + bits;
    Digit {
        digit: number / d,
        rest: number % d,
    }
}

// n / d rounded down, with the rest, by long division: the high word, and then the low word in two steps.
pub fn divided(n: Wide, d: u64) -> Quotient
    requires { OfDivision n d }
    ensures { Divides (value_of n) d result }
{
    let first = split(n.high, d);
    let second = next_digit(first.rest, n.low / 65536, d);
    let third = next_digit(second.rest, n.low % 65536, d);
    let low = second.digit * 65536 + third.digit;
    Quotient {
        floor: first.floor * BASE as i64 + low as i64,
        rest: third.rest,
    }
}
