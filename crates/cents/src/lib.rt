// Rounding to a price: a sum of cents over its divisor, to a step, halves up, and whether that is a close. Everything that prices a
// contract ends here. specs/ has the number itself, specs/laws its laws and those of signed whole numbers that the other crates use.
#![tactic(auto)]

ghost use Rattle.std.specs.Prelude.{◌≡◌, ◌+◌, ◌^◌, ◌<◌, pos};
ghost use Rattle.cents.specs.Round.{round};
ghost use Rattle.cents.specs.Close.{close_of, means};
ghost use Rattle.cents.specs.laws.Close.{nearest};

// The highest close, in cents.
const HIGHEST: u64 = 99_999_999;

// n / d to step u, where that is a close. A sum below zero rounds to none, so the rest goes by unsigned numbers.
pub fn rounded_close(n: i64, d: u64, u: u32) -> Option<u32>
    ensures { means result ≡ close_of (round n d u) }
{
    if n < 0 {
        return None;
    }
    rounded_sum(n as u64, d, u)
}

// The same of a sum that is not negative. d * u could wrap, so n is divided by d first: what that cuts off moves no step.
// Nearly every step is 1 cent: with the constant there is no second division.
fn rounded_sum(n: u64, d: u64, u: u32) -> Option<u32>
    requires { n < 2 ^ 63 }
    ensures { means result ≡ close_of (round (pos n) d u) }
{
    if d == 0 || u == 0 {
        return None;
    }
    let s = u as u64;
    let twice = 2 * n / d;
    if 2 * HIGHEST + s <= twice {
        return None;
    }
    if s == 1 {
        return close_of(steps(twice, 1));
    }
    close_of(steps(twice, s) * s)
}

// How many steps of s are nearest to half of twice: the whole ones in it, and one more where half a step or more is left.
fn steps(twice: u64, s: u64) -> u64
    requires { (0 < s) × (twice + s < 2 ^ 63) }
    ensures { result ≡ nearest twice s }
{
    let whole = twice / (2 * s);
    let left = twice % (2 * s);
    if left < s { whole } else { whole + 1 }
}

// m cents as a close.
fn close_of(m: u64) -> Option<u32>
    ensures { means result ≡ close_of (pos m) }
{
    if m == 0 || HIGHEST < m {
        return None;
    }
    Some(m as u32)
}
