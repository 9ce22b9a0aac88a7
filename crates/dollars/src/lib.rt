// Prices as the tape has them: dollars with two decimals, a minus before a negative one, no negative zero.
#![tactic(auto)]

ghost use Rattle.std.specs.Prelude.{◌≡◌, ◌<◌, ◌^◌};
ghost use Rattle.dollars.specs.Dollars.{pointed, cents, upward, downward, price};

use field::Price;
use numerals::{digit_of, is_digit, read_number};

// The last three bytes of dollars: a point and two digits, as a number of cents.
#[tactic(auto, unfolding(crate::specs::Dollars::pointed))]
fn point_of(s: &[u8]) -> Option<u32>
    ensures { result ≡ pointed s.now }
{
    let [b'.', tens, units] = s else {
        return None;
    };
    if !is_digit(*tens) || !is_digit(*units) {
        return None;
    }
    Some(digit_of(*tens) as u32 * 10 + digit_of(*units) as u32)
}

// Dollars with two decimals and no sign, in cents.
fn cents_of(s: &[u8]) -> Option<u32>
    ensures { result ≡ cents s.now }
{
    let k = s.len().saturating_sub(3);
    let h = point_of(&s[k..])?;
    let d = read_number(&s[..k], 10_000_000)?;
    Some(d * 100 + h)
}

fn up(n: u32) -> Option<Price>
    requires { n < 2 ^ 31 }
    ensures { result ≡ upward n }
{
    Some(Price { cents: n as i32 })
}

#[tactic(auto, unfolding(crate::specs::Dollars::downward))]
fn down(n: u32) -> Option<Price>
    requires { n < 2 ^ 31 }
    ensures { result ≡ downward n }
{
    if n == 0 {
        return None;
    }
    Some(Price { cents: -(n as i32) })
}

// The price that the bytes say, in cents; or these bytes are no price.
#[tactic(auto, unfolding(crate::specs::Dollars::price))]
pub fn read_price(s: &[u8]) -> Option<Price>
    ensures { result ≡ price s.now }
{
    match s {
        [] => None,
        [b'-', rest @ ..] => down(cents_of(rest)?),
        _ => up(cents_of(s)?),
    }
}
