// The line at a place of a text: the field that it says and the place behind it, or that it is malformed, or that no line feed follows. Hosts don't
// call it. A trade or a quote that stands there just as it is written is recognised by one look at its bytes; every other line `line_reader` reads.
#![tactic(auto)]

ghost use Rattle.std.specs.Prelude.{◌≡◌, ◌+◌, ◌^◌, ◌<◌, ◌≤◌, [], ◌∷◌, length, unsigned_abs, IfSome};
ghost use Rattle.text.specs.Decimal.{decimal};
ghost use Rattle.dollars.specs.Dollars.{amount, price_text, priced};
ghost use Rattle.names.specs.Names.{instrument_name};
ghost use Rattle.next_line.specs.laws.Standing.{Digit-at, Found, Near};
ghost use Rattle.next_line.specs.laws.Records.{signed_as, behind_sign, negative_zero, Side-found, Stamp-found, Trade-is, Quote-is, Record-is};
ghost use Rattle.next_line.specs.laws.Next.{next_line};

use field::layout::remaining;
use field::{Field, Price};
use items::end_of;
use line_reader::{read_line, side_price, sides_of};
use names::{instrument_in, is_name};

// A line that is no field's.
#[derive(Clone, Copy, Debug, PartialEq, Eq)]
pub struct Malformed;

// Each of these functions gives what stands at a place, and the place behind it; or none, where it does not stand there.

// What the digit at a place says.
fn digit_at(s: &[u8], at: usize) -> Option<u32>
    requires { at < length s.now }
    ensures { IfSome result (λ d. Digit-at s.now at d) }
{
    let digit = u32::from(s[at]).wrapping_sub(48);
    if digit <= 9 { Some(digit) } else { None }
}

// A byte.
fn byte_at(s: &[u8], at: usize, byte: u8) -> Option<usize>
    requires { at < length s.now }
    ensures { IfSome result (λ next. Found s.now at 1 (byte ∷ []) next) }
{
    if s[at] == byte { Some(at + 1) } else { None }
}

// Bytes that are the word.
fn word_at(s: &[u8], at: usize, word: &[u8]) -> Option<usize>
    requires { at + length word.now ≤ length s.now }
    ensures { IfSome result (λ next. Found s.now at (length word.now) word.now next) }
{
    let next = at + word.len();
    if is_name(&s[at..next], word) {
        Some(next)
    } else {
        None
    }
}

// A number, in at most nine digits. The loop's end is a constant, so that the compiler writes its turns out. This function and the three below
// stand in line in their callers, since what they give would else be handed back through memory.
#[inline(always)]
fn number_at(s: &[u8], at: usize) -> Option<(u32, usize)>
    requires { at + 9 ≤ length s.now }
    ensures { IfSome result (λ r. Found s.now at 9 (decimal r.0) r.1 × (r.0 ≤ 999999999)) }
{
    let first = digit_at(s, at)?;
    if first == 0 {
        return Some((0, at + 1));
    }
    let mut n = first;
    for k in 1..9 {
        let Some(d) = digit_at(s, at + k) else {
            return Some((n, at + k));
        };
        n = n * 10 + d;
    }
    Some((n, at + 9))
}

// Dollars with two decimals and no sign, in cents.
#[inline(always)]
fn amount_at(s: &[u8], at: usize) -> Option<(u32, usize)>
    requires { at + 12 ≤ length s.now }
    ensures { IfSome result (λ r. Found s.now at 12 (amount r.0) r.1 × (r.0 ≤ 999999999)) }
{
    let (dollars, point) = number_at(s, at)?;
    if 9_999_999 < dollars {
        return None;
    }
    if s[point] != b'.' {
        return None;
    }
    let tens = digit_at(s, point + 1)?;
    let units = digit_at(s, point + 2)?;
    Some((dollars * 100 + (tens * 10 + units), point + 3))
}

// A number of cents with its sign.
#[tactic(auto, unfolding(crate::specs::laws::Records::signed_as))]
fn signed(minus: bool, value: u32) -> Price
    requires { value ≤ 999999999 }
    ensures { result ≡ priced (signed_as minus value) }
{
    let cents = value as i32;
    if minus {
        Price { cents: 0 - cents }
    } else {
        Price { cents }
    }
}

// Where the digits behind a sign start.
#[tactic(auto, unfolding(crate::specs::laws::Records::behind_sign))]
fn behind_sign(at: usize, minus: bool) -> usize
    requires { at < 2 ^ 63 }
    ensures { result ≡ behind_sign at minus }
{
    if minus { at + 1 } else { at }
}

#[tactic(auto, unfolding(crate::specs::laws::Records::negative_zero))]
fn negative_zero(minus: bool, value: u32) -> bool
    ensures { result ≡ negative_zero minus value }
{
    if minus { value == 0 } else { false }
}

// A price. Its sign moves the place of its digits and is no branch: a processor guesses wrong where prices above and below zero take turns.
#[inline(always)]
fn price_at(s: &[u8], at: usize) -> Option<(Price, usize)>
    requires { at + 13 ≤ length s.now }
    ensures { IfSome result (λ r. Found s.now at 13 (price_text r.0.cents) r.1 × (unsigned_abs r.0.cents ≤ 999999999)) }
{
    let minus = s[at] == b'-';
    let (value, next) = amount_at(s, behind_sign(at, minus))?;
    if negative_zero(minus, value) {
        return None;
    }
    Some((signed(minus, value), next))
}

// A side of a quote: a price, or a dash.
#[inline(always)]
fn side_at(s: &[u8], at: usize) -> Option<(Option<Price>, usize)>
    requires { at + 13 ≤ length s.now }
    ensures { IfSome result (λ r. Side-found s.now at r.0 r.1) }
{
    if let Some((price, next)) = price_at(s, at) {
        return Some((Some(price), next));
    }
    let next = byte_at(s, at, b'-')?;
    Some((None, next))
}

// Where the name of an instrument can end: names have five bytes, or two, or seven.
fn name_end(s: &[u8], at: usize) -> usize
    requires { at + 7 ≤ length s.now }
    ensures { Near at 7 result }
{
    if s[at + 5] == b',' {
        return at + 5;
    }
    if s[at + 2] == b',' { at + 2 } else { at + 7 }
}

// The name of an instrument.
fn instrument_at(s: &[u8], at: usize) -> Option<(u8, usize)>
    requires { at + 7 ≤ length s.now }
    ensures { IfSome result (λ r. Found s.now at 7 (instrument_name r.0) r.1 × (r.0 ≤ 11)) }
{
    let next = name_end(s, at);
    let instrument = instrument_in(&s[at..next])?;
    Some((instrument as u8, next))
}

// What trades and quotes begin with: their time and their instrument.
fn stamp_at(s: &[u8], at: usize) -> Option<(u32, u8, usize)>
    requires { at + 17 ≤ length s.now }
    ensures { IfSome result (λ r. Stamp-found s.now at r.0 r.1 r.2) }
{
    let (time, comma) = number_at(s, at)?;
    let name = byte_at(s, comma, b',')?;
    let (instrument, next) = instrument_at(s, name)?;
    Some((time, instrument, next))
}

// A trade's line from its price on. Trades and quotes share the pieces and not the line: theirs are of other values.
fn trade_at(s: &[u8], at: usize, time: u32, instrument: u8) -> Option<(Field, usize)>
    requires { at + 24 ≤ length s.now }
    ensures { IfSome result (λ r. Trade-is s.now at time instrument r.0 r.1) }
{
    let (price, comma) = price_at(s, at)?;
    let number = byte_at(s, comma, b',')?;
    let (lots, end) = number_at(s, number)?;
    if 65_535 < lots {
        return None;
    }
    let next = byte_at(s, end, b'\n')?;
    let field = Field::Trade {
        time,
        instrument,
        price,
        lots: lots as u16,
    };
    Some((field, next))
}

// A quote's line from its bid on.
fn quote_at(s: &[u8], at: usize, time: u32, instrument: u8) -> Option<(Field, usize)>
    requires { at + 28 ≤ length s.now }
    ensures { IfSome result (λ r. Quote-is s.now at time instrument r.0 r.1) }
{
    let (bid, comma) = side_at(s, at)?;
    let side = byte_at(s, comma, b',')?;
    let (offer, feed) = side_at(s, side)?;
    let next = byte_at(s, feed, b'\n')?;
    let field = Field::Quote {
        time,
        instrument,
        sides: sides_of(bid, offer),
        bid: side_price(bid),
        offer: side_price(offer),
    };
    Some((field, next))
}

// The line of a trade or a quote. Where 52 bytes are left, no piece of one reaches past the end of the text.
fn record_at(s: &[u8], at: usize) -> Option<(Field, usize)>
    ensures { IfSome result (λ r. Record-is s.now at r.0 r.1) }
{
    if remaining(s.len(), at) < 52 {
        return None;
    }
    let (time, instrument, word) = stamp_at(s, at)?;
    if let Some(price) = word_at(s, word, b",TRADE,") {
        return trade_at(s, price, time, instrument);
    }
    let bid = word_at(s, word, b",QUOTE,")?;
    quote_at(s, bid, time, instrument)
}

// The line at a place: its field and the place behind its line feed, none where no line feed follows; or the line is malformed.
pub fn next_line(text: &[u8], at: usize) -> Result<Option<(Field, usize)>, Malformed>
    ensures { result ≡ next_line text.now at }
{
    if let Some(right) = record_at(text, at) {
        return Ok(Some(right));
    }
    let end = end_of(text, at, b'\n');
    if text.len() <= end {
        return Ok(None);
    }
    match read_line(&text[at..end]) {
        Some(field) => Ok(Some((field, end + 1))),
        None => Err(Malformed),
    }
}
