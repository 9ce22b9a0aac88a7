// One line of the tape, without its line feed, as a field of a day sheet; what a field's line is.
#![tactic(auto)]

ghost use Rattle.std.specs.Prelude.{◌≡◌, ◌+◌, ◌*◌, ◌∷◌, [], MatchOption};
ghost use Rattle.items.specs.Items.{items};
ghost use Rattle.line_reader.specs.Lines.{side_bit, side_price, side_in, trade_in, quote_in, header_in, long_header_in, previous_in, three, four, five, field_in};

use dollars::read_price;
use field::{Field, Form, Price};
use items::end_of;
use names::{instrument_in, is_name, metal_in};
use numerals::read_number;

// The bits of a quote's sides: 1 for a bid that is there, 2 for an offer.
pub fn sides_of(bid: Option<Price>, offer: Option<Price>) -> u8
    ensures { result ≡ side_bit bid + 2 * side_bit offer }
{
    u8::from(bid.is_some()) + 2 * u8::from(offer.is_some())
}

// The price of a side, zero where it is absent.
pub fn side_price(side: Option<Price>) -> Price
    ensures { result ≡ side_price side }
{
    side.unwrap_or(Price { cents: 0 })
}

// A side of a quote: its price, or a dash where it is absent.
#[tactic(auto, unfolding(crate::specs::Lines::side_in))]
fn side_in(s: &[u8]) -> Option<Option<Price>>
    ensures { result ≡ side_in s.now }
{
    if is_name(s, b"-") {
        return Some(None);
    }
    Some(Some(read_price(s)?))
}

#[tactic(auto, unfolding(crate::specs::Lines::trade_in))]
fn trade_in(time: &[u8], instrument: &[u8], price: &[u8], lots: &[u8]) -> Option<Field>
    ensures { result ≡ trade_in time.now instrument.now price.now lots.now }
{
    let t = read_number(time, u32::MAX)?;
    let i = instrument_in(instrument)?;
    let p = read_price(price)?;
    let l = read_number(lots, 65_535)?;
    Some(Field::Trade {
        time: t,
        instrument: i as u8,
        price: p,
        lots: l as u16,
    })
}

#[tactic(auto, unfolding(crate::specs::Lines::quote_in))]
fn quote_in(time: &[u8], instrument: &[u8], bid: &[u8], offer: &[u8]) -> Option<Field>
    ensures { result ≡ quote_in time.now instrument.now bid.now offer.now }
{
    let t = read_number(time, u32::MAX)?;
    let i = instrument_in(instrument)?;
    let b = side_in(bid)?;
    let o = side_in(offer)?;
    Some(Field::Quote {
        time: t,
        instrument: i as u8,
        sides: sides_of(b, o),
        bid: side_price(b),
        offer: side_price(o),
    })
}

// A header of either form: its first two values.
#[tactic(auto, unfolding(crate::specs::Lines::header_in))]
fn header_in(metal: &[u8], marks: &[u8], form: Form) -> Option<Field>
    ensures { result ≡ header_in metal.now marks.now form }
{
    let m = metal_in(metal)?;
    let k = read_number(marks, 65_535)?;
    Some(Field::Header {
        metal: m as u8,
        marks: k as u16,
        form,
    })
}

#[tactic(auto, unfolding(crate::specs::Lines::long_header_in))]
fn long_header_in(metal: &[u8], marks: &[u8], third: &[u8]) -> Option<Field>
    ensures { result ≡ long_header_in metal.now marks.now third.now }
{
    let t = read_number(third, 255)?;
    header_in(metal, marks, Form::Long(t as u8))
}

#[tactic(auto, unfolding(crate::specs::Lines::previous_in))]
fn previous_in(instrument: &[u8], price: &[u8]) -> Option<Field>
    ensures { result ≡ previous_in instrument.now price.now }
{
    let i = instrument_in(instrument)?;
    let p = read_price(price)?;
    Some(Field::PreviousClose {
        instrument: i as u8,
        price: p,
    })
}

// Three items.
#[tactic(auto, unfolding(crate::specs::Lines::three))]
fn of_three(a: &[u8], b: &[u8], c: &[u8]) -> Option<Field>
    ensures { result ≡ three a.now b.now c.now }
{
    if is_name(a, b"METAL") {
        return header_in(b, c, Form::Short);
    }
    if is_name(a, b"PREV") {
        return previous_in(b, c);
    }
    None
}

// Four items.
#[tactic(auto, unfolding(crate::specs::Lines::four))]
fn of_four(a: &[u8], b: &[u8], c: &[u8], d: &[u8]) -> Option<Field>
    ensures { result ≡ four a.now b.now c.now d.now }
{
    if is_name(a, b"METAL") {
        return long_header_in(b, c, d);
    }
    None
}

// Five items. In line in its caller: by itself it would take 80 bytes of stack more, for every text.
#[inline(always)]
#[tactic(auto, unfolding(crate::specs::Lines::five))]
fn of_five(a: &[u8], b: &[u8], c: &[u8], d: &[u8], e: &[u8]) -> Option<Field>
    ensures { result ≡ five a.now b.now c.now d.now e.now }
{
    if is_name(c, b"TRADE") {
        return trade_in(a, b, d, e);
    }
    if is_name(c, b"QUOTE") {
        return quote_in(a, b, d, e);
    }
    None
}

// The first item of a line, and what stands behind its comma; nothing does behind the last item.
fn first_item(s: &[u8]) -> (&[u8], Option<&[u8]>)
    ensures { MatchOption result.1 (items s.now ≡ result.0.now ∷ []) (λ more. items s.now ≡ result.0.now ∷ items more.now) }
{
    let end = end_of(s, 0, b',');
    if s.len() <= end {
        return (s, None);
    }
    (&s[..end], Some(&s[end + 1..]))
}

// The field that a line says, its values not yet judged; or the line is malformed, or names what there is not.
pub fn read_line(s: &[u8]) -> Option<Field>
    ensures { result ≡ field_in s.now }
{
    let (a, behind_a) = first_item(s);
    let (b, behind_b) = first_item(behind_a?);
    let (c, behind_c) = first_item(behind_b?);
    let Some(behind_c) = behind_c else {
        return of_three(a, b, c);
    };
    let (d, behind_d) = first_item(behind_c);
    let Some(behind_d) = behind_d else {
        return of_four(a, b, c, d);
    };
    let (e, behind_e) = first_item(behind_d);
    match behind_e {
        None => of_five(a, b, c, d, e),
        Some(_) => None,
    }
}
