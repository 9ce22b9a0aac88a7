// What the ranges of SHEET 3 say of a field's values: the first fault that they earn, if any.
#![tactic(auto, unfolding(crate::specs::Judging::both, crate::specs::Judging::pick, crate::specs::Judging::unless, crate::specs::Judging::judge, crate::specs::laws::Ends::lowest_price, crate::specs::laws::Ends::highest_price))]

ghost use Rattle.std.specs.Prelude.{◌≡◌, ℕ, pos};
ghost use Rattle.field.specs.Judging.{unless, within, cents_within, if_present, if_absent, third_of, header_right, allowed, time_right, price_right, has_bid, has_offer, sides_right, side_prices_right, ordered, on_instrument, stamped, alone};
ghost use Rattle.field.specs.Judging as Judging;
ghost use Rattle.field.specs.Said.{fault_number, found, found_before};
ghost use Rattle.field.specs.laws.Ends.{lowest_price, highest_price, both_sides_right};
ghost use Rattle.field.specs.declared.Field.TheVariants as F;

use crate::{Before, Fault, Field, Form, Price};
use market::is_barred;

// A test that fails has this fault; where it holds the rest decides.
pub fn require(test: bool, fault: Fault) -> Result<(), Fault>
    ensures { (rest : ℕ) → found_before result rest ≡ unless test (fault_number fault) rest }
{
    if test { Ok(()) } else { Err(fault) }
}

// From a least number to a greatest, both in.
pub fn is_within(low: u32, high: u32, x: u32) -> bool
    ensures { result ≡ within low high x }
{
    (low..=high).contains(&x)
}

fn is_zero(price: Price) -> bool
    ensures { result ≡ cents_within (pos 0) (pos 0) price }
{
    price.cents == 0
}

// The third value of a header; a short one has 0.
pub fn third_of(form: Form) -> u8
    ensures { result ≡ third_of form }
{
    match form {
        Form::Short => 0,
        Form::Long(third) => third,
    }
}

fn header_right(metal: u8, marks: u16, third: u8) -> bool
    ensures { result ≡ header_right metal marks third }
{
    is_within(1, 5, metal as u32) && marks <= 2047 && third <= 2
}

// No field stands before a field that is judged by itself.
pub fn by_itself() -> Before
    ensures { result ≡ alone }
{
    Before { third: 0, time: 0 }
}

// The header's third value lets a field be on the instrument.
pub fn is_allowed(third: u8, instrument: u8) -> bool
    ensures { result ≡ allowed third instrument }
{
    !is_barred(third, instrument)
}

fn time_right(least: u32, time: u32) -> bool
    ensures { result ≡ time_right least time }
{
    time <= 86_399_999 && least <= time
}

// The lowest and the highest price of an instrument: of an outright 1 and 99,999,999 cents, of a spread -9,999,999 and 9,999,999. Two functions, each a
// choice without a jump: with one that gives both as a pair, judging trades took half as long again.
fn lowest(instrument: u8) -> Price
    ensures { result ≡ lowest_price instrument }
{
    if instrument == 0 {
        Price { cents: 1 }
    } else {
        Price { cents: -9_999_999 }
    }
}

fn highest(instrument: u8) -> Price
    ensures { result ≡ highest_price instrument }
{
    if instrument == 0 {
        Price { cents: 99_999_999 }
    } else {
        Price { cents: 9_999_999 }
    }
}

// One comparison with each end, whatever the instrument is.
fn price_right(instrument: u8, price: Price) -> bool
    ensures { result ≡ price_right instrument price }
{
    lowest(instrument) <= price && price <= highest(instrument)
}

fn has_bid(sides: u8) -> bool
    ensures { result ≡ has_bid sides }
{
    sides % 2 == 1
}

fn has_offer(sides: u8) -> bool
    ensures { result ≡ has_offer sides }
{
    sides / 2 % 2 == 1
}

fn zero_if_absent(present: bool, price: Price) -> bool
    ensures { result ≡ if_absent present (cents_within (pos 0) (pos 0) price) }
{
    present || is_zero(price)
}

fn right_if_present(present: bool, instrument: u8, price: Price) -> bool
    ensures { result ≡ if_present present (price_right instrument price) }
{
    !present || price_right(instrument, price)
}

// A quote's sides and prices are given one by one, as the definitions have them and as `Field::Quote` holds them.
fn sides_right(sides: u8, bid: Price, offer: Price) -> bool
    ensures { result ≡ sides_right sides bid offer }
{
    sides <= 3 && zero_if_absent(has_bid(sides), bid) && zero_if_absent(has_offer(sides), offer)
}

fn side_prices_right(instrument: u8, sides: u8, bid: Price, offer: Price) -> bool
    ensures { result ≡ side_prices_right instrument sides bid offer }
{
    right_if_present(has_bid(sides), instrument, bid)
        && right_if_present(has_offer(sides), instrument, offer)
}

fn in_order(sides: u8, bid: Price, offer: Price) -> bool
    ensures { result ≡ ordered sides bid offer }
{
    !(has_bid(sides) && has_offer(sides)) || bid <= offer
}

// An instrument, before the rest of its field.
fn on_instrument(before: Before, instrument: u8) -> Result<(), Fault>
    ensures { (rest : ℕ) → found_before result rest ≡ on_instrument before instrument rest }
{
    require(instrument <= 11, Fault::Instrument)?;
    require(is_allowed(before.third, instrument), Fault::Barred)
}

// A record's instrument and time, before the rest of it.
fn stamp(before: Before, time: u32, instrument: u8) -> Result<(), Fault>
    ensures { (rest : ℕ) → found_before result rest ≡ stamped before time instrument rest }
{
    on_instrument(before, instrument)?;
    require(time_right(before.time, time), Fault::Time)
}

// A field's values, for callers that have them as numbers: a header's, a previous close's, a trade's and a quote's.
pub fn judge_header(metal: u8, marks: u16, form: Form) -> Result<(), Fault>
    ensures { found result ≡ Judging.judge alone (F.Header metal marks form) }
{
    require(header_right(metal, marks, third_of(form)), Fault::Metal)
}

pub fn judge_previous(before: Before, instrument: u8, price: Price) -> Result<(), Fault>
    ensures { found result ≡ Judging.judge before (F.PreviousClose instrument price) }
{
    on_instrument(before, instrument)?;
    require(price_right(instrument, price), Fault::Price)
}

pub fn judge_trade(
    before: Before,
    time: u32,
    instrument: u8,
    price: Price,
    lots: u16,
) -> Result<(), Fault>
    ensures { found result ≡ Judging.judge before (F.Trade time instrument price lots) }
{
    stamp(before, time, instrument)?;
    require(price_right(instrument, price), Fault::Price)?;
    require(is_within(1, 10_000, lots as u32), Fault::Lots)
}

pub fn judge_quote(
    before: Before,
    time: u32,
    instrument: u8,
    sides: u8,
    bid: Price,
    offer: Price,
) -> Result<(), Fault>
    ensures { found result ≡ Judging.judge before (F.Quote time instrument sides bid offer) }
{
    stamp(before, time, instrument)?;
    require(sides_right(sides, bid, offer), Fault::Sides)?;
    require(
        side_prices_right(instrument, sides, bid, offer),
        Fault::Price,
    )?;
    require(in_order(sides, bid, offer), Fault::Sides)
}

// Whether a quote with both sides is right, its time put aside: where the bid is not above the offer, each end is asked of one side alone.
pub fn both_sides_right(instrument: u8, bid: Price, offer: Price) -> bool
    ensures { result ≡ both_sides_right instrument bid offer }
{
    instrument <= 11 && lowest(instrument) <= bid && bid <= offer && offer <= highest(instrument)
}

// The first fault that a field's values earn behind what came before, if any. In line: a caller that knows the field's kind has the tests of that kind
// and no others.
#[inline(always)]
pub fn judge(before: Before, field: Field) -> Result<(), Fault>
    ensures { found result ≡ Judging.judge before field }
{
    match field {
        Field::Header { metal, marks, form } => judge_header(metal, marks, form),
        Field::PreviousClose { instrument, price } => judge_previous(before, instrument, price),
        Field::Trade {
            time,
            instrument,
            price,
            lots,
        } => judge_trade(before, time, instrument, price, lots),
        Field::Quote {
            time,
            instrument,
            sides,
            bid,
            offer,
        } => {
            // Most quotes have both sides: told so, the compiler leaves the tests of absent sides out.
            if sides == 3 {
                judge_quote(before, time, instrument, 3, bid, offer)
            } else {
                judge_quote(before, time, instrument, sides, bid, offer)
            }
        }
        Field::End { .. } => Ok(()),
    }
}
