// The indicator of one instrument, a small state handed back changed by each record, and its value. Hosts don't call it.
// specs/ has the indicator at each millisecond of a window and its sum, specs/laws the laws of that sum.
#![tactic(auto)]

ghost use Rattle.std.specs.Prelude.{◌≡◌};
ghost use Rattle.indicator.specs.Indicator.{empty, below_offer, inside_book, after_close, after_trade, after_quote, value_of, taken};

use field::{Field, Price};

// The last trade of the day so far, else the previous close; and the book. A price that is not there is None.
#[derive(Clone, Copy)]
pub struct Indicator {
    pub reference: Option<Price>,
    pub bid: Option<Price>,
    pub offer: Option<Price>,
}

// An offer below the reference, otherwise the reference.
fn below_offer(reference: Price, offer: Option<Price>) -> Price
    ensures { result ≡ below_offer reference offer }
{
    match offer {
        Some(o) if o < reference => o,
        _ => reference,
    }
}

// A bid above the reference, an offer below it, otherwise the reference. The tests are nested: a guard has both made of every field of a sheet.
fn inside_book(reference: Price, bid: Option<Price>, offer: Option<Price>) -> Price
    ensures { result ≡ inside_book reference bid offer }
{
    match bid {
        Some(b) => {
            if reference < b {
                return b;
            }
            below_offer(reference, offer)
        }
        None => below_offer(reference, offer),
    }
}

impl Indicator {
    // No reference, and an empty book.
    pub fn empty() -> Self
        ensures { result ≡ empty }
    {
        Indicator {
            reference: None,
            bid: None,
            offer: None,
        }
    }

    // A previous close: the reference where there was no trade.
    pub fn close(self, price: Price) -> Self
        ensures { result ≡ after_close self price }
    {
        Indicator {
            reference: self.reference.or(Some(price)),
            ..self
        }
    }

    // A trade: the reference from now on.
    pub fn trade(self, price: Price) -> Self
        ensures { result ≡ after_trade self price }
    {
        Indicator {
            reference: Some(price),
            ..self
        }
    }

    // A quote record: both sides are replaced, an absent one too. In sides bit 0 says the bid, bit 1 the offer.
    pub fn quote(self, sides: u8, bid: Price, offer: Price) -> Self
        ensures { result ≡ after_quote self sides bid offer }
    {
        Indicator {
            bid: (sides % 2 == 1).then_some(bid),
            offer: (sides / 2 % 2 == 1).then_some(offer),
            ..self
        }
    }

    // A bid above the reference, an offer below it, otherwise the reference; none where there is no reference.
    pub fn value(self) -> Option<Price>
        ensures { result ≡ value_of self }
    {
        let reference = self.reference?;
        Some(inside_book(reference, self.bid, self.offer))
    }
}

// The state of an instrument after one field more.
pub fn take_field(state: Indicator, instrument: u8, field: Field) -> Indicator
    ensures { result ≡ taken instrument state field }
{
    match field {
        Field::PreviousClose {
            instrument: of,
            price,
        } if of == instrument => state.close(price),
        Field::Trade {
            instrument: of,
            price,
            ..
        } if of == instrument => state.trade(price),
        Field::Quote {
            instrument: of,
            sides,
            bid,
            offer,
            ..
        } if of == instrument => state.quote(sides, bid, offer),
        _ => state,
    }
}
