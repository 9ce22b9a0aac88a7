// The trades of each instrument inside its window, as lots and value: one pass over an accepted sheet's bytes. Hosts don't call it.
#![tactic(auto)]

ghost use Rattle.std.specs.Prelude.{◌≡◌, ◌≤◌, length};
ghost use Rattle.field.specs.Layout.{trade_of};
ghost use Rattle.field.specs.Reading.{body_at};
ghost use Rattle.field.specs.laws.Field.{Headed};
ghost use Rattle.sheet.specs.Fields.{fields_of};
ghost use Rattle.sheet.specs.laws.ByInstrument.{Filled};
ghost use Rattle.trades.specs.Trades.{totals_of, Told};
ghost use Rattle.trades.specs.laws.Trades.{Small};
ghost use Rattle.trades.specs.laws.Pass.{with_trade, counted_in};

use field::layout::size_of;
use field::{Field, Price, Refusal, layout};
use market::{Metal, in_window, metal_of, start_in};
use raw_reader::trade_of;
use sheet::{Day, judge_sheet};

// The lots of an instrument's trades in its window, and the sum of lots times quoted price, in cents.
#[derive(Clone, Copy)]
pub struct Total {
    pub lots: u64,
    pub value: i64,
}

// An accepted sheet's day, and the totals of its trades by instrument, 0 to 11.
#[derive(Clone, Copy)]
pub struct Traded {
    pub day: Day,
    pub totals: [Total; 12],
}

const NO_TRADES: [Total; 12] = [Total { lots: 0, value: 0 }; 12];

impl Total {
    // With one trade more.
    fn with_trade(self, price: Price, lots: u16) -> Self
        requires { Small 1048576 self }
        ensures { result ≡ with_trade self price lots }
    {
        Total {
            lots: self.lots + lots as u64,
            value: self.value + lots as i64 * price.cents as i64,
        }
    }
}

// A trade that counts: what it adds to its instrument's total.
#[derive(Clone, Copy)]
pub struct Counted {
    pub instrument: u8,
    pub price: Price,
    pub lots: u16,
}

// A trade counts where it lies in its instrument's window, by the row of the sheet's metal; no other field does.
fn count_in(row: Metal, field: Field) -> Option<Counted>
    ensures { result ≡ counted_in row field }
{
    match field {
        Field::Trade {
            time,
            instrument,
            price,
            lots,
        } if in_window(start_in(row, instrument), time) => Some(Counted {
            instrument,
            price,
            lots,
        }),
        _ => None,
    }
}

// The trade whose head and body are known to stand at a place.
fn trade_here(sheet: &[u8], at: usize) -> Field
    requires { Headed sheet.now at 3 }
    ensures { result ≡ trade_of (body_at sheet.now at 3) }
{
    trade_of(&sheet[at + 3..at + 14])
}

// The totals of a sheet that fields fill to its end, their values in their ranges: only trades are looked into. The metal's row is looked up once, and
// the sizes of trades and quotes stand in their branches, so that no place waits for a table. A `while`: the next place is a field's size further on.
fn totals_of(sheet: &[u8], metal: u8) -> [Total; 12]
    requires { Filled sheet.now × (length sheet.now ≤ 1048576) }
    ensures { result ≡ totals_of metal (fields_of sheet.now) }
{
    let row = metal_of(metal);
    let mut totals = NO_TRADES;
    let mut at = 0;
    while at < sheet.len() {
        let tag = sheet[at];
        if tag == layout::TRADE {
            if let Some(trade) = count_in(row, trade_here(sheet, at)) {
                let i = trade.instrument as usize;
                totals[i] = totals[i].with_trade(trade.price, trade.lots);
            }
            at += 14;
        } else if tag == layout::QUOTE {
            at += 17;
        } else {
            at += size_of(tag);
        }
    }
    totals
}

// Judges a sheet, and gives the totals of its trades where it is accepted.
pub fn totals(sheet: &[u8]) -> Result<Traded, Refusal>
    ensures { Told sheet.now result }
{
    let day = judge_sheet(sheet)?;
    Ok(Traded {
        day,
        totals: totals_of(sheet, day.metal),
    })
}
