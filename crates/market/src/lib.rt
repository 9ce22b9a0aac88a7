// The constant tables by metal, by contract, by instrument and by the header's third value, the windows and the marks: RULES 1 to 4. Hosts don't call it.
#![tactic(auto)]

ghost use Rattle.std.specs.Prelude.{◌≡◌, cond, eqb};
ghost use Rattle.market.specs.Market.{metal_of, contract_by, contract_of, leg_by, leg_of, start_of, in_window, marked, named, barred};
ghost use Rattle.market.specs.laws.Rows.{pair_of, start_in, bit_of, has_bit};

// A metal's spread start and anchor start, in milliseconds of the day, and its 3M step, in cents.
#[derive(Clone, Copy)]
pub struct Metal {
    pub spread: u32,
    pub anchor: u32,
    pub step: u32,
}

// VWAP from the instruments first to past - 1, TWAP from one of them; a step of 0 is the metal's.
#[derive(Clone, Copy)]
pub struct Contract {
    pub first: u8,
    pub past: u8,
    pub twap: u8,
    pub step: u8,
}

// What the price of an instrument says of the contract that it prices: it is its price; or the other leg's close plus it, or less it.
#[derive(Clone, Copy)]
pub enum Leg {
    Outright,
    Over(usize),
    Under(usize),
}

// How many milliseconds every window holds.
pub const WINDOW: u32 = 300_000;

// The least lots, over all of a contract's VWAP instruments together, at which its trades price it.
pub const MINIMUM_LOTS: u64 = 5;

// By metal, counted from 1: Nickel, Aluminium, Zinc, Copper, Lead.
static METALS: [Metal; 5] = [
    Metal {
        spread: 58_200_000,
        anchor: 58_500_000,
        step: 100,
    },
    Metal {
        spread: 58_800_000,
        anchor: 59_100_000,
        step: 50,
    },
    Metal {
        spread: 59_400_000,
        anchor: 59_700_000,
        step: 50,
    },
    Metal {
        spread: 60_000_000,
        anchor: 60_300_000,
        step: 50,
    },
    Metal {
        spread: 60_600_000,
        anchor: 60_900_000,
        step: 50,
    },
];

// The contracts by their place in pricing order.
const THREE_M: usize = 0;

const M3: usize = 1;

const M2: usize = 2;

const M4: usize = 3;

const M1: usize = 4;

const CASH: usize = 5;

// 3M, M3, M2, M4, M1, Cash.
static CONTRACTS: [Contract; 6] = [
    Contract {
        first: 0,
        past: 1,
        twap: 0,
        step: 0,
    },
    Contract {
        first: 1,
        past: 2,
        twap: 1,
        step: 1,
    },
    Contract {
        first: 2,
        past: 4,
        twap: 3,
        step: 1,
    },
    Contract {
        first: 4,
        past: 7,
        twap: 5,
        step: 1,
    },
    Contract {
        first: 7,
        past: 11,
        twap: 7,
        step: 1,
    },
    Contract {
        first: 11,
        past: 12,
        twap: 11,
        step: 1,
    },
];

// The instruments, 0 to 11: A and B of each A-B; the outright has 3M for both.
static INSTRUMENTS: [(usize, usize); 12] = [
    (THREE_M, THREE_M),
    (M3, THREE_M),
    (M2, THREE_M),
    (M2, M3),
    (M2, M4),
    (M3, M4),
    (THREE_M, M4),
    (M1, M2),
    (M1, M3),
    (M1, THREE_M),
    (M1, M4),
    (CASH, M1),
];

// By the header's third value, 1 and 2: the instruments on which no field may be then, bit i for instrument i. With any other there are none.
static BARRED: [u16; 2] = [
    1 << 1 | 1 << 2 | 1 << 6 | 1 << 9,
    1 << 4 | 1 << 5 | 1 << 6 | 1 << 10,
];

// The row of a metal, 1 to 5; of any other metal a row of zeros.
pub fn metal_of(metal: u8) -> Metal
    ensures { result ≡ metal_of metal }
{
    match metal {
        1..=5 => METALS[metal as usize - 1],
        _ => Metal {
            spread: 0,
            anchor: 0,
            step: 0,
        },
    }
}

// The cells of a contract's row by name.
pub fn contract_by(row: [u8; 4]) -> Contract
    ensures { result ≡ contract_by row }
{
    Contract {
        first: row[0],
        past: row[1],
        twap: row[2],
        step: row[3],
    }
}

// The row of a contract, 0 to 5 in pricing order; of any other a row of zeros.
pub fn contract_of(contract: usize) -> Contract
    ensures { result ≡ contract_of contract }
{
    match contract {
        0..=5 => CONTRACTS[contract],
        _ => contract_by([0; 4]),
    }
}

// The leg of A-B by the places of A and B in pricing order: the contract that is priced first is the other leg.
pub fn leg_by(a: usize, b: usize) -> Leg
    ensures { result ≡ leg_by a b }
{
    if b < a {
        Leg::Over(b)
    } else if a < b {
        Leg::Under(a)
    } else {
        Leg::Outright
    }
}

// A and B of an instrument A-B, 0 to 11, by their places in pricing order; the outright has 3M for both, and so has any other.
pub fn pair_of(instrument: u8) -> (usize, usize)
    ensures { result ≡ pair_of instrument }
{
    match instrument {
        0..=11 => INSTRUMENTS[instrument as usize],
        _ => (THREE_M, THREE_M),
    }
}

// The leg of an instrument, 0 to 11; any other instrument is as the outright.
pub fn leg_of(instrument: u8) -> Leg
    ensures { result ≡ leg_of instrument }
{
    let (a, b) = pair_of(instrument);
    leg_by(a, b)
}

// The start of an instrument's window by its metal's row, for who has looked that up: the anchor window for instrument 0, the spread window for all
// others.
pub fn start_in(row: Metal, instrument: u8) -> u32
    ensures { result ≡ start_in row instrument }
{
    if instrument == 0 {
        row.anchor
    } else {
        row.spread
    }
}

// The same by the metal; 0 where there is no such metal.
pub fn start_of(metal: u8, instrument: u8) -> u32
    ensures { result ≡ start_of metal instrument }
{
    start_in(metal_of(metal), instrument)
}

// The step that the last cell of a contract's row says: its own, or the metal's where that is 0.
pub fn step_by(metal: u8, step: u8) -> u32
    ensures { result ≡ cond (eqb step 0) (metal_of metal).step step }
{
    if step == 0 {
        metal_of(metal).step
    } else {
        step as u32
    }
}

// Whether a time lies in the window of a start: the start is in, start + 300,000 is out.
pub fn in_window(start: u32, time: u32) -> bool
    ensures { result ≡ in_window start time }
{
    start <= time && time - start < WINDOW
}

// Whether a spread's mark is set: bit i - 1 for spread i; instrument 0 has none, and neither has one above 16.
pub fn is_marked(marks: u16, instrument: u8) -> bool
    ensures { result ≡ marked marks instrument }
{
    match instrument {
        1..=16 => (marks >> (instrument - 1)) % 2 == 1,
        _ => false,
    }
}

// Whether 3M is this contract, by the header's third value.
pub fn is_named(third: u8, contract: usize) -> bool
    ensures { result ≡ named third contract }
{
    match third {
        1 => contract == M3,
        2 => contract == M4,
        _ => false,
    }
}

// The bit of an instrument in a row of them. What is no instrument has bit 12, which no row has, so that no branch asks for it.
fn bit_of(instrument: u8) -> u8
    ensures { result ≡ bit_of instrument }
{
    if instrument < 12 { instrument } else { 12 }
}

fn has_bit(row: u16, instrument: u8) -> bool
    ensures { result ≡ has_bit row instrument }
{
    (row >> bit_of(instrument)) % 2 == 1
}

// Whether no field may be on the instrument, by the header's third value.
pub fn is_barred(third: u8, instrument: u8) -> bool
    ensures { result ≡ barred third instrument }
{
    match third {
        1..=2 => has_bit(BARRED[third as usize - 1], instrument),
        _ => false,
    }
}
