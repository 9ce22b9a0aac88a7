// The fields of a day sheet: their values, the faults of SHEET 4, and what the ranges of SHEET 3 say of one field. Hosts don't call it.
#![tactic(auto)]

ghost use Rattle.std.specs.Prelude.{◌≡◌};
ghost use Rattle.field.specs.Said.{fault_number};

pub mod judge;
pub mod layout;

// A price or a side of a quote, in cents.
#[derive(Clone, Copy, PartialEq, Eq, PartialOrd, Ord)]
pub struct Price {
    pub cents: i32,
}

// Which of its two forms a header has: short (tag 1), or long (tag 6) with a third value, which says what 3M is: no monthly contract (0), M3 (1) or
// M4 (2).
#[derive(Clone, Copy)]
pub enum Form {
    Short,
    Long(u8),
}

// What the fields before it say of a field: the header's third value, which bars instruments, and the time that it must not be below.
#[derive(Clone, Copy)]
pub struct Before {
    pub third: u8,
    pub time: u32,
}

// The values of a field, each at its full width: what is out of its range is a value too, and is judged as one.
#[derive(Clone, Copy)]
pub enum Field {
    Header {
        metal: u8,
        marks: u16,
        form: Form,
    },
    PreviousClose {
        instrument: u8,
        price: Price,
    },
    Trade {
        time: u32,
        instrument: u8,
        price: Price,
        lots: u16,
    },
    Quote {
        time: u32,
        instrument: u8,
        sides: u8,
        bid: Price,
        offer: Price,
    },
    End {
        count: u32,
    },
}

// SHEET 4: what a field, a whole sheet, a text or a move can be refused for, each with its number.
#[derive(Clone, Copy, Debug, PartialEq, Eq)]
pub enum Fault {
    // A sheet of more than 1,048,576 bytes.
    Long = 1,
    // Bytes of the field are missing, or the end field is.
    Bytes = 2,
    // No tag from 1 to 6.
    Tag = 3,
    // Another length than the tag has.
    Length = 4,
    // A field out of its place, or bytes behind the end.
    Place = 5,
    // No metal from 1 to 5, a mark that no spread has, or a third value above 2.
    Metal = 6,
    // No instrument from 0 to 11.
    Instrument = 7,
    // A time behind the day's last, or one that falls.
    Time = 8,
    // A price out of its range.
    Price = 9,
    // Lots out of their range.
    Lots = 10,
    // No sides from 0 to 3, an absent side that holds a price, or a bid above its offer.
    Sides = 11,
    // The end counts wrong.
    Count = 12,
    // No room in the buffer for what is to be put there.
    Room = 16,
    // A line of a text that is malformed, or names what there is not.
    Line = 17,
    // An instrument that the header's third value bars.
    Barred = 18,
    // A header that has the wanted form already, or says of 3M what the wanted form cannot.
    Form = 19,
}

impl From<Fault> for u8 {
    ghost from_gives = { λ fault number. number ≡ fault_number fault };

    fn from(fault: Fault) -> u8 {
        fault as u8
    }
}

// A fault, and the place that goes with it: a byte of a sheet or of a buffer, or a line of a text.
#[derive(Clone, Copy, Debug, PartialEq, Eq)]
pub struct Refusal {
    pub fault: Fault,
    pub at: usize,
}
