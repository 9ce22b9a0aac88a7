// The names on the closing list and on the tape, fixed byte strings: each by value, put behind a text, and found by its bytes.
#![tactic(auto)]

ghost use Rattle.std.specs.Prelude.{◌≡◌, ◌≤◌, length, take};
ghost use Rattle.text.specs.Held.{held, held_by, kept, ◌⊕◌};
ghost use Rattle.names.specs.Names.{metal_name, contract_name, instrument_name, method_name, same, metal_in, instrument_in, in_name};

use price_rules::Method;
use text::Text;

// A name by value: its bytes, and spaces behind them.
#[derive(Clone, Copy)]
pub struct Name {
    pub bytes: [u8; 9],
    pub len: usize,
}

impl Name {
    fn of(s: &[u8]) -> Name
        requires { length s.now ≤ 9 }
        ensures { result ≡ in_name s.now }
    {
        let mut bytes = [32u8; 9];
        bytes[..s.len()].copy_from_slice(s);
        Name {
            bytes,
            len: s.len(),
        }
    }

    // Its bytes, without the spaces; with a len above 9, which anyone can give one, all of them.
    pub fn as_bytes(&self) -> &[u8]
        ensures { result.now ≡ take self.now.len self.now.bytes }
    {
        &self.bytes[..self.len.min(9)]
    }
}

// The name of a metal, 1 to 5; no bytes for any other. Metals, contracts and instruments have a table each, as their numbers and definitions do.
#[tactic(auto, unfolding(crate::specs::Names::metal_name))]
pub fn metal_name(metal: u8) -> Name
    ensures { result ≡ in_name (metal_name metal) }
{
    match metal {
        1 => Name::of(b"Nickel"),
        2 => Name::of(b"Aluminium"),
        3 => Name::of(b"Zinc"),
        4 => Name::of(b"Copper"),
        5 => Name::of(b"Lead"),
        _ => Name::of(b""),
    }
}

// The name of a contract, 0 to 5 in pricing order; no bytes for any other.
#[tactic(auto, unfolding(crate::specs::Names::contract_name))]
pub fn contract_name(contract: usize) -> Name
    ensures { result ≡ in_name (contract_name contract) }
{
    match contract {
        0 => Name::of(b"3M"),
        1 => Name::of(b"M3"),
        2 => Name::of(b"M2"),
        3 => Name::of(b"M4"),
        4 => Name::of(b"M1"),
        5 => Name::of(b"Cash"),
        _ => Name::of(b""),
    }
}

// The name of an instrument, 0 to 11; no bytes for any other.
#[tactic(auto, unfolding(crate::specs::Names::instrument_name))]
pub fn instrument_name(instrument: u8) -> Name
    ensures { result ≡ in_name (instrument_name instrument) }
{
    match instrument {
        0 => Name::of(b"3M"),
        1 => Name::of(b"M3-3M"),
        2 => Name::of(b"M2-3M"),
        3 => Name::of(b"M2-M3"),
        4 => Name::of(b"M2-M4"),
        5 => Name::of(b"M3-M4"),
        6 => Name::of(b"3M-M4"),
        7 => Name::of(b"M1-M2"),
        8 => Name::of(b"M1-M3"),
        9 => Name::of(b"M1-3M"),
        10 => Name::of(b"M1-M4"),
        11 => Name::of(b"Cash-M1"),
        _ => Name::of(b""),
    }
}

// The name of a method.
pub fn method_name(method: Method) -> Name
    ensures { result ≡ in_name (method_name method) }
{
    match method {
        Method::Vwap => Name::of(b"VWAP"),
        Method::Twap => Name::of(b"TWAP"),
    }
}

// Each of these three puts a name behind a text, where it fits.
pub fn put_metal(t: Text, metal: u8) -> Option<Text>
    ensures { held_by result ≡ kept (held t ⊕ metal_name metal) }
{
    t.put(metal_name(metal).as_bytes())
}

pub fn put_contract(t: Text, contract: usize) -> Option<Text>
    ensures { held_by result ≡ kept (held t ⊕ contract_name contract) }
{
    t.put(contract_name(contract).as_bytes())
}

pub fn put_method(t: Text, method: Method) -> Option<Text>
    ensures { held_by result ≡ kept (held t ⊕ method_name method) }
{
    t.put(method_name(method).as_bytes())
}

// The bytes are the name. Byte after byte and not by `==`: a tape's names are short, and the library's comparison, which is made for long runs
// of bytes and is never inlined, makes a text's sheet slower.
pub fn is_name(s: &[u8], name: &[u8]) -> bool
    ensures { result ≡ same name.now s.now }
{
    if s.len() != name.len() {
        return false;
    }
    for i in 0..s.len() {
        if s[i] != name[i] {
            return false;
        }
    }
    true
}

// A metal's number, 1 to 5, by its name.
pub fn metal_in(s: &[u8]) -> Option<u32>
    ensures { result ≡ metal_in s.now }
{
    (1..6u8)
        .find(|metal| is_name(s, metal_name(*metal).as_bytes()))
        .map(u32::from)
}

// The one instrument with a name of five bytes that can have these for its second and its last: divided by 8, 1, 2, 3 and M leave 1, 2, 3 and 5,
// and 2, 3, 4 and M leave 2, 3, 4 and 5. Its cases lie so close that the compiler makes a table of them, and the processor has no branch to guess.
fn likely_spread(second: u8, last: u8) -> u8
    ensures { result ≤ 11 }
{
    let key = second % 8 * 4 + last % 8;
    match key {
        6 => 7,
        7 => 8,
        8 => 10,
        9 => 9,
        11 => 3,
        12 => 4,
        13 => 2,
        16 => 5,
        17 => 1,
        24 => 6,
        _ => 11,
    }
}

// An instrument's number, 0 to 11, by its name: name after name.
fn seek_instrument(s: &[u8]) -> Option<u32>
    ensures { result ≡ instrument_in s.now }
{
    (0..12u8)
        .find(|instrument| is_name(s, instrument_name(*instrument).as_bytes()))
        .map(u32::from)
}

// The same, with the likely one asked first.
pub fn instrument_in(s: &[u8]) -> Option<u32>
    ensures { result ≡ instrument_in s.now }
{
    if s.len() == 5 {
        let spread = likely_spread(s[1], s[4]);
        if is_name(s, instrument_name(spread).as_bytes()) {
            return Some(spread as u32);
        }
    }
    if s.len() == 7 {
        if is_name(s, instrument_name(11).as_bytes()) {
            return Some(11);
        }
    }
    seek_instrument(s)
}
