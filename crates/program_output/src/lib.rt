// What programs that turn one file into another share: the input is read whole and turned by one function, and what that function put at the start of
// a buffer, or what refused it, is handed out. Hosts don't call it.
#![tactic(auto)]

ghost use Rattle.std.specs.Prelude.{◌<◌, ◌^◌};

use field::Refusal;
use list_lines::put_refusal;
use std::io::{Print, Read, Result};
use text::Text;
use whole_input::{read_full, room};

// How many bytes a sheet may have.
pub const LONGEST_SHEET: usize = 1_048_576;

// How many bytes a text may have: no accepted sheet has a longer one.
pub const LONGEST_TEXT: usize = 3_145_728;

// Room for the longest sheet, and for the longest text, and one byte more, so that a longer one shows.
pub const SHEET_ROOM: usize = LONGEST_SHEET + 1;

pub const TEXT_ROOM: usize = LONGEST_TEXT + 1;

// The first n bytes, where there are so many.
pub fn write_part<P: Print>(file: &P, bytes: &[u8], n: usize) -> Result<()> {
    match bytes.get(..n) {
        Some(part) => file.write_all(part),
        None => Ok(()),
    }
}

// A text to a file, where there is one.
pub fn say<P: Print>(file: &P, text: Option<Text>) -> Result<()> {
    let mut out = [0u8; 512];
    let put = match text {
        Some(text) => text.put_into(&mut out, 0),
        None => None,
    };
    match put {
        Some(n) => write_part(file, &out, n),
        None => Ok(()),
    }
}

// What a call that fills a buffer answers: the length of what it put at the start, or a refusal.
pub type Filled = std::result::Result<usize, Refusal>;

// What stands at the start of a buffer on standard output; or the number that refused it, and its place, as a list's line on standard error. The
// number may be any.
pub fn hand_out<O: Print, E: Print>(
    output: &O,
    error: &E,
    told: std::result::Result<usize, (u8, usize)>,
    bytes: &[u8],
) -> Result<()> {
    match told {
        Ok(n) => write_part(output, bytes, n),
        Err((number, at)) => say(error, put_refusal(Text::empty(), number, at as u64)),
    }
}

// What is made of the bytes in a buffer of its own, handed out.
fn turn<const OUT: usize, O: Print, E: Print, F: Fn(&[u8], &mut [u8]) -> Filled>(
    output: &O,
    error: &E,
    given: &[u8],
    make: F,
) -> Result<()>
    requires callable { F.IsAlwaysCallable make }
    requires fits { OUT < 2 ^ 63 }
{
    let mut made = room::<OUT>();
    let told = make(given, &mut made).map_err(|refusal| (refusal.fault.into(), refusal.at));
    hand_out(output, error, told, &made)
}

// Reads the input to its end and hands out what is made of it; an input that fills its room is too long. A read or a write that fails is an error.
pub fn turn_input<
    const IN: usize,
    const OUT: usize,
    R: Read,
    O: Print,
    E: Print,
    F: Fn(&[u8], &mut [u8]) -> Filled,
>(input: &mut R, output: &O, error: &E, make: F) -> Result<()>
    requires callable { F.IsAlwaysCallable make }
    requires given_fits { IN < 2 ^ 63 }
    requires made_fits { OUT < 2 ^ 63 }
{
    let mut given = room::<IN>();
    let n = read_full(input, &mut given)?;
    if n == given.len() {
        return say(error, Text::empty().put(b"too long\n"));
    }
    turn::<OUT, O, E, F>(output, error, &given[..n], make)
}
