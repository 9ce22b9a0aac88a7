// Answers many sheets: each stands behind its length in four big-endian bytes, and its list is printed with an empty line behind it. What it
// prints is compared with what the independent program printed of the same sheets.
#![tactic(auto)]

use list::closing_list;
use program_output::write_part;
use std::io::{Print, Result};
use whole_input::{read_full, room};

// The list of a sheet, and an empty line. The program `closing_list` says nothing where there is no room, and this one does.
fn print_list<P: Print>(output: &P, sheet: &[u8]) -> Result<()> {
    let mut out = [0u8; 512];
    match closing_list(sheet, &mut out) {
        Some(n) => write_part(output, &out, n)?,
        None => output.write_all(b"no room\n")?,
    }
    output.write_all(b"\n")
}

// Each sheet of the stream; a sheet that is cut short is left out.
fn take_sheets<P: Print>(output: &P, stream: &[u8]) -> Result<()> {
    let mut rest = stream;
    while let Some((length, behind)) = rest.split_first_chunk::<4>() {
        let Some((sheet, next)) = behind.split_at_checked(u32::from_be_bytes(*length) as usize)
        else {
            return Ok(());
        };
        print_list(output, sheet)?;
        rest = next;
    }
    Ok(())
}

fn main(rt: HostRuntime) -> Result<()> {
    let mut stream = room::<1_048_576>();
    let n = read_full(&mut rt.stdin(), &mut stream)?;
    take_sheets(&rt.stdout(), &stream[..n])
}
