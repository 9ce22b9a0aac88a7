// Reads one sheet from standard input to its end and prints its closing list.
#![tactic(auto)]

use list::closing_list;
use std::io::{Print, Result};
use whole_input::read_full;

// Prints the list of a sheet. 512 bytes hold every list (the law `list-fits`).
fn print_list<P: Print>(output: &P, sheet: &[u8]) -> Result<()> {
    let mut out = [0u8; 512];
    match closing_list(sheet, &mut out) {
        Some(n) => output.write_all(&out[..n]),
        None => Ok(()),
    }
}

// Takes one byte more than a sheet may have, so that a longer one shows. A read or a write that fails ends the program with its error.
fn main(rt: HostRuntime) -> Result<()> {
    let mut buf = [0u8; 65537];
    let n = read_full(&mut rt.stdin(), &mut buf)?;
    print_list(&rt.stdout(), &buf[..n])
}
