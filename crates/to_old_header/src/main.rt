// Reads a new sheet from standard input to its end and writes it with the old header to standard output. A refusal is one line on standard error.
#![tactic(auto)]

use header_mover::to_old_header;
use program_output::{SHEET_ROOM, turn_input};
use std::io::Result;

// A read or a write that fails ends the program with its error.
fn main(rt: HostRuntime) -> Result<()> {
    turn_input::<SHEET_ROOM, SHEET_ROOM, _, _, _, _>(
        &mut rt.stdin(),
        &rt.stdout(),
        &rt.stderr(),
        to_old_header,
    )
}
