// Reads a text tape from standard input to its end and writes its sheet to standard output. A refusal is one line on standard error.
#![tactic(auto)]

use program_output::{SHEET_ROOM, TEXT_ROOM, turn_input};
use std::io::Result;
use tape_reader::tape_to_sheet;

// A read or a write that fails ends the program with its error.
fn main(rt: HostRuntime) -> Result<()> {
    turn_input::<TEXT_ROOM, SHEET_ROOM, _, _, _, _>(
        &mut rt.stdin(),
        &rt.stdout(),
        &rt.stderr(),
        tape_to_sheet,
    )
}
