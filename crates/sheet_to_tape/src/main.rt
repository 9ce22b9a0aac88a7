// Reads a sheet from standard input to its end and writes its text tape to standard output. A refusal is one line on standard error.
#![tactic(auto)]

use program_output::{SHEET_ROOM, TEXT_ROOM, turn_input};
use std::io::Result;
use tape_writer::sheet_to_tape;

// A read or a write that fails ends the program with its error.
fn main(rt: HostRuntime) -> Result<()> {
    turn_input::<SHEET_ROOM, TEXT_ROOM, _, _, _, _>(
        &mut rt.stdin(),
        &rt.stdout(),
        &rt.stderr(),
        sheet_to_tape,
    )
}
