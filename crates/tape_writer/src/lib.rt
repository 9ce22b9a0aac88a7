// The text of a sheet in a lent buffer. The sheet is judged and the room is known to be enough before a byte is written, so a refusal changes none.
#![tactic(auto)]

ghost use Rattle.std.specs.Prelude.{◌≡◌, ◌≤◌, leb, length};
ghost use Rattle.text.specs.Over.{over};
ghost use Rattle.field.specs.Said.{written_says};
ghost use Rattle.sheet.specs.Fields.{fields_of};
ghost use Rattle.filled_buffer.specs.Filling.{made, in_room, buffer_with, filled};
ghost use Rattle.tape.specs.Tape.{line_text, text_of, sheet_to_tape};
ghost use Rattle.tape_writer.specs.laws.Lining.{Readable};

use field::{Fault, Field, Refusal};
use field_reader::shape_at;
use line_writer::put_line;
use sheet::judge_sheet;

// How many bytes a field's line has: it is written into a scratch of its own.
fn line_length(field: Field) -> usize
    requires { length (line_text field) ≤ 64 }
    ensures { result ≡ length (line_text field) }
{
    let mut scratch = [0u8; 64];
    put_line(&mut scratch, 0, field)
}

// How many bytes the text of an accepted sheet has.
fn text_length(sheet: &[u8]) -> usize
    requires { Readable sheet.now }
    ensures { result ≡ length (text_of (fields_of sheet.now)) }
{
    let mut from = 0;
    let mut len = 0;
    while let Ok((field, next)) = shape_at(sheet, from) {
        len += line_length(field);
        from = next;
    }
    len
}

// There is room for the text: at once where the buffer has three bytes for each of the sheet, else by measuring.
fn has_room(sheet: &[u8], room: usize) -> bool
    requires { Readable sheet.now }
    ensures { result ≡ leb (length (text_of (fields_of sheet.now))) room }
{
    sheet.len() <= room / 3 || text_length(sheet) <= room
}

// The lines of a sheet's fields, from the start of the buffer on; the place behind them. A loop of its own beside that of `text_length`: one for both by a
// closure would have each step's contract written out beside it, and be longer than both.
fn put_lines(sheet: &[u8], tape: &mut [u8]) -> usize
    requires { length (text_of (fields_of sheet.now)) ≤ length tape.old }
    ensures { (result ≡ length (text_of (fields_of sheet.now))) × (tape.new ≡ over tape.old 0 (text_of (fields_of sheet.now))) }
{
    let mut from = 0;
    let mut at = 0;
    while let Ok((field, next)) = shape_at(sheet, from) {
        at = put_line(tape, at, field);
        from = next;
    }
    at
}

// The text of an accepted sheet, where there is room.
fn put_text(sheet: &[u8], tape: &mut [u8]) -> Result<usize, Refusal>
    requires { Readable sheet.now }
    ensures { (written_says result ≡ filled (in_room (length tape.old) (made (text_of (fields_of sheet.now))))) × (tape.new ≡ buffer_with tape.old (in_room (length tape.old) (made (text_of (fields_of sheet.now))))) }
{
    if has_room(sheet, tape.len()) {
        return Ok(put_lines(sheet, tape));
    }
    Err(Refusal {
        fault: Fault::Room,
        at: 0,
    })
}

// The text of a sheet at the start of the buffer, by its length; or a refusal and its byte, 0 where the buffer has no room.
pub fn sheet_to_tape(sheet: &[u8], tape: &mut [u8]) -> Result<usize, Refusal>
    ensures { (written_says result ≡ filled (sheet_to_tape (length tape.old) sheet.now)) × (tape.new ≡ buffer_with tape.old (sheet_to_tape (length tape.old) sheet.now)) }
{
    judge_sheet(sheet)?;
    put_text(sheet, tape)
}
