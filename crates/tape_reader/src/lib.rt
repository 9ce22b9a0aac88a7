// The sheet of a text in a lent buffer. All lines are judged and the sheet is measured before a byte is written, so a refusal changes none.
#![tactic(auto)]

ghost use Rattle.std.specs.Prelude.{◌≡◌, ◌+◌, ◌≤◌, length};
ghost use Rattle.text.specs.Over.{over};
ghost use Rattle.field.specs.Layout.{field_bytes};
ghost use Rattle.field.specs.Said.{written_says};
ghost use Rattle.filled_buffer.specs.Filling.{buffer_with, filled};
ghost use Rattle.tape.specs.Tape.{tape_to_sheet};
ghost use Rattle.tape_reader.specs.laws.Laying.{Fitting, Laid_out, Sheeted};

use field::layout::{size_of, tag_of};
use field::{Fault, Field, Refusal};
use next_line::next_line;
use raw_writer::put_field;
use tape::judge_tape;

// What the fields of a text came to: the place behind them, and how many they are.
#[derive(Clone, Copy)]
pub struct Laid {
    pub at: usize,
    pub count: u32,
}

// A field's bytes at a place, and the place behind them.
fn put_at(sheet: &mut [u8], at: usize, field: Field) -> usize
    requires { at + length (field_bytes field) ≤ length sheet.old }
    ensures { (result ≡ at + length (field_bytes field)) × (sheet.new ≡ over sheet.old at (field_bytes field)) }
{
    put_field(&mut sheet[at..], field);
    at + size_of(tag_of(field))
}

// The fields of an accepted text's lines, from the start of the buffer on.
fn put_fields(text: &[u8], sheet: &mut [u8]) -> Laid
    requires { Fitting text.now sheet.old }
    ensures { Laid_out text.now sheet.old result sheet.new }
{
    let mut from = 0;
    let mut at = 0;
    let mut count: u32 = 0;
    while let Ok(Some((field, next))) = next_line(text, from) {
        at = put_at(sheet, at, field);
        count += 1;
        from = next;
    }
    Laid { at, count }
}

// The fields and a right end behind them.
fn put_sheet(text: &[u8], sheet: &mut [u8])
    requires { Fitting text.now sheet.old }
    ensures { Sheeted text.now sheet.old sheet.new }
{
    let laid = put_fields(text, sheet);
    put_at(sheet, laid.at, Field::End { count: laid.count });
}

// The sheet of a text at the start of the buffer, by its length; or a refusal with its line, 0 where no line earns it.
pub fn tape_to_sheet(text: &[u8], sheet: &mut [u8]) -> Result<usize, Refusal>
    ensures { (written_says result ≡ filled (tape_to_sheet (length sheet.old) text.now)) × (sheet.new ≡ buffer_with sheet.old (tape_to_sheet (length sheet.old) text.now)) }
{
    let bytes = judge_tape(text)?;
    if 1_048_569 < bytes {
        return Err(Refusal {
            fault: Fault::Long,
            at: 0,
        });
    }
    let len = bytes as usize + 7;
    if sheet.len() < len {
        return Err(Refusal {
            fault: Fault::Room,
            at: 0,
        });
    }
    put_sheet(text, sheet);
    Ok(len)
}
