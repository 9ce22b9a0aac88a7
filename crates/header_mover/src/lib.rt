// A sheet with the other header, at the start of a lent buffer: an old sheet gets the long header, and a new one the short header again. The sheet is
// judged and the moved one measured before a byte is written, so a refusal changes none.
#![tactic(auto, unfolding(field::specs::Judging::both, field::specs::Judging::unless, field::specs::Judging::also))]

ghost use Rattle.std.specs.Prelude.{◌≡◌, ◌+◌, ◌≤◌, length};
ghost use Rattle.text.specs.Over.{over, put_buffer};
ghost use Rattle.field.specs.declared.Field.TheVariants as F;
ghost use Rattle.field.specs.Said.{found, written_says};
ghost use Rattle.sheet.specs.Fields.{fields_of};
ghost use Rattle.filled_buffer.specs.Filling.{in_room, buffer_with, filled};
ghost use Rattle.header_mover.specs.Moving.{moved_bytes, movable, moved_of, moved, to_new, to_old};
ghost use Rattle.header_mover.specs.laws.Moving.{header_size, move_number, Accepted, Fitting};

use field::judge::{require, third_of};
use field::layout::{form_tag, size_of};
use field::{Fault, Field, Form, Refusal};
use raw_writer::put_field;
use sheet::{Day, judge_sheet};

// A header of this form can get the wanted one: it has the other tag, and the wanted one says the same of 3M.
fn is_movable(wanted: Form, form: Form) -> bool
    ensures { result ≡ movable wanted form }
{
    form_tag(form) != form_tag(wanted) && third_of(form) == third_of(wanted)
}

// How many bytes a header of a form has.
fn header_size(form: Form) -> usize
    ensures { result ≡ header_size form }
{
    size_of(form_tag(form))
}

// What refuses the move of an accepted sheet: its form, then the moved sheet's length, then the room.
fn judge_move(movable: bool, len: usize, room: usize) -> Result<(), Fault>
    ensures { found result ≡ move_number movable len room }
{
    require(movable, Fault::Form)?;
    require(len <= 1_048_576, Fault::Long)?;
    require(len <= room, Fault::Room)
}

// A header of a form, which goes by value: the byte that a short one lacks is then a zero and not what the stack had.
fn headed(day: Day, form: Form) -> Field
    ensures { result ≡ F.Header day.metal day.marks form }
{
    Field::Header {
        metal: day.metal,
        marks: day.marks,
        form,
    }
}

// The bytes from the place on, byte by byte: a copy of a part of one lent slice to another asks a host for `memmove`.
fn put_behind(out: &mut [u8], at: usize, s: &[u8])
    requires { at + length s.now ≤ length out.old }
    ensures { out.new ≡ put_buffer out.old at s.now }
{
    for (i, &byte) in s.iter().enumerate() {
        out[at + i] = byte;
    }
}

// The wanted header at the start of the buffer, and behind it the bytes that the sheet has behind its own.
fn put_moved(sheet: &[u8], out: &mut [u8], day: Day, wanted: Form)
    requires { Fitting sheet.now out.old day wanted }
    ensures { out.new ≡ over out.old 0 (moved_bytes wanted (fields_of sheet.now)) }
{
    let form = day.form;
    let from = header_size(form);
    put_field(out, headed(day, wanted));
    put_behind(out, header_size(wanted), &sheet[from..]);
}

// An accepted sheet with the wanted header; or 19, 1 or 16 at 0.
fn move_accepted(sheet: &[u8], out: &mut [u8], day: Day, wanted: Form) -> Result<usize, Refusal>
    requires { Accepted sheet.now day }
    ensures { (written_says result ≡ filled (in_room (length out.old) (moved_of wanted (fields_of sheet.now) day))) × (out.new ≡ buffer_with out.old (in_room (length out.old) (moved_of wanted (fields_of sheet.now) day))) }
{
    let form = day.form;
    let len = header_size(wanted) + (sheet.len() - header_size(form));
    judge_move(is_movable(wanted, form), len, out.len()).map_err(|fault| Refusal { fault, at: 0 })?;
    put_moved(sheet, out, day, wanted);
    Ok(len)
}

// The sheet with a header of the wanted form, by its length; or the refusal, at the sheet's byte where it is the sheet's own.
fn move_to(sheet: &[u8], out: &mut [u8], wanted: Form) -> Result<usize, Refusal>
    ensures { (written_says result ≡ filled (moved wanted (length out.old) sheet.now)) × (out.new ≡ buffer_with out.old (moved wanted (length out.old) sheet.now)) }
{
    move_accepted(sheet, out, judge_sheet(sheet)?, wanted)
}

// An old sheet with the new header at the start of the buffer.
pub fn to_new_header(sheet: &[u8], out: &mut [u8]) -> Result<usize, Refusal>
    ensures { (written_says result ≡ filled (to_new (length out.old) sheet.now)) × (out.new ≡ buffer_with out.old (to_new (length out.old) sheet.now)) }
{
    move_to(sheet, out, Form::Long(0))
}

// A new sheet with the old header at the start of the buffer.
pub fn to_old_header(sheet: &[u8], out: &mut [u8]) -> Result<usize, Refusal>
    ensures { (written_says result ≡ filled (to_old (length out.old) sheet.now)) × (out.new ≡ buffer_with out.old (to_old (length out.old) sheet.now)) }
{
    move_to(sheet, out, Form::Short)
}
