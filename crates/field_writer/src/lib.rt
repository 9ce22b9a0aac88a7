// Writes one field into a lent buffer from a place onward: the part that starts at the place is lent on, and a refusal changes no byte.
#![tactic(auto, unfolding(field::specs::Judging::unless, field::specs::Judging::also, field::specs::Said::settled, field::specs::Writing::write_number, field::specs::Writing::written, field::specs::Writing::buffer_after))]

ghost use Rattle.std.specs.Prelude.{◌≡◌, length};
ghost use Rattle.field.specs.Said.{found, written_says};
ghost use Rattle.field.specs.Writing.{field_size, write_number, written, buffer_after};

use field::judge::{by_itself, judge, require};
use field::layout::{remaining, size_of, tag_of};
use field::{Fault, Field, Refusal};
use raw_writer::put_field;

// How many bytes a field needs.
pub fn field_size(field: Field) -> usize
    ensures { result ≡ field_size field }
{
    size_of(tag_of(field))
}

// What writing a field at a place of a buffer earns: what its values earn, or 16 where there is no room for it.
fn judge_writing(buffer: &[u8], at: usize, field: Field) -> Result<(), Fault>
    ensures { found result ≡ write_number (length buffer.now) at field }
{
    judge(by_itself(), field)?;
    require(
        field_size(field) <= remaining(buffer.len(), at),
        Fault::Room,
    )
}

// Writes a field at a place, where its values are in their ranges and the buffer has room for it.
pub fn write_field(buffer: &mut [u8], at: usize, field: Field) -> Result<usize, Refusal>
    ensures { (written_says result ≡ written buffer.old at field) × (buffer.new ≡ buffer_after buffer.old at field) }
{
    judge_writing(buffer, at, field).map_err(|fault| Refusal { fault, at })?;
    put_field(&mut buffer[at..], field);
    Ok(at + field_size(field))
}
