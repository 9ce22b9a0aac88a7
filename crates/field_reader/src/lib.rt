// Reads one field at a place of a sheet: its values with the place behind it, or the first fault that it earns; and its body as a part of the sheet.
#![tactic(auto, using(crate::specs::laws::Heads::given_read, crate::specs::laws::Heads::fault_read), unfolding(field::specs::Judging::unless, field::specs::Judging::both, field::specs::Said::settled, field::specs::Reading::head_number, field::specs::Reading::shape_at, field::specs::Reading::read_field))]

ghost use Rattle.std.specs.Prelude.{◌≡◌, get_or};
ghost use Rattle.field.specs.Said.{found, read_says};
ghost use Rattle.field.specs.Reading.{head_number, shape_at, read_field, body_of};
ghost use Rattle.field_reader.specs.laws.Heads.{said_at};

use field::judge::{by_itself, judge, require};
use field::layout::{length_of, remaining, size_of, tag_right};
use field::{Fault, Field, Refusal, layout};
use raw_reader::field_of;
use wire::join2;

// What the head at a place earns under a tag: 2 where it is not whole, then 3, 4, and 2 for the body.
fn judge_head(sheet: &[u8], at: usize, tag: u8) -> Result<(), Fault>
    ensures { found result ≡ head_number sheet.now at tag }
{
    let rest = remaining(sheet.len(), at);
    if rest < 3 {
        return Err(Fault::Bytes);
    }
    require(tag_right(tag), Fault::Tag)?;
    let told = join2(sheet[at + 1], sheet[at + 2]);
    require(told == length_of(tag), Fault::Length)?;
    require(size_of(tag) <= rest, Fault::Bytes)
}

// The field at a place, its values not yet judged.
pub fn shape_at(sheet: &[u8], at: usize) -> Result<(Field, usize), Refusal>
    ensures { read_says result ≡ shape_at sheet.now at }
{
    let tag = sheet.get(at).copied().unwrap_or(0);
    judge_head(sheet, at, tag).map_err(|fault| Refusal { fault, at })?;
    let next = at + size_of(tag);
    Ok((field_of(tag, &sheet[at + 3..next]), next))
}

// The field at a place where the tag stands. The tag is known when a program is compiled, so that each has its own tests and no others, and no field
// passes through memory before it is right.
fn field_as<const TAG: u8>(sheet: &[u8], at: usize) -> Result<(Field, usize), Fault>
    requires { get_or sheet.now at 0 ≡ TAG }
    ensures { said_at at result ≡ read_field sheet.now at }
{
    judge_head(sheet, at, TAG)?;
    let next = at + size_of(TAG);
    let field = field_of(TAG, &sheet[at + 3..next]);
    judge(by_itself(), field)?;
    Ok((field, next))
}

// The same by the tag that stands there: first those that most fields have.
fn field_at(sheet: &[u8], at: usize) -> Result<(Field, usize), Fault>
    ensures { said_at at result ≡ read_field sheet.now at }
{
    if remaining(sheet.len(), at) < 3 {
        return Err(Fault::Bytes);
    }
    match sheet[at] {
        layout::TRADE => field_as::<{ layout::TRADE }>(sheet, at),
        layout::QUOTE => field_as::<{ layout::QUOTE }>(sheet, at),
        layout::PREVIOUS_CLOSE => field_as::<{ layout::PREVIOUS_CLOSE }>(sheet, at),
        layout::HEADER => field_as::<{ layout::HEADER }>(sheet, at),
        layout::END => field_as::<{ layout::END }>(sheet, at),
        layout::LONG_HEADER => field_as::<{ layout::LONG_HEADER }>(sheet, at),
        _ => Err(Fault::Tag),
    }
}

// The field at a place, its values judged by themselves. Through `shape_at`, which does not know the tag, it takes twice as long.
pub fn read_field(sheet: &[u8], at: usize) -> Result<(Field, usize), Refusal>
    ensures { read_says result ≡ read_field sheet.now at }
{
    field_at(sheet, at).map_err(|fault| Refusal { fault, at })
}

// The body of the field at a place, as a part of the sheet; an empty part where read_field refuses.
pub fn field_body<'a>(sheet: &'a [u8], at: usize) -> &'a [u8]
    ensures { result.now ≡ body_of sheet.now at }
{
    match read_field(sheet, at) {
        Ok((_, next)) => &sheet[at + 3..next],
        Err(_) => &sheet[..0],
    }
}
