// A field's tag, its body's length and its size: the table of tags of SHEET 1.
#![tactic(auto, unfolding(crate::specs::Judging::both, crate::specs::Layout::tag_of, crate::specs::laws::Standing::stands))]

ghost use Rattle.std.specs.Prelude.{◌≡◌, ◌-◌};
ghost use Rattle.field.specs.Layout.{tag_right, length_of, size_of, form_tag, tag_of};
ghost use Rattle.field.specs.laws.Standing as Standing;

use crate::judge::is_within;
use crate::{Field, Form};
use wire::join2;

// The tags. They are compared with a sheet's bytes, which an enum would have to be made of first.
pub const HEADER: u8 = 1;

pub const PREVIOUS_CLOSE: u8 = 2;

pub const TRADE: u8 = 3;

pub const QUOTE: u8 = 4;

pub const END: u8 = 5;

pub const LONG_HEADER: u8 = 6;

// The lengths of the bodies, by tag; no tag is 0.
const LENGTHS: [u16; 7] = [0, 3, 5, 11, 14, 4, 4];

// Tags 1 to 6.
pub fn tag_right(tag: u8) -> bool
    ensures { result ≡ tag_right tag }
{
    is_within(1, 6, tag as u32)
}

// The length of a tag's body; 0 where there is no such tag, as in the table that the definitions have: it can't fail.
pub fn length_of(tag: u8) -> u16
    ensures { result ≡ length_of tag }
{
    LENGTHS.get(tag as usize).copied().unwrap_or(0)
}

// How many bytes a tag's head and body are.
pub fn size_of(tag: u8) -> usize
    ensures { result ≡ size_of tag }
{
    3 + length_of(tag) as usize
}

// The tag of a header of this form.
pub fn form_tag(form: Form) -> u8
    ensures { result ≡ form_tag form }
{
    match form {
        Form::Short => HEADER,
        Form::Long(_) => LONG_HEADER,
    }
}

// A field's tag.
pub fn tag_of(field: Field) -> u8
    ensures { result ≡ tag_of field }
{
    match field {
        Field::Header { form, .. } => form_tag(form),
        Field::PreviousClose { .. } => PREVIOUS_CLOSE,
        Field::Trade { .. } => TRADE,
        Field::Quote { .. } => QUOTE,
        Field::End { .. } => END,
    }
}

// How many bytes remain from a place on: none past the end.
pub fn remaining(len: usize, at: usize) -> usize
    ensures { result ≡ len - at }
{
    len.saturating_sub(at)
}

// Whether a tag, its length and so many bytes as its field has stand at a place: a head that earns no number.
pub fn stands(sheet: &[u8], at: usize, tag: u8) -> bool
    ensures { result ≡ Standing.stands sheet.now at tag }
{
    size_of(tag) <= remaining(sheet.len(), at)
        && sheet[at] == tag
        && join2(sheet[at + 1], sheet[at + 2]) == length_of(tag)
}
