// A field's head and body as bytes at the start of a lent part, by small big-endian writers. Hosts do not call it: it asks that the part has room
// for them, which `field_writer` has tested.
#![tactic(auto, unfolding(wire::specs::Big::put, field::specs::Layout::tag_of, field::specs::Layout::body_bytes))]

ghost use Rattle.std.specs.Prelude.{◌≡◌, [], ◌∷◌, ◌++◌, ◌+◌, ◌≤◌, length};
ghost use Rattle.wire.specs.Big.{bytes4, put};
ghost use Rattle.field.specs.Layout.{length_of, tag_of, head_bytes, form_bytes, body_bytes, field_bytes, price_bytes};
ghost use Rattle.field.specs.Writing.{field_size};

use field::layout::{length_of, tag_of};
use field::{Field, Form, Price};
use wire::{put_signed, put1, put2, put4};

fn put_head(part: &mut [u8], tag: u8)
    requires { 3 ≤ length part.old }
    ensures { part.new ≡ put (head_bytes tag) part.old }
{
    let len = length_of(tag);
    put1(part, tag);
    put2(&mut part[1..], len);
}

// What a long header has behind a short one.
fn put_form(part: &mut [u8], form: Form)
    ensures { part.new ≡ put (form_bytes form) part.old }
{
    match form {
        Form::Short => {}
        Form::Long(third) => put1(part, third),
    }
}

fn put_price(part: &mut [u8], price: Price)
    ensures { part.new ≡ put (price_bytes price) part.old }
{
    put_signed(part, price.cents);
}

fn put_stamp(part: &mut [u8], time: u32, instrument: u8)
    requires { 5 ≤ length part.old }
    ensures { part.new ≡ put (bytes4 time ++ instrument ∷ []) part.old }
{
    put4(part, time);
    put1(&mut part[4..], instrument);
}

fn put_sides(part: &mut [u8], sides: u8, bid: Price, offer: Price)
    requires { 9 ≤ length part.old }
    ensures { part.new ≡ put (sides ∷ price_bytes bid ++ price_bytes offer) part.old }
{
    put1(part, sides);
    put_price(&mut part[1..], bid);
    put_price(&mut part[5..], offer);
}

fn put_body(part: &mut [u8], field: Field)
    requires { length_of (tag_of field) ≤ length part.old }
    ensures { part.new ≡ put (body_bytes field) part.old }
{
    match field {
        Field::Header { metal, marks, form } => {
            put1(part, metal);
            put2(&mut part[1..], marks);
            put_form(&mut part[3..], form);
        }
        Field::PreviousClose { instrument, price } => {
            put1(part, instrument);
            put_price(&mut part[1..], price);
        }
        Field::Trade {
            time,
            instrument,
            price,
            lots,
        } => {
            put_stamp(part, time, instrument);
            put_price(&mut part[5..], price);
            put2(&mut part[9..], lots);
        }
        Field::Quote {
            time,
            instrument,
            sides,
            bid,
            offer,
        } => {
            put_stamp(part, time, instrument);
            put_sides(&mut part[5..], sides, bid, offer);
        }
        Field::End { count } => put4(part, count),
    }
}

// The bytes of a field at the start of a part.
pub fn put_field(part: &mut [u8], field: Field)
    requires { field_size field ≤ length part.old }
    ensures { part.new ≡ put (field_bytes field) part.old }
{
    let tag = tag_of(field);
    put_head(part, tag);
    put_body(&mut part[3..], field);
}
