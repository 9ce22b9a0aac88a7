// A field's values from the bytes of its body. Hosts do not call it: it asks that the tag is right and the body as long as the tag says, which its
// callers know.
#![tactic(auto)]

ghost use Rattle.std.specs.Prelude.{◌≡◌, true, ◌+◌, ◌≤◌, length};
ghost use Rattle.field.specs.Layout.{tag_right, length_of, header_by, previous_of, trade_of, quote_of, end_of, price_at, field_of};

use field::{Field, Form, Price, layout};
use wire::{join2, join4, signed_of};

// The price at a place of a body.
pub fn price_at(body: &[u8], at: usize) -> Price
    requires { at + 4 ≤ length body.now }
    ensures { result ≡ price_at body.now at }
{
    Price {
        cents: signed_of(join4(body[at], body[at + 1], body[at + 2], body[at + 3])),
    }
}

fn header_by(form: Form, body: &[u8]) -> Field
    requires { 3 ≤ length body.now }
    ensures { result ≡ header_by form body.now }
{
    Field::Header {
        metal: body[0],
        marks: join2(body[1], body[2]),
        form,
    }
}

// The values of a previous close's body: a pass that knows the tag asks for no other. It, the next two and the end's are four functions, since each kind
// has values of its own.
pub fn previous_of(body: &[u8]) -> Field
    requires { length body.now ≡ 5 }
    ensures { result ≡ previous_of body.now }
{
    Field::PreviousClose {
        instrument: body[0],
        price: price_at(body, 1),
    }
}

// The same of a trade's body.
pub fn trade_of(body: &[u8]) -> Field
    requires { length body.now ≡ 11 }
    ensures { result ≡ trade_of body.now }
{
    Field::Trade {
        time: join4(body[0], body[1], body[2], body[3]),
        instrument: body[4],
        price: price_at(body, 5),
        lots: join2(body[9], body[10]),
    }
}

// The same of a quote's body.
pub fn quote_of(body: &[u8]) -> Field
    requires { length body.now ≡ 14 }
    ensures { result ≡ quote_of body.now }
{
    Field::Quote {
        time: join4(body[0], body[1], body[2], body[3]),
        instrument: body[4],
        sides: body[5],
        bid: price_at(body, 6),
        offer: price_at(body, 10),
    }
}

// The values of an end's body.
pub fn end_of(body: &[u8]) -> Field
    requires { length body.now ≡ 4 }
    ensures { result ≡ end_of body.now }
{
    Field::End {
        count: join4(body[0], body[1], body[2], body[3]),
    }
}

// The values of a tag's body. In line: a caller that knows the tag has that tag's values and no others.
#[inline(always)]
#[tactic(auto, unfolding(field::specs::Layout::field_of, field::specs::Judging::both))]
pub fn field_of(tag: u8, body: &[u8]) -> Field
    requires { (tag_right tag ≡ true) × (length body.now ≡ length_of tag) }
    ensures { result ≡ field_of tag body.now }
{
    match tag {
        layout::HEADER => header_by(Form::Short, body),
        layout::PREVIOUS_CLOSE => previous_of(body),
        layout::TRADE => trade_of(body),
        layout::QUOTE => quote_of(body),
        layout::END => end_of(body),
        _ => header_by(Form::Long(body[3]), body),
    }
}
