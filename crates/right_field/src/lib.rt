// Whether a right field of a tag stands at a place of a sheet, judged by itself and its time put aside: one look at its bytes, and no field is made.
// What a field that is not right earns, `field_reader` and `admit` say. Hosts don't call it.
#![tactic(auto, unfolding(crate::specs::laws::Right::untimed))]

ghost use Rattle.std.specs.Prelude.{◌≡◌, ◌≤◌, length};
ghost use Rattle.field.specs.Layout.{length_of, header_by, previous_of, trade_of, quote_of, field_of};
ghost use Rattle.right_field.specs.laws.Right.{values_right, right_at};

use field::judge::{
    both_sides_right, by_itself, judge_header, judge_previous, judge_quote, judge_trade,
};
use field::layout::{size_of, stands};
use field::{Form, layout};
use raw_reader::price_at;
use wire::join2;

// The values of a body earn no number, by its tag. They are judged as numbers: where `field_of` makes a field of them first, a sheet takes 1.2 times as
// long to judge.
fn header_values(body: &[u8], form: Form) -> bool
    requires { 3 ≤ length body.now }
    ensures { result ≡ values_right (header_by form body.now) }
{
    judge_header(body[0], join2(body[1], body[2]), form).is_ok()
}

fn previous_values(body: &[u8]) -> bool
    requires { length body.now ≡ 5 }
    ensures { result ≡ values_right (previous_of body.now) }
{
    judge_previous(by_itself(), body[0], price_at(body, 1)).is_ok()
}

fn trade_values(body: &[u8]) -> bool
    requires { length body.now ≡ 11 }
    ensures { result ≡ values_right (trade_of body.now) }
{
    let price = price_at(body, 5);
    let lots = join2(body[9], body[10]);
    judge_trade(by_itself(), 0, body[4], price, lots).is_ok()
}

// Most quotes have both sides, and need fewer comparisons.
fn quote_values(body: &[u8]) -> bool
    requires { length body.now ≡ 14 }
    ensures { result ≡ values_right (quote_of body.now) }
{
    let instrument = body[4];
    let sides = body[5];
    let bid = price_at(body, 6);
    let offer = price_at(body, 10);
    if sides == 3 {
        both_sides_right(instrument, bid, offer)
    } else {
        judge_quote(by_itself(), 0, instrument, sides, bid, offer).is_ok()
    }
}

// The values of the body of a field of the tag earn no number.
#[tactic(auto, using(crate::specs::laws::Right::no_tag), unfolding(field::specs::Layout::field_of, field::specs::Judging::judge, crate::specs::laws::Right::untimed))]
fn body_values<const TAG: u8>(body: &[u8]) -> bool
    requires { length body.now ≡ length_of TAG }
    ensures { result ≡ values_right (field_of TAG body.now) }
{
    match TAG {
        layout::HEADER => header_values(body, Form::Short),
        layout::PREVIOUS_CLOSE => previous_values(body),
        layout::TRADE => trade_values(body),
        layout::QUOTE => quote_values(body),
        layout::END => true,
        layout::LONG_HEADER => header_values(body, Form::Long(body[3])),
        _ => false,
    }
}

// A right field of the tag stands at the place. The tag is known when a program is compiled, so that each has its own tests and no others.
#[tactic(auto, unfolding(field::specs::laws::Standing::stands, field::specs::Judging::both))]
pub fn right_at<const TAG: u8>(sheet: &[u8], at: usize) -> bool
    ensures { result ≡ right_at sheet.now at TAG }
{
    stands(sheet, at, TAG) && body_values::<TAG>(&sheet[at + 3..at + size_of(TAG)])
}
