// What the closing list of a day sheet is; in code its lines, each put behind a text: a contract's, the six in pricing order, and a refusal's.
#![tactic(auto)]

ghost use Rattle.std.specs.Prelude.{◌≡◌, ◌∷◌, []};
ghost use Rattle.text.specs.Held.{held, held_by, kept, ◌⊕◌};
ghost use Rattle.text.specs.Decimal.{decimal};
ghost use Rattle.price_rules.specs.Says.{answer_says, closings_say};
ghost use Rattle.list_lines.specs.Listing.{space, line, refusal, answer_items, answer_line, answer_lines};

use names::{put_contract, put_method};
use price_rules::{Answer, SixAnswers, Unpriced};
use text::Text;

// The two numbers that end a line.
fn put_two(t: Text, a: u64, b: u64) -> Option<Text>
    ensures { held_by result ≡ kept (held t ⊕ (space ∷ line (decimal a ∷ decimal b ∷ []))) }
{
    t.put(b" ")?.number(a)?.put(b" ")?.number(b)?.put(b"\n")
}

// A refusal's number, with the lots or the byte.
pub fn put_refusal(t: Text, number: u8, n: u64) -> Option<Text>
    ensures { held_by result ≡ kept (held t ⊕ line (refusal number n)) }
{
    put_two(t.put(b"refused")?, number as u64, n)
}

// What stands behind the contract on its line. Why there is no close is told in its type; 13 to 15 are the numbers of RULES 9, as they are printed.
fn put_answer(t: Text, answer: Answer) -> Option<Text>
    ensures { held_by result ≡ kept (held t ⊕ line (answer_items (answer_says answer))) }
{
    match answer {
        Ok(priced) => put_two(
            put_method(t, priced.method)?,
            priced.close as u64,
            priced.lots,
        ),
        Err(Unpriced::NoReference(lots)) => put_refusal(t, 13, lots),
        Err(Unpriced::OutOfRange(lots)) => put_refusal(t, 14, lots),
        Err(Unpriced::NotReached) => put_refusal(t, 15, 0),
    }
}

// A contract's line.
fn put_line(t: Text, contract: usize, answer: Answer) -> Option<Text>
    ensures { held_by result ≡ kept (held t ⊕ answer_line contract (answer_says answer)) }
{
    put_answer(put_contract(t, contract)?.put(b" ")?, answer)
}

// The six lines in pricing order.
pub fn put_lines(t: Text, k: SixAnswers) -> Option<Text>
    ensures { held_by result ≡ kept (held t ⊕ answer_lines 0 (closings_say k)) }
{
    let answers = [k.three, k.m3, k.m2, k.m4, k.m1, k.cash];
    let mut text = t;
    for (contract, answer) in answers.iter().enumerate() {
        text = put_line(text, contract, *answer)?;
    }
    Some(text)
}
