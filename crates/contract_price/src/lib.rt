// One contract's answer, by its row of the tables, the totals of the day's trades, its TWAP instrument's sum and the closes before it, rounded once.
// Hosts do not call it: what its functions ask of their caller, `six_answers` has from an accepted sheet.
#![tactic(auto)]

ghost use Rattle.std.specs.Prelude.{◌≡◌, ◌<◌};
ghost use Rattle.twap.specs.Span.{span_says};
ghost use Rattle.price_rules.specs.Closing.{twap_by, answered};
ghost use Rattle.price_rules.specs.Says.{answer_says};
ghost use Rattle.contract_price.specs.laws.Numbers.{Summable, mean_by, row_by, step_by};

use cents::rounded_close;
use market::{MINIMUM_LOTS, WINDOW, contract_of, is_marked, is_named, leg_of, step_by};
use price_rules::{
    Answer, Book, LentCloses, Mean, Method, Priced, Sum, Unpriced, implied_price, vwap_sum,
};

// The mean of the indicator over the window, applied to the other leg's close; none where there is no reference.
fn indicator_mean(marks: u16, closes: &LentCloses<'_>, i: u8, span: Option<i64>) -> Option<Mean>
    requires { Summable (span_says span) }
    ensures { result ≡ twap_by marks closes.now.cents.now i (span_says span) }
{
    let total = span?;
    let times = WINDOW as u64;
    Some(Mean {
        method: Method::Twap,
        sum: implied_price(closes, leg_of(i), is_marked(marks, i), times, total),
        weight: times,
    })
}

// VWAP at the minimum of lots or more, TWAP below.
fn mean_by_lots(
    marks: u16,
    closes: &LentCloses<'_>,
    i: u8,
    s: Sum,
    span: Option<i64>,
) -> Option<Mean>
    requires { Summable (span_says span) }
    ensures { result ≡ mean_by marks closes.now.cents.now i s (span_says span) }
{
    if MINIMUM_LOTS <= s.lots {
        Some(Mean {
            method: Method::Vwap,
            sum: s.sum,
            weight: s.lots,
        })
    } else {
        indicator_mean(marks, closes, i, span)
    }
}

// The rounded mean as an answer.
fn rounded(mean: Option<Mean>, lots: u64, step: u32) -> Answer
    ensures { answer_says result ≡ answered step lots mean }
{
    let mean = mean.ok_or(Unpriced::NoReference(lots))?;
    let close = rounded_close(mean.sum, mean.weight, step).ok_or(Unpriced::OutOfRange(lots))?;
    Ok(Priced {
        method: mean.method,
        close,
        lots,
    })
}

// One contract, by its row and the closes before it.
fn answer_by_row(book: &Book, closes: &LentCloses<'_>, span: Option<i64>, c: usize) -> Answer
    requires { Summable (span_says span) × (c < 6) }
    ensures { answer_says result ≡ row_by book.now.metal book.now.marks book.now.totals closes.now.cents.now (span_says span) c }
{
    let row = contract_of(c);
    let s = vwap_sum(book, closes, row.first, row.past);
    let mean = mean_by_lots(book.marks, closes, row.twap, s, span);
    rounded(mean, s.lots, step_by(book.metal, row.step))
}

// The answer of a contract, with what is known before it, the closes, whether a contract was refused, and 3M's answer: where 3M is that contract, 3M's.
pub fn price_one(
    book: &Book,
    closes: &LentCloses<'_>,
    stopped: bool,
    three: Answer,
    span: Option<i64>,
    c: usize,
) -> Answer
    requires { Summable (span_says span) × (c < 6) }
    ensures { answer_says result ≡ step_by book.now.metal book.now.marks book.now.third book.now.totals (span_says span) (record { closes = closes.now.cents.now; stopped = stopped; three = answer_says three }) c }
{
    if stopped {
        return Err(Unpriced::NotReached);
    }
    if is_named(book.third, c) {
        return three;
    }
    answer_by_row(book, closes, span, c)
}
