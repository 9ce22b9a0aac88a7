// The six answers of a day sheet: 3M, M3, M2, M4, M1 and Cash, each with its method, close and lots, or a numbered refusal. One step for all
// contracts, each with the closes before it.
#![tactic(auto)]

ghost use Rattle.std.specs.Prelude.{◌≡◌, ◌-◌, ◌≤◌, ◌<◌};
ghost use Rattle.sheet.specs.Fields.{fields_of};
ghost use Rattle.twap.specs.Span.{Accepted};
ghost use Rattle.price_rules.specs.Closing.{closings_of, answers_of};
ghost use Rattle.price_rules.specs.Says.{closings_say, closed_says};
ghost use Rattle.six_answers.specs.laws.Ready.{Ready, figures_by};
ghost use Rattle.six_answers.specs.laws.Asking.{lots_from, asks, some_ask, Provided};

use contract_price::price_one;
use field::judge::third_of;
use market::{MINIMUM_LOTS, contract_of, is_named};
use price_rules::{Book, Closed, Known, SixAnswers, Unpriced};
use trades::totals;
use twap::sums_of;

// The lots of the instruments from first on, below past.
fn lots_over(book: &Book, first: u8, past: u8) -> u64
    requires { (first ≤ past) × (past ≤ 12) }
    ensures { result ≡ lots_from book.now.totals first (past - first) }
{
    let mut sum = 0;
    for i in first..past {
        sum += book.totals[i as usize].lots;
    }
    sum
}

// Whether a contract is to be priced from an indicator: it has fewer lots than the minimum, over all its VWAP instruments together, and 3M is not
// that contract.
fn asks_indicator(book: &Book, c: usize) -> bool
    requires { c < 6 }
    ensures { result ≡ asks book.now.third book.now.totals c }
{
    let row = contract_of(c);
    !is_named(book.third, c) && lots_over(book, row.first, row.past) < MINIMUM_LOTS
}

// Whether one of the six is. A `for` that returns: of `any` the check finds no proof.
fn some_ask(book: &Book) -> bool
    ensures { result ≡ some_ask book.now.third book.now.totals 6 }
{
    for contract in 0..6 {
        if asks_indicator(book, contract) {
            return true;
        }
    }
    false
}

// The sums of the indicators where they are asked for; else the sheet is not gone over for them.
fn sums_if(sheet: &[u8], metal: u8, asked: bool) -> [Option<i64>; 12]
    requires { Accepted sheet.now }
    ensures { Provided asked metal (fields_of sheet.now) result }
{
    if asked {
        sums_of(sheet, metal)
    } else {
        [None; 12]
    }
}

// The six contracts in pricing order, each with what is known before it.
fn price_all(sheet: &[u8], book: &Book) -> SixAnswers
    requires { Ready sheet.now book.now }
    ensures { closings_say result ≡ closings_of (figures_by sheet.now book.now) }
{
    let sums = sums_if(sheet, book.metal, some_ask(book));
    let mut known = Known::nothing();
    let mut six = [Err(Unpriced::NotReached); 6];
    for c in 0..6 {
        let row = contract_of(c);
        let span = sums[row.twap as usize];
        let closes = known.closes.lent();
        let answer = price_one(book, &closes, known.stopped, known.three, span, c);
        known = known.learn(c, answer);
        six[c] = answer;
    }
    SixAnswers {
        three: six[0],
        m3: six[1],
        m2: six[2],
        m4: six[3],
        m1: six[4],
        cash: six[5],
    }
}

// The six answers of a sheet, or its refusal.
pub fn closings(sheet: &[u8]) -> Closed
    ensures { closed_says result ≡ answers_of sheet.now }
{
    let traded = totals(sheet)?;
    let day = traded.day;
    let totals = traded.totals;
    let book = Book {
        metal: day.metal,
        marks: day.marks,
        third: third_of(day.form),
        totals,
    };
    Ok((day, price_all(sheet, &book)))
}
