// The definitions of the six answers, and the sums that they are priced from: lots, and lots times implied price. Hosts do not call it: what
// its functions ask of their caller, `six_answers` has from an accepted sheet.
#![tactic(auto)]

ghost use Rattle.std.specs.Prelude.{◌≡◌, ◌-◌, ◌*◌, ◌≤◌, ◌<◌, pos, nat_abs};
ghost use Rattle.price_rules.specs.Closing.{applied, less_of, base_of, nothing_known, learnt};
ghost use Rattle.price_rules.specs.Says.{answer_says, known_says};
ghost use Rattle.price_rules.specs.laws.Sizes.{Small};
ghost use Rattle.price_rules.specs.laws.Adding.{Within, total_at, add_instrument, sum_by};

mod lent;

use field::Refusal;
pub use lent::{Book, Closes, LentCloses};
use market::{Leg, is_marked, leg_of};
use sheet::Day;

#[derive(Clone, Copy)]
pub enum Method {
    Vwap,
    Twap,
}

// A contract's close, and what it was priced by. Lots are the sum over its VWAP instruments in the window.
#[derive(Clone, Copy)]
pub struct Priced {
    pub method: Method,
    pub close: u32,
    pub lots: u64,
}

// Why a contract has no close, with the same lots.
#[derive(Clone, Copy)]
pub enum Unpriced {
    // Below the minimum of lots, and no reference at the window's first millisecond.
    NoReference(u64),
    // Rounded, it is no close from 1 to 99,999,999.
    OutOfRange(u64),
    // An earlier contract was refused.
    NotReached,
}

// A contract's answer.
pub type Answer = Result<Priced, Unpriced>;

// The answers in pricing order. By name, and no array: what is said of every value of the type, as the length of its list, is said of six.
#[derive(Clone, Copy)]
pub struct SixAnswers {
    pub three: Answer,
    pub m3: Answer,
    pub m2: Answer,
    pub m4: Answer,
    pub m1: Answer,
    pub cash: Answer,
}

// The six answers of an accepted sheet with what its header says, or the sheet's refusal.
pub type Closed = Result<(Day, SixAnswers), Refusal>;

// What is known before a contract: the closes established so far, whether a contract was refused, and 3M's answer.
#[derive(Clone, Copy)]
pub struct Known {
    pub closes: Closes,
    pub stopped: bool,
    pub three: Answer,
}

// Lots, and the sum of lots times implied price.
#[derive(Clone, Copy)]
pub struct Sum {
    pub lots: u64,
    pub sum: i64,
}

// What is divided by what.
#[derive(Clone, Copy)]
pub struct Mean {
    pub method: Method,
    pub sum: i64,
    pub weight: u64,
}

impl Known {
    // Before the first contract.
    pub fn nothing() -> Self
        ensures { known_says result ≡ nothing_known }
    {
        Known {
            closes: Closes::none(),
            stopped: false,
            three: Err(Unpriced::NotReached),
        }
    }

    // Behind a contract's answer.
    pub fn learn(self, contract: usize, answer: Answer) -> Self
        requires { (contract < 6) × Small (answer_says answer) }
        ensures { known_says result ≡ learnt (known_says self) contract (answer_says answer) }
    {
        let (closes, stopped) = match answer {
            Ok(priced) => (self.closes.establish(contract, priced.close), false),
            Err(_) => (self.closes, true),
        };
        let three = if contract == 0 { answer } else { self.three };
        Known {
            closes,
            stopped,
            three,
        }
    }
}

// Whether a quoted price is subtracted from the other leg's close, and not added.
fn less(leg: Leg, mark: bool) -> bool
    ensures { result ≡ less_of leg mark }
{
    match leg {
        Leg::Outright => false,
        Leg::Over(_) => mark,
        Leg::Under(_) => !mark,
    }
}

// So many times the close, and the value added or subtracted.
fn apply(times: u64, close: u32, less: bool, value: i64) -> i64
    requires { (times ≤ 10485760000) × (close ≤ 99999999) × (nat_abs value ≤ 1048576000000000000) }
    ensures { result ≡ applied less (pos (times * close)) value }
{
    let b = (times * close as u64) as i64;
    if less { b - value } else { b + value }
}

// An instrument's part in a sum, by its leg and its mark: so many times the other leg's close, with its value as quoted.
pub fn implied_price(closes: &LentCloses<'_>, leg: Leg, mark: bool, times: u64, value: i64) -> i64
    requires { (times ≤ 10485760000) × (nat_abs value ≤ 1048576000000000000) }
    ensures { result ≡ applied (less_of leg mark) (pos (times * base_of closes.now.cents.now leg)) value }
{
    apply(times, closes.under(leg), less(leg, mark), value)
}

impl Sum {
    // The sum with one instrument more.
    fn with_instrument(self, book: &Book, closes: &LentCloses<'_>, i: u8) -> Self
        requires { Within 3 self × (i < 12) }
        ensures { result ≡ add_instrument book.now.marks closes.now.cents.now self i (total_at book.now.totals i) }
    {
        let total = book.totals[i as usize];
        let mark = is_marked(book.marks, i);
        Sum {
            lots: self.lots + total.lots,
            sum: self.sum + implied_price(closes, leg_of(i), mark, total.lots, total.value),
        }
    }
}

// The sum over the instruments from first on, below past.
pub fn vwap_sum(book: &Book, closes: &LentCloses<'_>, first: u8, past: u8) -> Sum
    requires { (first ≤ past) × (past - first ≤ 4) × (past ≤ 12) }
    ensures { result ≡ sum_by book.now.marks closes.now.cents.now book.now.totals first (past - first) }
{
    let mut sum = Sum { lots: 0, sum: 0 };
    for i in first..past {
        sum = sum.with_instrument(book, closes, i);
    }
    sum
}
