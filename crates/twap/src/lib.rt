// What a contract's TWAP needs of each instrument: the sum of its indicator over its window, or that it has no reference. One pass from record to
// record for all instruments. Hosts don't call it.
#![tactic(auto)]

ghost use Rattle.std.specs.Prelude.{◌≡◌, ◌≤◌, ◌*◌, nat_abs, length};
ghost use Rattle.field.specs.Layout.{size_of};
ghost use Rattle.field.specs.Reading.{body_at};
ghost use Rattle.field.specs.laws.Field.{Headed};
ghost use Rattle.sheet.specs.Fields.{fields_of};
ghost use Rattle.sheet.specs.laws.ByInstrument.{Filled, Kept};
ghost use Rattle.twap.specs.Span.{span_says, Accepted, Sums};
ghost use Rattle.twap.specs.laws.Pass.{priced_of};
ghost use Rattle.twap.specs.laws.Lines.{stamp_of, tells, with_span, new_line, new_lines, line_with, line_of, line_sum, Fair};

use field::layout::size_of;
use field::{Field, Price, layout};
use indicator::{Indicator, take_field};
use market::{Metal, WINDOW, metal_of, start_in};
use raw_reader::{previous_of, quote_of, trade_of};

// What a field is to its instrument besides its prices.
#[derive(Clone, Copy)]
pub struct Stamp {
    pub instrument: u8,
    pub time: u32,
    pub refers: bool,
}

// An instrument's line: the indicator's state, whether it had a reference at the window's start, the millisecond at which its open span begins, and
// the sum over the spans before that.
#[derive(Clone, Copy)]
pub struct Line {
    pub state: Indicator,
    pub told: bool,
    pub since: u32,
    pub total: i64,
}

// The stamp of a field that is of an instrument: the millisecond from which it counts is a record's time, and 0 for a previous close, which counts all
// day. A header and an end have none.
fn stamp_of(field: Field) -> Option<Stamp>
    ensures { result ≡ stamp_of field }
{
    match field {
        Field::PreviousClose { instrument, .. } => Some(Stamp {
            instrument,
            time: 0,
            refers: true,
        }),
        Field::Trade {
            time,
            instrument,
            ..
        } => Some(Stamp {
            instrument,
            time,
            refers: true,
        }),
        Field::Quote {
            time,
            instrument,
            ..
        } => Some(Stamp {
            instrument,
            time,
            refers: false,
        }),
        Field::Header { .. } | Field::End { .. } => None,
    }
}

// Whether a field gives its instrument a reference by a start.
fn tells_by(start: u32, stamp: Stamp) -> bool
    ensures { result ≡ tells start stamp }
{
    stamp.refers && stamp.time <= start
}

// The total with a span more: so many milliseconds times a side; one that is absent counts 0.
fn plus(total: i64, side: Option<Price>, milliseconds: u32) -> i64
    requires { (nat_abs total ≤ 300000 * 99999999) × (milliseconds ≤ 300000) }
    ensures { result ≡ with_span total side milliseconds }
{
    match side {
        Some(price) => total + milliseconds as i64 * price.cents as i64,
        None => total,
    }
}

impl Line {
    // Before any field.
    fn new(start: u32) -> Self
        ensures { result ≡ new_line start }
    {
        Line {
            state: Indicator::empty(),
            told: false,
            since: start,
            total: 0,
        }
    }

    // The line with one of its instrument's fields more. The open span ends at the field's time: not before it began, and not behind the window.
    fn with(self, start: u32, stamp: Stamp, field: Field) -> Self
        requires { Fair start self × (start ≤ 60900000) × (stamp_of field ≡ Some stamp) }
        ensures { result ≡ line_with stamp.instrument start self field }
    {
        let to = stamp.time.clamp(self.since, start + WINDOW);
        Line {
            state: take_field(self.state, stamp.instrument, field),
            told: self.told || tells_by(start, stamp),
            since: to,
            total: plus(self.total, self.state.value(), to - self.since),
        }
    }

    // What it comes to with its last span, up to the window's end.
    fn sum(self, start: u32) -> Option<i64>
        requires { Fair start self × (start ≤ 60900000) }
        ensures { span_says result ≡ line_sum start self }
    {
        if self.told {
            let left = start + WINDOW - self.since;
            Some(plus(self.total, self.state.value(), left))
        } else {
            None
        }
    }
}

// The twelve lines before any field.
fn new_lines(row: Metal) -> [Line; 12]
    ensures { result ≡ new_lines row }
{
    let mut lines = [Line::new(row.spread); 12];
    lines[0] = Line::new(row.anchor);
    lines
}

// How many bytes a tag's field has. Those of trades and quotes stand in branches of their own, so that no place waits for the table.
fn bytes_of(tag: u8) -> usize
    ensures { result ≡ size_of tag }
{
    match tag {
        layout::TRADE => 14,
        layout::QUOTE => 17,
        _ => size_of(tag),
    }
}

// The field of an instrument whose head and body are known to stand at a place: a trade, a quote or a previous close; none for any other, of which
// nothing is kept.
fn field_here(sheet: &[u8], at: usize, tag: u8) -> Option<Field>
    requires { Headed sheet.now at tag }
    ensures { result ≡ priced_of tag (body_at sheet.now at tag) }
{
    let body = &sheet[at + 3..at + bytes_of(tag)];
    match tag {
        layout::TRADE => Some(trade_of(body)),
        layout::QUOTE => Some(quote_of(body)),
        layout::PREVIOUS_CLOSE => Some(previous_of(body)),
        _ => None,
    }
}

// The twelve lines of a sheet that fields fill to its end. A `while`: the next place is a field's size further on.
fn lines_of(sheet: &[u8], metal: u8) -> [Line; 12]
    requires { Filled sheet.now × (length sheet.now ≤ 1048576) }
    ensures { Kept (line_of metal) (new_line 0) (fields_of sheet.now) result }
{
    let row = metal_of(metal);
    let mut lines = new_lines(row);
    let mut at = 0;
    while at < sheet.len() {
        let tag = sheet[at];
        if let Some(field) = field_here(sheet, at, tag)
            && let Some(stamp) = stamp_of(field)
        {
            let i = stamp.instrument as usize;
            lines[i] = lines[i].with(start_in(row, stamp.instrument), stamp, field);
        }
        at += bytes_of(tag);
    }
    lines
}

// The sum of each instrument's indicator, 0 to 11, over its window, in an accepted sheet; none where there is no reference at its first millisecond.
pub fn sums_of(sheet: &[u8], metal: u8) -> [Option<i64>; 12]
    requires { Accepted sheet.now }
    ensures { Sums metal (fields_of sheet.now) result }
{
    let row = metal_of(metal);
    let lines = lines_of(sheet, metal);
    let mut sums = [None; 12];
    for i in 0..12u8 {
        let k = i as usize;
        sums[k] = lines[k].sum(start_in(row, i));
    }
    sums
}
