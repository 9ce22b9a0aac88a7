// The fields of a day sheet one after the other. Hosts don't call it. Whether a field may come next, by its place, its values and the end's count,
// and what is kept behind it.
#![tactic(auto, unfolding(crate::specs::Admitting::previous_placed, crate::specs::Admitting::placed, crate::specs::Admitting::count_number, crate::specs::Admitting::admit_number, crate::specs::Admitting::admitted, field::specs::Judging::both, field::specs::Judging::unless, field::specs::Judging::also))]

ghost use Rattle.std.specs.Prelude.{◌≡◌, ◌<◌, Ok};
ghost use Rattle.field.specs.Said.{found};
ghost use Rattle.admit.specs.Admitting.{start, before_of, placed, count_number, admit_number, admitted, admit_says};
ghost use Rattle.admit.specs.Admitting as Admitting;

use field::judge::{judge, require, third_of};
use field::{Before, Fault, Field, Form};

// What is kept between two fields. stage 0: a header comes next; 1: previous closes may still come; 2: trades and quotes only. metal, marks and
// form are the header's. A previous close's instrument is at least instrument, a record's time at least time. count: the fields so far.
// The stage is a number: `admit` says what comes behind any, and an enum would take fewer.
#[derive(Clone, Copy)]
pub struct Progress {
    pub stage: u8,
    pub metal: u8,
    pub marks: u16,
    pub form: Form,
    pub instrument: u16,
    pub time: u32,
    pub count: u32,
}

// A field that may come next, with what is kept behind it, or the right end field, which is no absence of one.
#[derive(Clone, Copy)]
pub enum Admitted {
    Next(Progress),
    Ended,
}

// Before the first field.
pub fn begin() -> Progress
    ensures { result ≡ start }
{
    Progress {
        stage: 0,
        metal: 0,
        marks: 0,
        form: Form::Short,
        instrument: 0,
        time: 0,
        count: 0,
    }
}

// Previous closes come with rising instrument, before any trade or quote.
pub fn previous_placed(p: Progress, instrument: u8) -> bool
    ensures { result ≡ Admitting.previous_placed p instrument }
{
    p.stage == 1 && p.instrument <= instrument as u16
}

// The field is in its place.
fn is_placed(p: Progress, field: Field) -> bool
    ensures { result ≡ placed p field }
{
    match field {
        Field::Header { .. } => p.stage == 0,
        Field::PreviousClose { instrument, .. } => previous_placed(p, instrument),
        Field::Trade { .. } | Field::Quote { .. } | Field::End { .. } => 1 <= p.stage,
    }
}

// The end field counts the fields before it.
fn check_count(p: Progress, field: Field) -> Result<(), Fault>
    ensures { found result ≡ count_number p field }
{
    match field {
        Field::End { count } => require(count == p.count, Fault::Count),
        _ => Ok(()),
    }
}

// What came before the next field.
fn before_of(p: Progress) -> Before
    ensures { result ≡ before_of p }
{
    Before {
        third: third_of(p.form),
        time: p.time,
    }
}

// What a field earns where it stands: 1, 5, the values' number, or 12.
fn check(p: Progress, field: Field) -> Result<(), Fault>
    ensures { found result ≡ admit_number p field }
{
    require(p.count < 1_048_576, Fault::Long)?;
    require(is_placed(p, field), Fault::Place)?;
    judge(before_of(p), field)?;
    check_count(p, field)
}

// What is kept behind a previous close.
pub fn after_previous(p: Progress, instrument: u8) -> Progress
    requires { p.count < 1048576 }
    ensures { result ≡ Admitting.after_previous p instrument }
{
    Progress {
        stage: 1,
        instrument: instrument as u16 + 1,
        count: p.count + 1,
        ..p
    }
}

// What is kept behind a trade or a quote.
pub fn after_record(p: Progress, time: u32) -> Progress
    requires { p.count < 1048576 }
    ensures { result ≡ Admitting.after_record p time }
{
    Progress {
        stage: 2,
        time,
        count: p.count + 1,
        ..p
    }
}

// What is kept behind the header.
pub fn after_header(p: Progress, metal: u8, marks: u16, form: Form) -> Progress
    requires { p.count < 1048576 }
    ensures { result ≡ Admitting.after_header p metal marks form }
{
    Progress {
        stage: 1,
        metal,
        marks,
        form,
        count: p.count + 1,
        ..p
    }
}

// A field that earned no number: what is kept behind it, or the end.
fn taken(p: Progress, field: Field) -> Admitted
    requires { p.count < 1048576 }
    ensures { admit_says (Ok result) ≡ admitted p field }
{
    match field {
        Field::Header { metal, marks, form } => {
            Admitted::Next(after_header(p, metal, marks, form))
        }
        Field::PreviousClose { instrument, .. } => Admitted::Next(after_previous(p, instrument)),
        Field::Trade { time, .. } | Field::Quote { time, .. } => {
            Admitted::Next(after_record(p, time))
        }
        Field::End { .. } => Admitted::Ended,
    }
}

// Whether a field may come next.
pub fn admit(p: Progress, field: Field) -> Result<Admitted, Fault>
    ensures { admit_says result ≡ Admitting.admit p field }
{
    check(p, field)?;
    Ok(taken(p, field))
}
