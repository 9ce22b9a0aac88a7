// A whole day sheet: accepted, with the header's values and the number of fields, or one refusal with its byte. Its laws serve every pass over a
// sheet's bytes.
#![tactic(auto, unfolding(crate::specs::Judgement::at_end, crate::specs::laws::Past::size_by, crate::specs::laws::Past::form_in, field::specs::Judging::both))]

ghost use Rattle.std.specs.Prelude.{◌≡◌, ◌+◌, ◌<◌, ◌≤◌, length, get_or, IfSome, IfNone, Some};
ghost use Rattle.wire.specs.Big.{be2_at, be4_at};
ghost use Rattle.field.specs.Judging.{both, third_of, allowed};
ghost use Rattle.admit.specs.Admitting.{start, after_header, previous_placed};
ghost use Rattle.sheet.specs.Judgement.{at_end, judge_sheet, judged_says};
ghost use Rattle.sheet.specs.laws.Track.{OnTrack};
ghost use Rattle.sheet.specs.laws.Past.{size_by, form_in, some_size, right_size, record_size, Opened, Nearly};

use admit::{
    Admitted, Progress, admit, after_header, after_previous, after_record, begin, previous_placed,
};
use field::judge::{is_allowed, third_of};
use field::layout::stands;
use field::{Fault, Form, Refusal, layout};
use field_reader::shape_at;
use right_field::right_at;
use wire::{join2, join4};

// What an accepted sheet's header says, and how many fields it has, the end with them.
#[derive(Clone, Copy)]
pub struct Day {
    pub metal: u8,
    pub marks: u16,
    pub form: Form,
    pub fields: u32,
}

// A place in a sheet, and what is kept of the fields before it.
#[derive(Clone, Copy)]
struct Reached {
    at: usize,
    progress: Progress,
}

// Behind a right end no byte may follow.
fn at_end(len: usize, next: usize, p: Progress) -> Result<Day, Refusal>
    requires { p.count < 1048576 }
    ensures { judged_says result ≡ at_end len next p }
{
    if next != len {
        return Err(Refusal {
            fault: Fault::Place,
            at: next,
        });
    }
    Ok(Day {
        metal: p.metal,
        marks: p.marks,
        form: p.form,
        fields: p.count + 1,
    })
}

// The number of the four bytes behind a head: a record's time, or an end's count.
fn number_behind(sheet: &[u8], at: usize) -> u32
    requires { at + 7 ≤ length sheet.now }
    ensures { result ≡ be4_at sheet.now (at + 3) }
{
    join4(sheet[at + 3], sheet[at + 4], sheet[at + 5], sheet[at + 6])
}

// How many bytes a right header at the sheet's start has, by its form.
fn header_size(sheet: &[u8]) -> Option<usize>
    ensures { result ≡ some_size (size_by 1 6 sheet.now 0) }
{
    if right_at::<{ layout::HEADER }>(sheet, 0) {
        Some(6)
    } else if right_at::<{ layout::LONG_HEADER }>(sheet, 0) {
        Some(7)
    } else {
        None
    }
}

// The form of a header of so many bytes at the sheet's start.
fn header_form(sheet: &[u8], size: usize) -> Form
    requires { size ≤ length sheet.now }
    ensures { result ≡ form_in sheet.now size }
{
    if size == 7 {
        Form::Long(sheet[6])
    } else {
        Form::Short
    }
}

// What is kept behind a header of this form at the sheet's start.
fn header_kept(sheet: &[u8], form: Form) -> Progress
    requires { 6 ≤ length sheet.now }
    ensures { result ≡ after_header start (get_or sheet.now 3 0) (be2_at sheet.now 4) form }
{
    after_header(begin(), sheet[3], join2(sheet[4], sheet[5]), form)
}

// Behind the right header at the sheet's start, and nowhere else; none where none stands there.
fn past_header(sheet: &[u8]) -> Option<Reached>
    requires { length sheet.now ≤ 1048576 }
    ensures opened { IfSome result (λ r. Opened sheet.now r.at r.progress) }
    ensures behind { IfSome result (λ r. Some r.at ≡ some_size (size_by 1 6 sheet.now 0)) }
    ensures nothing { IfNone result (size_by 1 6 sheet.now 0 ≡ 0) }
{
    let at = header_size(sheet)?;
    let progress = header_kept(sheet, header_form(sheet, at));
    Some(Reached { at, progress })
}

// The header bars no field on the instrument.
fn is_let(p: Progress, instrument: u8) -> bool
    ensures { result ≡ allowed (third_of p.form) instrument }
{
    is_allowed(third_of(p.form), instrument)
}

// How many bytes a trade or a quote that stands at a place has, right by itself and but for its time.
fn right_size(sheet: &[u8], at: usize) -> Option<usize>
    ensures { result ≡ some_size (right_size sheet.now at) }
{
    if right_at::<{ layout::TRADE }>(sheet, at) {
        Some(14)
    } else if right_at::<{ layout::QUOTE }>(sheet, at) {
        Some(17)
    } else {
        None
    }
}

// The same, where its instrument is not barred.
fn record_size(sheet: &[u8], at: usize, p: Progress) -> Option<usize>
    ensures { result ≡ some_size (record_size sheet.now at (third_of p.form)) }
{
    let size = right_size(sheet, at)?;
    if is_let(p, sheet[at + 7]) {
        Some(size)
    } else {
        None
    }
}

// Behind the right trades and quotes that stand one after the other. A time is held to the time before it alone: times never fall, so all lie in the
// day where the last one does.
fn past_records(sheet: &[u8], from: Reached) -> Reached
    requires { Nearly sheet.now from.at from.progress }
    ensures { Nearly sheet.now result.at result.progress }
{
    let mut at = from.at;
    let mut progress = from.progress;
    while let Some(size) = record_size(sheet, at, progress) {
        let time = number_behind(sheet, at);
        if time < progress.time {
            break;
        }
        progress = after_record(progress, time);
        at += size;
    }
    Reached { at, progress }
}

// A previous close on the instrument may come next: it is in its place, and not barred.
fn close_next(p: Progress, instrument: u8) -> bool
    ensures { result ≡ both (previous_placed p instrument) (allowed (third_of p.form) instrument) }
{
    previous_placed(p, instrument) && is_let(p, instrument)
}

// Behind the right previous closes that stand one after the other. A loop of its own: one for closes and records by a closure would have each step's
// contract written out beside it, and be longer than both.
fn past_closes(sheet: &[u8], from: Reached) -> Reached
    requires { Opened sheet.now from.at from.progress }
    ensures { Opened sheet.now result.at result.progress }
{
    let mut at = from.at;
    let mut progress = from.progress;
    while right_at::<{ layout::PREVIOUS_CLOSE }>(sheet, at) {
        let instrument = sheet[at + 3];
        if !close_next(progress, instrument) {
            break;
        }
        progress = after_previous(progress, instrument);
        at += 8;
    }
    Reached { at, progress }
}

// Judges field after field from where one has come to: whatever may stand there. A loop with no count: where the next field stands is known only once
// this one is read.
fn judge_from(sheet: &[u8], from: Reached) -> Result<Day, Refusal>
    requires { OnTrack sheet.now from.at from.progress }
    ensures { judged_says result ≡ judge_sheet sheet.now }
{
    let mut at = from.at;
    let mut progress = from.progress;
    loop {
        let (field, next) = shape_at(sheet, at)?;
        match admit(progress, field) {
            Err(fault) => return Err(Refusal { fault, at }),
            Ok(Admitted::Ended) => return at_end(sheet.len(), next, progress),
            Ok(Admitted::Next(after)) => progress = after,
        }
        at = next;
    }
}

// Judges what stands behind the records: most often the right end.
fn judge_end(sheet: &[u8], reached: Reached) -> Result<Day, Refusal>
    requires { OnTrack sheet.now reached.at reached.progress × (1 ≤ reached.progress.stage) }
    ensures { judged_says result ≡ judge_sheet sheet.now }
{
    let at = reached.at;
    let progress = reached.progress;
    if stands(sheet, at, layout::END) {
        let count = number_behind(sheet, at);
        if count == progress.count {
            return at_end(sheet.len(), at + 7, progress);
        }
    }
    judge_from(sheet, reached)
}

// Judges what stands behind a right header: goes past the right closes and records, and leaves what comes then, or all records where a time is no
// time of the day, to the judge of any field.
fn judge_behind(sheet: &[u8], header: Reached) -> Result<Day, Refusal>
    requires { Opened sheet.now header.at header.progress }
    ensures { judged_says result ≡ judge_sheet sheet.now }
{
    let closes = past_closes(sheet, header);
    let records = past_records(sheet, closes);
    let last = records.progress;
    if 86_399_999 < last.time {
        return judge_from(sheet, closes);
    }
    judge_end(sheet, records)
}

// Judges a sheet: its length, then its fields.
pub fn judge_sheet(sheet: &[u8]) -> Result<Day, Refusal>
    ensures { judged_says result ≡ judge_sheet sheet.now }
{
    if 1_048_576 < sheet.len() {
        return Err(Refusal {
            fault: Fault::Long,
            at: 0,
        });
    }
    match past_header(sheet) {
        Some(header) => judge_behind(sheet, header),
        None => judge_from(
            sheet,
            Reached {
                at: 0,
                progress: begin(),
            },
        ),
    }
}
