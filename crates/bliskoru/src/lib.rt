// What a C or a Rust program links: a sheet's list, its judgement and its six answers, a text turned into a sheet and back, a sheet moved to the other
// header, and single fields read and written, as plain numbers in lent memory. Each function takes a covered one's answer apart; a refusal's number is
// handed back, and 0 says yes.
#![tactic(auto)]

ghost use Rattle.std.specs.Prelude.{◌≡◌, map};
ghost use Rattle.std.proofs.Math.ListN as ListN;
ghost use Rattle.text.specs.Over.{put_place, put_buffer};
ghost use Rattle.field.specs.Reading.{read_field};
ghost use Rattle.field.specs.Said.{fault_number, written_says};
ghost use Rattle.field.specs.Writing.{written, buffer_after};
ghost use Rattle.field.specs.declared.Field.TheVariants as F;
ghost use Rattle.field.specs.declared.Form.TheVariants as Form;
ghost use Rattle.sheet.specs.Judgement.{judge_sheet};
ghost use Rattle.price_rules.specs.Closing.{answers_of};
ghost use Rattle.price_rules.specs.Says.{answer_says, closings_say};
ghost use Rattle.list_lines.specs.Listing.{list_of};
ghost use Rattle.filled_buffer.specs.Filling.{buffer_with, filled};
ghost use Rattle.header_mover.specs.Moving.{to_new, to_old};
ghost use Rattle.tape.specs.Tape.{tape_to_sheet, sheet_to_tape};
ghost use Rattle.bliskoru.specs.Host.{filled_number, filled_length, filled_place, length_or0, verdict_number, verdict_byte, method_number, row_of, rows_of, answers_number, answers_byte, answers_rows, values_of, said_number, said_next, read_values, price_of};

use field::judge::third_of;
use field::layout::form_tag;
use field::{Field, Form, Price, Refusal};
use field_reader::read_field;
use field_writer::write_field;
use header_mover::{to_new_header, to_old_header};
use list::closing_list;
use price_rules::{Answer, Method, Priced, SixAnswers, Unpriced};
use sheet::judge_sheet;
use six_answers::closings;
use tape_reader::tape_to_sheet;
use tape_writer::sheet_to_tape;

// The list's length, or 0 where the buffer has no room for it and is as it was.
#[unsafe(no_mangle)]
pub extern "C" fn bliskoru_list(sheet: &[u8], out: &mut [u8]) -> usize
    ensures value { result ≡ length_or0 (put_place out.old 0 (list_of sheet.now)) }
    ensures out_after { out.new ≡ put_buffer out.old 0 (list_of sheet.now) }
{
    closing_list(sheet, out).unwrap_or(0)
}

// A refusal's number, and its place in `at`.
fn refuse(refusal: Refusal, at: &mut usize) -> u8
    ensures value { result ≡ fault_number refusal.fault }
    ensures at_after { at.new ≡ refusal.at }
{
    *at = refusal.at;
    refusal.fault.into()
}

// 0 where the sheet is accepted; else the refusal's number, and its byte in `at`.
#[unsafe(no_mangle)]
pub extern "C" fn bliskoru_judge(sheet: &[u8], at: &mut usize) -> u8
    ensures value { result ≡ verdict_number (judge_sheet sheet.now) }
    ensures at_after { at.new ≡ verdict_byte at.old (judge_sheet sheet.now) }
{
    match judge_sheet(sheet) {
        Ok(_) => 0,
        Err(refusal) => refuse(refusal, at),
    }
}

// The numbers of the methods are the C header's.
fn method_number(method: Method) -> u64
    ensures { result ≡ method_number method }
{
    match method {
        Method::Vwap => 1,
        Method::Twap => 2,
    }
}

// A contract's answer as numbers: method or refusal, close, lots.
fn row_of(answer: Answer) -> [u64; 3]
    ensures { result ≡ row_of (answer_says answer) }
{
    match answer {
        Ok(
            Priced {
                method,
                close,
                lots,
            },
        ) => [method_number(method), close.into(), lots],
        Err(Unpriced::NoReference(lots)) => [13, 0, lots],
        Err(Unpriced::OutOfRange(lots)) => [14, 0, lots],
        Err(Unpriced::NotReached) => [15, 0, 0],
    }
}

fn rows_of(six: SixAnswers) -> [[u64; 3]; 6]
    ensures { result ≡ map row_of (closings_say six) }
{
    [
        row_of(six.three),
        row_of(six.m3),
        row_of(six.m2),
        row_of(six.m4),
        row_of(six.m1),
        row_of(six.cash),
    ]
}

// 0 and the six answers, three numbers each; or the sheet's refusal: its number, and its byte in `at`.
#[unsafe(no_mangle)]
pub extern "C" fn bliskoru_answers(sheet: &[u8], answers: &mut [u64; 18], at: &mut usize) -> u8
    ensures value { result ≡ answers_number (answers_of sheet.now) }
    ensures answers_after { answers.new ≡ answers_rows answers.old (answers_of sheet.now) }
    ensures at_after { at.new ≡ answers_byte at.old (answers_of sheet.now) }
{
    match closings(sheet) {
        Ok((_, six)) => {
            answers.copy_from_slice(rows_of(six).as_flattened());
            0
        }
        Err(refusal) => refuse(refusal, at),
    }
}

// What was put, by its length; or the refusal's number, and its place.
fn hand_over(answer: Result<usize, Refusal>, length: &mut usize, at: &mut usize) -> u8
    ensures value { result ≡ filled_number (written_says answer) }
    ensures length_after { length.new ≡ filled_length length.old (written_says answer) }
    ensures at_after { at.new ≡ filled_place at.old (written_says answer) }
{
    match answer {
        Ok(n) => {
            *length = n;
            0
        }
        Err(refusal) => refuse(refusal, at),
    }
}

// 0, the text's sheet at the start of the buffer and its length; or the refusal's number, and its line, 0 where no line earns it.
#[unsafe(no_mangle)]
pub extern "C" fn bliskoru_tape_to_sheet(
    tape: &[u8],
    sheet: &mut [u8],
    length: &mut usize,
    at: &mut usize,
) -> u8
    ensures value { result ≡ filled_number (filled (tape_to_sheet (ListN.length sheet.old) tape.now)) }
    ensures sheet_after { sheet.new ≡ buffer_with sheet.old (tape_to_sheet (ListN.length sheet.old) tape.now) }
    ensures length_after { length.new ≡ filled_length length.old (filled (tape_to_sheet (ListN.length sheet.old) tape.now)) }
    ensures at_after { at.new ≡ filled_place at.old (filled (tape_to_sheet (ListN.length sheet.old) tape.now)) }
{
    hand_over(tape_to_sheet(tape, sheet), length, at)
}

// 0, the sheet's text at the start of the buffer and its length; or the refusal's number, and its byte, 0 where the buffer has no room.
#[unsafe(no_mangle)]
pub extern "C" fn bliskoru_sheet_to_tape(
    sheet: &[u8],
    tape: &mut [u8],
    length: &mut usize,
    at: &mut usize,
) -> u8
    ensures value { result ≡ filled_number (filled (sheet_to_tape (ListN.length tape.old) sheet.now)) }
    ensures tape_after { tape.new ≡ buffer_with tape.old (sheet_to_tape (ListN.length tape.old) sheet.now) }
    ensures length_after { length.new ≡ filled_length length.old (filled (sheet_to_tape (ListN.length tape.old) sheet.now)) }
    ensures at_after { at.new ≡ filled_place at.old (filled (sheet_to_tape (ListN.length tape.old) sheet.now)) }
{
    hand_over(sheet_to_tape(sheet, tape), length, at)
}

// 0, the old sheet with the new header at the start of the buffer and its length; or the refusal's number, and its byte, 0 where it is not the sheet's own.
#[unsafe(no_mangle)]
pub extern "C" fn bliskoru_to_new_header(
    sheet: &[u8],
    out: &mut [u8],
    length: &mut usize,
    at: &mut usize,
) -> u8
    ensures value { result ≡ filled_number (filled (to_new (ListN.length out.old) sheet.now)) }
    ensures out_after { out.new ≡ buffer_with out.old (to_new (ListN.length out.old) sheet.now) }
    ensures length_after { length.new ≡ filled_length length.old (filled (to_new (ListN.length out.old) sheet.now)) }
    ensures at_after { at.new ≡ filled_place at.old (filled (to_new (ListN.length out.old) sheet.now)) }
{
    hand_over(to_new_header(sheet, out), length, at)
}

// 0, the new sheet with the old header at the start of the buffer and its length; or the refusal's number, and its byte, 0 where it is not the sheet's own.
#[unsafe(no_mangle)]
pub extern "C" fn bliskoru_to_old_header(
    sheet: &[u8],
    out: &mut [u8],
    length: &mut usize,
    at: &mut usize,
) -> u8
    ensures value { result ≡ filled_number (filled (to_old (ListN.length out.old) sheet.now)) }
    ensures out_after { out.new ≡ buffer_with out.old (to_old (ListN.length out.old) sheet.now) }
    ensures length_after { length.new ≡ filled_length length.old (filled (to_old (ListN.length out.old) sheet.now)) }
    ensures at_after { at.new ≡ filled_place at.old (filled (to_old (ListN.length out.old) sheet.now)) }
{
    hand_over(to_old_header(sheet, out), length, at)
}

// A field's tag and values, in the order of its body; zeros behind them.
fn values_of(field: Field) -> [i64; 6]
    ensures { result ≡ values_of field }
{
    match field {
        Field::Header { metal, marks, form } => [
            form_tag(form).into(),
            metal.into(),
            marks.into(),
            third_of(form).into(),
            0,
            0,
        ],
        Field::PreviousClose { instrument, price } => {
            [2, instrument.into(), price.cents.into(), 0, 0, 0]
        }
        Field::Trade {
            time,
            instrument,
            price,
            lots,
        } => [
            3,
            time.into(),
            instrument.into(),
            price.cents.into(),
            lots.into(),
            0,
        ],
        Field::Quote {
            time,
            instrument,
            sides,
            bid,
            offer,
        } => [
            4,
            time.into(),
            instrument.into(),
            sides.into(),
            bid.cents.into(),
            offer.cents.into(),
        ],
        Field::End { count } => [5, count.into(), 0, 0, 0, 0],
    }
}

// 0, the field's tag and values and the place behind it; or the refusal's number, and all as it was.
#[unsafe(no_mangle)]
pub extern "C" fn bliskoru_read(
    sheet: &[u8],
    at: usize,
    values: &mut [i64; 6],
    next: &mut usize,
) -> u8
    ensures value { result ≡ said_number (read_field sheet.now at) }
    ensures values_after { values.new ≡ read_values values.old (read_field sheet.now at) }
    ensures next_after { next.new ≡ said_next next.old (read_field sheet.now at) }
{
    match read_field(sheet, at) {
        Ok((field, behind)) => {
            *values = values_of(field);
            *next = behind;
            0
        }
        Err(refusal) => refusal.fault.into(),
    }
}

fn write(buffer: &mut [u8], at: usize, field: Field, next: &mut usize) -> u8
    ensures value { result ≡ said_number (written buffer.old at field) }
    ensures buffer_after { buffer.new ≡ buffer_after buffer.old at field }
    ensures next_after { next.new ≡ said_next next.old (written buffer.old at field) }
{
    match write_field(buffer, at, field) {
        Ok(behind) => {
            *next = behind;
            0
        }
        Err(refusal) => refusal.fault.into(),
    }
}

// A header of a form. It goes by value, so that the byte which a short one lacks is a zero and not what the stack had.
fn headed(metal: u8, marks: u16, form: Form) -> Field
    ensures { result ≡ F.Header metal marks form }
{
    Field::Header { metal, marks, form }
}

// Each of the six, one for each kind of field as the C interface has them, writes one field at a place: 0 and the place behind it; or the refusal's
// number, and buffer and place as they were.
#[unsafe(no_mangle)]
pub extern "C" fn bliskoru_write_header(
    buffer: &mut [u8],
    at: usize,
    metal: u8,
    marks: u16,
    next: &mut usize,
) -> u8
    ensures value { result ≡ said_number (written buffer.old at (F.Header metal marks Form.Short)) }
    ensures buffer_after { buffer.new ≡ buffer_after buffer.old at (F.Header metal marks Form.Short) }
    ensures next_after { next.new ≡ said_next next.old (written buffer.old at (F.Header metal marks Form.Short)) }
{
    write(buffer, at, headed(metal, marks, Form::Short), next)
}

#[unsafe(no_mangle)]
pub extern "C" fn bliskoru_write_long_header(
    buffer: &mut [u8],
    at: usize,
    metal: u8,
    marks: u16,
    third: u8,
    next: &mut usize,
) -> u8
    ensures value { result ≡ said_number (written buffer.old at (F.Header metal marks (Form.Long third))) }
    ensures buffer_after { buffer.new ≡ buffer_after buffer.old at (F.Header metal marks (Form.Long third)) }
    ensures next_after { next.new ≡ said_next next.old (written buffer.old at (F.Header metal marks (Form.Long third))) }
{
    let form = Form::Long(third);
    write(buffer, at, headed(metal, marks, form), next)
}

#[unsafe(no_mangle)]
pub extern "C" fn bliskoru_write_previous_close(
    buffer: &mut [u8],
    at: usize,
    instrument: u8,
    cents: i32,
    next: &mut usize,
) -> u8
    ensures value { result ≡ said_number (written buffer.old at (F.PreviousClose instrument (price_of cents))) }
    ensures buffer_after { buffer.new ≡ buffer_after buffer.old at (F.PreviousClose instrument (price_of cents)) }
    ensures next_after { next.new ≡ said_next next.old (written buffer.old at (F.PreviousClose instrument (price_of cents))) }
{
    write(
        buffer,
        at,
        Field::PreviousClose {
            instrument,
            price: Price { cents },
        },
        next,
    )
}

#[unsafe(no_mangle)]
pub extern "C" fn bliskoru_write_trade(
    buffer: &mut [u8],
    at: usize,
    time: u32,
    instrument: u8,
    cents: i32,
    lots: u16,
    next: &mut usize,
) -> u8
    ensures value { result ≡ said_number (written buffer.old at (F.Trade time instrument (price_of cents) lots)) }
    ensures buffer_after { buffer.new ≡ buffer_after buffer.old at (F.Trade time instrument (price_of cents) lots) }
    ensures next_after { next.new ≡ said_next next.old (written buffer.old at (F.Trade time instrument (price_of cents) lots)) }
{
    write(
        buffer,
        at,
        Field::Trade {
            time,
            instrument,
            price: Price { cents },
            lots,
        },
        next,
    )
}

#[unsafe(no_mangle)]
pub extern "C" fn bliskoru_write_quote(
    buffer: &mut [u8],
    at: usize,
    time: u32,
    instrument: u8,
    sides: u8,
    bid: i32,
    offer: i32,
    next: &mut usize,
) -> u8
    ensures value { result ≡ said_number (written buffer.old at (F.Quote time instrument sides (price_of bid) (price_of offer))) }
    ensures buffer_after { buffer.new ≡ buffer_after buffer.old at (F.Quote time instrument sides (price_of bid) (price_of offer)) }
    ensures next_after { next.new ≡ said_next next.old (written buffer.old at (F.Quote time instrument sides (price_of bid) (price_of offer))) }
{
    write(
        buffer,
        at,
        Field::Quote {
            time,
            instrument,
            sides,
            bid: Price { cents: bid },
            offer: Price { cents: offer },
        },
        next,
    )
}

#[unsafe(no_mangle)]
pub extern "C" fn bliskoru_write_end(
    buffer: &mut [u8],
    at: usize,
    count: u32,
    next: &mut usize,
) -> u8
    ensures value { result ≡ said_number (written buffer.old at (F.End count)) }
    ensures buffer_after { buffer.new ≡ buffer_after buffer.old at (F.End count) }
    ensures next_after { next.new ≡ said_next next.old (written buffer.old at (F.End count)) }
{
    write(buffer, at, Field::End { count }, next)
}
