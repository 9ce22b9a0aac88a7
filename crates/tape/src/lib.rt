// The text tape as a whole: the sheet of a text and the text of a sheet, as definitions; in code a text is judged line after line, before a byte
// of its sheet is written. Hosts don't call it.
#![tactic(auto, unfolding(crate::specs::Tape::capped, crate::specs::Tape::at_last, crate::specs::Tape::onward))]

ghost use Rattle.std.specs.Prelude.{◌≡◌, ◌≤◌};
ghost use Rattle.admit.specs.Admitting.{admit};
ghost use Rattle.field.specs.Said.{written_says};
ghost use Rattle.tape.specs.Tape.{LinesSay, capped, at_last, onward, text_says};
ghost use Rattle.tape.specs.laws.Measuring.{grown, measured};
ghost use Rattle.tape.specs.laws.Track.{placed_says};
ghost use Rattle.admit.specs.declared.Progress.{Progress};

use admit::{Admitted, Progress, admit, begin};
use field::layout::{size_of, tag_of};
use field::{Fault, Field, Refusal};
use next_line::{Malformed, next_line};

// No text is too long before its lines were judged: the count stops below the limit.
fn capped_at(p: Progress) -> Progress
    ensures { result ≡ capped p }
{
    Progress {
        count: p.count.min(1_048_575),
        ..p
    }
}

// The bytes with a field more, stopping above the limit.
fn grown_by(bytes: u32, field: Field) -> u32
    ensures { result ≡ grown bytes field }
{
    (bytes as u64 + size_of(tag_of(field)) as u64).min(1_048_577) as u32
}

// What is kept behind a line's field, where it may come next; or what refuses the line. No line says an end.
fn placed(p: Progress, field: Field, line: usize) -> Result<Progress, Refusal>
    ensures { (later : Progress → LinesSay) → placed_says field result later ≡ onward line field (admit (capped p) field) later }
{
    match admit(capped_at(p), field) {
        Ok(Admitted::Next(after)) => Ok(after),
        Ok(Admitted::Ended) => Err(Refusal {
            fault: Fault::Line,
            at: line,
        }),
        Err(fault) => Err(Refusal { fault, at: line }),
    }
}

// Behind the last line feed nothing may stand, and a text has a METAL line.
fn at_last(rest: usize, line: usize, p: Progress, bytes: u32) -> Result<u32, Refusal>
    requires { bytes ≤ 1048577 }
    ensures { written_says result ≡ measured bytes (at_last line p rest) }
{
    if rest != 0 {
        return Err(Refusal {
            fault: Fault::Line,
            at: line,
        });
    }
    if p.stage == 0 {
        return Err(Refusal {
            fault: Fault::Place,
            at: 1,
        });
    }
    Ok(bytes)
}

// Judges a text line after line, each from the place behind the one before: how many bytes its fields have, which stop rising at one above the limit; or
// what refuses it, and its line.
pub fn judge_tape(text: &[u8]) -> Result<u32, Refusal>
    ensures { written_says result ≡ measured 0 (text_says text.now) }
{
    let mut at = 0;
    let mut line = 1;
    let mut bytes: u32 = 0;
    let mut progress = begin();
    loop {
        match next_line(text, at) {
            Ok(Some((field, next))) => {
                progress = placed(progress, field, line)?;
                bytes = grown_by(bytes, field);
                line += 1;
                at = next;
            }
            Ok(None) => {
                return at_last(text.len() - at, line, progress, bytes);
            }
            Err(Malformed) => {
                return Err(Refusal {
                    fault: Fault::Line,
                    at: line,
                });
            }
        }
    }
}
