// The closing list of a day sheet as text, put into a lent buffer whole or not at all: the metal's name and a line for each contract, or the one
// line of a sheet that is refused or too long.
#![tactic(auto)]

ghost use Rattle.std.specs.Prelude.{◌≡◌, Some};
ghost use Rattle.text.specs.Over.{put_place, put_buffer};
ghost use Rattle.text.specs.Held.{Has, held_by};
ghost use Rattle.price_rules.specs.Says.{closed_says};
ghost use Rattle.list_lines.specs.Listing.{list_text, list_of};

use list_lines::{put_lines, put_refusal};
use names::put_metal;
use price_rules::Closed;
use six_answers::closings;
use text::{Text, put_bytes};

// How many bytes a sheet that is listed may have.
pub const LONGEST: usize = 65_536;

// The list of a sheet's answers.
fn answers_text(closed: Closed) -> Option<Text>
    ensures { held_by result ≡ Some (Has (list_text (closed_says closed))) }
{
    let t = Text::empty();
    match closed {
        Ok((day, answers)) => put_lines(put_metal(t, day.metal)?.put(b"\n")?, answers),
        Err(refusal) => put_refusal(t, u8::from(refusal.fault), refusal.at as u64),
    }
}

// The list of a sheet into the buffer, whole or not at all: the place behind it is its length.
pub fn closing_list(sheet: &[u8], out: &mut [u8]) -> Option<usize>
    ensures { (result ≡ put_place out.old 0 (list_of sheet.now)) × (out.new ≡ put_buffer out.old 0 (list_of sheet.now)) }
{
    if LONGEST < sheet.len() {
        return put_bytes(out, 0, b"too long\n");
    }
    answers_text(closings(sheet))?.put_into(out, 0)
}
