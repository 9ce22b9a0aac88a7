// A reader that holds the lent sheet and its place, for hosts that go field by field. Each method calls the field reader.
#![tactic(auto, unfolding(crate::specs::Walking::place_after))]

ghost use Rattle.std.specs.Prelude.{◌≡◌};
ghost use Rattle.field.specs.Said.{read_says};
ghost use Rattle.field_walker.specs.Said.{turned, turn_says};
ghost use Rattle.field_walker.specs.Walking.{place_after, standing, placed, looked, bodied, stepped, turn_at};

use field::{Field, Refusal};
use field_reader::{field_body, read_field};

// The lent sheet, and the place of the field that it looks at.
#[derive(Clone, Copy)]
pub struct Walker<'a> {
    pub sheet: &'a [u8],
    pub at: usize,
}

// One turn of a walk: the field at a place, how long its body is, and the place that a step leads to.
#[derive(Clone, Copy)]
pub struct Turn {
    pub read: Result<(Field, usize), Refusal>,
    pub length: usize,
    pub next: usize,
}

// The place behind the field at a place; the place itself where the field is refused.
pub fn place_after(sheet: &[u8], at: usize) -> usize
    ensures { result ≡ place_after sheet.now at }
{
    match read_field(sheet, at) {
        Ok((_, next)) => next,
        Err(_) => at,
    }
}

impl<'a> Walker<'a> {
    // A walker at a place of a sheet: 0 where a walk starts, any other where a host kept the place.
    pub fn new(sheet: &'a [u8], at: usize) -> Walker<'a>
        ensures { result ≡ standing sheet.entry at }
    {
        Walker { sheet, at }
    }

    // Where it stands.
    pub fn place(self) -> usize
        ensures { result ≡ placed self.entry }
    {
        self.at
    }

    // The field at its place.
    pub fn look(self) -> Result<(Field, usize), Refusal>
        ensures { read_says result ≡ looked self.entry }
    {
        read_field(self.sheet, self.at)
    }

    // The body of the field at its place, as a part of the sheet; an empty part where the field is refused.
    pub fn body(self) -> &'a [u8]
        ensures { result.now ≡ bodied self.entry }
    {
        field_body(self.sheet, self.at)
    }

    // Past the field at its place; it stays where the field is refused.
    pub fn step(self) -> Walker<'a>
        ensures { result ≡ stepped self.entry }
    {
        Walker {
            sheet: self.sheet,
            at: place_after(self.sheet, self.at),
        }
    }
}

// One turn of a walk, through a walker, for a caller that keeps the place itself.
pub fn turn_at(sheet: &[u8], at: usize) -> Turn
    ensures { turn_says result ≡ turn_at sheet.now at }
{
    let walker = Walker::new(sheet, at);
    Turn {
        read: walker.look(),
        length: walker.body().len(),
        next: walker.step().place(),
    }
}
