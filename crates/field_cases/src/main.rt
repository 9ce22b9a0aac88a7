// Reads and writes single fields at places that no whole sheet asks for, and prints what is said of each: the reader's answer with the length of
// the body, the writer's with the bytes that it leaves. Then goes through sheets field by field, and prints the walker's place before each answer.
#![tactic(auto)]

use field::{Field, Form, Price, Refusal};
use field_reader::{field_body, read_field};
use field_walker::turn_at;
use field_writer::write_field;
use std::io::{Print, Read, Result};
use whole_input::{read_full, room};

// The place behind a field that was read or written, or the refusal.
type Behind = std::result::Result<usize, Refusal>;

fn print_behind<P: Print>(output: &P, behind: Behind) -> Result<()> {
    match behind {
        Ok(next) => print!(output; "field {next}"),
        Err(refusal) => print!(output; "refused {} {}", u8::from(refusal.fault), refusal.at),
    }
}

// What the reader says, then the length of the body.
fn show_read<P: Print>(output: &P, sheet: &[u8], at: usize) -> Result<()> {
    print_behind(output, read_field(sheet, at).map(|(_, next)| next))?;
    println!(output; " {}", field_body(sheet, at).len())
}

// What the writer says, and the eight bytes of the buffer behind it.
fn show_write<P: Print>(output: &P, at: usize, field: Field) -> Result<()> {
    let mut buffer = [7u8; 8];
    let written = write_field(&mut buffer, at, field);
    print_behind(output, written)?;
    print!(output; ":")?;
    for &byte in &buffer {
        print!(output; " {byte}")?;
    }
    println!(output; "")
}

// The reader behind the sheet's end, and where a whole field is refused.
fn reads<P: Print>(output: &P) -> Result<()> {
    let header = [1u8, 0, 3, 1, 0, 0];
    println!(output; "# A3 at the sheet's length, behind it, and at the last place of all")?;
    show_read(output, &header, 6)?;
    show_read(output, &header, 7)?;
    show_read(output, &header, 18_446_744_073_709_551_615)?;
    println!(output; "# A5 a whole field that is refused has no body, and keeps its place")?;
    let nine = [1u8, 0, 3, 9, 0, 0];
    show_read(output, &header, 0)?;
    show_read(output, &nine, 0)?;
    println!(output; "# A7 an end's count is any number")?;
    let end = [5u8, 0, 4, 255, 255, 255, 255];
    show_read(output, &end, 0)
}

// A field behind the greatest length of a sheet.
fn far<P: Print>(output: &P) -> Result<()> {
    let mut long = room::<1_048_583>();
    println!(output; "# A4, E4 a field from byte 1,048,577 on is written, and read")?;
    let header = Field::Header {
        metal: 5,
        marks: 0,
        form: Form::Short,
    };
    let written = write_field(&mut long, 1_048_577, header);
    print_behind(output, written)?;
    println!(output; "")?;
    show_read(output, &long, 1_048_577)
}

// The writer where there is room and where there is none.
fn writes<P: Print>(output: &P) -> Result<()> {
    let header = Field::Header {
        metal: 1,
        marks: 515,
        form: Form::Short,
    };
    println!(output;
        "# E2 a field that ends at the buffer's end fits, and one place on it does not"
    )?;
    show_write(output, 2, header)?;
    show_write(output, 3, header)?;
    println!(output; "# E2 at the buffer's length, behind it, and at the last place of all")?;
    show_write(output, 8, header)?;
    show_write(output, 9, header)?;
    show_write(output, 18_446_744_073_709_551_615, header)?;
    println!(output; "# E1 a bad value where there is no room: its own number")?;
    let nine = Field::Header {
        metal: 9,
        marks: 0,
        form: Form::Short,
    };
    show_write(output, 18_446_744_073_709_551_615, nine)?;
    println!(output; "# E3 an absent side that is not zero is not made zero")?;
    let quote = Field::Quote {
        time: 0,
        instrument: 1,
        sides: 1,
        bid: Price { cents: 5 },
        offer: Price { cents: 6 },
    };
    show_write(output, 0, quote)?;
    println!(output; "# E5 an end's count is any number")?;
    let end = Field::End {
        count: 4_294_967_295,
    };
    show_write(output, 0, end)
}

// A walker's place, what it sees there, and the length of the body. The place that a step leads to.
fn show_turn<P: Print>(output: &P, sheet: &[u8], at: usize) -> Result<usize> {
    let turn = turn_at(sheet, at);
    print!(output; "{at}: ")?;
    print_behind(output, turn.read.map(|(_, next)| next))?;
    println!(output; " {}", turn.length)?;
    Ok(turn.next)
}

// Some turns of a walk, from a place on.
fn show_walk<P: Print>(output: &P, sheet: &[u8], from: usize, turns: usize) -> Result<()> {
    let mut at = from;
    for turn in 0..turns {
        at = show_turn(output, sheet, at)?;
    }
    Ok(())
}

// The same over a sheet's first bytes.
fn show_torn<P: Print>(
    output: &P,
    sheet: &[u8],
    length: usize,
    from: usize,
    turns: usize,
) -> Result<()> {
    match sheet.get(..length) {
        Some(part) => show_walk(output, part, from, turns),
        None => Ok(()),
    }
}

// The Nickel sheet of 130 bytes, which is the program's input: whole and torn.
fn nickel_walks<P: Print, R: Read>(output: &P, input: &mut R) -> Result<()> {
    let mut buffer = [0u8; 4096];
    let length = read_full(input, &mut buffer)?;
    let sheet = &buffer[..length];
    println!(output; "# F-8 the eleven fields of the Nickel sheet, then its end")?;
    show_walk(output, sheet, 0, 13)?;
    println!(output; "# A12 torn in a body and in a head: it stays, and sees the same again")?;
    show_torn(output, sheet, 100, 78, 3)?;
    show_torn(output, sheet, 97, 95, 2)?;
    println!(output; "# F-8 from a place that a host kept; from a place inside a field")?;
    show_walk(output, sheet, 109, 2)?;
    show_walk(output, sheet, 1, 2)
}

// Where no whole sheet leads a walker.
fn other_walks<P: Print>(output: &P) -> Result<()> {
    let end_first = [5u8, 0, 4, 0, 0, 0, 0, 1, 0, 3, 1, 0, 0];
    println!(output; "# A12 it walks on behind an end field, and at the sheet's end it stays")?;
    show_walk(output, &end_first, 0, 4)?;
    println!(output; "# A12 past the end, and at the last place of all")?;
    show_walk(output, &end_first, 14, 2)?;
    show_walk(output, &end_first, 18_446_744_073_709_551_615, 2)?;
    println!(output; "# A12 a whole field that is refused, and a tag that is none")?;
    let nine = [1u8, 0, 3, 9, 0, 0];
    show_walk(output, &nine, 0, 2)?;
    let seven = [7u8, 0, 3, 1, 0, 0];
    show_walk(output, &seven, 0, 2)
}

// The long header, which has its own tag and length; and a trade on an instrument that it bars, which is read by itself.
fn long_headers<P: Print>(output: &P) -> Result<()> {
    let good = [6u8, 0, 4, 1, 0, 0, 1];
    println!(output; "# I7 a long header is read")?;
    show_read(output, &good, 0)?;
    println!(output; "# I6 a byte of 3 is refused, read and written")?;
    let bad = [6u8, 0, 4, 1, 0, 0, 3];
    show_read(output, &bad, 0)?;
    let three = Field::Header {
        metal: 1,
        marks: 0,
        form: Form::Long(3),
    };
    show_write(output, 0, three)?;
    println!(output; "# I7 a long header at the buffer's end, and one place on")?;
    let marked = Field::Header {
        metal: 1,
        marks: 515,
        form: Form::Long(2),
    };
    show_write(output, 1, marked)?;
    show_write(output, 2, marked)?;
    println!(output; "# I4 a trade on an instrument that its header bars is read by itself")?;
    let barred = [
        6u8, 0, 4, 1, 0, 0, 1, 3, 0, 11, 0, 0, 0, 0, 1, 0, 0, 0, 0, 0, 1, 5, 0, 4, 0, 0, 0, 2,
    ];
    show_walk(output, &barred, 0, 4)
}

fn main(rt: HostRuntime) -> Result<()> {
    let output = &rt.stdout();
    reads(output)?;
    far(output)?;
    writes(output)?;
    nickel_walks(output, &mut rt.stdin())?;
    other_walks(output)?;
    long_headers(output)
}
