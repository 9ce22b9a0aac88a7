// Judges sheets that are written as hexadecimal digits, one sheet to a line, and prints what is said of each. A line that starts with # is
// printed as it stands, so that input and output read side by side; a sheet behind = is priced, and its six answers are printed.
#![tactic(auto)]

ghost use Rattle.std.specs.Prelude.{◌<◌, ◌≤◌, length};

use list_lines::{put_lines, put_refusal};
use program_output::say;
use sheet::judge_sheet;
use six_answers::closings;
use std::io::{Print, Result};
use text::Text;
use whole_input::{read_full, room};

// The six answers of a sheet, a line each, or its refusal.
fn print_answers<P: Print>(output: &P, sheet: &[u8]) -> Result<()> {
    let answers = match closings(sheet) {
        Ok((_, six)) => put_lines(Text::empty(), six),
        Err(refusal) => put_refusal(Text::empty(), refusal.fault.into(), refusal.at as u64),
    };
    say(output, answers)
}

// What is said of a sheet, on a line of its own.
fn print_judged<P: Print>(output: &P, sheet: &[u8]) -> Result<()> {
    match judge_sheet(sheet) {
        Ok(day) => println!(output; "accepted {} {} {}", day.metal, day.marks, day.fields),
        Err(refusal) => println!(output; "refused {} {}", u8::from(refusal.fault), refusal.at),
    }
}

// The value of a hexadecimal digit; 0 for any other byte.
fn digit(byte: u8) -> u8
    ensures { result < 16 }
{
    match byte {
        b'0'..=b'9' => byte - b'0',
        b'a'..=b'f' => byte - b'a' + 10,
        _ => 0,
    }
}

// The bytes that a line says, two digits each, with spaces between them as it likes, as many as there is room for, and how many they are.
fn decode(line: &[u8], out: &mut [u8]) -> usize
    ensures { result ≤ length out.new }
{
    let mut n = 0;
    let mut rest = line;
    while let [first, second, ..] = rest {
        if *first == b' ' {
            rest = &rest[1..];
            continue;
        }
        if let Some(byte) = out.get_mut(n) {
            *byte = digit(*first) * 16 + digit(*second);
            n += 1;
        }
        rest = &rest[2..];
    }
    n
}

// What is printed of the sheet that a line says.
fn answer_line<P: Print, F: Fn(&P, &[u8]) -> Result<()>>(
    output: &P,
    line: &[u8],
    answer: F,
) -> Result<()>
    requires { F.IsAlwaysCallable answer }
{
    let mut space = [0u8; 4096];
    let n = decode(line, &mut space);
    answer(output, &space[..n])
}

// One line of the input.
fn take_line<P: Print>(output: &P, line: &[u8]) -> Result<()> {
    match line {
        [b'#', ..] => {
            output.write_all(line)?;
            println!(output; "")
        }
        [b'=', sheet @ ..] => answer_line(output, sheet, print_answers::<P>),
        _ => answer_line(output, line, print_judged::<P>),
    }
}

// Each line of the input; what stands behind the last line feed is none.
fn take_lines<P: Print>(output: &P, text: &[u8]) -> Result<()> {
    for line in text.split_inclusive(|&byte| byte == b'\n') {
        if let Some((b'\n', line)) = line.split_last() {
            take_line(output, line)?;
        }
    }
    Ok(())
}

// Judges the first n bytes.
fn judge_first<P: Print>(output: &P, long: &[u8], n: usize) -> Result<()> {
    match long.get(..n) {
        Some(sheet) => print_judged(output, sheet),
        None => Ok(()),
    }
}

fn main(rt: HostRuntime) -> Result<()> {
    let output = &rt.stdout();
    let mut text = [0u8; 65536];
    let n = read_full(&mut rt.stdin(), &mut text)?;
    take_lines(output, &text[..n])?;
    let long = room::<1_048_577>();
    println!(output; "# B17 as many zero bytes as a sheet may have, and one more")?;
    judge_first(output, &long, 1_048_576)?;
    judge_first(output, &long, 1_048_577)
}
