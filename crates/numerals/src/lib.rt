// Whole numbers in decimal as the tape has them: no sign, no needless leading zero, any number of digits. One that is too big stops rising at a given number.
#![tactic(auto)]

ghost use Rattle.std.specs.Prelude.{◌≡◌, ◌-◌};
ghost use Rattle.numerals.specs.Numerals.{is_digit, opens, risen, number};

// The bytes 0 to 9.
#[tactic(auto, unfolding(crate::specs::Numerals::is_digit))]
pub fn is_digit(b: u8) -> bool
    ensures { result ≡ is_digit b }
{
    b.is_ascii_digit()
}

// What a digit's byte says; 0 for a byte below.
pub fn digit_of(b: u8) -> u8
    ensures { result ≡ b - 48 }
{
    b.saturating_sub(b'0')
}

// The number with one digit more behind it, stopping at most.
#[tactic(auto, unfolding(crate::specs::Numerals::risen))]
fn risen_by(most: u32, n: u32, b: u8) -> u32
    ensures { result ≡ risen most n b }
{
    let next = n as u64 * 10 + digit_of(b) as u64;
    if next <= most as u64 {
        next as u32
    } else {
        most
    }
}

// Some bytes, and a zero at the front only alone.
#[tactic(auto, unfolding(crate::specs::Numerals::opens))]
fn opens_right(s: &[u8]) -> bool
    ensures { result ≡ opens s.now }
{
    match s {
        [] => false,
        [_] => true,
        [first, ..] => *first != b'0',
    }
}

// The number that the bytes say, stopping at most; or these bytes are no number.
pub fn read_number(s: &[u8], most: u32) -> Option<u32>
    ensures { result ≡ number most s.now }
{
    if !opens_right(s) {
        return None;
    }
    let mut n: u32 = 0;
    for b in s {
        if !is_digit(*b) {
            return None;
        }
        n = risen_by(most, n, *b);
    }
    Some(n)
}
