// Big-endian numbers of a day sheet: joined from bytes, and put at the start of a lent part. The library's methods do the work; the names say what a
// sheet's numbers are, in the words of the definitions. Hosts don't call it.
#![tactic(auto)]

ghost use Rattle.std.specs.Prelude.{◌≡◌, [], ◌∷◌};
ghost use Rattle.wire.specs.Big.{be2, be4, signed, bits, bytes2, bytes4, signed_bytes, put};

// The number of two bytes.
pub fn join2(a: u8, b: u8) -> u16
    ensures { result ≡ be2 a b }
{
    u16::from_be_bytes([a, b])
}

// The number of four bytes.
pub fn join4(a: u8, b: u8, c: u8, d: u8) -> u32
    ensures { result ≡ be4 a b c d }
{
    u32::from_be_bytes([a, b, c, d])
}

// The signed number whose bits these are.
pub fn signed_of(x: u32) -> i32
    ensures { result ≡ signed x }
{
    x.cast_signed()
}

// The bits of a signed number.
pub fn bits_of(z: i32) -> u32
    ensures { result ≡ bits z }
{
    z.cast_unsigned()
}

// Bytes at the start of a part; a part too short for them stays as it is, here and below.
#[tactic(auto, unfolding(crate::specs::Big::put))]
fn put_bytes<const N: usize>(part: &mut [u8], bytes: [u8; N])
    ensures { part.new ≡ put bytes.entry part.old }
{
    if N <= part.len() {
        part[..N].copy_from_slice(&bytes);
    }
}

// One byte at the start of a part.
pub fn put1(part: &mut [u8], x: u8)
    ensures { part.new ≡ put (x ∷ []) part.old }
{
    put_bytes(part, [x]);
}

// The two bytes of a number.
pub fn put2(part: &mut [u8], x: u16)
    ensures { part.new ≡ put (bytes2 x) part.old }
{
    put_bytes(part, u16::to_be_bytes(x));
}

// The four bytes of a number.
pub fn put4(part: &mut [u8], x: u32)
    ensures { part.new ≡ put (bytes4 x) part.old }
{
    put_bytes(part, u32::to_be_bytes(x));
}

// The four bytes of a signed number.
pub fn put_signed(part: &mut [u8], z: i32)
    ensures { part.new ≡ put (signed_bytes z) part.old }
{
    put4(part, bits_of(z));
}
