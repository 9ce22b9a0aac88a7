// Text that is put together from byte strings and numbers, and put into a lent buffer whole or not at all.
#![tactic(auto)]

ghost use Rattle.std.specs.Prelude.{◌≡◌, ◌+◌, ◌≤◌, length, take};
ghost use Rattle.text.specs.Over.{over, put_place, put_buffer};
ghost use Rattle.text.specs.Held.{Added, empty_text, held, place_after, buffer_after};
ghost use Rattle.text.specs.Decimal.{decimal};

// The bytes from the place on, where there is room.
fn copy_in(dst: &mut [u8], at: usize, s: &[u8])
    requires { at + length s.now ≤ length dst.old }
    ensures { dst.new ≡ over dst.old at s.now }
{
    dst[at..at + s.len()].copy_from_slice(s);
}

// All of the bytes from the place on, or nothing: the place behind them, where there is room for them.
pub fn put_bytes(buf: &mut [u8], at: usize, s: &[u8]) -> Option<usize>
    ensures { (result ≡ put_place buf.old at s.now) × (buf.new ≡ put_buffer buf.old at s.now) }
{
    if buf.len() < at {
        return None;
    }
    if buf.len() - at < s.len() {
        return None;
    }
    copy_in(buf, at, s);
    Some(at + s.len())
}

// A text of up to 512 bytes. It is a store with a length, since there is no heap; what is behind the length is no part of it. Anyone can make one
// with a len above 512: nothing goes behind it, and it goes into no buffer.
#[derive(Clone, Copy)]
pub struct Text {
    pub store: [u8; 512],
    pub len: usize,
}

impl Text {
    // No bytes.
    pub fn empty() -> Text
        ensures { result ≡ empty_text }
    {
        Text {
            store: [0; 512],
            len: 0,
        }
    }

    // The text with the bytes behind it, where they fit.
    pub fn put(mut self, s: &[u8]) -> Option<Text>
        ensures { Added self s.now result }
    {
        let at = self.len;
        if 512 < at {
            return None;
        }
        if 512 - at < s.len() {
            return None;
        }
        copy_in(&mut self.store, at, s);
        self.len = at + s.len();
        Some(self)
    }

    // The text with the number in decimal behind it, where it fits.
    pub fn number(self, n: u64) -> Option<Text>
        ensures { Added self (decimal n) result }
    {
        let mut digits = [0u8; 20];
        let k = io::decimal(n, &mut digits);
        self.put(&digits[..k])
    }

    // Its bytes; with a len above 512 the whole store.
    pub fn as_bytes(&self) -> &[u8]
        ensures { result.now ≡ take self.now.len self.now.store }
    {
        &self.store[..self.len.min(512)]
    }

    // The whole text into the buffer from the place on, or nothing.
    pub fn put_into(&self, buf: &mut [u8], at: usize) -> Option<usize>
        ensures { (result ≡ place_after buf.old at (held self.now)) × (buf.new ≡ buffer_after buf.old at (held self.now)) }
    {
        if 512 < self.len {
            return None;
        }
        put_bytes(buf, at, self.as_bytes())
    }
}
