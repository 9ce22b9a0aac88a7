// A whole input into a lent buffer, and the room for it, for programs. Hosts don't call it.
#![tactic(auto)]

ghost use Rattle.std.specs.Prelude.{◌≡◌, ◌≤◌, length, replicate, IfOk};

use std::io::{Read, Result};

// Room for N bytes, all zero.
pub fn room<const N: usize>() -> [u8; N]
    ensures value { result ≡ replicate N 0 }
    ensures result_len { length result ≡ N }
{
    [0; N]
}

// Reads until the buffer is full or the input ends: how many bytes stand at its start. A read that fails is an error. `read_exact` says less: it tells
// no length where the input ends first.
pub fn read_full<R: Read>(input: &mut R, buf: &mut [u8]) -> Result<usize>
    ensures { IfOk result (λ n. n ≤ length buf.new) }
{
    let mut done = 0;
    while done < buf.len() {
        let n = input.read(&mut buf[done..])?;
        if n == 0 {
            break;
        }
        done += n;
    }
    Ok(done)
}
