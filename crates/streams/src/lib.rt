// Standard input and output of the step program: text written whole, and one chunk read behind bytes that are kept.
#![tactic(auto)]

ghost use Rattle.std.specs.Prelude.{◌≡◌, ◌≤◌, ◌+◌, length, take, drop, IfOk, MatchResult};
ghost use Rattle.std.specs.Io.KnownBytes.{Appends, Consumes, Keeps};

use std::io;
use std::io::{Read, Write};

// Writes the text in out that ends at a place.
pub fn flush<W: Write>(output: &mut W, out: &[u8], used: usize) -> io::Result<()>
    requires { used ≤ length out.now }
    ensures { IfOk result (λ _. Appends (W.contents output.old) (W.contents output.new) (take used out.now)) }
{
    output.write_all(&out[..used])
}

// One read behind the bytes that are kept, which stay: how many bytes came, or why none did.
fn read_once<R: Read>(input: &mut R, buf: &mut [u8], have: usize) -> io::Result<usize>
    requires { have ≤ length buf.old }
    ensures kept { take have buf.new ≡ take have buf.old }
    ensures within { IfOk result (λ n. have + n ≤ length buf.new) }
    ensures taken { MatchResult result
        (λ n. Consumes (R.remaining input.old) (R.remaining input.new) (take n (drop have buf.new)))
        (λ _. Keeps (R.remaining input.old) (R.remaining input.new)) }
{
    input.read(&mut buf[have..])
}

// Where the bytes that a read put behind the kept ones end.
fn end_of(buf: &[u8], have: usize, got: usize) -> usize
    requires { have ≤ length buf.now }
    ensures between { (have ≤ result) × (result ≤ length buf.now) }
    ensures all { have + got ≤ length buf.now → result ≡ have + got }
{
    let rest = &buf[have..];
    have + got.min(rest.len())
}

// Reads behind the bytes that are kept, which stay, and answers where what was read ends: at once where the input
// has ended. A read that fails, as one that a signal interrupts, is tried again, 1,000 times at most; then the
// input counts as ended.
pub fn read_after<R: Read>(input: &mut R, buf: &mut [u8], have: usize) -> usize
    requires { have ≤ length buf.old }
    ensures between { (have ≤ result) × (result ≤ length buf.new) }
    ensures kept { take have buf.new ≡ take have buf.old }
    ensures taken { Consumes (R.remaining input.old) (R.remaining input.new) (drop have (take result buf.new)) }
{
    for _ in 0..1000u32 {
        if let Ok(got) = read_once(input, buf, have) {
            return end_of(buf, have, got);
        }
    }
    have
}
