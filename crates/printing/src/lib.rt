// Printing for the step program: words, numbers and bytes. Each function appends to the text in out that ends at a
// place, and answers where the text ends now. Definitions: crate spec, specs/Text.antt.
#![tactic(auto)]

ghost use Rattle.std.specs.Prelude.{◌≡◌, ◌+◌, ◌≤◌, ◌<◌, length};
ghost use Rattle.spec.specs.Text.{decimal_of, hex_digit, hex_text};
ghost use Rattle.printing.specs.Inner.{Put, Spelled, pair_of};

// The room that an answer line may take, with its newline.
pub const ANSWER_ROOM: usize = 90;

// A word.
pub fn put(out: &mut [u8], at: usize, word: &[u8]) -> usize
    requires { at + length word.now ≤ length out.old }
    ensures { Put out.old at word.now out.new result }
{
    let end = at + word.len();
    out[at..end].copy_from_slice(word);
    end
}

// Decimal digits: the last bytes, from a place on.
#[derive(Clone, Copy)]
struct Digits {
    bytes: [u8; 10],
    from: usize,
}

fn digits_of(n: u32) -> Digits
    ensures { Spelled n result.bytes result.from }
{
    let mut bytes = [0u8; 10];
    let mut rest = n;
    for from in (0..10usize).rev() {
        bytes[from] = b'0' + (rest % 10) as u8;
        rest = rest / 10;
        if rest == 0 {
            return Digits { bytes, from };
        }
    }
    Digits { bytes, from: 0 }
}

// A number of any length, in decimal.
fn put_long(out: &mut [u8], at: usize, n: u32) -> usize
    requires { at + 10 ≤ length out.old }
    ensures put { Put out.old at (decimal_of n) out.new result }
    ensures upper_bound { result ≤ at + 10 }
{
    let s = digits_of(n);
    put(out, at, &s.bytes[s.from..])
}

// Two digits.
fn put_pair(out: &mut [u8], at: usize, n: u32) -> usize
    requires at_in_bounds { at + 2 ≤ length out.old }
    requires n_bound { n < 100 }
    ensures { Put out.old at (pair_of n) out.new result }
{
    put(out, at, &[b'0' + (n / 10) as u8, b'0' + (n % 10) as u8])
}

// A number of one or two digits.
fn put_short(out: &mut [u8], at: usize, n: u32) -> usize
    requires at_in_bounds { at + 2 ≤ length out.old }
    requires n_bound { n < 100 }
    ensures put { Put out.old at (decimal_of n) out.new result }
    ensures upper_bound { result ≤ at + 2 }
{
    if n < 10 {
        return put(out, at, &[b'0' + n as u8]);
    }
    put_pair(out, at, n)
}

// A number in decimal: up to four digits two by two, more in the long way.
pub fn put_decimal(out: &mut [u8], at: usize, n: u32) -> usize
    requires { at + 10 ≤ length out.old }
    ensures put { Put out.old at (decimal_of n) out.new result }
    ensures upper_bound { result ≤ at + 10 }
{
    if n < 100 {
        return put_short(out, at, n);
    }
    if n < 10000 {
        let a = put_short(out, at, n / 100);
        return put_pair(out, a, n % 100);
    }
    put_long(out, at, n)
}

// The digit of a value below 16.
#[tactic(auto, unfolding(spec::specs::Text::hex_digit))]
fn hex_digit(d: u8) -> u8
    requires { d < 16 }
    ensures { result ≡ hex_digit d }
{
    if d < 10 { b'0' + d } else { b'a' + (d - 10) }
}

// Bytes in hexadecimal.
pub fn put_hex(out: &mut [u8], at: usize, value: &[u8]) -> usize
    requires { at + length value.now + length value.now ≤ length out.old }
    ensures { Put out.old at (hex_text value.now) out.new result }
{
    let mut o = at;
    for b in value {
        o = put(out, o, &[hex_digit(*b / 16), hex_digit(*b % 16)]);
    }
    o
}
