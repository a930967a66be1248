// Text of the step program: a form from a line. Definitions: crate spec, specs/Text.antt.
#![tactic(auto)]

ghost use Rattle.std.specs.Prelude.{◌≡◌, true, ◌+◌, ◌≤◌, ◌<◌, length};
ghost use Rattle.spec.specs.Text.{begins as Text·begins, bracket_at, digit_val, decimal_at};
ghost use Rattle.spec.specs.Text.{hex_val, hex_at, value_in, one_at, spaced_at, two_at};
ghost use Rattle.spec.specs.Text.{set_up_of, write_of, form_in, form_of};
ghost use Rattle.text.specs.Inner.{HexValues};

use spec::{Form, TOP};

// A line of more bytes is no form.
const LONGEST_FORM: usize = 80;

// ---- bytes of a line

// Whether the line begins with the word.
fn begins(word: &[u8], line: &[u8]) -> bool
    ensures { result ≡ Text·begins word.now line.now }
{
    if line.len() < word.len() {
        return false;
    }
    for i in 0..word.len() {
        if word[i] != line[i] {
            return false;
        }
    }
    true
}

// Whether the line's last byte stands at a place, and is a closing bracket.
fn bracket_at(line: &[u8], at: usize) -> bool
    ensures { result ≡ bracket_at line.now at }
{
    matches!(line.get(at..), Some([b')']))
}

// ---- numbers and values in a line. Bytes 48 to 57 are the digits 0 to 9, 97 to 102 the letters a to f.

// The value of a decimal digit, 10 for any other byte.
#[tactic(auto, unfolding(spec::specs::Text::digit_val))]
fn digit_of(b: u8) -> u64
    ensures { result ≡ digit_val b }
{
    match b {
        b'0'..=b'9' => (b - b'0') as u64,
        _ => 10,
    }
}

// The decimal number at a place of the line, and the place behind its last digit.
fn decimal(line: &[u8], at: usize) -> Option<(u32, usize)>
    ensures { result ≡ decimal_at line.now at }
{
    let first = digit_of(*line.get(at)?);
    if 10 <= first {
        return None;
    }
    let mut acc = first;
    for i in at + 1..line.len() {
        let d = digit_of(line[i]);
        if 10 <= d {
            return Some((acc as u32, i));
        }
        if acc == 0 {
            return None;
        }
        let more = acc * 10 + d;
        if (TOP as u64) < more {
            return None;
        }
        acc = more;
    }
    Some((acc as u32, line.len()))
}

// The value of a hexadecimal digit, 16 for any other byte.
#[tactic(auto, unfolding(spec::specs::Text::hex_val))]
fn hex_of(b: u8) -> u8
    ensures { (result ≡ hex_val b) × (result ≤ 16) }
{
    match b {
        b'0'..=b'9' => b - b'0',
        b'a'..=b'f' => b - b'a' + 10,
        _ => 16,
    }
}

// Whether 32 hexadecimal digits stand in the line from a place on. The largest value decides: all 32 are looked at,
// so that several are read at a time.
fn hex_at(line: &[u8], at: usize) -> bool
    ensures { result ≡ hex_at line.now at }
{
    if line.len() < 32 {
        return false;
    }
    if line.len() - 32 < at {
        return false;
    }
    let mut most: u8 = 0;
    for i in 0..32 {
        let d = hex_of(line[at + i]);
        if most < d {
            most = d;
        }
    }
    most < 16
}

// The values of the 32 bytes from a place on, as digits.
fn digits_at(line: &[u8], at: usize) -> [u8; 32]
    requires { at + 32 ≤ length line.now }
    ensures { HexValues line.now at result }
{
    let mut d = [0u8; 32];
    for i in 0..32 {
        d[i] = hex_of(line[at + i]);
    }
    d
}

// The sixteen bytes whose digits stand in the line from a place on; zeros where they are not all there.
#[tactic(auto, unfolding(spec::specs::Text::value_in))]
pub fn value_in(line: &[u8], at: usize) -> [u8; 16]
    ensures { result ≡ value_in line.now at }
{
    let mut v = [0u8; 16];
    if line.len() < 32 {
        return v;
    }
    if line.len() - 32 < at {
        return v;
    }
    let d = digits_at(line, at);
    for i in 0..16 {
        v[i] = ((d[2 * i] as u32 * 16 + d[2 * i + 1] as u32) % 256) as u8;
    }
    v
}

// ---- the form of a line

// A number and the closing bracket.
#[tactic(auto, unfolding(spec::specs::Text::one_at))]
fn one_at(line: &[u8], at: usize) -> Option<u32>
    ensures { result ≡ one_at line.now at }
{
    let (value, next) = decimal(line, at)?;
    bracket_at(line, next).then_some(value)
}

// A number and a space, and the place behind it.
#[tactic(auto, unfolding(spec::specs::Text::spaced_at))]
fn spaced_at(line: &[u8], at: usize) -> Option<(u32, usize)>
    ensures { result ≡ spaced_at line.now at }
{
    let (value, next) = decimal(line, at)?;
    match line.get(next) {
        Some(b' ') => Some((value, next + 1)),
        _ => None,
    }
}

// A number, a space, a number and the closing bracket.
#[tactic(auto, unfolding(spec::specs::Text::two_at))]
fn two_at(line: &[u8], at: usize) -> Option<(u32, u32)>
    ensures { result ≡ two_at line.now at }
{
    let (first, next) = spaced_at(line, at)?;
    Some((first, one_at(line, next)?))
}

// What stands behind "(set-up ".
#[tactic(auto, unfolding(spec::specs::Text::set_up_of))]
fn set_up_of(line: &[u8]) -> Form
    ensures { result ≡ set_up_of line.now }
{
    let Some((rows, next)) = spaced_at(line, 8) else {
        return Form::Other;
    };
    let Some((first, limit)) = two_at(line, next) else {
        return Form::Other;
    };
    Form::SetUp { rows, first, limit }
}

// What stands behind "(write ".
#[tactic(auto, unfolding(spec::specs::Text::write_of))]
fn write_of(line: &[u8]) -> Form
    ensures { result ≡ write_of line.now }
{
    let Some((client, second)) = spaced_at(line, 7) else {
        return Form::Other;
    };
    let Some((cell, value)) = spaced_at(line, second) else {
        return Form::Other;
    };
    if value < line.len() && bracket_at(line, value + 32) && hex_at(line, value) {
        return Form::Write {
            client,
            cell,
            value,
        };
    }
    Form::Other
}

// The form of a line of any length.
#[tactic(auto, unfolding(spec::specs::Text::form_in))]
fn form_in(line: &[u8]) -> Form
    ensures { result ≡ form_in line.now }
{
    if begins(b"(set-up ", line) {
        return set_up_of(line);
    }
    if begins(b"(begin ", line) {
        return one_at(line, 7).map_or(Form::Other, Form::Begin);
    }
    if begins(b"(read ", line) {
        return two_at(line, 6).map_or(Form::Other, |(client, cell)| Form::Read(client, cell));
    }
    if begins(b"(write ", line) {
        return write_of(line);
    }
    if begins(b"(advance ", line) {
        return one_at(line, 9).map_or(Form::Other, Form::Advance);
    }
    if begins(b"(abandon ", line) {
        return one_at(line, 9).map_or(Form::Other, Form::Abandon);
    }
    if begins(b"(trim)", line) {
        if line.len() == 6 {
            return Form::Trim;
        }
        return Form::Other;
    }
    if begins(b"(free)", line) {
        if line.len() == 6 {
            return Form::Free;
        }
    }
    Form::Other
}

// The form of a line, without its newline: document 01, "The step program".
#[tactic(auto, unfolding(spec::specs::Text::form_of))]
pub fn form_of(line: &[u8]) -> Form
    ensures { result ≡ form_of line.now }
{
    if LONGEST_FORM < line.len() {
        return Form::Other;
    }
    form_in(line)
}
