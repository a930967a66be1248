// The bytes of an input: where a line ends, and what is kept of a line that is begun.
#![tactic(auto)]

ghost use Rattle.std.specs.Prelude.{◌≡◌, ◌-◌, ◌≤◌, length, take, drop};
ghost use Rattle.scanning.specs.Inner.{most_kept, newline_from, NoNewline};

// Of a begun line so many bytes are kept: one more than a form may have.
const MOST_KEPT: usize = 81;

// The place that the search for a newline comes to by eights.
fn pass_eights(s: &[u8], from: usize) -> usize
    requires { from ≤ length s.now }
    ensures no_newline { NoNewline s.now from result }
    ensures lower_bound { (from ≤ result) × (result ≤ length s.now) }
{
    let (eights, _) = s[from..].as_chunks::<8>();
    let passed = eights.iter().position(|eight| eight.contains(&b'\n'));
    from + 8 * passed.unwrap_or(eights.len())
}

// The place of the first newline at or after a place, or the input's length.
pub fn newline(s: &[u8], from: usize) -> usize
    requires { from ≤ length s.now }
    ensures value { result ≡ newline_from from (drop from s.now) }
    ensures lower_bound { (from ≤ result) × (result ≤ length s.now) }
{
    let at = pass_eights(s, from);
    let rest = &s[at..];
    let found = rest.iter().position(|byte| *byte == b'\n');
    at + found.unwrap_or(rest.len())
}

// Moves what stands between two places to the front, 81 bytes at most: a line that is too long stays too long.
pub fn keep(buf: &mut [u8], from: usize, end: usize) -> usize
    requires { (from ≤ end) × (end ≤ length buf.old) }
    ensures buf_after { take result buf.new ≡ take most_kept (take (end - from) (drop from buf.old)) }
    ensures upper_bound { result ≤ most_kept }
{
    let kept = MOST_KEPT.min(end - from);
    buf.copy_within(from..from + kept, 0);
    kept
}
