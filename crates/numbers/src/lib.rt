// Commit numbers that may be missing, and the newer of two versions.
#![tactic(auto)]

ghost use Rattle.std.specs.Prelude.{◌≡◌};
ghost use Rattle.spec.specs.Numbers.{lesser, above, at_least, up_to};
ghost use Rattle.spec.specs.Look.{newer, version_at};

use spec::Version;

// The number, if it is not above the snapshot.
#[tactic(auto, unfolding(spec::specs::Numbers::up_to))]
pub fn up_to(snapshot: u32, number: Option<u32>) -> Option<u32>
    ensures { result ≡ up_to snapshot number }
{
    number.filter(|n| *n <= snapshot)
}

// The number, if it is at least m.
#[tactic(auto, unfolding(spec::specs::Numbers::at_least))]
pub fn at_least(m: u32, number: Option<u32>) -> Option<u32>
    ensures { result ≡ at_least m number }
{
    number.filter(|n| m <= *n)
}

// The number, if it is above the snapshot.
#[tactic(auto, unfolding(spec::specs::Numbers::above))]
pub fn above_of(snapshot: u32, number: Option<u32>) -> Option<u32>
    ensures { result ≡ above snapshot number }
{
    number.filter(|n| snapshot < *n)
}

// The newer of a row under a number that may be missing and what the rows behind it give; the first of equals.
#[tactic(auto, unfolding(spec::specs::Look::newer, spec::specs::Look::version_at))]
pub fn newer_of(at: usize, number: Option<u32>, best: Option<Version>) -> Option<Version>
    ensures { result ≡ newer (version_at at number) best }
{
    match (number, best) {
        (None, _) => best,
        (Some(n), Some(other)) if n < other.number => best,
        (Some(n), _) => Some(Version { at, number: n }),
    }
}

// The smaller of two numbers that may be missing.
#[tactic(auto, unfolding(spec::specs::Numbers::lesser))]
pub fn lesser_of(a: Option<u32>, b: Option<u32>) -> Option<u32>
    ensures { result ≡ lesser a b }
{
    match (a, b) {
        (Some(m), Some(n)) => Some(m.min(n)),
        (Some(_), None) => a,
        (None, _) => b,
    }
}
