// What a set-up is given: which lengths, first numbers and cell limits it takes.
#![tactic(auto)]

ghost use Rattle.std.specs.Prelude.{◌≡◌};
ghost use Rattle.spec.specs.Bytes.{limit_of, accepts};

use spec::{COMMIT_ROW, DATA_ROW};

// Whether set-up takes buffers of these lengths, the first number and the cell limit.
pub fn acceptable(d: usize, c: usize, first: u32, limit: u32) -> bool
    ensures { result ≡ accepts d c first limit }
{
    let n = d / DATA_ROW;
    if d != DATA_ROW * n {
        return false;
    }
    if n < 1 {
        return false;
    }
    if 1024 < n {
        return false;
    }
    if c != COMMIT_ROW * n {
        return false;
    }
    if first == 0 {
        return false;
    }
    limit <= 64
}

// The cell limit that 0 at set-up stands for.
const DEFAULT_LIMIT: u32 = 8;

// The cell limit that a set-up was given.
pub fn given_limit(limit: u32) -> u32
    ensures { result ≡ limit_of limit }
{
    if limit == 0 { DEFAULT_LIMIT } else { limit }
}
