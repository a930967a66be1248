// Trim from the newest (document 02, ticket 4): orderly bytes are worked from the last committed row to the first,
// marking the cells that are served; all others the old way, by trimming::trim. The rows that go are removed by
// removal::close_up.
#![tactic(auto)]

ghost use Rattle.std.specs.Prelude.{◌≡◌, true, ◌*◌, ◌≤◌, length, replicate};
ghost use Rattle.spec.specs.Rows.{data_width, commit_width, data_rows_in, commit_rows_in};
ghost use Rattle.trimming.specs.Inner.{Trimmed};
ghost use Rattle.spec.specs.Orderly.{orderly};
ghost use Rattle.spec.specs.Marked.{Marks, Worked};
ghost use Rattle.serving.specs.Inner.{Judged, Used};

use orderly::ENTRY_PLACES;
use spec::{COMMIT_ROW, DATA_ROW};
use trimming::Remaining;

// The rows that stay, where the bytes are orderly (false where they are not): committed rows are gone through from
// the last to the first. Marks and uses are all 0 before, flags all 1.
fn from_newest(
    rows: &[u8],
    used: usize,
    commits: &[u8],
    entries: usize,
    low: u32,
    marks: &mut [u16; 1024],
    flags: &mut [u8; 1024],
    uses: &mut [u8; 1024],
) -> bool
    requires used_in_bounds { data_width * used ≤ length rows.now }
    requires used_bound { used ≤ 1024 }
    requires entries_in_bounds { commit_width * entries ≤ length commits.now }
    requires entries_bound { entries ≤ 1024 }
    requires marks_value { marks.old ≡ replicate 1024 0 }
    requires flags_value { flags.old ≡ replicate 1024 1 }
    requires uses_value { uses.old ≡ replicate 1024 0 }
    ensures value { result ≡ orderly (data_rows_in used rows.now)
        (commit_rows_in entries commits.now) }
    ensures marks { result ≡ true
        → Marks low used entries rows.now commits.now 0 marks.new }
    ensures judged { result ≡ true
        → Judged low used entries rows.now commits.now 0 flags.new }
    ensures used { result ≡ true
        → Used low used entries rows.now commits.now 0 uses.new }
{
    let end = used as u16;
    let mut firsts = [end; ENTRY_PLACES];
    let mut follows = [0u16; 1024];
    if !orderly::link_all(rows, used, commits, entries, &mut firsts, &mut follows) {
        return false;
    }
    let open = firsts[entries] as usize;
    if !orderly::open_plain_from(rows, used, &follows, open) {
        return false;
    }
    let mut seen = [0u16; 1024];
    serving::serve_all(
        rows, used, commits, entries, low, &firsts, &follows, &mut seen, marks, flags, uses,
    )
}

// The trim. On orderly bytes marks, which are all 0 before, show in the end which cells were marked after each
// committed row; all other bytes are worked the old way.
fn trim_marking(
    rows: &mut [u8],
    used: usize,
    commits: &mut [u8],
    entries: usize,
    low: u32,
    marks: &mut [u16; 1024],
) -> Remaining
    requires used_in_bounds { data_width * used ≤ length rows.old }
    requires used_bound { used ≤ 1024 }
    requires entries_in_bounds { commit_width * entries ≤ length commits.old }
    requires entries_bound { entries ≤ 1024 }
    requires marks_value { marks.old ≡ replicate 1024 0 }
    ensures trimmed { Trimmed low used entries rows.old commits.old rows.new
        commits.new result.rows result.commits }
    ensures worked { Worked low used entries rows.old commits.old marks.new }
{
    let mut flags = [1u8; 1024];
    let mut uses = [0u8; 1024];
    if from_newest(
        rows, used, commits, entries, low, marks, &mut flags, &mut uses,
    ) {
        let left = removal::close_up::<DATA_ROW>(rows, used, &flags);
        let kept = removal::close_up::<COMMIT_ROW>(commits, entries, &uses);
        return Remaining {
            rows: left,
            commits: kept,
        };
    }
    trimming::trim(rows, used, commits, entries, low)
}

// Drops the data rows that newer ones up to low overtake, and then the committed rows with no data row left. Where
// no row is committed none goes.
pub fn trim(rows: &mut [u8], used: usize, commits: &mut [u8], entries: usize, low: u32) -> Remaining
    requires used_in_bounds { data_width * used ≤ length rows.old }
    requires used_bound { used ≤ 1024 }
    requires entries_in_bounds { commit_width * entries ≤ length commits.old }
    requires entries_bound { entries ≤ 1024 }
    ensures { Trimmed low used entries rows.old commits.old rows.new
        commits.new result.rows result.commits }
{
    if entries == 0 {
        return trimming::trim(rows, used, commits, entries, low);
    }
    let mut marks = [0u16; 1024];
    trim_marking(rows, used, commits, entries, low, &mut marks)
}
