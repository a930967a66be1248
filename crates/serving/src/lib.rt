// Committed rows gone through from the last to the first, marking the cells that are served (document 02, ticket 4):
// see crate spec, specs/Marked.antt.
#![tactic(auto)]

ghost use Rattle.std.specs.Prelude.{◌≡◌, true, false, ◌+◌, ◌*◌, ◌≤◌, ◌<◌, length};
ghost use Rattle.spec.specs.Rows.{data_width, commit_width, data_rows_in, commit_rows_in};
ghost use Rattle.spec.specs.Orderly.{orderly_commits, orderly_rows};
ghost use Rattle.orderly.specs.Inner.{RowsLinked};
ghost use Rattle.spec.specs.Marked.{Marks};
ghost use Rattle.serving.specs.Inner.{SoFar, Judged, Used};

use orderly::ENTRY_PLACES;

// Committed row j, where the rows behind it are done. Its data rows of cells that are marked already go, and its
// other cells are marked with j + 1; a row numbered above low marks nothing. False where it comes to a cell above
// 1,023 or to one that the transaction has twice; a cell with no mark yet has not been met where the row marks.
fn serve(
    rows: &[u8],
    used: usize,
    commits: &[u8],
    entries: usize,
    j: usize,
    low: u32,
    firsts: &[u16; ENTRY_PLACES],
    follows: &[u16; 1024],
    seen: &mut [u16; 1024],
    marks: &mut [u16; 1024],
    flags: &mut [u8; 1024],
    uses: &mut [u8; 1024],
) -> bool
    requires used_in_bounds { data_width * used ≤ length rows.now }
    requires used_bound { used ≤ 1024 }
    requires entries_in_bounds { commit_width * entries ≤ length commits.now }
    requires entries_bound { entries ≤ 1024 }
    requires commits_value { orderly_commits (commit_rows_in entries commits.now) ≡ true }
    requires j_lt_entries { j < entries }
    requires rows_linked { RowsLinked used entries rows.now commits.now firsts.now follows.now }
    requires marks { Marks low used entries rows.now commits.now (j + 1) marks.old }
    requires so_far { SoFar used entries rows.now commits.now (j + 1) seen.old }
    requires judged { Judged low used entries rows.now commits.now (j + 1) flags.old }
    requires used { Used low used entries rows.now commits.now (j + 1) uses.old }
    ensures marks_2 { result ≡ true
        → Marks low used entries rows.now commits.now j marks.new }
    ensures so_far_2 { result ≡ true
        → SoFar used entries rows.now commits.now j seen.new }
    ensures judged_2 { result ≡ true
        → Judged low used entries rows.now commits.now j flags.new }
    ensures used_2 { result ≡ true
        → Used low used entries rows.now commits.now j uses.new }
    ensures rows_value { result ≡ false → orderly_rows (data_rows_in used rows.now) ≡ false }
{
    let number = rows::commit_number_at(commits, j);
    let mark = (j + 1) as u16;
    let mut i = firsts[j] as usize;
    while i < used {
        let at = rows::cell_at(rows, i) as usize;
        if 1024 <= at {
            return false;
        }
        if marks[at] == 0 {
            uses[j] = 1;
            if number <= low {
                marks[at] = mark;
            } else {
                if seen[at] == mark {
                    return false;
                }
            }
        } else {
            if mark == seen[at] {
                return false;
            }
            flags[i] = 0;
        }
        seen[at] = mark;
        i = follows[i] as usize;
    }
    true
}

// All committed rows, from the last to the first. Marks, seen and uses are all 0 before, flags all 1.
pub fn serve_all(
    rows: &[u8],
    used: usize,
    commits: &[u8],
    entries: usize,
    low: u32,
    firsts: &[u16; ENTRY_PLACES],
    follows: &[u16; 1024],
    seen: &mut [u16; 1024],
    marks: &mut [u16; 1024],
    flags: &mut [u8; 1024],
    uses: &mut [u8; 1024],
) -> bool
    requires used_in_bounds { data_width * used ≤ length rows.now }
    requires used_bound { used ≤ 1024 }
    requires entries_in_bounds { commit_width * entries ≤ length commits.now }
    requires entries_bound { entries ≤ 1024 }
    requires commits_value { orderly_commits (commit_rows_in entries commits.now) ≡ true }
    requires rows_linked { RowsLinked used entries rows.now commits.now firsts.now follows.now }
    requires marks { Marks low used entries rows.now commits.now entries marks.old }
    requires so_far { SoFar used entries rows.now commits.now entries seen.old }
    requires judged { Judged low used entries rows.now commits.now entries flags.old }
    requires used { Used low used entries rows.now commits.now entries uses.old }
    ensures marks_2 { result ≡ true
        → Marks low used entries rows.now commits.now 0 marks.new }
    ensures so_far_2 { result ≡ true
        → SoFar used entries rows.now commits.now 0 seen.new }
    ensures judged_2 { result ≡ true
        → Judged low used entries rows.now commits.now 0 flags.new }
    ensures used_2 { result ≡ true
        → Used low used entries rows.now commits.now 0 uses.new }
    ensures rows_value { result ≡ false → orderly_rows (data_rows_in used rows.now) ≡ false }
{
    for j in (0..entries).rev() {
        if !serve(
            rows, used, commits, entries, j, low, firsts, follows, seen, marks, flags, uses,
        ) {
            return false;
        }
    }
    true
}
