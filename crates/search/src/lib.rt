// Searches over the rows of both buffers.
#![tactic(auto)]

ghost use Rattle.std.specs.Prelude.{ℕ, ◌≡◌, true, false, ◌&&◌, ◌+◌, ◌*◌, ◌≤◌, ◌<◌, eqb, ltb, length, set, replicate};
ghost use Rattle.spec.specs.Set.{clients, member, insert};
ghost use Rattle.std.specs.Prelude.{if◌then◌else◌};
ghost use Rattle.spec.specs.Rows.{data_width, commit_width, data_rows_in, commit_rows_in, row_at, rows_from, tag_of};
ghost use Rattle.spec.specs.Rows.{cell_of, commit_number, commit_tag, has_tag};
ghost use Rattle.spec.specs.Look.{commit_of};
ghost use Rattle.spec.specs.Share.{any, wrote, cells_of, conflict};
ghost use Rattle.search.specs.Inner.{own_of, sharers_of, may_have, FirstBy, Joined, LastBy, Next, Last, WrittenMarks};

use spec::{CLIENTS, Set};

// The row of a transaction for a cell, or how many rows it has where there is none.
#[derive(Clone, Copy)]
pub enum Own {
    Row(usize),
    Rows(usize),
}

// ---- passes. The inner loops have a fixed length and are written out by the compiler: the outer ones' own steps are
// shared by eight rows or more.

// The first number, from `from` on and below end, that the test holds of, N a turn; end where there is none.
#[inline(always)]
pub fn first_hit<const N: usize, F: Fn(usize) -> bool>(from: usize, end: usize, hit: F) -> usize
    requires some { 0 < N }
    requires from_le_end { from ≤ end }
    requires callable { (k : ℕ) → from ≤ k → k < end → F.pre hit k }
    ensures { FirstBy (λ k r. F.post hit k r) from end result }
{
    let turns = (end - from) / N;
    for t in 0..turns {
        for j in 0..N {
            let i = from + N * t + j;
            if hit(i) {
                return i;
            }
        }
    }
    for i in from + N * turns..end {
        if hit(i) {
            return i;
        }
    }
    end
}

// From the end: 1 more than the last number below until that the test holds of, 0 where there is none.
#[inline(always)]
pub fn last_hit<F: Fn(usize) -> bool>(until: usize, hit: F) -> usize
    requires { (k : ℕ) → k < until → F.pre hit k }
    ensures { LastBy (λ k r. F.post hit k r) until result }
{
    let mut i = until;
    while 32 <= i {
        for j in 0..32 {
            if hit(i - 1 - j) {
                return i - j;
            }
        }
        i -= 32;
    }
    while 8 <= i {
        for j in 0..8 {
            if hit(i - 1 - j) {
                return i - j;
            }
        }
        i -= 8;
    }
    while 0 < i {
        if hit(i - 1) {
            return i;
        }
        i -= 1;
    }
    0
}

// ---- rows with a tag

// The next row, from row from on, with that tag; used where there is none.
pub fn next_tag(rows: &[u8], from: usize, used: usize, tag: u32) -> usize
    requires used_in_bounds { data_width * used ≤ length rows.now }
    requires from_le_used { from ≤ used }
    ensures { Next (λ k. tag_of (row_at data_width k rows.now) ≡ tag) from used result }
{
    first_hit::<8, _>(from, used, |i| rows::tag_at(rows, i) == tag)
}

// 1 more than the last row before row until with that tag, 0 where there is none. An open transaction's rows are
// among the newest.
pub fn last_tagged(rows: &[u8], until: usize, tag: u32) -> usize
    requires { data_width * until ≤ length rows.now }
    ensures { Last (λ k. tag_of (row_at data_width k rows.now) ≡ tag) until result }
{
    last_hit(until, |i| rows::tag_at(rows, i) == tag)
}

// The first committed row, from row from on, with that tag; entries where there is none.
pub fn next_commit(commits: &[u8], from: usize, entries: usize, tag: u32) -> usize
    requires entries_in_bounds { commit_width * entries ≤ length commits.now }
    requires from_le_entries { from ≤ entries }
    ensures { Next (λ k. commit_tag (row_at commit_width k commits.now) ≡ tag) from entries result }
{
    first_hit::<16, _>(from, entries, |i| rows::commit_tag_at(commits, i) == tag)
}

// The number of the first committed row with that tag.
pub fn commit_of(commits: &[u8], entries: usize, tag: u32) -> Option<u32>
    requires { commit_width * entries ≤ length commits.now }
    ensures { result ≡ commit_of tag (commit_rows_in entries commits.now) }
{
    let at = next_commit(commits, 0, entries, tag);
    if at < entries {
        return Some(rows::commit_number_at(commits, at));
    }
    None
}

// ---- a transaction's own rows

// Whether the transaction has a row.
pub fn has_rows(rows: &[u8], used: usize, tag: u32) -> bool
    requires { data_width * used ≤ length rows.now }
    ensures { result ≡ any (has_tag tag) (data_rows_in used rows.now) }
{
    0 < last_tagged(rows, used, tag)
}

// The transaction's row for a cell, or how many rows it has, in one pass.
pub fn own_row(rows: &[u8], used: usize, tag: u32, cell: u32) -> Own
    requires { data_width * used ≤ length rows.now }
    ensures { result ≡ own_of tag cell (data_rows_in used rows.now) }
{
    let mut n: usize = 0;
    let mut i = next_tag(rows, 0, used, tag);
    while i < used {
        if rows::cell_at(rows, i) == cell {
            return Own::Row(i);
        }
        n += 1;
        i = next_tag(rows, i + 1, used, tag);
    }
    Own::Rows(n)
}

// Whether the transaction wrote the cell, by its rows from row from on.
fn wrote_from(rows: &[u8], from: usize, used: usize, tag: u32, cell: u32) -> bool
    requires used_in_bounds { data_width * used ≤ length rows.now }
    requires from_le_used { from ≤ used }
    ensures { result ≡ wrote (rows_from data_width used from rows.now) tag cell }
{
    first_hit::<8, _>(
        from,
        used,
        |i| rows::tag_at(rows, i) == tag && rows::cell_at(rows, i) == cell,
    ) < used
}

// ---- cells that a transaction wrote, and who shares one

// Notes a cell below 1,024.
fn mark(marks: &mut [bool; 1024], cell: u32)
    ensures { marks.new
        ≡ (if ltb cell 1024 then set marks.old cell true else marks.old) }
{
    if cell < 1024 {
        marks[cell as usize] = true;
    }
}

// Notes for each cell below 1,024 whether the transaction wrote it.
fn mark_cells(marks: &mut [bool; 1024], rows: &[u8], used: usize, tag: u32)
    requires used_in_bounds { data_width * used ≤ length rows.now }
    requires marks_value { marks.old ≡ replicate 1024 false }
    ensures { WrittenMarks marks.new (data_rows_in used rows.now) tag }
{
    let mut i = last_tagged(rows, used, tag);
    while 0 < i {
        let k = i - 1;
        mark(marks, rows::cell_at(rows, k));
        i = last_tagged(rows, k, tag);
    }
}

// Whether the transaction wrote the cell, by its marks; cells above 1,023 are looked for in the rows.
fn has_written(marks: &[bool; 1024], rows: &[u8], used: usize, tag: u32, cell: u32) -> bool
    requires used_in_bounds { data_width * used ≤ length rows.now }
    requires written_marks { WrittenMarks marks.now (data_rows_in used rows.now) tag }
    ensures { result ≡ wrote (data_rows_in used rows.now) tag cell }
{
    if cell < 1024 {
        marks[cell as usize]
    } else {
        wrote_from(rows, 0, used, tag, cell)
    }
}

// 1 if no later row of the transaction has row k's cell, which is marked then; a cell above 1,023 is looked for in
// the later rows.
fn count_cell(marks: &mut [bool; 1024], rows: &[u8], k: usize, used: usize, tag: u32) -> usize
    requires used_in_bounds { data_width * used ≤ length rows.now }
    requires k_lt_used { k < used }
    requires rows_value { tag_of (row_at data_width k rows.now) ≡ tag }
    requires written_marks { WrittenMarks marks.old (rows_from data_width used (k + 1) rows.now) tag }
    ensures written_marks_2 { WrittenMarks marks.new (rows_from data_width used k rows.now) tag }
    ensures value { result
        ≡ (if wrote (rows_from data_width used (k + 1) rows.now)
        tag (cell_of (row_at data_width k rows.now)) then 0 else 1) }
{
    let cell = rows::cell_at(rows, k);
    if cell < 1024 {
        let again = marks[cell as usize];
        marks[cell as usize] = true;
        return usize::from(!again);
    }
    usize::from(!wrote_from(rows, k + 1, used, tag, cell))
}

// How many cells the transaction wrote, from its last row to its first.
pub fn count_cells(rows: &[u8], used: usize, tag: u32) -> usize
    requires { data_width * used ≤ length rows.now }
    ensures { result ≡ cells_of tag (data_rows_in used rows.now) }
{
    let mut marks = [false; 1024];
    let mut n: usize = 0;
    let mut i = last_tagged(rows, used, tag);
    while 0 < i {
        let k = i - 1;
        n += count_cell(&mut marks, rows, k, used, tag);
        i = last_tagged(rows, k, tag);
    }
    n
}

// Whether the transaction may have written row i's cell: a marked one, or one above 1,023, which has no mark.
fn may_have(marks: &[bool; 1024], rows: &[u8], i: usize) -> bool
    requires { data_width * i + 24 ≤ length rows.now }
    ensures { result ≡ may_have marks.now (cell_of (row_at data_width i rows.now)) }
{
    let cell = rows::cell_at(rows, i);
    1023 < cell || marks[cell as usize]
}

// The next row, from row from on, whose cell the transaction may have written; used where there is none.
fn next_marked(marks: &[bool; 1024], rows: &[u8], from: usize, used: usize) -> usize
    requires used_in_bounds { data_width * used ≤ length rows.now }
    requires from_le_used { from ≤ used }
    ensures { Next (λ k. may_have marks.now (cell_of (row_at data_width k rows.now)) ≡ true)
        from used result }
{
    first_hit::<8, _>(from, used, |i| may_have(marks, rows, i))
}

// The set, and the client if it is queued and its transaction has that number.
fn with_writer(found: Set, queued: Set, client: u32, number: u32, tag: u32) -> Set
    ensures { result ≡ (if member queued client && eqb number tag then insert clients found client else found) }
{
    if number == tag && sets::has(queued, client) {
        sets::with(found, client)
    } else {
        found
    }
}

// The set, and those of the queued clients whose transaction has that number, eight clients a turn.
fn with_writers(found: Set, queued: Set, numbers: &[u32; CLIENTS], tag: u32) -> Set
    ensures { Joined found queued numbers.now tag result }
{
    let mut out = found;
    for t in 0..CLIENTS / 8 {
        for j in 0..8 {
            let i = 8 * t + j;
            out = with_writer(out, queued, i as u32, numbers[i], tag);
        }
    }
    out
}

// Those of the queued clients whose transactions share a cell with the transaction: one pass over the rows for all
// of them.
pub fn sharers(rows: &[u8], used: usize, tag: u32, numbers: &[u32; CLIENTS], queued: Set) -> Set
    requires { data_width * used ≤ length rows.now }
    ensures { result ≡ sharers_of queued tag numbers.now (data_rows_in used rows.now) }
{
    if queued == 0 {
        return 0;
    }
    let mut marks = [false; 1024];
    mark_cells(&mut marks, rows, used, tag);
    let mut found: Set = 0;
    let mut i = next_marked(&marks, rows, 0, used);
    while i < used {
        if has_written(&marks, rows, used, tag, rows::cell_at(rows, i)) {
            found = with_writers(found, queued, numbers, rows::tag_at(rows, i));
        }
        i = next_marked(&marks, rows, i + 1, used);
    }
    found
}

// ---- the check

// Whether a committed row in use has a number above s. Goes to the end in any case, so that the compiler takes
// several rows at a time.
fn any_above(commits: &[u8], entries: usize, s: u32) -> bool
    requires { commit_width * entries ≤ length commits.now }
    ensures { result ≡ any (λ c. ltb s (commit_number c)) (commit_rows_in entries commits.now) }
{
    let mut found = false;
    for i in 0..entries {
        found |= s < rows::commit_number_at(commits, i);
    }
    found
}

// The smallest commit number above the snapshot of a row whose cell the transaction wrote.
pub fn conflict(
    rows: &[u8],
    used: usize,
    commits: &[u8],
    entries: usize,
    tag: u32,
    snapshot: u32,
) -> Option<u32>
    requires used_in_bounds { data_width * used ≤ length rows.now }
    requires entries_in_bounds { commit_width * entries ≤ length commits.now }
    ensures { result ≡ conflict tag snapshot (data_rows_in used rows.now)
        (commit_rows_in entries commits.now) }
{
    if !any_above(commits, entries, snapshot) {
        return None;
    }
    let mut marks = [false; 1024];
    mark_cells(&mut marks, rows, used, tag);
    let mut best = None;
    let mut i = next_marked(&marks, rows, 0, used);
    while i < used {
        if has_written(&marks, rows, used, tag, rows::cell_at(rows, i)) {
            let number = commit_of(commits, entries, rows::tag_at(rows, i));
            best = numbers::lesser_of(best, numbers::above_of(snapshot, number));
        }
        i = next_marked(&marks, rows, i + 1, used);
    }
    best
}
