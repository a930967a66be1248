// The row that a read finds. Rows are gone through from the last to the first, where the newest version of a cell is
// likely met first: once one is known, committed rows numbered below it are passed over, and so are data rows with
// tags below all that the other committed rows and the reader have. Where the last rows of the cell are all too new for
// the reader, committed rows numbered below the cell's entry in the version table are passed over, and data rows with
// tags above all that the others up to the snapshot and the reader have. No order of the rows is relied on.
#![tactic(auto)]

ghost use Rattle.std.specs.Prelude.{◌≡◌, List, ℕ, ◌+◌, ◌*◌, ◌≤◌, ◌<◌, length, Some, None};
ghost use Rattle.spec.specs.Rows.{data_width, commit_width, data_rows_in, commit_rows_in, Row, row_at};
ghost use Rattle.spec.specs.Rows.{tag_of, cell_of, commit_number};
ghost use Rattle.spec.specs.Numbers.{at_least, up_to};
ghost use Rattle.spec.specs.Look.{commit_of, least_looked, look_from};
ghost use Rattle.search.specs.Inner.{Next, Last};
ghost use Rattle.looks.specs.Inner.{PassedOver, LeastTag, MostTag, NumberedBelow, Seen, LastVersion};

use spec::Version;

// ---- passes from the end over the rows before row until: 1 more than the last one that is a hit, 0 where there is
// none

fn last_cell(rows: &[u8], until: usize, cell: u32) -> usize
    requires { data_width * until ≤ length rows.now }
    ensures { Last (λ k. cell_of (row_at data_width k rows.now) ≡ cell) until result }
{
    if 65535 < cell {
        return 0;
    }
    let short = cell as u16;
    search::last_hit(until, |i| rows::short_cell_at(rows, i) == short)
}

// Rows with tags from least on, and up to most.
fn last_tag(rows: &[u8], until: usize, least: u32) -> usize
    requires { data_width * until ≤ length rows.now }
    ensures { Last (λ k. least ≤ tag_of (row_at data_width k rows.now)) until result }
{
    search::last_hit(until, |i| least <= rows::tag_at(rows, i))
}

fn last_up_to(rows: &[u8], until: usize, most: u32) -> usize
    requires { data_width * until ≤ length rows.now }
    ensures { Last (λ k. tag_of (row_at data_width k rows.now) ≤ most) until result }
{
    search::last_hit(until, |i| rows::tag_at(rows, i) <= most)
}

// A row of that cell such that all rows from it on to until are of other cells or have tags below least.
fn older(rows: &[u8], until: usize, least: u32, cell: u32) -> usize
    requires { data_width * until ≤ length rows.now }
    ensures { PassedOver (λ t. least ≤ t) rows.now cell until result }
{
    last_cell(rows, last_tag(rows, until, least), cell)
}

// The same with tags above most.
fn not_newer(rows: &[u8], until: usize, most: u32, cell: u32) -> usize
    requires { data_width * until ≤ length rows.now }
    ensures { PassedOver (λ t. t ≤ most) rows.now cell until result }
{
    last_cell(rows, last_up_to(rows, until, most), cell)
}

// ---- committed rows that count

// The first committed row numbered least or above; entries where there is none.
fn next_numbered(commits: &[u8], entries: usize, least: u32) -> usize
    requires { commit_width * entries ≤ length commits.now }
    ensures { Next (λ k. least ≤ commit_number (row_at commit_width k commits.now)) 0 entries result }
{
    search::first_hit::<32, _>(0, entries, |i| least <= rows::commit_number_at(commits, i))
}

// The smallest of the reader's number and the tags of the committed rows from row from on.
fn least_tag(commits: &[u8], from: usize, entries: usize, tag: u32) -> u32
    requires { commit_width * entries ≤ length commits.now }
    ensures { LeastTag commits.now from entries tag result }
{
    let mut least = tag;
    for i in from..entries {
        least = least.min(rows::commit_tag_at(commits, i));
    }
    least
}

// The largest of the reader's number and the tags of the committed rows from row from on that are numbered up to the
// snapshot.
fn most_tag(commits: &[u8], from: usize, entries: usize, tag: u32, snapshot: u32) -> u32
    requires { commit_width * entries ≤ length commits.now }
    ensures { MostTag commits.now from entries tag snapshot result }
{
    let mut most = tag;
    for i in from..entries {
        if rows::commit_number_at(commits, i) <= snapshot {
            most = most.max(rows::commit_tag_at(commits, i));
        }
    }
    most
}

// The number that the transaction is committed under, if it is from least up to the snapshot. Committed rows before
// row from are numbered below least.
fn recent_commit(
    commits: &[u8],
    from: usize,
    entries: usize,
    tag: u32,
    least: u32,
    snapshot: u32,
) -> Option<u32>
    requires entries_in_bounds { commit_width * entries ≤ length commits.now }
    requires from_le_entries { from ≤ entries }
    requires numbered_below { NumberedBelow commits.now from least }
    ensures { result ≡ at_least least (up_to snapshot
        (commit_of tag (commit_rows_in entries commits.now))) }
{
    let at = search::next_commit(commits, from, entries, tag);
    if entries <= at {
        return None;
    }
    let number = rows::commit_number_at(commits, at);
    if number < least {
        return None;
    }
    if snapshot < number {
        return None;
    }
    // of several committed rows with one tag the first alone counts
    if search::next_commit(commits, 0, from, tag) < from {
        return None;
    }
    Some(number)
}

// ---- Read

// The first of the reader's own rows for the cell, where row k is one.
fn own_version(rows: &[u8], k: usize, tag: u32, cell: u32) -> Option<Version>
    requires k_in_bounds { data_width * k + 24 ≤ length rows.now }
    requires rows_value { tag_of (row_at data_width k rows.now) ≡ tag }
    requires rows_value_2 { cell_of (row_at data_width k rows.now) ≡ cell }
    ensures { (e s n : ℕ) (cs : List Row) → k < n
        → result ≡ look_from e tag cell s (data_rows_in n rows.now) cs }
{
    let mut at = k;
    let mut i = search::last_tagged(rows, k, tag);
    while 0 < i {
        if rows::cell_at(rows, i - 1) == cell {
            at = i - 1;
        }
        i = search::last_tagged(rows, i - 1, tag);
    }
    Some(Version { at, number: 0 })
}

// The rows before a version's, where the version is what the rows from it on give.
fn look_before(
    rows: &[u8],
    used: usize,
    commits: &[u8],
    entries: usize,
    tag: u32,
    cell: u32,
    snapshot: u32,
    entry: u32,
    last: Version,
) -> Option<Version>
    requires used_in_bounds { data_width * used ≤ length rows.now }
    requires entries_in_bounds { commit_width * entries ≤ length commits.now }
    requires at_le_used { last.at ≤ used }
    requires snapshot_bound { least_looked entry snapshot ≤ last.number }
    requires seen { Seen (least_looked entry snapshot) tag cell snapshot used rows.now
        (commit_rows_in entries commits.now) last.at (Some last) }
    ensures { result ≡ look_from entry tag cell snapshot (data_rows_in used rows.now)
        (commit_rows_in entries commits.now) }
{
    let near = last_cell(rows, last.at, cell);
    if near == 0 {
        return Some(last);
    }
    let from = next_numbered(commits, entries, last.number);
    let least = least_tag(commits, from, entries, tag);
    let mut best = Some(last);
    let mut i = older(rows, near, least, cell);
    while 0 < i {
        let k = i - 1;
        let writer = rows::tag_at(rows, k);
        if writer == tag {
            return own_version(rows, k, tag, cell);
        }
        let found = recent_commit(commits, from, entries, writer, last.number, snapshot);
        best = numbers::newer_of(k, found, best);
        i = older(rows, k, least, cell);
    }
    best
}

// The last row before row until that counts, where none from it on does.
fn earlier_version(
    rows: &[u8],
    used: usize,
    commits: &[u8],
    entries: usize,
    tag: u32,
    cell: u32,
    snapshot: u32,
    least: u32,
    until: usize,
) -> Option<Version>
    requires used_in_bounds { data_width * used ≤ length rows.now }
    requires entries_in_bounds { commit_width * entries ≤ length commits.now }
    requires until_le_used { until ≤ used }
    requires seen { Seen least tag cell snapshot used rows.now (commit_rows_in entries commits.now) until
        None }
    ensures { LastVersion least tag cell snapshot used rows.now
        (commit_rows_in entries commits.now) result }
{
    let from = next_numbered(commits, entries, least);
    let most = most_tag(commits, from, entries, tag, snapshot);
    let mut i = not_newer(rows, until, most, cell);
    while 0 < i {
        let k = i - 1;
        let writer = rows::tag_at(rows, k);
        if writer == tag {
            return Some(Version { at: k, number: 0 });
        }
        if let Some(number) = recent_commit(commits, from, entries, writer, least, snapshot) {
            return Some(Version { at: k, number });
        }
        i = not_newer(rows, k, most, cell);
    }
    None
}

// The least number that is looked at.
fn least_looked(entry: u32, snapshot: u32) -> u32
    ensures { result ≡ least_looked entry snapshot }
{
    if entry <= snapshot { entry } else { 0 }
}

// The last row that counts. Two rows of the cell are asked for their commits, which is enough as a rule.
fn last_version(
    rows: &[u8],
    used: usize,
    commits: &[u8],
    entries: usize,
    tag: u32,
    cell: u32,
    snapshot: u32,
    entry: u32,
) -> Option<Version>
    requires used_in_bounds { data_width * used ≤ length rows.now }
    requires entries_in_bounds { commit_width * entries ≤ length commits.now }
    ensures { LastVersion (least_looked entry snapshot) tag cell snapshot used rows.now
        (commit_rows_in entries commits.now) result }
{
    let least = least_looked(entry, snapshot);
    let mut until = used;
    for _turn in 0u32..2 {
        let i = last_cell(rows, until, cell);
        if i == 0 {
            return None;
        }
        let k = i - 1;
        let writer = rows::tag_at(rows, k);
        if writer == tag {
            return Some(Version { at: k, number: 0 });
        }
        let number = search::commit_of(commits, entries, writer);
        if let Some(n) = numbers::at_least(least, numbers::up_to(snapshot, number)) {
            return Some(Version { at: k, number: n });
        }
        until = k;
    }
    earlier_version(
        rows, used, commits, entries, tag, cell, snapshot, least, until,
    )
}

// The row that a read finds by the cell's entry in the version table: the reader's own, else the visible one.
pub fn look_for(
    rows: &[u8],
    used: usize,
    commits: &[u8],
    entries: usize,
    tag: u32,
    cell: u32,
    snapshot: u32,
    entry: u32,
) -> Option<Version>
    requires used_in_bounds { data_width * used ≤ length rows.now }
    requires entries_in_bounds { commit_width * entries ≤ length commits.now }
    ensures { result ≡ look_from entry tag cell snapshot (data_rows_in used rows.now)
        (commit_rows_in entries commits.now) }
{
    let last = last_version(rows, used, commits, entries, tag, cell, snapshot, entry)?;
    if rows::tag_at(rows, last.at) == tag {
        return own_version(rows, last.at, tag, cell);
    }
    look_before(
        rows, used, commits, entries, tag, cell, snapshot, entry, last,
    )
}
