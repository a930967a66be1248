// Orderly bytes (document 02, ticket 4): the tests that come before a trim from the newest, and the chains of rows
// that are made on the way: the committed row of a tag, and the data rows of a committed row.
#![tactic(auto)]

ghost use Rattle.std.specs.Prelude.{◌≡◌, true, ℕ, ◌+◌, ◌*◌, ◌≤◌, ◌<◌, length, get_or, replicate};
ghost use Rattle.spec.specs.Rows.{data_width, commit_width, commit_rows_in, row_at, rows_from, commit_tag};
ghost use Rattle.spec.specs.Share.{wrote};
ghost use Rattle.search.specs.Inner.{Next};
ghost use Rattle.places.specs.Inner.{place};
ghost use Rattle.spec.specs.Orderly.{orderly_commits};
ghost use Rattle.orderly.specs.Inner.{tag_place, entry_of, row_entry, RowsLinked, pair_place, Linked, Links};
ghost use Rattle.orderly.specs.Inner.{Chain, Alike, PairWalk, OpenTest, Walk, SomeWalk, PlaceFlags};
ghost use Rattle.orderly.specs.Inner.{TagWalk, SomeTagWalk, Rises, TagsRise, IsBelow, entry_places};

// Places for the numbers of committed rows, and one for none.
pub const ENTRY_PLACES: usize = 1040;

// ---- chains: from each place, the rows whose key has that place, in their order

// The place of a tag and a cell together, by the tag's place.
#[tactic(auto, unfolding(crate::specs::Inner::pair_place))]
fn pair_place(x: usize, cell: u32) -> usize
    requires { x < 4096 }
    ensures { (result ≡ pair_place x cell) × (result < 1024) }
{
    (x + (cell as usize) * 611) % 1024
}

// Puts row k, whose place is x, in front of the rows behind it; heads has as many places as there are.
fn link(heads: &mut [u16], nexts: &mut [u16; 1024], x: usize, k: usize)
    requires x_in_bounds { x < length heads.old }
    requires k_bound { k < 1024 }
    requires nexts_len { length nexts.old ≡ 1024 }
    ensures { Links x k heads.old nexts.old heads.new nexts.new }
{
    nexts[k] = heads[x];
    heads[x] = k as u16;
}

// ---- the committed row of each data row

// The first committed row with that tag in the chain that starts at from, entries where there is none.
fn chained_entry(
    commits: &[u8],
    entries: usize,
    nexts: &[u16; 1024],
    from: usize,
    tag: u32,
) -> usize
    requires entries_in_bounds { commit_width * entries ≤ length commits.now }
    requires entries_bound { entries ≤ 1024 }
    requires nexts_len { length nexts.now ≡ 1024 }
    requires chain { Chain (tag_place commits.now) entries nexts.now (place tag) from }
    ensures { Next (λ k. commit_tag (row_at commit_width k commits.now) ≡ tag) from entries result }
{
    let mut i = from;
    while i < entries {
        if rows::commit_tag_at(commits, i) == tag {
            return i;
        }
        i = nexts[i] as usize;
    }
    entries
}

// Whether the commit numbers rise and no committed tag repeats. If so, the committed rows are linked by the places
// of their tags on the way; heads are all entries before.
fn commits_orderly(
    commits: &[u8],
    entries: usize,
    heads: &mut [u16; 4096],
    nexts: &mut [u16; 1024],
) -> bool
    requires entries_in_bounds { commit_width * entries ≤ length commits.now }
    requires entries_bound { entries ≤ 1024 }
    requires heads_value { heads.old ≡ replicate 4096 entries }
    requires nexts_len { length nexts.old ≡ 1024 }
    ensures value { result ≡ orderly_commits (commit_rows_in entries commits.now) }
    ensures linked { result ≡ true
        → Linked 4096 (tag_place commits.now) entries 0 heads.new nexts.new }
{
    let mut above = 4294967296;
    for k in (0..entries).rev() {
        let number = rows::commit_number_at(commits, k) as u64;
        if above <= number {
            return false;
        }
        let tag = rows::commit_tag_at(commits, k);
        let x = places::place_of(tag);
        if chained_entry(commits, entries, nexts, heads[x] as usize, tag) < entries {
            return false;
        }
        link(heads, nexts, x, k);
        above = number;
    }
    true
}

// The first committed row with that tag, entries where there is none.
fn entry_of(
    commits: &[u8],
    entries: usize,
    heads: &[u16; 4096],
    nexts: &[u16; 1024],
    tag: u32,
) -> usize
    requires entries_in_bounds { commit_width * entries ≤ length commits.now }
    requires entries_bound { entries ≤ 1024 }
    requires linked { Linked 4096 (tag_place commits.now) entries 0 heads.now nexts.now }
    ensures { result ≡ entry_of tag (commit_rows_in entries commits.now) }
{
    let x = places::place_of(tag);
    chained_entry(commits, entries, nexts, heads[x] as usize, tag)
}

// The same, where entry is that of the tag last, which is not looked up again.
fn entry_again(
    commits: &[u8],
    entries: usize,
    heads: &[u16; 4096],
    nexts: &[u16; 1024],
    last: u32,
    entry: usize,
    tag: u32,
) -> usize
    requires entries_in_bounds { commit_width * entries ≤ length commits.now }
    requires entries_bound { entries ≤ 1024 }
    requires linked { Linked 4096 (tag_place commits.now) entries 0 heads.now nexts.now }
    requires value { entry ≡ entry_of last (commit_rows_in entries commits.now) }
    ensures { result ≡ entry_of tag (commit_rows_in entries commits.now) }
{
    if tag == last {
        return entry;
    }
    entry_of(commits, entries, heads, nexts, tag)
}

// Links the data rows before from by their committed rows; those from it on are linked already.
fn link_rows(
    rows: &[u8],
    used: usize,
    from: usize,
    commits: &[u8],
    entries: usize,
    heads: &[u16; 4096],
    nexts: &[u16; 1024],
    firsts: &mut [u16; ENTRY_PLACES],
    follows: &mut [u16; 1024],
)
    requires used_in_bounds { data_width * used ≤ length rows.now }
    requires used_bound { used ≤ 1024 }
    requires from_le_used { from ≤ used }
    requires entries_in_bounds { commit_width * entries ≤ length commits.now }
    requires entries_bound { entries ≤ 1024 }
    requires linked { Linked 4096 (tag_place commits.now) entries 0 heads.now nexts.now }
    requires linked_2 { Linked entry_places (row_entry entries commits.now rows.now) used from firsts.old
        follows.old }
    ensures { RowsLinked used entries rows.now commits.now firsts.new
        follows.new }
{
    let mut last = 0;
    let mut at = entry_of(commits, entries, heads, nexts, 0);
    for k in (0..from).rev() {
        let tag = rows::tag_at(rows, k);
        at = entry_again(commits, entries, heads, nexts, last, at, tag);
        last = tag;
        link(firsts, follows, at, k);
    }
}

// ---- data rows linked by their committed rows: where tags rise with the numbers, and data rows stand in that order,
// they are walked along together, without a table of tags

// Whether committed row k + 1 has a larger number and a larger tag than row k.
fn rises(commits: &[u8], k: usize) -> bool
    requires { commit_width * (k + 1) + 8 ≤ length commits.now }
    ensures { result ≡ true → Rises commits.now k }
{
    rows::commit_number_at(commits, k) < rows::commit_number_at(commits, k + 1)
        && rows::commit_tag_at(commits, k) < rows::commit_tag_at(commits, k + 1)
}

// Whether numbers and tags rise from each committed row to the next; two rows a turn.
fn both_rise(commits: &[u8], entries: usize) -> bool
    requires entries_in_bounds { commit_width * entries ≤ length commits.now }
    requires entries_bound { entries ≤ 1024 }
    ensures { result ≡ true → TagsRise entries commits.now }
{
    let mut i = 0;
    while i + 2 < entries {
        if !rises(commits, i) || !rises(commits, i + 1) {
            return false;
        }
        i += 2;
    }
    if i + 1 < entries {
        return rises(commits, i);
    }
    true
}

// Whether the committed row before row at has that tag.
fn is_below(commits: &[u8], entries: usize, at: usize, tag: u32) -> bool
    requires entries_in_bounds { commit_width * entries ≤ length commits.now }
    requires at_le_entries { at ≤ entries }
    ensures { result ≡ true → IsBelow commits.now at tag }
{
    0 < at && rows::commit_tag_at(commits, at - 1) == tag
}

// The committed row of a tag that is above that of the row before row at: row at, or none (entries) where its tag is
// above too. Any other tag is not looked for: entries + 1.
fn near(commits: &[u8], entries: usize, at: usize, tag: u32) -> usize
    requires entries_in_bounds { commit_width * entries ≤ length commits.now }
    requires entries_bound { entries ≤ 1024 }
    requires at_le_entries { at ≤ entries }
    requires tags_rise { TagsRise entries commits.now }
    ensures { result ≤ entries → result ≡ entry_of tag (commit_rows_in entries commits.now) }
{
    if at < entries {
        let here = rows::commit_tag_at(commits, at);
        if tag == here {
            return at;
        }
        if here < tag {
            return entries + 1;
        }
    }
    if at == 0 {
        return entries;
    }
    if rows::commit_tag_at(commits, at - 1) < tag {
        return entries;
    }
    entries + 1
}

// Links the data rows from the last one on, as far as they stand in the order of the committed rows, and returns the
// first that is linked. run is the committed row of row i, entries where it has none, and last its tag; a row with
// the same tag goes in front of it, and firsts has the run's first row where the run ends.
fn link_in_order(
    rows: &[u8],
    used: usize,
    commits: &[u8],
    entries: usize,
    firsts: &mut [u16; ENTRY_PLACES],
    follows: &mut [u16; 1024],
) -> usize
    requires used_in_bounds { data_width * used ≤ length rows.now }
    requires used_bound { used ≤ 1024 }
    requires entries_in_bounds { commit_width * entries ≤ length commits.now }
    requires entries_bound { entries ≤ 1024 }
    requires tags_rise { TagsRise entries commits.now }
    requires firsts_value { firsts.old ≡ replicate entry_places used }
    requires follows_len { length follows.old ≡ 1024 }
    ensures upper_bound { result ≤ used }
    ensures linked { Linked entry_places (row_entry entries commits.now rows.now) used result
        firsts.new follows.new }
{
    let mut at = entries;
    let mut run = entries;
    let mut last = 4294967296;
    for k in (0..used).rev() {
        let tag = rows::tag_at(rows, k);
        if tag as u64 == last {
            follows[k] = (k + 1) as u16;
        } else {
            firsts[run] = (k + 1) as u16;
            if is_below(commits, entries, at, tag) {
                at -= 1;
                run = at;
            } else {
                run = near(commits, entries, at, tag);
                if entries < run {
                    return k + 1;
                }
            }
            follows[k] = firsts[run];
            last = tag as u64;
        }
    }
    firsts[run] = 0;
    0
}

// Whether the committed rows are orderly; if so, the data rows are linked by them. firsts are all used before.
pub fn link_all(
    rows: &[u8],
    used: usize,
    commits: &[u8],
    entries: usize,
    firsts: &mut [u16; ENTRY_PLACES],
    follows: &mut [u16; 1024],
) -> bool
    requires used_in_bounds { data_width * used ≤ length rows.now }
    requires used_bound { used ≤ 1024 }
    requires entries_in_bounds { commit_width * entries ≤ length commits.now }
    requires entries_bound { entries ≤ 1024 }
    requires firsts_value { firsts.old ≡ replicate entry_places used }
    requires follows_len { length follows.old ≡ 1024 }
    ensures value { result ≡ orderly_commits (commit_rows_in entries commits.now) }
    ensures rows_linked { result ≡ true → RowsLinked used entries rows.now commits.now
        firsts.new follows.new }
{
    let mut from = used;
    if both_rise(commits, entries) {
        from = link_in_order(rows, used, commits, entries, firsts, follows);
        if from == 0 {
            return true;
        }
    }
    let none = entries as u16;
    let mut heads = [none; 4096];
    let mut nexts = [0u16; 1024];
    if !commits_orderly(commits, entries, &mut heads, &mut nexts) {
        return false;
    }
    link_rows(
        rows, used, from, commits, entries, &heads, &nexts, firsts, follows,
    );
    true
}

// ---- the test for the rows of transactions that are not committed

// Whether a data row of the chain that starts at from has that tag and that cell.
fn own_chained(
    rows: &[u8],
    used: usize,
    nexts: &[u16; 1024],
    from: usize,
    tag: u32,
    cell: u32,
) -> bool
    requires used_in_bounds { data_width * used ≤ length rows.now }
    requires used_bound { used ≤ 1024 }
    requires nexts_len { length nexts.now ≡ 1024 }
    requires pair_walk { PairWalk used rows.now nexts.now tag cell from }
    ensures { result ≡ wrote (rows_from data_width used from rows.now) tag cell }
{
    let mut i = from;
    while i < used {
        if rows::tag_at(rows, i) == tag && rows::cell_at(rows, i) == cell {
            return true;
        }
        i = nexts[i] as usize;
    }
    false
}

// Whether all rows that are not committed have cells below 1,024, and none that its tag has again. flags are
// 1 for such rows; first is the first of them.
fn open_plain(rows: &[u8], used: usize, flags: &[u8; 1024], first: usize) -> bool
    requires used_in_bounds { data_width * used ≤ length rows.now }
    requires used_bound { used ≤ 1024 }
    requires alike { Alike used rows.now flags.now }
    requires next { Next (λ k. get_or flags.now k 0 ≡ 1) 0 used first }
    ensures { OpenTest (λ k. get_or flags.now k 0) 1 used rows.now result }
{
    let none = used as u16;
    let mut heads = [none; 1024];
    let mut nexts = [0u16; 1024];
    for k in (first..used).rev() {
        if flags[k] == 1 {
            let cell = rows::cell_at(rows, k);
            if 1024 <= cell {
                return false;
            }
            let tag = rows::tag_at(rows, k);
            let x = places::place_of(tag);
            let y = pair_place(x, cell);
            if own_chained(rows, used, &nexts, heads[y] as usize, tag, cell) {
                return false;
            }
            link(&mut heads, &mut nexts, y, k);
        }
    }
    true
}

// Sets the flags of the rows of the chain that starts at first; all are 0 before.
fn chain_flags(used: usize, follows: &[u16; 1024], first: usize, flags: &mut [u8; 1024])
    requires used_bound { used ≤ 1024 }
    requires follows_len { length follows.now ≡ 1024 }
    requires some_walk { SomeWalk used follows.now first }
    requires flags_value { flags.old ≡ replicate 1024 0 }
    ensures { (key : ℕ → ℕ) (x : ℕ) → Walk key x used follows.now first
        → PlaceFlags key x used flags.new }
{
    let mut i = first;
    while i < used {
        flags[i] = 1;
        i = follows[i] as usize;
    }
}

// Whether the chain that starts at first has at most eight rows. Nothing is promised: both tests are right for all.
fn is_short(used: usize, follows: &[u16; 1024], first: usize) -> bool
    requires used_bound { used ≤ 1024 }
    requires follows_len { length follows.now ≡ 1024 }
{
    let mut i = first;
    for _row in 0u32..8 {
        if used <= i {
            return true;
        }
        i = follows[i] as usize;
    }
    used <= i
}

// The test for a short chain, with no table: each row's cell, and whether a later row has its tag and cell.
fn open_plain_short(rows: &[u8], used: usize, follows: &[u16; 1024], first: usize) -> bool
    requires used_in_bounds { data_width * used ≤ length rows.now }
    requires used_bound { used ≤ 1024 }
    requires follows_len { length follows.now ≡ 1024 }
    requires some_tag_walk { SomeTagWalk used rows.now follows.now first }
    ensures { (key : ℕ → ℕ) (x : ℕ) → TagWalk key x used rows.now follows.now first
        → OpenTest key x used rows.now result }
{
    let mut i = first;
    while i < used {
        let cell = rows::cell_at(rows, i);
        if 1024 <= cell {
            return false;
        }
        let tag = rows::tag_at(rows, i);
        let next = follows[i] as usize;
        if own_chained(rows, used, follows, next, tag, cell) {
            return false;
        }
        i = next;
    }
    true
}

// The test, where the rows that are not committed are a chain that starts at first, which is used where there is
// none: nothing is looked at then.
pub fn open_plain_from(rows: &[u8], used: usize, follows: &[u16; 1024], first: usize) -> bool
    requires used_in_bounds { data_width * used ≤ length rows.now }
    requires used_bound { used ≤ 1024 }
    requires follows_len { length follows.now ≡ 1024 }
    requires some_tag_walk { SomeTagWalk used rows.now follows.now first }
    ensures { (key : ℕ → ℕ) (x : ℕ) → TagWalk key x used rows.now follows.now first
        → OpenTest key x used rows.now result }
{
    if first < used {
        if is_short(used, follows, first) {
            return open_plain_short(rows, used, follows, first);
        }
        let mut flags = [0u8; 1024];
        chain_flags(used, follows, first, &mut flags);
        return open_plain(rows, used, &flags, first);
    }
    true
}
