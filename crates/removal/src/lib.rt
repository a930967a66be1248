// Removing rows: the one compaction for Abandon, Conflict and Trim, and the removal of a transaction's rows.
#![tactic(auto)]

ghost use Rattle.std.specs.Prelude.{◌≡◌, Bool, true, ℕ, ◌*◌, ◌≤◌, ◌<◌, length, get_or};
ghost use Rattle.spec.specs.Rows.{Row, data_width, data_rows_in, row_at, rows_in, filter};
ghost use Rattle.search.specs.Inner.{Next};
ghost use Rattle.removal.specs.Inner.{InFront, Freed, FlaggedLeft, Says, kept_by, other_tag, Left};

use spec::DATA_ROW;

// ---- the compaction

// Moves the rows that stay to the front, in their order, and returns how many they are. All rows before first stay.
fn keep_rows<const WIDTH: usize, F: Fn(usize, &[u8]) -> bool>(
    buf: &mut [u8],
    first: usize,
    used: usize,
    stays: F,
) -> usize
    requires used_in_bounds { WIDTH * used ≤ length buf.old }
    requires first_le_used { first ≤ used }
    requires askable { (k : ℕ) (row : _) → k < used → length row.now ≡ WIDTH → F.pre stays k row }
    ensures fewer { result ≤ used }
    ensures kept { (p : ℕ → Row → Bool) → Says (F.post stays) p WIDTH used
        → ((k : ℕ) → k < first → p k (row_at WIDTH k buf.old) ≡ true)
        → InFront WIDTH used (kept_by p 0 (rows_in WIDTH used buf.old)) buf.old buf.new result }
{
    let mut left = first;
    for i in first..used {
        let row = rows::bytes_at::<WIDTH>(buf, WIDTH * i);
        if stays(i, &row) {
            rows::put(buf, WIDTH * left, &row);
            left += 1;
        }
    }
    left
}

// The bytes of the rows from left on become zero.
fn free_rows<const WIDTH: usize>(buf: &mut [u8], left: usize, used: usize)
    requires used_in_bounds { WIDTH * used ≤ length buf.old }
    requires left_le_used { left ≤ used }
    ensures { Freed WIDTH used left buf.old buf.new }
{
    rows::clear(&mut buf[WIDTH * left..WIDTH * used]);
}

// ---- rows by flags

// The first row whose flag is 0, used where there is none: that is tested first, many flags at a time.
fn first_gone(flags: &[u8; 1024], used: usize) -> usize
    requires { used ≤ 1024 }
    ensures { Next (λ k. get_or flags.now k 0 ≡ 0) 0 used result }
{
    let flags = &flags[..used];
    if !flags.contains(&0) {
        return used;
    }
    flags.iter().position(|flag| *flag == 0).unwrap_or(used)
}

// Removes the rows whose flag is 0: the others close up in their order, and the freed bytes become zero. Returns
// how many are left. Rows before the first that goes are not moved.
pub fn close_up<const WIDTH: usize>(buf: &mut [u8], used: usize, flags: &[u8; 1024]) -> usize
    requires used_in_bounds { WIDTH * used ≤ length buf.old }
    requires used_bound { used ≤ 1024 }
    ensures { FlaggedLeft WIDTH used flags.now buf.old buf.new result }
{
    let first = first_gone(flags, used);
    if first == used {
        return used;
    }
    let left = keep_rows::<WIDTH, _>(buf, first, used, |i, _row| flags[i] != 0);
    free_rows::<WIDTH>(buf, left, used);
    left
}

// ---- a transaction's rows

// Removes all data rows of a transaction, and returns how many rows are left.
pub fn remove_rows(rows: &mut [u8], used: usize, tag: u32) -> usize
    requires used_in_bounds { data_width * used ≤ length rows.old }
    requires used_bound { used ≤ 1024 }
    ensures { Left data_width used (filter (other_tag tag) (data_rows_in used rows.old))
        rows.old rows.new result }
{
    let first = search::next_tag(rows, 0, used, tag);
    if first == used {
        return used;
    }
    let left = keep_rows::<DATA_ROW, _>(rows, first, used, |_i, row| rows::tag_at(row, 0) != tag);
    free_rows::<DATA_ROW>(rows, left, used);
    left
}
