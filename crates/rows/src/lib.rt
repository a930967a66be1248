// Rows of fixed width in byte buffers: fields, new rows, a value replaced.
#![tactic(auto)]

ghost use Rattle.std.specs.Prelude.{◌≡◌, ◌+◌, ◌*◌, ◌≤◌, ◌<◌, length, replicate};
ghost use Rattle.rows.specs.Inner.{RowAdded, ValueReplaced};
ghost use Rattle.spec.specs.Rows.{data_width, commit_width, part, spliced, number, bytes_of, data_row, tag_of, cell_of};
ghost use Rattle.spec.specs.Rows.{value_of, commit_row, commit_number, commit_tag, row_at};

use spec::{COMMIT_ROW, DATA_ROW};

// The N bytes from index at.
pub fn bytes_at<const N: usize>(s: &[u8], at: usize) -> [u8; N]
    requires { at + N ≤ length s.now }
    ensures { result ≡ part at N s.now }
{
    let mut bytes = [0; N];
    bytes.copy_from_slice(&s[at..at + N]);
    bytes
}

// Stores bytes from index at on.
pub fn put(s: &mut [u8], at: usize, bytes: &[u8])
    requires { at + length bytes.now ≤ length s.old }
    ensures { s.new ≡ spliced at bytes.now s.old }
{
    s[at..at + bytes.len()].copy_from_slice(bytes);
}

// The little-endian number in the two bytes from index at.
fn u16_at(s: &[u8], at: usize) -> u16
    requires { at + 2 ≤ length s.now }
    ensures { result ≡ number (part at 2 s.now) }
{
    u16::from_le_bytes(bytes_at(s, at))
}

// The little-endian number in the four bytes from index at.
fn u32_at(s: &[u8], at: usize) -> u32
    requires { at + 4 ≤ length s.now }
    ensures { result ≡ number (part at 4 s.now) }
{
    u32::from_le_bytes(bytes_at(s, at))
}

// Stores x in the four bytes from index at, lowest first.
fn put_u32(s: &mut [u8], at: usize, x: u32)
    requires { at + 4 ≤ length s.old }
    ensures { s.new ≡ spliced at (bytes_of 4 x) s.old }
{
    put(s, at, &x.to_le_bytes());
}

// Copies a value into dst from index at; its length is known to the compiler.
fn put_value(dst: &mut [u8], at: usize, value: &[u8])
    requires at_in_bounds { at + 16 ≤ length dst.old }
    requires value_len { length value.now ≡ 16 }
    ensures { dst.new ≡ spliced at value.now dst.old }
{
    put(dst, at, &bytes_at::<16>(value, 0));
}

// Makes every byte zero.
pub fn clear(buf: &mut [u8])
    ensures { buf.new ≡ replicate (length buf.old) 0 }
{
    buf.fill(0);
}

// ---- fields of row i

pub fn tag_at(rows: &[u8], i: usize) -> u32
    requires { data_width * i + 24 ≤ length rows.now }
    ensures { result ≡ tag_of (row_at data_width i rows.now) }
{
    u32_at(rows, DATA_ROW * i)
}

// In its own width, so that it is compared as it stands in the buffer.
pub fn short_cell_at(rows: &[u8], i: usize) -> u16
    requires { data_width * i + 24 ≤ length rows.now }
    ensures { result ≡ cell_of (row_at data_width i rows.now) }
{
    u16_at(rows, DATA_ROW * i + 4)
}

pub fn cell_at(rows: &[u8], i: usize) -> u32
    requires { data_width * i + 24 ≤ length rows.now }
    ensures { result ≡ cell_of (row_at data_width i rows.now) }
{
    u32::from(short_cell_at(rows, i))
}

// The value, as it stands in the buffer.
pub fn value_at<'a>(rows: &'a [u8], i: usize) -> &'a [u8]
    requires { data_width * i + 24 ≤ length rows.now }
    ensures { result.now ≡ value_of (row_at data_width i rows.now) }
{
    let from = DATA_ROW * i + 8;
    let end = from + 16;
    &rows[from..end]
}

pub fn commit_number_at(commits: &[u8], i: usize) -> u32
    requires { commit_width * i + 8 ≤ length commits.now }
    ensures { result ≡ commit_number (row_at commit_width i commits.now) }
{
    u32_at(commits, COMMIT_ROW * i)
}

pub fn commit_tag_at(commits: &[u8], i: usize) -> u32
    requires { commit_width * i + 8 ≤ length commits.now }
    ensures { result ≡ commit_tag (row_at commit_width i commits.now) }
{
    u32_at(commits, COMMIT_ROW * i + 4)
}

// ---- new rows

// Writes one data row into the first 24 bytes.
fn write_row(row: &mut [u8], tag: u32, cell: u32, value: &[u8])
    requires in_bounds { 24 ≤ length row.old }
    requires cell_bound { cell < 65536 }
    requires value_len { length value.now ≡ 16 }
    ensures { row.new ≡ spliced 0 (data_row tag cell value.now) row.old }
{
    put_u32(row, 0, tag);
    put_u32(row, 4, cell);
    put_value(row, 8, value);
}

// Writes a data row directly behind the used ones: the part from the used end is lent on.
pub fn append_row(rows: &mut [u8], used: usize, tag: u32, cell: u32, value: &[u8])
    requires used_in_bounds { data_width * used + 24 ≤ length rows.old }
    requires cell_bound { cell < 65536 }
    requires value_len { length value.now ≡ 16 }
    ensures { RowAdded data_width used (data_row tag cell value.now) rows.old
        rows.new }
{
    let end = DATA_ROW * used;
    write_row(&mut rows[end..], tag, cell, value);
}

// Writes one committed row into the first 8 bytes.
fn write_commit(row: &mut [u8], number: u32, tag: u32)
    requires { 8 ≤ length row.old }
    ensures { row.new ≡ spliced 0 (commit_row number tag) row.old }
{
    put_u32(row, 0, number);
    put_u32(row, 4, tag);
}

// Writes a committed row directly behind the used ones, in the same way.
pub fn append_commit(commits: &mut [u8], used: usize, number: u32, tag: u32)
    requires { commit_width * used + 8 ≤ length commits.old }
    ensures { RowAdded commit_width used (commit_row number tag) commits.old commits.new }
{
    let end = COMMIT_ROW * used;
    write_commit(&mut commits[end..], number, tag);
}

// Replaces the value of data row i, whatever number of rows is in use.
pub fn replace_value(rows: &mut [u8], i: usize, value: &[u8])
    requires i_in_bounds { data_width * i + 24 ≤ length rows.old }
    requires value_len { length value.now ≡ 16 }
    ensures { ValueReplaced i value.now rows.old rows.new }
{
    put_value(rows, DATA_ROW * i + 8, value);
}
