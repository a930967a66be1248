// The answer to a line, on a record apart, the program's two buffers and its version table. Definitions: crate spec, specs/Session.antt.
#![tactic(auto)]

ghost use Rattle.std.specs.Prelude.{◌≡◌, List, ℕ, ◌+◌, ◌≤◌, length};
ghost use Rattle.spec.specs.Run.{Begin, Read, Write, Advance, Abandon, Trim, Free};
ghost use Rattle.spec.specs.Text.{value_in};
ghost use Rattle.spec.specs.Bytes.{memory_of};
ghost use Rattle.spec.specs.Session.{said, set_up_response, answer_to};
ghost use Rattle.printing.specs.Inner.{answer_room};
ghost use Rattle.record.specs.Inner.{SameArrays, store_at};
ghost use Rattle.lines.specs.Inner.{Front, Speaks};

use record::Record;
use spec::{COMMIT_ROW, DATA_ROW, Form, Refusal, VERSIONS};

// How many bytes of a buffer a call is lent: n, or all where the buffer has fewer.
fn front(n: usize, len: usize) -> usize
    ensures upper_bound { result ≤ len }
    ensures front { Front n len result }
{
    if len < n { len } else { n }
}

// ---- the answer to each form: where the text ends now

fn set_up_said(
    r: &mut Record,
    count: u32,
    first: u32,
    limit: u32,
    rows: &mut [u8],
    commits: &mut [u8],
    versions: &mut [u32; VERSIONS],
    out: &mut [u8],
    at: usize,
) -> usize
    requires { at + answer_room ≤ length out.old }
    ensures same { SameArrays r.old r.new }
    ensures says { Speaks (set_up_response (Form.SetUp count first limit) count first limit)
        (memory_of (store_at r.old) rows.old commits.old versions.old)
        (memory_of (store_at r.new) rows.new commits.new versions.new) out.old at out.new result }
{
    let form = Form::SetUp {
        rows: count,
        first,
        limit,
    };
    if 1024 < count {
        return reply::free_line(out, at, form, Err(Refusal::BadSetUp));
    }
    let d = front(DATA_ROW * count as usize, rows.len());
    let c = front(COMMIT_ROW * count as usize, commits.len());
    let made = starts::made(&mut rows[..d], &mut commits[..c], first, limit);
    match made {
        Ok(head) => {
            r.head = head;
            record::zero(r);
            *versions = [0; VERSIONS];
            reply::free_line(out, at, form, Ok(head.rows))
        }
        Err(why) => reply::free_line(out, at, form, Err(why)),
    }
}

fn begin_said(
    r: &mut Record,
    client: u32,
    rows: &[u8],
    commits: &[u8],
    out: &mut [u8],
    at: usize,
) -> usize
    requires { at + answer_room ≤ length out.old }
    ensures same { SameArrays r.old r.new }
    ensures says { (v : List ℕ) → Speaks (said (Form.Begin client) (Begin client))
        (memory_of (store_at r.old) rows.now commits.now v)
        (memory_of (store_at r.new) rows.now commits.now v) out.old at out.new result }
{
    let d = front(DATA_ROW * r.head.rows as usize, rows.len());
    let c = front(COMMIT_ROW * r.head.rows as usize, commits.len());
    let answer = begins::begin(r, &rows[..d], &commits[..c], client);
    reply::begun_line(out, at, Form::Begin(client), answer)
}

fn read_said(
    r: &Record,
    client: u32,
    cell: u32,
    rows: &[u8],
    commits: &[u8],
    versions: &mut [u32; VERSIONS],
    out: &mut [u8],
    at: usize,
) -> usize
    requires { at + answer_room ≤ length out.old }
    ensures { Speaks (said (Form.Read client cell) (Read client cell))
        (memory_of (store_at r.now) rows.now commits.now versions.old)
        (memory_of (store_at r.now) rows.now commits.now versions.new) out.old at out.new result }
{
    let d = front(DATA_ROW * r.head.rows as usize, rows.len());
    let c = front(COMMIT_ROW * r.head.rows as usize, commits.len());
    let answer = reads::read(
        r.head,
        r.stage,
        r.number,
        r.snapshot,
        &rows[..d],
        &commits[..c],
        versions,
        client,
        cell,
    );
    let value = reads::value_named(rows, answer);
    reply::reading_line(out, at, Form::Read(client, cell), answer, value)
}

// place is that of the value's digits in the line.
fn write_said(
    r: &mut Record,
    client: u32,
    cell: u32,
    line: &[u8],
    place: usize,
    rows: &mut [u8],
    commits: &[u8],
    out: &mut [u8],
    at: usize,
) -> usize
    requires { at + answer_room ≤ length out.old }
    ensures same { SameArrays r.old r.new }
    ensures says { (v : List ℕ) → Speaks (said (Form.Write client cell place) (Write client cell (value_in line.now place)))
        (memory_of (store_at r.old) rows.old commits.now v)
        (memory_of (store_at r.new) rows.new commits.now v) out.old at out.new result }
{
    let d = front(DATA_ROW * r.head.rows as usize, rows.len());
    let c = front(COMMIT_ROW * r.head.rows as usize, commits.len());
    let value = text::value_in(line, place);
    let answer = writes::write(
        &mut r.head,
        r.stage,
        r.number,
        &mut rows[..d],
        &commits[..c],
        client,
        cell,
        &value,
    );
    let form = Form::Write {
        client,
        cell,
        value: place,
    };
    reply::free_line(out, at, form, answer)
}

fn advance_said(
    r: &mut Record,
    client: u32,
    rows: &mut [u8],
    commits: &mut [u8],
    out: &mut [u8],
    at: usize,
) -> usize
    requires { at + answer_room ≤ length out.old }
    ensures same { SameArrays r.old r.new }
    ensures says { (v : List ℕ) → Speaks (said (Form.Advance client) (Advance client))
        (memory_of (store_at r.old) rows.old commits.old v)
        (memory_of (store_at r.new) rows.new commits.new v) out.old at out.new result }
{
    let d = front(DATA_ROW * r.head.rows as usize, rows.len());
    let c = front(COMMIT_ROW * r.head.rows as usize, commits.len());
    let answer = advances::advance(r, &mut rows[..d], &mut commits[..c], client);
    reply::progress_line(out, at, Form::Advance(client), answer)
}

fn abandon_said(
    r: &mut Record,
    client: u32,
    rows: &mut [u8],
    commits: &[u8],
    out: &mut [u8],
    at: usize,
) -> usize
    requires { at + answer_room ≤ length out.old }
    ensures same { SameArrays r.old r.new }
    ensures says { (v : List ℕ) → Speaks (said (Form.Abandon client) (Abandon client))
        (memory_of (store_at r.old) rows.old commits.now v)
        (memory_of (store_at r.new) rows.new commits.now v) out.old at out.new result }
{
    let d = front(DATA_ROW * r.head.rows as usize, rows.len());
    let c = front(COMMIT_ROW * r.head.rows as usize, commits.len());
    let answer = abandons::abandon(r, &mut rows[..d], &commits[..c], client);
    reply::free_line(out, at, Form::Abandon(client), answer)
}

fn trim_said(
    r: &mut Record,
    rows: &mut [u8],
    commits: &mut [u8],
    out: &mut [u8],
    at: usize,
) -> usize
    requires { at + answer_room ≤ length out.old }
    ensures same { SameArrays r.old r.new }
    ensures says { (v : List ℕ) → Speaks (said Form.Trim Trim)
        (memory_of (store_at r.old) rows.old commits.old v)
        (memory_of (store_at r.new) rows.new commits.new v) out.old at out.new result }
{
    let d = front(DATA_ROW * r.head.rows as usize, rows.len());
    let c = front(COMMIT_ROW * r.head.rows as usize, commits.len());
    let answer = trims::trim(
        &mut r.head,
        r.stage,
        r.number,
        r.snapshot,
        &mut rows[..d],
        &mut commits[..c],
    );
    reply::dropped_line(out, at, Form::Trim, answer)
}

fn free_said(r: &Record, rows: &[u8], commits: &[u8], out: &mut [u8], at: usize) -> usize
    requires { at + answer_room ≤ length out.old }
    ensures { (v : List ℕ) → Speaks (said Form.Free Free)
        (memory_of (store_at r.now) rows.now commits.now v)
        (memory_of (store_at r.now) rows.now commits.now v) out.old at out.new result }
{
    let d = front(DATA_ROW * r.head.rows as usize, rows.len());
    let c = front(COMMIT_ROW * r.head.rows as usize, commits.len());
    let answer = reads::free(r.head, r.stage, &rows[..d], &commits[..c]);
    reply::free_line(out, at, Form::Free, answer)
}

// ---- the answer to a line

pub fn answer_line(
    r: &mut Record,
    line: &[u8],
    rows: &mut [u8],
    commits: &mut [u8],
    versions: &mut [u32; VERSIONS],
    out: &mut [u8],
    at: usize,
) -> usize
    requires { at + answer_room ≤ length out.old }
    ensures same { SameArrays r.old r.new }
    ensures says { Speaks (answer_to line.now)
        (memory_of (store_at r.old) rows.old commits.old versions.old)
        (memory_of (store_at r.new) rows.new commits.new versions.new) out.old at out.new result }
{
    match text::form_of(line) {
        Form::SetUp {
            rows: count,
            first,
            limit,
        } => set_up_said(r, count, first, limit, rows, commits, versions, out, at),
        Form::Begin(client) => begin_said(r, client, rows, commits, out, at),
        Form::Read(client, cell) => read_said(r, client, cell, rows, commits, versions, out, at),
        Form::Write {
            client,
            cell,
            value,
        } => write_said(r, client, cell, line, value, rows, commits, out, at),
        Form::Advance(client) => advance_said(r, client, rows, commits, out, at),
        Form::Abandon(client) => abandon_said(r, client, rows, commits, out, at),
        Form::Trim => trim_said(r, rows, commits, out, at),
        Form::Free => free_said(r, rows, commits, out, at),
        Form::Other => reply::refused_line(out, at, Form::Other, 13),
    }
}
