// The answers to the whole lines of a chunk of input. Definitions: crate spec, specs/Session.antt.
#![tactic(auto)]

ghost use Rattle.std.specs.Prelude.{◌≤◌, length};
ghost use Rattle.spec.specs.Bytes.{memory_of};
ghost use Rattle.record.specs.Inner.{SameArrays, store_at};
ghost use Rattle.session.specs.Inner.{Fed};

use printing::ANSWER_ROOM;
use record::Record;
use spec::{Store, VERSIONS};

// Where the next line begins after some lines, and where the text ends.
#[derive(Clone, Copy)]
pub struct Chunked {
    pub from: usize,
    pub used: usize,
}

// Answers the whole lines of buf from a place on, while out has room for an answer.
fn feed(
    r: &mut Record,
    buf: &[u8],
    start: usize,
    rows: &mut [u8],
    commits: &mut [u8],
    versions: &mut [u32; VERSIONS],
    out: &mut [u8],
    at: usize,
) -> Chunked
    requires start_in_bounds { start ≤ length buf.now }
    requires at_in_bounds { at ≤ length out.old }
    ensures same { SameArrays r.old r.new }
    ensures fed { Fed buf.now start
        (memory_of (store_at r.old) rows.old commits.old versions.old)
        out.old at result.from
        (memory_of (store_at r.new) rows.new commits.new versions.new)
        out.new result.used }
{
    let mut from = start;
    let mut used = at;
    while from < buf.len() {
        if out.len() < ANSWER_ROOM {
            return Chunked { from, used };
        }
        if out.len() - ANSWER_ROOM < used {
            return Chunked { from, used };
        }
        let end = scanning::newline(buf, from);
        if buf.len() <= end {
            return Chunked { from, used };
        }
        used = lines::answer_line(r, &buf[from..end], rows, commits, versions, out, used);
        from = end + 1;
    }
    Chunked { from, used }
}

// The same on a record that is lent whole: it comes apart once for all lines.
pub fn chunk(
    store: &mut Store,
    buf: &[u8],
    start: usize,
    rows: &mut [u8],
    commits: &mut [u8],
    versions: &mut [u32; VERSIONS],
    out: &mut [u8],
    at: usize,
) -> Chunked
    requires start_in_bounds { start ≤ length buf.now }
    requires at_in_bounds { at ≤ length out.old }
    ensures { Fed buf.now start
        (memory_of store.old rows.old commits.old versions.old)
        out.old at result.from
        (memory_of store.new rows.new commits.new versions.new)
        out.new result.used }
{
    let mut r = Record {
        head: record::head_of(store),
        stage: &mut store.stage,
        number: &mut store.number,
        snapshot: &mut store.snapshot,
        request: &mut store.request,
        commit: &mut store.commit,
        request_waits: &mut store.request_waits,
        commit_waits: &mut store.commit_waits,
    };
    let fed = feed(&mut r, buf, start, rows, commits, versions, out, at);
    let head = r.head;
    record::renumber(store, head);
    fed
}
