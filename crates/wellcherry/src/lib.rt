// The eight calls for programs in C, in libwellcherry.a; c/wellcherry.h declares them. The record stays where the caller
// holds it: its eight numbers are lent, and its arrays by client, a column each. A buffer is a pointer and a length, and
// so is the version table for Read.
// None asks anything of its caller. What each leaves and tells is defined in the crate spec: specs/Told.antt.
#![tactic(auto)]

ghost use Rattle.std.specs.Prelude.{◌≡◌, List, ℕ};
ghost use Rattle.spec.specs.Calls.{abandon, begin, free, read, trim, write};
ghost use Rattle.spec.specs.Steps.{advance};
ghost use Rattle.spec.specs.Bytes.{memory_of};
ghost use Rattle.spec.specs.Told.{told_of, figure_told, begin_told, read_told, advance_told, TellsSetUp};
ghost use Rattle.record.specs.Inner.{whole};
ghost use Rattle.reads.specs.Inner.{read_columns};
ghost use Rattle.wellcherry.specs.Inner.{head_in, store_from, store_found, store_left, TellsOn, TellsWith};

use record::{Head, Record};
use spec::{CLIENTS, Set, VERSIONS};
use telling::{AdvanceGiven, BeginGiven, FigureGiven, ReadGiven};

// How many numbers a record has beside its arrays.
const HEAD: usize = 8;

// ---- the numbers of a record, where the caller holds them

#[tactic(auto, unfolding(crate::specs::Inner::head_in))]
fn head_in(head: &[u32; HEAD]) -> Head
    ensures { result ≡ head_in head.now }
{
    Head {
        rows: head[0],
        limit: head[1],
        issued: head[2],
        requested: head[3],
        taken: head[4],
        last: head[5],
        used: head[6],
        entries: head[7],
    }
}

#[tactic(auto, unfolding(crate::specs::Inner::head_in))]
fn put_head(head: &mut [u32; HEAD], h: Head)
    ensures { head_in head.new ≡ h }
{
    *head = [
        h.rows,
        h.limit,
        h.issued,
        h.requested,
        h.taken,
        h.last,
        h.used,
        h.entries,
    ];
}

// ---- the calls

// Set-up: a new record and a new version table in the place of whatever the columns and the table hold.
#[unsafe(no_mangle)]
pub extern "C" fn wellcherry_call_set_up(
    head: &mut [u32; HEAD],
    stage: &mut [u32; CLIENTS],
    number: &mut [u32; CLIENTS],
    snapshot: &mut [u32; CLIENTS],
    request: &mut [u32; CLIENTS],
    commit: &mut [u32; CLIENTS],
    request_waits: &mut [Set; CLIENTS],
    commit_waits: &mut [Set; CLIENTS],
    rows: &mut [u8],
    commits: &mut [u8],
    versions: &mut [u32; VERSIONS],
    first: u32,
    limit: u32,
) -> FigureGiven
    ensures { TellsSetUp rows.old commits.old first limit
        (memory_of (store_left head stage number snapshot request commit request_waits commit_waits) rows.new commits.new versions.new)
        (told_of result.refusal result.figure 0) }
{
    let mut r = Record {
        head: head_in(head),
        stage,
        number,
        snapshot,
        request,
        commit,
        request_waits,
        commit_waits,
    };
    let answer = starts::set_up_in(&mut r, rows, commits, versions, first, limit);
    put_head(head, r.head);
    answer.into()
}

// Begin: the transaction's number and its snapshot.
#[unsafe(no_mangle)]
pub extern "C" fn wellcherry_call_begin(
    head: &mut [u32; HEAD],
    stage: &mut [u32; CLIENTS],
    number: &mut [u32; CLIENTS],
    snapshot: &mut [u32; CLIENTS],
    request: &mut [u32; CLIENTS],
    commit: &mut [u32; CLIENTS],
    request_waits: &mut [Set; CLIENTS],
    commit_waits: &mut [Set; CLIENTS],
    rows: &[u8],
    commits: &[u8],
    client: u32,
) -> BeginGiven
    ensures { TellsOn begin_told (begin client)
        (store_found head stage number snapshot request commit request_waits commit_waits) rows.now commits.now
        (store_left head stage number snapshot request commit request_waits commit_waits) rows.now commits.now
        (told_of result.refusal result.number result.snapshot) }
{
    let mut r = Record {
        head: head_in(head),
        stage,
        number,
        snapshot,
        request,
        commit,
        request_waits,
        commit_waits,
    };
    let answer = begins::begin(&mut r, rows, commits, client);
    put_head(head, r.head);
    answer.into()
}

// Read: where the value stands. It is lent what it looks at, and changes nothing but the cell's entry in the version
// table.
#[unsafe(no_mangle)]
pub extern "C" fn wellcherry_call_read(
    head: &[u32; HEAD],
    stage: &[u32; CLIENTS],
    number: &[u32; CLIENTS],
    snapshot: &[u32; CLIENTS],
    rows: &[u8],
    commits: &[u8],
    versions: &mut [u32],
    client: u32,
    cell: u32,
) -> ReadGiven
    ensures { read_columns (λ l. TellsWith read_told (read client cell)
        (whole (head_in head.now) l) rows.now commits.now versions.old
        (whole (head_in head.now) l) rows.now commits.now versions.new
        (told_of result.refusal result.found result.row)) stage.now number.now snapshot.now }
{
    let answer = reads::read(
        head_in(head),
        stage,
        number,
        snapshot,
        rows,
        commits,
        versions,
        client,
        cell,
    );
    answer.into()
}

// Write: the free figure.
#[unsafe(no_mangle)]
pub extern "C" fn wellcherry_call_write(
    head: &mut [u32; HEAD],
    stage: &[u32; CLIENTS],
    number: &[u32; CLIENTS],
    rows: &mut [u8],
    commits: &[u8],
    client: u32,
    cell: u32,
    value: &[u8],
) -> FigureGiven
    ensures { (s q m b w : List ℕ) → TellsOn figure_told (write client cell value.now)
        (store_from head.old stage.now number.now s q m b w) rows.old commits.now
        (store_from head.new stage.now number.now s q m b w) rows.new commits.now
        (told_of result.refusal result.figure 0) }
{
    let mut h = head_in(head);
    let answer = writes::write(&mut h, stage, number, rows, commits, client, cell, value);
    put_head(head, h);
    answer.into()
}

// Advance: one step of the transaction's commit.
#[unsafe(no_mangle)]
pub extern "C" fn wellcherry_call_advance(
    head: &mut [u32; HEAD],
    stage: &mut [u32; CLIENTS],
    number: &mut [u32; CLIENTS],
    snapshot: &mut [u32; CLIENTS],
    request: &mut [u32; CLIENTS],
    commit: &mut [u32; CLIENTS],
    request_waits: &mut [Set; CLIENTS],
    commit_waits: &mut [Set; CLIENTS],
    rows: &mut [u8],
    commits: &mut [u8],
    client: u32,
) -> AdvanceGiven
    ensures { TellsOn advance_told (advance client)
        (store_found head stage number snapshot request commit request_waits commit_waits) rows.old commits.old
        (store_left head stage number snapshot request commit request_waits commit_waits) rows.new commits.new
        (told_of result.refusal result.progress result.number) }
{
    let mut r = Record {
        head: head_in(head),
        stage,
        number,
        snapshot,
        request,
        commit,
        request_waits,
        commit_waits,
    };
    let answer = advances::advance(&mut r, rows, commits, client);
    put_head(head, r.head);
    answer.into()
}

// Abandon: the free figure.
#[unsafe(no_mangle)]
pub extern "C" fn wellcherry_call_abandon(
    head: &mut [u32; HEAD],
    stage: &mut [u32; CLIENTS],
    number: &mut [u32; CLIENTS],
    snapshot: &mut [u32; CLIENTS],
    request: &mut [u32; CLIENTS],
    commit: &mut [u32; CLIENTS],
    request_waits: &mut [Set; CLIENTS],
    commit_waits: &mut [Set; CLIENTS],
    rows: &mut [u8],
    commits: &[u8],
    client: u32,
) -> FigureGiven
    ensures { TellsOn figure_told (abandon client)
        (store_found head stage number snapshot request commit request_waits commit_waits) rows.old commits.now
        (store_left head stage number snapshot request commit request_waits commit_waits) rows.new commits.now
        (told_of result.refusal result.figure 0) }
{
    let mut r = Record {
        head: head_in(head),
        stage,
        number,
        snapshot,
        request,
        commit,
        request_waits,
        commit_waits,
    };
    let answer = abandons::abandon(&mut r, rows, commits, client);
    put_head(head, r.head);
    answer.into()
}

// Trim: how many data rows went.
#[unsafe(no_mangle)]
pub extern "C" fn wellcherry_call_trim(
    head: &mut [u32; HEAD],
    stage: &[u32; CLIENTS],
    number: &[u32; CLIENTS],
    snapshot: &[u32; CLIENTS],
    rows: &mut [u8],
    commits: &mut [u8],
) -> FigureGiven
    ensures { (q m b w : List ℕ) → TellsOn figure_told trim
        (store_from head.old stage.now number.now snapshot.now q m b w) rows.old commits.old
        (store_from head.new stage.now number.now snapshot.now q m b w) rows.new commits.new
        (told_of result.refusal result.figure 0) }
{
    let mut h = head_in(head);
    let answer = trims::trim(&mut h, stage, number, snapshot, rows, commits);
    put_head(head, h);
    answer.into()
}

// Free: the free figure. It changes nothing.
#[unsafe(no_mangle)]
pub extern "C" fn wellcherry_call_free(
    head: &[u32; HEAD],
    stage: &[u32; CLIENTS],
    rows: &[u8],
    commits: &[u8],
) -> FigureGiven
    ensures { (n s q m b w : List ℕ) → TellsOn figure_told free
        (store_from head.now stage.now n s q m b w) rows.now commits.now
        (store_from head.now stage.now n s q m b w) rows.now commits.now
        (told_of result.refusal result.figure 0) }
{
    let answer = reads::free(head_in(head), stage, rows, commits);
    answer.into()
}
