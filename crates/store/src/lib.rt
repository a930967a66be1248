// The eight calls of the store, open to other programs: the record goes in and comes back by value, the buffers are
// lent, and to Read the version table, which a set-up hands back beside the record; the other calls leave whatever it
// holds. None asks anything of its caller. What each leaves and answers is defined in the crate spec: `on_bytes` a call
// on these. The calls themselves are on a record apart, in crates of their own: here the record comes apart and
// together. Set-up is passed on.
#![tactic(auto)]

ghost use Rattle.std.specs.Prelude.{◌≡◌, List, ℕ};
ghost use Rattle.spec.specs.Answers.{answer_of};
ghost use Rattle.spec.specs.Calls.{abandon, begin, free, read, trim, write};
ghost use Rattle.spec.specs.Steps.{advance};
ghost use Rattle.spec.specs.Bytes.{memory_of, Performs, on_bytes};
ghost use Rattle.spec.specs.Values.{value_from};

pub use reads::value;
use record::Record;
use spec::{Begun, Progress, Store, Turn};
pub use starts::set_up;

// Begin answers the transaction's number and its snapshot.
pub fn begin(store: Store, rows: &[u8], commits: &[u8], client: u32) -> Turn<Begun>
    ensures { (v : List ℕ) → Performs (begin client)
        (memory_of store rows.now commits.now v)
        (memory_of result.store rows.now commits.now v) (answer_of result.answer) }
{
    let mut store = store;
    let mut r = Record {
        head: record::head_of(&store),
        stage: &mut store.stage,
        number: &mut store.number,
        snapshot: &mut store.snapshot,
        request: &mut store.request,
        commit: &mut store.commit,
        request_waits: &mut store.request_waits,
        commit_waits: &mut store.commit_waits,
    };
    let answer = begins::begin(&mut r, rows, commits, client);
    let head = r.head;
    record::renumber(&mut store, head);
    Turn { store, answer }
}

// Read answers in which data row the value stands: `value` hands its sixteen bytes back. It answers until the
// commit is made, at stage 12.
pub fn read(
    store: Store,
    rows: &[u8],
    commits: &[u8],
    versions: &mut [u32],
    client: u32,
    cell: u32,
) -> Turn<Option<usize>>
    ensures { Performs (read client cell)
        (memory_of store rows.now commits.now versions.old)
        (memory_of result.store rows.now commits.now versions.new)
        (answer_of result.answer) }
{
    let h = record::head_of(&store);
    let answer = reads::read(
        h,
        &store.stage,
        &store.number,
        &store.snapshot,
        rows,
        commits,
        versions,
        client,
        cell,
    );
    Turn { store, answer }
}

// The sixteen bytes that a read finds, as they stand in the data buffer; none where it is refused or the cell is
// unwritten.
pub fn lookup<'a>(
    store: Store,
    rows: &'a [u8],
    commits: &[u8],
    versions: &mut [u32],
    client: u32,
    cell: u32,
) -> &'a [u8]
    ensures result_value { result.now ≡ value_from rows.now
        (on_bytes (read client cell) store rows.now commits.now versions.old
        ).answer }
    ensures versions_after { versions.new ≡ (on_bytes (read client cell) store rows.now
        commits.now versions.old).memory.versions }
{
    let turn = read(store, rows, commits, versions, client, cell);
    reads::value_named(rows, turn.answer)
}

// Write answers the free figure.
pub fn write(
    store: Store,
    rows: &mut [u8],
    commits: &[u8],
    client: u32,
    cell: u32,
    value: &[u8],
) -> Turn<u32>
    ensures { (v : List ℕ) → Performs (write client cell value.now)
        (memory_of store rows.old commits.now v)
        (memory_of result.store rows.new commits.now v) (answer_of result.answer) }
{
    let mut store = store;
    let mut head = record::head_of(&store);
    let answer = writes::write(
        &mut head,
        &store.stage,
        &store.number,
        rows,
        commits,
        client,
        cell,
        value,
    );
    record::renumber(&mut store, head);
    Turn { store, answer }
}

// Advance takes the one step that the client's stage calls for.
pub fn advance(store: Store, rows: &mut [u8], commits: &mut [u8], client: u32) -> Turn<Progress>
    ensures { (v : List ℕ) → Performs (advance client)
        (memory_of store rows.old commits.old v)
        (memory_of result.store rows.new commits.new v) (answer_of result.answer) }
{
    let mut store = store;
    let mut r = Record {
        head: record::head_of(&store),
        stage: &mut store.stage,
        number: &mut store.number,
        snapshot: &mut store.snapshot,
        request: &mut store.request,
        commit: &mut store.commit,
        request_waits: &mut store.request_waits,
        commit_waits: &mut store.commit_waits,
    };
    let answer = advances::advance(&mut r, rows, commits, client);
    let head = r.head;
    record::renumber(&mut store, head);
    Turn { store, answer }
}

// Abandon answers the free figure.
pub fn abandon(store: Store, rows: &mut [u8], commits: &[u8], client: u32) -> Turn<u32>
    ensures { (v : List ℕ) → Performs (abandon client)
        (memory_of store rows.old commits.now v)
        (memory_of result.store rows.new commits.now v) (answer_of result.answer) }
{
    let mut store = store;
    let mut r = Record {
        head: record::head_of(&store),
        stage: &mut store.stage,
        number: &mut store.number,
        snapshot: &mut store.snapshot,
        request: &mut store.request,
        commit: &mut store.commit,
        request_waits: &mut store.request_waits,
        commit_waits: &mut store.commit_waits,
    };
    let answer = abandons::abandon(&mut r, rows, commits, client);
    let head = r.head;
    record::renumber(&mut store, head);
    Turn { store, answer }
}

// Trim answers how many data rows went.
pub fn trim(store: Store, rows: &mut [u8], commits: &mut [u8]) -> Turn<u32>
    ensures { (v : List ℕ) → Performs trim
        (memory_of store rows.old commits.old v)
        (memory_of result.store rows.new commits.new v) (answer_of result.answer) }
{
    let mut store = store;
    let mut head = record::head_of(&store);
    let (stage, number, snapshot) = (&store.stage, &store.number, &store.snapshot);
    let answer = trims::trim(&mut head, stage, number, snapshot, rows, commits);
    record::renumber(&mut store, head);
    Turn { store, answer }
}

// Free answers how many data rows are not in use.
pub fn free(store: Store, rows: &[u8], commits: &[u8]) -> Turn<u32>
    ensures { (v : List ℕ) → Performs free
        (memory_of store rows.now commits.now v)
        (memory_of result.store rows.now commits.now v) (answer_of result.answer) }
{
    let answer = reads::free(record::head_of(&store), &store.stage, rows, commits);
    Turn { store, answer }
}
