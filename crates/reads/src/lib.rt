// Read and the sixteen bytes that it finds, and Free.
#![tactic(auto)]

ghost use Rattle.std.specs.Prelude.{◌≡◌, List, ℕ, ◌<◌, length, get_or};
ghost use Rattle.spec.specs.Answers.{answer_of};
ghost use Rattle.spec.specs.Values.{value_read, value_from};
ghost use Rattle.spec.specs.Look.{versions_after};
ghost use Rattle.spec.specs.Image.{clients_of};
ghost use Rattle.record.specs.Inner.{whole};
ghost use Rattle.reads.specs.Inner.{Seeks, OfCell, Reads, Frees};

use record::Head;
use spec::{Answer, CELLS, CLIENTS, DATA_ROW, LIMIT, Refusal, VERSIONS, Version};

// The last stage at which a Read is answered: at the next the commit is made.
const LAST_READ: u32 = 11;

// A number found is stored as the cell's entry, if it is above it.
#[tactic(auto, unfolding(spec::specs::Look::versions_after))]
fn note(versions: &mut [u32], x: usize, seen: Option<Version>)
    requires { x < length versions.old }
    ensures { versions.new ≡ versions_after x seen versions.old }
{
    if let Some(found) = seen
        && versions[x] < found.number
    {
        versions[x] = found.number;
    }
}

// The cell's entry, 0 where there is no such cell.
fn entry_at(versions: &[u32], cell: u32) -> u32
    ensures { result ≡ get_or versions.now cell 0 }
{
    versions.get(cell as usize).copied().unwrap_or(0)
}

// The tests of a Read and its look: the row that it finds by the cell's entry. The version table is the caller's.
#[tactic(auto, unfolding(spec::specs::Bytes::on_bytes, spec::specs::Calls::read), using(record::proofs::Leaves::left_by_calls))]
fn seek(
    head: Head,
    stage: &[u32; CLIENTS],
    number: &[u32; CLIENTS],
    snapshot: &[u32; CLIENTS],
    rows: &[u8],
    commits: &[u8],
    client: u32,
    cell: u32,
    entry: u32,
) -> Answer<Option<Version>>
    ensures seeks { (q m b w : List ℕ) → Seeks client cell entry
        (whole head (clients_of stage.now number.now snapshot.now q m b w))
        rows.now commits.now result }
    ensures of_cell { OfCell cell result }
{
    if !head.fit(stage, rows.len(), commits.len()) {
        return Err(Refusal::Unfit);
    }
    if LIMIT <= client {
        return Err(Refusal::NoClient);
    }
    if CELLS <= cell {
        return Err(Refusal::NoCell);
    }
    let k = client as usize;
    let own = number[k];
    if own == 0 {
        return Err(Refusal::NotOpen);
    }
    if LAST_READ < stage[k] {
        return Err(Refusal::WrongStage);
    }
    let used = head.used as usize;
    let entries = head.entries as usize;
    let since = snapshot[k];
    Ok(looks::look_for(rows, used, commits, entries, own, cell, since, entry))
}

// Read answers in which data row the value stands: `value` hands its sixteen bytes back. It answers until the
// commit is made, at stage 12. It looks by the version table, and notes there what it finds.
#[tactic(auto, unfolding(spec::specs::Bytes::on_bytes, spec::specs::Calls::read), using(record::proofs::Leaves::left_by_calls))]
pub fn read(
    head: Head,
    stage: &[u32; CLIENTS],
    number: &[u32; CLIENTS],
    snapshot: &[u32; CLIENTS],
    rows: &[u8],
    commits: &[u8],
    versions: &mut [u32],
    client: u32,
    cell: u32,
) -> Answer<Option<usize>>
    ensures { Reads client cell head stage.now number.now snapshot.now rows.now commits.now
        versions.old versions.new (answer_of result) }
{
    if versions.len() != VERSIONS {
        return Err(Refusal::Unfit);
    }
    let entry = entry_at(versions, cell);
    let seen = seek(
        head, stage, number, snapshot, rows, commits, client, cell, entry,
    )?;
    let x = cell as usize;
    note(versions, x, seen);
    Ok(seen.map(|found| found.at))
}

// The sixteen bytes of the value in data row at, as they stand in the buffer; none where the buffer has no such row.
#[tactic(auto, unfolding(spec::specs::Values::value_read))]
pub fn value<'a>(rows: &'a [u8], at: usize) -> &'a [u8]
    ensures { result.now ≡ value_read at rows.now }
{
    if rows.len() / DATA_ROW <= at {
        return &rows[0..0];
    }
    rows::value_at(rows, at)
}

// The sixteen bytes that a Read's answer names, none for any other answer.
#[tactic(auto, unfolding(spec::specs::Values::value_from))]
pub fn value_named<'a>(rows: &'a [u8], answer: Answer<Option<usize>>) -> &'a [u8]
    ensures { result.now ≡ value_from rows.now (answer_of answer) }
{
    match answer {
        Ok(Some(at)) => value(rows, at),
        Ok(None) => &rows[0..0],
        Err(_) => &rows[0..0],
    }
}

// Free answers how many data rows are not in use.
#[tactic(auto, unfolding(spec::specs::Bytes::on_bytes, spec::specs::Calls::free), using(record::proofs::Leaves::left_by_calls))]
pub fn free(head: Head, stage: &[u32; CLIENTS], rows: &[u8], commits: &[u8]) -> Answer<u32>
    ensures { Frees head stage.now rows.now commits.now (answer_of result) }
{
    if head.fit(stage, rows.len(), commits.len()) {
        Ok(head.rows - head.used)
    } else {
        Err(Refusal::Unfit)
    }
}
