// Write: a row added, or a value replaced where the transaction has a row for the cell.
#![tactic(auto)]

ghost use Rattle.spec.specs.Answers.{answer_of};
ghost use Rattle.writes.specs.Inner.{Writes};

use record::Head;
use search::Own;
use spec::{Answer, CELLS, CLIENTS, LIMIT, Refusal};

// Write answers the free figure.
#[tactic(auto, unfolding(spec::specs::Calls::write, spec::specs::Bytes::on_bytes), using(crate::proofs::Outcomes::written_rows))]
pub fn write(
    head: &mut Head,
    stage: &[u32; CLIENTS],
    number: &[u32; CLIENTS],
    rows: &mut [u8],
    commits: &[u8],
    client: u32,
    cell: u32,
    value: &[u8],
) -> Answer<u32>
    ensures { Writes client cell value.now stage.now number.now commits.now
        head.old rows.old head.new rows.new (answer_of result) }
{
    if !head.fit(stage, rows.len(), commits.len()) {
        return Err(Refusal::Unfit);
    }
    if LIMIT <= client {
        return Err(Refusal::NoClient);
    }
    if CELLS <= cell {
        return Err(Refusal::NoCell);
    }
    if value.len() != 16 {
        return Err(Refusal::WrongLength);
    }
    let k = client as usize;
    let tag = number[k];
    if tag == 0 {
        return Err(Refusal::NotOpen);
    }
    if stage[k] != 0 {
        return Err(Refusal::WrongStage);
    }
    match search::own_row(rows, head.used as usize, tag, cell) {
        Own::Row(at) => Ok(placing::replace_row(*head, rows, at, value)),
        // who has fewer rows than the limit has fewer cells
        Own::Rows(n) if n < head.limit as usize => placing::new_row(
            head, number, rows, client, cell, value,
        ),
        Own::Rows(_) => placing::counted_row(head, number, rows, client, cell, value),
    }
}
