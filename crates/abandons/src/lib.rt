// Abandon: the transaction's data rows and queue rows go in one step.
#![tactic(auto)]

ghost use Rattle.spec.specs.Answers.{answer_of};
ghost use Rattle.spec.specs.Calls.{abandon};
ghost use Rattle.record.specs.Inner.{SameArrays, store_at, PerformsOn};

use record::Record;
use spec::{Answer, LIMIT, Refusal};

// Abandon answers the free figure.
#[tactic(auto, unfolding(spec::specs::Calls::abandon, spec::specs::Calls::removed), using(record::proofs::Ending::ending))]
pub fn abandon(r: &mut Record, rows: &mut [u8], commits: &[u8], client: u32) -> Answer<u32>
    ensures same { SameArrays r.old r.new }
    ensures does { PerformsOn (abandon client)
        (store_at r.old) rows.old commits.now (store_at r.new) rows.new commits.now (answer_of result) }
{
    if !r.fit(rows.len(), commits.len()) {
        return Err(Refusal::Unfit);
    }
    if LIMIT <= client {
        return Err(Refusal::NoClient);
    }
    let k = client as usize;
    if r.number[k] == 0 {
        return Err(Refusal::NotOpen);
    }
    if 12 <= r.stage[k] {
        return Err(Refusal::WrongStage);
    }
    steps::remove(r, rows, client);
    Ok(r.head.rows - r.head.used)
}
