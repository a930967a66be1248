// Begin: the next number, and the last commit number as the snapshot.
#![tactic(auto)]

ghost use Rattle.spec.specs.Answers.{answer_of};
ghost use Rattle.spec.specs.Calls.{begin};
ghost use Rattle.record.specs.Inner.{SameArrays, store_at, PerformsOn};

use record::Record;
use spec::{Answer, Begun, LIMIT, Refusal};

#[tactic(auto, unfolding(spec::specs::Calls::begin, spec::specs::Calls::begun), using(record::proofs::Ending::ending))]
pub fn begin(r: &mut Record, rows: &[u8], commits: &[u8], client: u32) -> Answer<Begun>
    ensures same { SameArrays r.old r.new }
    ensures does { PerformsOn (begin client)
        (store_at r.old) rows.now commits.now (store_at r.new) rows.now commits.now (answer_of result) }
{
    if !r.fit(rows.len(), commits.len()) {
        return Err(Refusal::Unfit);
    }
    if LIMIT <= client {
        return Err(Refusal::NoClient);
    }
    let k = client as usize;
    if r.number[k] != 0 {
        return Err(Refusal::AlreadyOpen);
    }
    let own = r.head.issued.checked_add(1).ok_or(Refusal::NumbersUsedUp)?;
    let since = r.head.last;
    r.head.issued = own;
    r.stage[k] = 0;
    r.number[k] = own;
    r.snapshot[k] = since;
    r.request[k] = 0;
    r.commit[k] = 0;
    r.request_waits[k] = 0;
    r.commit_waits[k] = 0;
    Ok(Begun {
        number: own,
        snapshot: since,
    })
}
