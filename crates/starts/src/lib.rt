// Set-up: what it is given is tested, both buffers are cleared, a record and a version table are made.
#![tactic(auto)]

ghost use Rattle.spec.specs.Answers.{answer_of};
ghost use Rattle.spec.specs.Bytes.{memory_of, SetsUp};
ghost use Rattle.record.specs.Inner.{SameArrays, store_at};
ghost use Rattle.starts.specs.Inner.{Made};

use record::{Head, Record};
use spec::{Answer, DATA_ROW, Refusal, SetUpTurn, VERSIONS};

// The new record's numbers, and both buffers cleared. What is zeros in it, its arrays, the version table and, after a
// refusal, the numbers, is left to the caller.
#[tactic(auto, unfolding(spec::specs::Bytes::set_up, spec::specs::Bytes::accepts), using(record::proofs::Leaves::left_by_calls))]
pub fn made(rows: &mut [u8], commits: &mut [u8], first: u32, limit: u32) -> Answer<Head>
    ensures { Made rows.old commits.old first limit rows.new commits.new result }
{
    if !given::acceptable(rows.len(), commits.len(), first, limit) {
        return Err(Refusal::BadSetUp);
    }
    let n = (rows.len() / DATA_ROW) as u32;
    rows::clear(rows);
    rows::clear(commits);
    Ok(record::starting(n, given::given_limit(limit), first - 1))
}

// Set-up on a record and a version table that are lent, whatever they hold. It answers the free figure, which is the
// number of rows.
#[tactic(auto, unfolding(spec::specs::Image::no_versions))]
pub fn set_up_in(
    r: &mut Record,
    rows: &mut [u8],
    commits: &mut [u8],
    versions: &mut [u32; VERSIONS],
    first: u32,
    limit: u32,
) -> Answer<u32>
    ensures same { SameArrays r.old r.new }
    ensures does { SetsUp rows.old commits.old first limit (memory_of (store_at r.new) rows.new commits.new versions.new)
        (answer_of result) }
{
    record::zero(r);
    *versions = [0; VERSIONS];
    r.head = record::starting(0, 0, 0);
    r.head = made(rows, commits, first, limit)?;
    Ok(r.head.rows)
}

// The same by value.
#[tactic(auto, unfolding(spec::specs::Image::no_versions, spec::specs::Image::empty, spec::specs::Bytes::store_of))]
pub fn set_up(rows: &mut [u8], commits: &mut [u8], first: u32, limit: u32) -> SetUpTurn
    ensures { SetsUp rows.old commits.old first limit
        (memory_of result.store rows.new commits.new result.versions) (answer_of result.answer) }
{
    let mut store = record::fresh(0, 0, 0);
    let answer = match made(rows, commits, first, limit) {
        Ok(head) => {
            record::renumber(&mut store, head);
            Ok(head.rows)
        }
        Err(why) => Err(why),
    };
    SetUpTurn {
        store,
        versions: [0; VERSIONS],
        answer,
    }
}
