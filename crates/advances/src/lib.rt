// Advance: a match on the stage, 0 to 13, each arm one small step function.
#![tactic(auto)]

ghost use Rattle.std.specs.Prelude.{true, ◌≡◌, ◌<◌, length};
ghost use Rattle.spec.specs.Set.{clients};
ghost use Rattle.spec.specs.Answers.{answer_of};
ghost use Rattle.spec.specs.Steps.{advance};
ghost use Rattle.spec.specs.Bytes.{fits};
ghost use Rattle.record.specs.Inner.{SameArrays, store_at, PerformsOn};
ghost use Rattle.advances.specs.Inner.{StepDue};

use record::Record;
use spec::{Answer, LIMIT, Progress, Refusal};

// The one step that the client's stage calls for.
#[tactic(auto, using(record::proofs::Ending::ending))]
fn step(r: &mut Record, rows: &mut [u8], commits: &mut [u8], client: u32) -> Answer<Progress>
    requires client_lt_clients { client < clients }
    requires fit { fits (store_at r.old) (length rows.old) (length commits.old) ≡ true }
    ensures same { SameArrays r.old r.new }
    ensures does { StepDue client
        (store_at r.old) rows.old commits.old (store_at r.new) rows.new commits.new result }
{
    match r.stage[client as usize] {
        0 => steps::enter(r, rows, client),
        1 => queues::take_request(r, client),
        2 => queues::note_request(r, client),
        3 => lists::list_requests(r, rows, client),
        4 => lists::look_requests(r, client),
        5 => steps::check(r, rows, commits, client),
        6 => queues::enter_commits(r, client),
        7 => queues::take_commit(r, client),
        8 => queues::note_commit(r, client),
        9 => lists::list_commits(r, client),
        10 => lists::look_commits(r, client),
        11 => steps::add_commit(r, commits, client),
        12 => queues::leave_commits(r, client),
        13 => queues::leave_requests(r, client),
        _ => Err(Refusal::Unfit),
    }
}

// Advance takes the one step that the client's stage calls for.
#[tactic(auto, unfolding(spec::specs::Steps::advance), using(record::proofs::Ending::ending))]
pub fn advance(r: &mut Record, rows: &mut [u8], commits: &mut [u8], client: u32) -> Answer<Progress>
    ensures same { SameArrays r.old r.new }
    ensures does { PerformsOn (advance client)
        (store_at r.old) rows.old commits.old (store_at r.new) rows.new commits.new (answer_of result) }
{
    if !r.fit(rows.len(), commits.len()) {
        return Err(Refusal::Unfit);
    }
    if LIMIT <= client {
        return Err(Refusal::NoClient);
    }
    if r.number[client as usize] == 0 {
        return Err(Refusal::NotOpen);
    }
    step(r, rows, commits, client)
}
