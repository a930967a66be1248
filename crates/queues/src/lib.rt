// The steps of Advance in the two queues: numbers taken and noted, queues entered and left. A step that is lent no buffer
// promises for any two. The lists are crate lists.
#![tactic(auto)]

ghost use Rattle.std.specs.Prelude.{◌<◌};
ghost use Rattle.spec.specs.Set.{clients};
ghost use Rattle.spec.specs.Steps.{note_request, enter_commits, note_commit, go_on, finished, take_request, take_commit};
ghost use Rattle.spec.specs.Steps.{leave_commits, leave_requests};
ghost use Rattle.record.specs.Inner.{SameArrays};
ghost use Rattle.queues.specs.Inner.{StepAlone};

use record::Record;
use spec::{Answer, Progress, Refusal};

// The client goes on to a stage.
#[tactic(auto, unfolding(spec::specs::Steps::go_on), using(record::proofs::Ending::ending))]
pub fn go_on(r: &mut Record, client: u32, next: u32) -> Answer<Progress>
    requires { client < clients }
    ensures same { SameArrays r.old r.new }
    ensures does { StepAlone (go_on next client) r.old r.new result }
{
    r.stage[client as usize] = next;
    Ok(Progress::Stage(next))
}

// The client is closed, with Done and a number.
#[tactic(auto, unfolding(spec::specs::Steps::finished), using(record::proofs::Ending::ending))]
pub fn finish(r: &mut Record, client: u32, done: u32) -> Answer<Progress>
    requires { client < clients }
    ensures same { SameArrays r.old r.new }
    ensures does { StepAlone (finished done client) r.old r.new result }
{
    record::close(r, client);
    Ok(Progress::Done(done))
}

// 1: take a request number.
#[tactic(auto, unfolding(spec::specs::Steps::take_request, spec::specs::Bytes::decode), using(record::proofs::Ending::ending))]
pub fn take_request(r: &mut Record, client: u32) -> Answer<Progress>
    requires { client < clients }
    ensures same { SameArrays r.old r.new }
    ensures does { StepAlone (take_request client) r.old r.new result }
{
    let n = r.head.requested.checked_add(1).ok_or(Refusal::Unfit)?;
    r.head.requested = n;
    r.request[client as usize] = n;
    go_on(r, client, 2)
}

// 2: note the request number in the queue row.
pub fn note_request(r: &mut Record, client: u32) -> Answer<Progress>
    requires { client < clients }
    ensures same { SameArrays r.old r.new }
    ensures does { StepAlone (note_request client) r.old r.new result }
{
    go_on(r, client, 3)
}

// 6: enter the commit queue.
pub fn enter_commits(r: &mut Record, client: u32) -> Answer<Progress>
    requires { client < clients }
    ensures same { SameArrays r.old r.new }
    ensures does { StepAlone (enter_commits client) r.old r.new result }
{
    go_on(r, client, 7)
}

// 7: take a commit number.
#[tactic(auto, unfolding(spec::specs::Steps::take_commit, spec::specs::Bytes::decode), using(record::proofs::Ending::ending))]
pub fn take_commit(r: &mut Record, client: u32) -> Answer<Progress>
    requires { client < clients }
    ensures same { SameArrays r.old r.new }
    ensures does { StepAlone (take_commit client) r.old r.new result }
{
    let n = r.head.taken.checked_add(1).ok_or(Refusal::Unfit)?;
    r.head.taken = n;
    r.commit[client as usize] = n;
    go_on(r, client, 8)
}

// 8: note the commit number.
pub fn note_commit(r: &mut Record, client: u32) -> Answer<Progress>
    requires { client < clients }
    ensures same { SameArrays r.old r.new }
    ensures does { StepAlone (note_commit client) r.old r.new result }
{
    go_on(r, client, 9)
}

// 12: leave the commit queue.
#[tactic(auto, unfolding(spec::specs::Steps::leave_commits, spec::specs::Bytes::decode, spec::specs::Bytes::encode))]
pub fn leave_commits(r: &mut Record, client: u32) -> Answer<Progress>
    requires { client < clients }
    ensures same { SameArrays r.old r.new }
    ensures does { StepAlone (leave_commits client) r.old r.new result }
{
    *r.commit_waits = waiting::clear_all(*r.commit_waits, client);
    go_on(r, client, 13)
}

// 13: leave the request queue; closed.
#[tactic(auto, unfolding(spec::specs::Steps::leave_requests), using(record::proofs::Ending::ending))]
pub fn leave_requests(r: &mut Record, client: u32) -> Answer<Progress>
    requires { client < clients }
    ensures same { SameArrays r.old r.new }
    ensures does { StepAlone (leave_requests client) r.old r.new result }
{
    let done = r.commit[client as usize];
    finish(r, client, done)
}
