// The steps of Advance with the waiting lists of the two queues: lists made and looked at. A step that is lent no buffer
// promises for any two.
#![tactic(auto)]

ghost use Rattle.std.specs.Prelude.{List, ℕ, ◌*◌, ◌≤◌, ◌<◌, length};
ghost use Rattle.spec.specs.Rows.{data_width};
ghost use Rattle.spec.specs.Set.{clients};
ghost use Rattle.spec.specs.Steps.{list_requests, looked, look_requests, list_commits, look_commits};
ghost use Rattle.record.specs.Inner.{SameArrays, store_at};
ghost use Rattle.queues.specs.Inner.{Step, StepAlone};

use record::Record;
use spec::{Answer, Progress, Queue, Set};

// The request queue: entered at stage 0, the number noted at 2, left at 13.
const REQUEST_QUEUE: Queue = Queue {
    first: 1,
    noted: 3,
    last: 13,
};

// The commit queue: entered at stage 6, the number noted at 8, left at 12.
const COMMIT_QUEUE: Queue = Queue {
    first: 7,
    noted: 9,
    last: 12,
};

// 3: list the other queue rows that share a cell, once. Out of line, its passes keep more of their numbers in registers.
#[tactic(auto, unfolding(spec::specs::Steps::list_requests, spec::specs::Bytes::decode), using(record::proofs::Ending::ending))]
#[inline(never)]
pub fn list_requests(r: &mut Record, rows: &[u8], client: u32) -> Answer<Progress>
    requires client_lt_clients { client < clients }
    requires used_in_bounds { data_width * r.old.head.used ≤ length rows.now }
    ensures same { SameArrays r.old r.new }
    ensures does { (c : List ℕ) → Step (list_requests client)
        (store_at r.old) rows.now c (store_at r.new) rows.now c result }
{
    let k = client as usize;
    let own = r.number[k];
    let used = r.head.used as usize;
    let queued = waiting::others(REQUEST_QUEUE, r.stage, client);
    r.request_waits[k] = search::sharers(rows, used, own, r.number, queued);
    queues::go_on(r, client, 4)
}

// What a look that leaves a list comes to: the next stage if none is left on it, else how many are.
#[tactic(auto, unfolding(spec::specs::Steps::looked), using(record::proofs::Ending::ending))]
fn looked(r: &mut Record, client: u32, list: Set, next: u32) -> Answer<Progress>
    requires { client < clients }
    ensures same { SameArrays r.old r.new }
    ensures does { StepAlone (looked next client list) r.old r.new result }
{
    if list == 0 {
        return queues::go_on(r, client, next);
    }
    Ok(Progress::Waiting(sets::count(list)))
}

// 4: look at the request queue.
#[tactic(auto, unfolding(spec::specs::Steps::look_requests, spec::specs::Bytes::decode, spec::specs::Bytes::encode))]
pub fn look_requests(r: &mut Record, client: u32) -> Answer<Progress>
    requires { client < clients }
    ensures same { SameArrays r.old r.new }
    ensures does { StepAlone (look_requests client) r.old r.new result }
{
    let k = client as usize;
    let own = r.request[k];
    let before = r.request_waits[k];
    let list = waiting::look(REQUEST_QUEUE, own, r.stage, r.request, before);
    r.request_waits[k] = list;
    looked(r, client, list, 5)
}

// 9: list all other commit queue rows, once.
#[tactic(auto, unfolding(spec::specs::Steps::list_commits, spec::specs::Bytes::decode), using(record::proofs::Ending::ending))]
pub fn list_commits(r: &mut Record, client: u32) -> Answer<Progress>
    requires { client < clients }
    ensures same { SameArrays r.old r.new }
    ensures does { StepAlone (list_commits client) r.old r.new result }
{
    r.commit_waits[client as usize] = waiting::others(COMMIT_QUEUE, r.stage, client);
    queues::go_on(r, client, 10)
}

// 10: look at the commit queue.
#[tactic(auto, unfolding(spec::specs::Steps::look_commits, spec::specs::Bytes::decode, spec::specs::Bytes::encode))]
pub fn look_commits(r: &mut Record, client: u32) -> Answer<Progress>
    requires { client < clients }
    ensures same { SameArrays r.old r.new }
    ensures does { StepAlone (look_commits client) r.old r.new result }
{
    let k = client as usize;
    let own = r.commit[k];
    let before = r.commit_waits[k];
    let list = waiting::look(COMMIT_QUEUE, own, r.stage, r.commit, before);
    r.commit_waits[k] = list;
    looked(r, client, list, 11)
}
