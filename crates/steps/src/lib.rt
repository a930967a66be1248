// The steps of Advance that touch rows, and a transaction's rows removed.
#![tactic(auto)]

ghost use Rattle.std.specs.Prelude.{◌≡◌, List, ℕ, ◌*◌, ◌≤◌, ◌<◌, length};
ghost use Rattle.spec.specs.Rows.{data_width, commit_width};
ghost use Rattle.spec.specs.Set.{clients};
ghost use Rattle.spec.specs.Steps.{enter, check, add_commit};
ghost use Rattle.record.specs.Inner.{SameArrays, store_at};
ghost use Rattle.queues.specs.Inner.{Step};
ghost use Rattle.steps.specs.Inner.{Removed};

use record::Record;
use spec::{Answer, Progress, Refusal};

// 0: enter the request queue; with nothing written the transaction is done at once.
#[tactic(auto, unfolding(spec::specs::Steps::enter), using(record::proofs::Ending::ending))]
pub fn enter(r: &mut Record, rows: &[u8], client: u32) -> Answer<Progress>
    requires client_lt_clients { client < clients }
    requires used_in_bounds { data_width * r.old.head.used ≤ length rows.now }
    ensures same { SameArrays r.old r.new }
    ensures does { (c : List ℕ) → Step (enter client)
        (store_at r.old) rows.now c (store_at r.new) rows.now c result }
{
    let k = client as usize;
    let own = r.number[k];
    let used = r.head.used as usize;
    if !search::has_rows(rows, used, own) {
        let done = r.snapshot[k];
        return queues::finish(r, client, done);
    }
    queues::go_on(r, client, 1)
}

// The client's data rows removed, and the client closed.
#[tactic(auto, unfolding(removal::specs::Inner::other_tag, spec::specs::Calls::removed), using(record::proofs::Ending::ending))]
pub fn remove(r: &mut Record, rows: &mut [u8], client: u32)
    requires client_lt_clients { client < clients }
    requires used_in_bounds { data_width * r.old.head.used ≤ length rows.old }
    requires used_bound { r.old.head.used ≤ 1024 }
    ensures same { SameArrays r.old r.new }
    ensures does { Removed client (store_at r.old) rows.old (store_at r.new) rows.new }
    ensures rows { r.new.head.rows ≡ r.old.head.rows }
    ensures fewer { r.new.head.used ≤ r.old.head.used }
{
    let own = r.number[client as usize];
    let used = r.head.used as usize;
    let left = removal::remove_rows(rows, used, own) as u32;
    r.head.used = left;
    record::close(r, client);
}

// 5: check commits above the snapshot for a shared cell.
#[tactic(auto, unfolding(spec::specs::Steps::check, spec::specs::Calls::removed), using(record::proofs::Ending::ending))]
pub fn check(r: &mut Record, rows: &mut [u8], commits: &[u8], client: u32) -> Answer<Progress>
    requires client_lt_clients { client < clients }
    requires used_in_bounds { data_width * r.old.head.used ≤ length rows.old }
    requires used_bound { r.old.head.used ≤ 1024 }
    requires entries_in_bounds { commit_width * r.old.head.entries ≤ length commits.now }
    ensures same { SameArrays r.old r.new }
    ensures does { Step (check client)
        (store_at r.old) rows.old commits.now (store_at r.new) rows.new commits.now result }
{
    let k = client as usize;
    let own = r.number[k];
    let since = r.snapshot[k];
    let used = r.head.used as usize;
    let entries = r.head.entries as usize;
    if let Some(n) = search::conflict(rows, used, commits, entries, own, since) {
        remove(r, rows, client);
        return Ok(Progress::Conflict(n));
    }
    queues::go_on(r, client, 6)
}

// 11: add the committed row; it becomes the last commit.
#[tactic(auto, unfolding(spec::specs::Steps::add_commit, spec::specs::Steps::go_on), using(record::proofs::Ending::ending))]
pub fn add_commit(r: &mut Record, commits: &mut [u8], client: u32) -> Answer<Progress>
    requires client_lt_clients { client < clients }
    requires rows_in_bounds { commit_width * r.old.head.rows ≤ length commits.old }
    requires rows_bound { r.old.head.rows ≤ 1024 }
    ensures same { SameArrays r.old r.new }
    ensures does { (d : List ℕ) → Step (add_commit client)
        (store_at r.old) d commits.old (store_at r.new) d commits.new result }
{
    if r.head.rows <= r.head.entries {
        return Err(Refusal::Unfit);
    }
    let k = client as usize;
    let n = r.commit[k];
    let own = r.number[k];
    let entries = r.head.entries as usize;
    rows::append_commit(commits, entries, n, own);
    r.head.entries += 1;
    r.head.last = n;
    r.stage[k] = 12;
    Ok(Progress::Stage(12))
}
