// Waiting lists: who is put on one, whom a look strikes, and a client that leaves all of them.
#![tactic(auto)]

ghost use Rattle.std.specs.Prelude.{◌≡◌, not, ◌&&◌, eqb, get_or};
ghost use Rattle.spec.specs.Set.{clients, collect, strike};
ghost use Rattle.spec.specs.Image.{cleared};
ghost use Rattle.spec.specs.Steps.{queued, struck};

use spec::{CLIENTS, Queue, Set};

// Whether a client at this stage is in the queue.
#[tactic(auto, unfolding(spec::specs::Steps::queued))]
fn in_queue(queue: Queue, stage: u32) -> bool
    ensures { result ≡ queued queue stage }
{
    if stage < queue.first {
        return false;
    }
    stage <= queue.last
}

// The clients in the queue other than the client.
pub fn others(queue: Queue, stage: &[u32; CLIENTS], client: u32) -> Set
    ensures { result ≡ collect (λ j. not (eqb j client) && queued queue (get_or stage.now j 0)) clients }
{
    let mut out: Set = 0;
    for i in 0..CLIENTS {
        if in_queue(queue, stage[i]) {
            out = sets::with(out, i as u32);
        }
    }
    sets::without(out, client)
}

// Whether a look by a client with number own strikes a client at this stage with this number.
#[tactic(auto, unfolding(spec::specs::Steps::struck))]
fn strikes(queue: Queue, own: u32, stage: u32, number: u32) -> bool
    ensures { result ≡ struck queue own stage number }
{
    if !in_queue(queue, stage) {
        return true;
    }
    if stage < queue.noted {
        return false;
    }
    own < number
}

// The clients of a waiting list that a look leaves on it.
pub fn look(
    queue: Queue,
    own: u32,
    stage: &[u32; CLIENTS],
    number: &[u32; CLIENTS],
    list: Set,
) -> Set
    ensures { result ≡ strike
        (λ j. struck queue own (get_or stage.now j 0) (get_or number.now j 0)) list clients }
{
    let mut out = list;
    let mut rest = list;
    while rest != 0 {
        let i = u64::trailing_zeros(rest);
        rest = sets::without(rest, i);
        let k = i as usize;
        if strikes(queue, own, stage[k], number[k]) {
            out = sets::without(out, i);
        }
    }
    out
}

// The lists with the client's bit cleared in each.
pub fn clear_all(lists: [Set; CLIENTS], client: u32) -> [Set; CLIENTS]
    ensures { result ≡ cleared client lists }
{
    let mut out = lists;
    for list in out.iter_mut() {
        *list = sets::without(*list, client);
    }
    out
}
