// The record apart: its eight numbers are held, and its arrays by client lent. Fitness, a new record, closing a client,
// Trim's low; and how a record by value comes apart and together.
#![tactic(auto)]

ghost use Rattle.std.specs.Prelude.{◌≡◌, true, false, ◌+◌, ◌<◌, ◌≤◌};
ghost use Rattle.spec.specs.Set.{clients};
ghost use Rattle.spec.specs.Image.{closed, empty};
ghost use Rattle.spec.specs.Bytes.{clients_in, store_of, known, fits};
ghost use Rattle.record.specs.Inner.{
  whole,
  clients_at,
  store_at,
  SameArrays,
  no_clients,
  Suits,
  HasRoom,
  AllClosed,
  Lowers,
  SmallestOpen,
  short_number,
};

use spec::{CLIENTS, COMMIT_ROW, DATA_ROW, Set, Store};

// The numbers of a record.
#[derive(Clone, Copy)]
pub struct Head {
    pub rows: u32,
    pub limit: u32,
    pub issued: u32,
    pub requested: u32,
    pub taken: u32,
    pub last: u32,
    pub used: u32,
    pub entries: u32,
}

// A record whose arrays by client are lent: what a call works on. It leaves the same arrays in it.
#[derive(Drop)]
pub struct Record<'a> {
    pub head: Head,
    pub stage: &'a mut [u32; CLIENTS],
    pub number: &'a mut [u32; CLIENTS],
    pub snapshot: &'a mut [u32; CLIENTS],
    pub request: &'a mut [u32; CLIENTS],
    pub commit: &'a mut [u32; CLIENTS],
    pub request_waits: &'a mut [Set; CLIENTS],
    pub commit_waits: &'a mut [Set; CLIENTS],
}

// ---- a record by value, and apart

pub fn head_of(store: &Store) -> Head
    ensures { whole result (clients_in store.now) ≡ store.now }
{
    Head {
        rows: store.rows,
        limit: store.limit,
        issued: store.issued,
        requested: store.requested,
        taken: store.taken,
        last: store.last,
        used: store.used,
        entries: store.entries,
    }
}

// Other numbers, with the arrays as they are.
pub fn renumber(store: &mut Store, h: Head)
    ensures { store.new ≡ whole h (clients_in store.old) }
{
    store.rows = h.rows;
    store.limit = h.limit;
    store.issued = h.issued;
    store.requested = h.requested;
    store.taken = h.taken;
    store.last = h.last;
    store.used = h.used;
    store.entries = h.entries;
}

// ---- a new record

// Its numbers.
#[tactic(auto, unfolding(spec::specs::Bytes::store_of, spec::specs::Image::empty))]
pub fn starting(rows: u32, limit: u32, issued: u32) -> Head
    ensures { whole result no_clients ≡ store_of (empty rows limit issued) }
{
    Head {
        rows,
        limit,
        issued,
        requested: 0,
        taken: 0,
        last: 0,
        used: 0,
        entries: 0,
    }
}

// Its arrays, whatever these have held.
pub fn zero(r: &mut Record)
    ensures same { SameArrays r.old r.new }
    ensures head { r.new.head ≡ r.old.head }
    ensures zeros { clients_at r.new ≡ no_clients }
{
    *r.stage = [0; CLIENTS];
    *r.number = [0; CLIENTS];
    *r.snapshot = [0; CLIENTS];
    *r.request = [0; CLIENTS];
    *r.commit = [0; CLIENTS];
    *r.request_waits = [0; CLIENTS];
    *r.commit_waits = [0; CLIENTS];
}

// A record with nothing open and no row in use.
#[tactic(auto, unfolding(spec::specs::Bytes::store_of, spec::specs::Image::empty))]
pub fn fresh(rows: u32, limit: u32, issued: u32) -> Store
    ensures { result ≡ store_of (empty rows limit issued) }
{
    Store {
        rows,
        limit,
        issued,
        requested: 0,
        taken: 0,
        last: 0,
        used: 0,
        entries: 0,
        stage: [0; CLIENTS],
        number: [0; CLIENTS],
        snapshot: [0; CLIENTS],
        request: [0; CLIENTS],
        commit: [0; CLIENTS],
        request_waits: [0; CLIENTS],
        commit_waits: [0; CLIENTS],
    }
}

// ---- fitness

// Whether all stages are known ones, 0 to 13.
fn stages_known(stage: &[u32; CLIENTS]) -> bool
    ensures { result ≡ known stage.now clients }
{
    let mut ok = true;
    for i in 0..CLIENTS {
        if 13 < stage[i] {
            ok = false;
        }
    }
    ok
}

impl Head {
    // Whether the store of these numbers and stages is fit for buffers of these lengths.
    #[tactic(auto, unfolding(spec::specs::Bytes::fits))]
    pub fn fit(self, stage: &[u32; CLIENTS], d: usize, c: usize) -> bool
        ensures suits { Suits self stage.now d c result }
        ensures room { result ≡ true → HasRoom self d c }
    {
        let rows = self.rows;
        if rows < 1 {
            return false;
        }
        if 1024 < rows {
            return false;
        }
        let wide = rows as usize;
        if d != DATA_ROW * wide {
            return false;
        }
        if c != COMMIT_ROW * wide {
            return false;
        }
        if rows < self.used {
            return false;
        }
        if rows < self.entries {
            return false;
        }
        stages_known(stage)
    }
}

impl<'a> Record<'a> {
    // Whether it is fit for buffers of these lengths.
    pub fn fit(&self, d: usize, c: usize) -> bool
        ensures { result ≡ fits (store_at self.now) d c }
    {
        self.head.fit(self.stage, d, c)
    }
}

// ---- closing a client

// The client closed: its fields zero, and its bit cleared in each waiting list.
#[tactic(auto, unfolding(spec::specs::Image::closed))]
pub fn close(r: &mut Record, client: u32)
    requires { client < clients }
    ensures same { SameArrays r.old r.new }
    ensures head { r.new.head ≡ r.old.head }
    ensures closed { clients_at r.new ≡ closed client (clients_at r.old) }
{
    let k = client as usize;
    r.stage[k] = 0;
    r.number[k] = 0;
    r.snapshot[k] = 0;
    r.request[k] = 0;
    r.commit[k] = 0;
    *r.request_waits = waiting::clear_all(*r.request_waits, client);
    r.request_waits[k] = 0;
    *r.commit_waits = waiting::clear_all(*r.commit_waits, client);
    r.commit_waits[k] = 0;
}

// ---- Trim

// What stands for a smallest snapshot where there is none: it is above all numbers of 32 bits.
const NO_SNAPSHOT: u64 = 4294967296;

// Whether one of the eight clients from this one on is open. All are looked at, so that they are tested at once.
fn some_open(number: &[u32; CLIENTS], from: usize) -> bool
    requires { from + 8 ≤ clients }
    ensures { result ≡ false → AllClosed number.now from (from + 8) }
{
    let mut open = false;
    for j in 0..8 {
        if number[from + j] != 0 {
            open = true;
        }
    }
    open
}

// The smaller of a snapshot and that of a client with this number, if it is open.
fn lower(best: u64, number: u32, snapshot: u32) -> u64
    ensures { Lowers best number snapshot result }
{
    if number == 0 {
        return best;
    }
    let s = snapshot as u64;
    if s < best { s } else { best }
}

// The smallest snapshot of these eight and the clients before them, whose own it is given.
fn eight_more(number: &[u32; CLIENTS], snapshot: &[u32; CLIENTS], from: usize, best: u64) -> u64
    requires { from + 8 ≤ clients }
    ensures { SmallestOpen number.now snapshot.now from (short_number best)
        → SmallestOpen number.now snapshot.now (from + 8) (short_number result) }
{
    let mut next = best;
    for j in 0..8 {
        next = lower(next, number[from + j], snapshot[from + j]);
    }
    next
}

// The smallest snapshot of open transactions, in every image with these columns. Most clients are closed: eight at a
// time are passed.
pub fn smallest_open(number: &[u32; CLIENTS], snapshot: &[u32; CLIENTS]) -> Option<u32>
    ensures { SmallestOpen number.now snapshot.now clients result }
{
    let mut best = NO_SNAPSHOT;
    for t in 0..CLIENTS / 8 {
        if some_open(number, 8 * t) {
            best = eight_more(number, snapshot, 8 * t, best);
        }
    }
    if best < NO_SNAPSHOT {
        Some(best as u32)
    } else {
        None
    }
}
