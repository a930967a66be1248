// The store's record and the answers of its calls. What the calls do is defined in specs/.
// How many clients there are.
#![tactic(auto)]

pub const CLIENTS: usize = 64;

// The same, as the number that a client is compared with.
pub const LIMIT: u32 = 64;

// A set of clients, one bit a client.
pub type Set = u64;

// The bytes of a data row and of a committed row.
pub const DATA_ROW: usize = 24;

pub const COMMIT_ROW: usize = 8;

// The largest number of 32 bits.
pub const TOP: u32 = 4294967295;

// Cells are numbered 0 to 1,023.
pub const CELLS: u32 = 1024;

// The version table has one entry for each of them.
pub const VERSIONS: usize = 1024;

// The record: document 01, "What the store holds". A client has an open transaction where its number is not 0.
#[derive(Clone, Copy)]
pub struct Store {
    // rows of the store, and the cell limit
    pub rows: u32,
    pub limit: u32,
    // the counters W, R and C, and the last commit number
    pub issued: u32,
    pub requested: u32,
    pub taken: u32,
    pub last: u32,
    // data rows and committed rows in use
    pub used: u32,
    pub entries: u32,
    // by client: stage, transaction number, snapshot, request number, commit number, and the waiting lists of the
    // request queue and of the commit queue
    pub stage: [u32; CLIENTS],
    pub number: [u32; CLIENTS],
    pub snapshot: [u32; CLIENTS],
    pub request: [u32; CLIENTS],
    pub commit: [u32; CLIENTS],
    pub request_waits: [Set; CLIENTS],
    pub commit_waits: [Set; CLIENTS],
}

// Why a call is refused; document 01's number of each is in specs/Answers.antt. 11 is unused.
#[derive(Clone, Copy)]
pub enum Refusal {
    BadSetUp,
    Unfit,
    NoClient,
    NoCell,
    AlreadyOpen,
    NotOpen,
    WrongStage,
    NumbersUsedUp,
    CellLimit,
    NoFreeRow,
    WrongLength,
}

// What Begin gives.
#[derive(Clone, Copy)]
pub struct Begun {
    pub number: u32,
    pub snapshot: u32,
}

// What Advance gives: the new stage; how many transactions are still waited for; the smallest conflicting commit
// number; the transaction's commit number.
#[derive(Clone, Copy)]
pub enum Progress {
    Stage(u32),
    Waiting(u32),
    Conflict(u32),
    Done(u32),
}

// What a call answers: what it gives, or why it is refused. Set-up, Write, Abandon and Free give the free figure, Trim how
// many data rows went, Begin its transaction, Read the data row in which the value stands, if the cell is written.
pub type Answer<T> = Result<T, Refusal>;

// What a call hands back: the record and the answer.
#[derive(Clone, Copy)]
pub struct Turn<T> {
    pub store: Store,
    pub answer: Answer<T>,
}

// What a set-up hands back: the record, the version table and the answer.
#[derive(Clone, Copy)]
pub struct SetUpTurn {
    pub store: Store,
    pub versions: [u32; VERSIONS],
    pub answer: Answer<u32>,
}

// The stages of a queue: a client is in it from first to last, and its number is noted from noted on.
#[derive(Clone, Copy)]
pub struct Queue {
    pub first: u32,
    pub noted: u32,
    pub last: u32,
}

// ---- what is found in the rows

// A data row and the number that it is committed under, 0 for an own write.
#[derive(Clone, Copy)]
pub struct Version {
    pub at: usize,
    pub number: u32,
}

// ---- the step program

// What a line says. A value is given by the place of its digits in the line.
#[derive(Clone, Copy)]
pub enum Form {
    SetUp {
        rows: u32,
        first: u32,
        limit: u32,
    },
    Begin(u32),
    Read(u32, u32),
    Write {
        client: u32,
        cell: u32,
        value: usize,
    },
    Advance(u32),
    Abandon(u32),
    Trim,
    Free,
    Other,
}
