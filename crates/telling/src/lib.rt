// Answers as numbers, for programs in C: the refusal's number or 0, then what the call gives, zeros where it is refused.
// Definitions: crate spec, specs/Told.antt.
#![tactic(auto)]

ghost use Rattle.std.specs.Prelude.{◌≡◌};
ghost use Rattle.spec.specs.Answers.{code, answer_of};
ghost use Rattle.spec.specs.Told.{told_of, figure_told, begin_told, read_told, advance_told, in_numbers};

use spec::{Answer, Begun, Progress, Refusal};

// Document 01's number of a refusal; 11 is unused.
pub fn code_of(r: Refusal) -> u32
    ensures { result ≡ code r }
{
    match r {
        Refusal::BadSetUp => 1,
        Refusal::Unfit => 2,
        Refusal::NoClient => 3,
        Refusal::NoCell => 4,
        Refusal::AlreadyOpen => 5,
        Refusal::NotOpen => 6,
        Refusal::WrongStage => 7,
        Refusal::NumbersUsedUp => 8,
        Refusal::CellLimit => 9,
        Refusal::NoFreeRow => 10,
        Refusal::WrongLength => 12,
    }
}

// ---- Set-up, Write, Abandon, Trim, Free: the figure

#[repr(C)]
#[derive(Clone, Copy)]
pub struct FigureGiven {
    pub refusal: u32,
    pub figure: u32,
}

impl From<Answer<u32>> for FigureGiven {
    ghost from_gives = { λ answer r. told_of r.refusal r.figure 0 ≡ in_numbers figure_told (answer_of answer) };

    fn from(answer: Answer<u32>) -> FigureGiven {
        match answer {
            Ok(figure) => FigureGiven { refusal: 0, figure },
            Err(why) => FigureGiven {
                refusal: code_of(why),
                figure: 0,
            },
        }
    }
}

// ---- Begin: the transaction's number and its snapshot

#[repr(C)]
#[derive(Clone, Copy)]
pub struct BeginGiven {
    pub refusal: u32,
    pub number: u32,
    pub snapshot: u32,
}

impl From<Answer<Begun>> for BeginGiven {
    ghost from_gives = { λ answer r. told_of r.refusal r.number r.snapshot ≡ in_numbers begin_told (answer_of answer) };

    fn from(answer: Answer<Begun>) -> BeginGiven {
        match answer {
            Ok(begun) => BeginGiven {
                refusal: 0,
                number: begun.number,
                snapshot: begun.snapshot,
            },
            Err(why) => BeginGiven {
                refusal: code_of(why),
                number: 0,
                snapshot: 0,
            },
        }
    }
}

// ---- Read: 1 and the data row in which the value stands, or 0 for an unwritten cell

#[repr(C)]
#[derive(Clone, Copy)]
pub struct ReadGiven {
    pub refusal: u32,
    pub found: u32,
    pub row: usize,
}

// No row: of an unwritten cell, with refusal 0, and of a refused Read.
fn nowhere(refusal: u32) -> ReadGiven
    ensures { told_of result.refusal result.found result.row ≡ told_of refusal 0 0 }
{
    ReadGiven {
        refusal,
        found: 0,
        row: 0,
    }
}

impl From<Answer<Option<usize>>> for ReadGiven {
    ghost from_gives = { λ answer r. told_of r.refusal r.found r.row ≡ in_numbers read_told (answer_of answer) };

    fn from(answer: Answer<Option<usize>>) -> ReadGiven {
        match answer {
            Ok(Some(row)) => ReadGiven {
                refusal: 0,
                found: 1,
                row,
            },
            Ok(None) => nowhere(0),
            Err(why) => nowhere(code_of(why)),
        }
    }
}

// ---- Advance: 1 Stage, 2 Waiting, 3 Conflict, 4 Done, and its number

#[repr(C)]
#[derive(Clone, Copy)]
pub struct AdvanceGiven {
    pub refusal: u32,
    pub progress: u32,
    pub number: u32,
}

// Which of Advance's answers it is, and its number. Apart, each is a step or two for the machine.
fn kind_of(progress: Progress) -> u32
    ensures { result ≡ (advance_told progress).first }
{
    match progress {
        Progress::Stage(_) => 1,
        Progress::Waiting(_) => 2,
        Progress::Conflict(_) => 3,
        Progress::Done(_) => 4,
    }
}

fn number_of(progress: Progress) -> u32
    ensures { result ≡ (advance_told progress).second }
{
    match progress {
        Progress::Stage(n) | Progress::Waiting(n) | Progress::Conflict(n) | Progress::Done(n) => n,
    }
}

impl From<Answer<Progress>> for AdvanceGiven {
    ghost from_gives = { λ answer r. told_of r.refusal r.progress r.number ≡ in_numbers advance_told (answer_of answer) };

    fn from(answer: Answer<Progress>) -> AdvanceGiven {
        match answer {
            Ok(progress) => AdvanceGiven {
                refusal: 0,
                progress: kind_of(progress),
                number: number_of(progress),
            },
            Err(why) => AdvanceGiven {
                refusal: code_of(why),
                progress: 0,
                number: 0,
            },
        }
    }
}
