// Answer lines of the step program. Definitions: crate spec, specs/Text.antt and specs/Answers.antt.
#![tactic(auto)]

ghost use Rattle.std.specs.Prelude.{◌≡◌, ℕ, List, [], ◌++◌, ◌+◌, ◌≤◌, length};
ghost use Rattle.spec.specs.Answers.{code, answer_of};
ghost use Rattle.spec.specs.Text.{str, numbered, head_text, line_text, answer_text, free_text, dropped_text, begun_text};
ghost use Rattle.spec.specs.Text.{reading_text, progress_text, refused_text};
ghost use Rattle.printing.specs.Inner.{answer_room, Put};
ghost use Rattle.reply.specs.Inner.{line_closed};

use spec::{Answer, Begun, Form, Progress, Refusal};

// ---- the head of a line: as in crate printing, each function appends to the text that ends at a place, and answers
// where the text ends now. A word is written where it is printed: its length is then known there.

// A number and a space.
#[tactic(auto, using(printing::proofs::Texts::put_then), unfolding(spec::specs::Text::numbered))]
fn put_spaced(out: &mut [u8], at: usize, n: u32) -> usize
    requires { at + 11 ≤ length out.old }
    ensures put { Put out.old at (numbered [] n (str " ")) out.new result }
    ensures upper_bound { result ≤ at + 11 }
{
    let a = printing::put_decimal(out, at, n);
    printing::put(out, a, b" ")
}

// A client and a cell.
#[tactic(auto, using(printing::proofs::Texts::put_then))]
fn put_cell(out: &mut [u8], at: usize, client: u32, cell: u32) -> usize
    requires { at + 22 ≤ length out.old }
    ensures put { Put out.old at (numbered [] client (str " ") ++ numbered [] cell (str " "))
        out.new result }
    ensures upper_bound { result ≤ at + 22 }
{
    let a = put_spaced(out, at, client);
    put_spaced(out, a, cell)
}

// Keyword, client and cell of a form.
#[tactic(auto, using(printing::proofs::Texts::put_then), unfolding(spec::specs::Text::head_text, spec::specs::Text::numbered))]
fn put_head(out: &mut [u8], at: usize, form: Form) -> usize
    requires { at + 40 ≤ length out.old }
    ensures put { Put out.old at (head_text form) out.new result }
    ensures upper_bound { result ≤ at + 40 }
{
    match form {
        Form::SetUp {
            rows: _,
            first: _,
            limit: _,
        } => printing::put(out, at, b"(set-up "),
        Form::Begin(client) => {
            let a = printing::put(out, at, b"(begin ");
            put_spaced(out, a, client)
        }
        Form::Read(client, cell) => {
            let a = printing::put(out, at, b"(read ");
            put_cell(out, a, client, cell)
        }
        Form::Write {
            client,
            cell,
            value: _,
        } => {
            let a = printing::put(out, at, b"(write ");
            put_cell(out, a, client, cell)
        }
        Form::Advance(client) => {
            let a = printing::put(out, at, b"(advance ");
            put_spaced(out, a, client)
        }
        Form::Abandon(client) => {
            let a = printing::put(out, at, b"(abandon ");
            put_spaced(out, a, client)
        }
        Form::Trim => printing::put(out, at, b"(trim "),
        Form::Free => printing::put(out, at, b"(free "),
        Form::Other => printing::put(out, at, b"(line "),
    }
}

// ---- results. The last word printed closes the result and the line.

// A number and the end.
#[tactic(auto, using(printing::proofs::Texts::put_then), unfolding(spec::specs::Text::numbered))]
fn put_last(out: &mut [u8], at: usize, n: u32) -> usize
    requires { at + 13 ≤ length out.old }
    ensures put { Put out.old at (numbered [] n (line_closed (str ")"))) out.new result }
    ensures upper_bound { result ≤ at + 13 }
{
    let a = printing::put_decimal(out, at, n);
    printing::put(out, a, b"))\n")
}

fn put_refused(out: &mut [u8], at: usize, number: u32) -> usize
    requires { at + 50 ≤ length out.old }
    ensures put { Put out.old at (line_closed (refused_text number)) out.new result }
    ensures upper_bound { result ≤ at + 50 }
{
    let a = printing::put(out, at, b"(refused ");
    put_last(out, a, number)
}

fn put_free(out: &mut [u8], at: usize, n: u32) -> usize
    requires { at + 50 ≤ length out.old }
    ensures put { Put out.old at (line_closed (free_text n)) out.new result }
    ensures upper_bound { result ≤ at + 50 }
{
    let a = printing::put(out, at, b"(free ");
    put_last(out, a, n)
}

fn put_dropped(out: &mut [u8], at: usize, n: u32) -> usize
    requires { at + 50 ≤ length out.old }
    ensures put { Put out.old at (line_closed (dropped_text n)) out.new result }
    ensures upper_bound { result ≤ at + 50 }
{
    let a = printing::put(out, at, b"(dropped ");
    put_last(out, a, n)
}

fn put_begun(out: &mut [u8], at: usize, begun: Begun) -> usize
    requires { at + 50 ≤ length out.old }
    ensures put { Put out.old at (line_closed (begun_text begun)) out.new result }
    ensures upper_bound { result ≤ at + 50 }
{
    let a = printing::put(out, at, b"(number ");
    let b = printing::put_decimal(out, a, begun.number);
    let c = printing::put(out, b, b") (snapshot ");
    put_last(out, c, begun.snapshot)
}

// value is what was read, where something was.
fn put_reading(out: &mut [u8], at: usize, reading: Option<usize>, value: &[u8]) -> usize
    requires at_in_bounds { at + 50 ≤ length out.old }
    requires value_len_bound { length value.now ≤ 16 }
    ensures put { Put out.old at (line_closed (reading_text value.now reading))
        out.new result }
    ensures upper_bound { result ≤ at + 50 }
{
    match reading {
        Some(_) => {
            let a = printing::put(out, at, b"(value ");
            let b = printing::put_hex(out, a, value);
            printing::put(out, b, b"))\n")
        }
        None => printing::put(out, at, b"(unwritten))\n"),
    }
}

fn put_progress(out: &mut [u8], at: usize, progress: Progress) -> usize
    requires { at + 50 ≤ length out.old }
    ensures put { Put out.old at (line_closed (progress_text progress)) out.new result }
    ensures upper_bound { result ≤ at + 50 }
{
    match progress {
        Progress::Stage(n) => {
            let a = printing::put(out, at, b"(stage ");
            put_last(out, a, n)
        }
        Progress::Waiting(n) => {
            let a = printing::put(out, at, b"(waiting ");
            put_last(out, a, n)
        }
        Progress::Conflict(n) => {
            let a = printing::put(out, at, b"(conflict ");
            put_last(out, a, n)
        }
        Progress::Done(n) => {
            let a = printing::put(out, at, b"(done ");
            put_last(out, a, n)
        }
    }
}

// ---- whole lines, with their newline: the head, and the result by the kind of answer

pub fn refused_line(out: &mut [u8], at: usize, form: Form, number: u32) -> usize
    requires { at + answer_room ≤ length out.old }
    ensures put { Put out.old at (line_text form (refused_text number)) out.new result }
    ensures upper_bound { result ≤ at + answer_room }
{
    let a = put_head(out, at, form);
    put_refused(out, a, number)
}

// The head, and what an answer says or why it is refused: say puts the text of what it is handed, closed.
fn answer_line<T, F: FnOnce(&mut [u8], usize, T) -> usize>(
    out: &mut [u8],
    at: usize,
    form: Form,
    answer: Answer<T>,
    say: F,
) -> usize
    requires room { at + answer_room ≤ length out.old }
    requires callable { (o : _) (a : ℕ) (t : T) → a + 50 ≤ length o.now → F.pre say o a t }
    requires bounded { (o : _) (a : ℕ) (t : T) (r : ℕ) (p : _) → a + 50 ≤ length o.now
        → F.post say o a t r p → r ≤ a + 50 }
    ensures put { (text : T → List ℕ)
        → ((o : _) (a : ℕ) (t : T) (r : ℕ) (p : _) → a + 50 ≤ length o.now → F.post say o a t r p
        → Put o.now a (line_closed (text t)) p.now r)
        → Put out.old at (line_text form (answer_text text (answer_of answer))) out.new result }
    ensures upper_bound { result ≤ at + answer_room }
{
    let a = put_head(out, at, form);
    match answer {
        Ok(value) => say(out, a, value),
        Err(r) => put_refused(out, a, telling::code_of(r)),
    }
}

pub fn free_line(out: &mut [u8], at: usize, form: Form, answer: Answer<u32>) -> usize
    requires { at + answer_room ≤ length out.old }
    ensures put { Put out.old at (line_text form (answer_text free_text (answer_of answer)))
        out.new result }
    ensures upper_bound { result ≤ at + answer_room }
{
    answer_line(out, at, form, answer, put_free)
}

pub fn dropped_line(out: &mut [u8], at: usize, form: Form, answer: Answer<u32>) -> usize
    requires { at + answer_room ≤ length out.old }
    ensures put { Put out.old at (line_text form (answer_text dropped_text (answer_of answer)))
        out.new result }
    ensures upper_bound { result ≤ at + answer_room }
{
    answer_line(out, at, form, answer, put_dropped)
}

pub fn begun_line(out: &mut [u8], at: usize, form: Form, answer: Answer<Begun>) -> usize
    requires { at + answer_room ≤ length out.old }
    ensures put { Put out.old at (line_text form (answer_text begun_text (answer_of answer)))
        out.new result }
    ensures upper_bound { result ≤ at + answer_room }
{
    answer_line(out, at, form, answer, put_begun)
}

pub fn reading_line(
    out: &mut [u8],
    at: usize,
    form: Form,
    answer: Answer<Option<usize>>,
    value: &[u8],
) -> usize
    requires answer_room_in_bounds { at + answer_room ≤ length out.old }
    requires value_len_bound { length value.now ≤ 16 }
    ensures put { Put out.old at
        (line_text form (answer_text (reading_text value.now) (answer_of answer))) out.new result }
    ensures upper_bound { result ≤ at + answer_room }
{
    answer_line(
        out,
        at,
        form,
        answer,
        |o, a, reading| put_reading(o, a, reading, value),
    )
}

pub fn progress_line(out: &mut [u8], at: usize, form: Form, answer: Answer<Progress>) -> usize
    requires { at + answer_room ≤ length out.old }
    ensures put { Put out.old at (line_text form (answer_text progress_text (answer_of answer)))
        out.new result }
    ensures upper_bound { result ≤ at + answer_room }
{
    answer_line(out, at, form, answer, put_progress)
}
