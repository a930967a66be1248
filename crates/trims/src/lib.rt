// Trim: rows that a later commit has replaced for every reader go.
#![tactic(auto)]

ghost use Rattle.std.specs.Prelude.{◌*◌, ◌≤◌, length};
ghost use Rattle.spec.specs.Rows.{data_width, commit_width};
ghost use Rattle.spec.specs.Answers.{Answered, answer_of};
ghost use Rattle.trims.specs.Inner.{TrimsBy, Trims};

use record::Head;
use spec::{Answer, CLIENTS, Refusal};

// Trim's work by low, in every image whose low it is. It is kept apart, so that its tables are in no other call's frame.
#[inline(never)]
#[tactic(auto, unfolding(spec::specs::Calls::trimmed_to), using(crate::proofs::Outcomes::trimmed))]
fn trim_by(head: &mut Head, rows: &mut [u8], commits: &mut [u8], lowest: u32) -> u32
    requires used_in_bounds { data_width * head.old.used ≤ length rows.old }
    requires used_bound { head.old.used ≤ 1024 }
    requires entries_in_bounds { commit_width * head.old.entries ≤ length commits.old }
    requires entries_bound { head.old.entries ≤ 1024 }
    ensures { TrimsBy lowest head.old rows.old commits.old head.new rows.new commits.new (Answered result) }
{
    let left = marking::trim(
        rows,
        head.used as usize,
        commits,
        head.entries as usize,
        lowest,
    );
    let kept = left.rows as u32;
    let gone = head.used - kept;
    let rest = left.commits as u32;
    head.used = kept;
    head.entries = rest;
    gone
}

// Trim answers how many data rows went.
#[tactic(auto, unfolding(spec::specs::Bytes::on_bytes, spec::specs::Calls::trim), using(crate::proofs::Outcomes::trimmed))]
pub fn trim(
    head: &mut Head,
    stage: &[u32; CLIENTS],
    number: &[u32; CLIENTS],
    snapshot: &[u32; CLIENTS],
    rows: &mut [u8],
    commits: &mut [u8],
) -> Answer<u32>
    ensures { Trims stage.now number.now snapshot.now head.old rows.old commits.old
        head.new rows.new commits.new (answer_of result) }
{
    if !head.fit(stage, rows.len(), commits.len()) {
        return Err(Refusal::Unfit);
    }
    let lowest = record::smallest_open(number, snapshot).unwrap_or(head.last);
    Ok(trim_by(head, rows, commits, lowest))
}
