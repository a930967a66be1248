// What a Write places: a row added, or a value replaced.
#![tactic(auto, unfolding(spec::specs::Calls::added, spec::specs::Calls::replaced), using(record::proofs::Leaves::left_by_calls))]

ghost use Rattle.std.specs.Prelude.{◌≡◌, false, ◌*◌, ◌≤◌, ◌<◌, leb, length, get_or};
ghost use Rattle.spec.specs.Set.{clients};
ghost use Rattle.spec.specs.Rows.{data_width, data_rows_in};
ghost use Rattle.spec.specs.Share.{cells_of};
ghost use Rattle.spec.specs.Answers.{Answered, answer_of};
ghost use Rattle.placing.specs.Inner.{Adds, Replaces};

use record::Head;
use spec::{Answer, CLIENTS, Refusal};

// A new data row behind the last in use, where the transaction may write a further cell.
pub fn new_row(
    head: &mut Head,
    number: &[u32; CLIENTS],
    rows: &mut [u8],
    client: u32,
    cell: u32,
    value: &[u8],
) -> Answer<u32>
    requires rows_in_bounds { data_width * head.old.rows ≤ length rows.old }
    requires used_le_rows { head.old.used ≤ head.old.rows }
    requires client_lt_clients { client < clients }
    requires cell_bound { cell < 1024 }
    requires value_len { length value.now ≡ 16 }
    requires rows_value { leb head.old.limit
        (cells_of (get_or number.now client 0) (data_rows_in head.old.used rows.old)) ≡ false }
    ensures { Adds client cell value.now number.now head.old rows.old head.new rows.new (answer_of result) }
{
    if head.rows <= head.used {
        return Err(Refusal::NoFreeRow);
    }
    let used = head.used as usize;
    let k = client as usize;
    let tag = number[k];
    rows::append_row(rows, used, tag, cell, value);
    head.used += 1;
    Ok(head.rows - head.used)
}

// The same of any transaction: its cells are counted.
pub fn counted_row(
    head: &mut Head,
    number: &[u32; CLIENTS],
    rows: &mut [u8],
    client: u32,
    cell: u32,
    value: &[u8],
) -> Answer<u32>
    requires rows_in_bounds { data_width * head.old.rows ≤ length rows.old }
    requires used_le_rows { head.old.used ≤ head.old.rows }
    requires client_lt_clients { client < clients }
    requires cell_bound { cell < 1024 }
    requires value_len { length value.now ≡ 16 }
    ensures { Adds client cell value.now number.now head.old rows.old head.new rows.new (answer_of result) }
{
    let most = head.limit as usize;
    let used = head.used as usize;
    let k = client as usize;
    let tag = number[k];
    if most <= search::count_cells(rows, used, tag) {
        return Err(Refusal::CellLimit);
    }
    new_row(head, number, rows, client, cell, value)
}

// Another value in a data row in use.
pub fn replace_row(head: Head, rows: &mut [u8], at: usize, value: &[u8]) -> u32
    requires used_in_bounds { data_width * head.used ≤ length rows.old }
    requires used_le_rows { head.used ≤ head.rows }
    requires at_lt_used { at < head.used }
    requires value_len { length value.now ≡ 16 }
    ensures { Replaces at value.now head rows.old rows.new (Answered result) }
{
    rows::replace_value(rows, at, value);
    head.rows - head.used
}
