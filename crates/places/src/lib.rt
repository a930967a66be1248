// A table of places for tags: a row is found by its tag at once, unless the tag meets another in its place.
#![tactic(auto)]

ghost use Rattle.std.specs.Prelude.{◌≡◌, ℕ, ◌*◌, ◌≤◌, ◌<◌, length};
ghost use Rattle.spec.specs.Rows.{data_width, commit_width, commit_rows_in, row_at, tag_of, commit_tag};
ghost use Rattle.spec.specs.Look.{commit_of};
ghost use Rattle.places.specs.Inner.{place, Places};

// A tag's place.
#[tactic(auto, unfolding(crate::specs::Inner::place))]
pub fn place_of(tag: u32) -> usize
    ensures { (result ≡ place tag) × (result < 4096) }
{
    ((tag as u64) * 2654435769 / 1048576 % 4096) as usize
}

// For n rows whose tags are given.
fn places_for<F: Fn(usize) -> u32>(n: usize, tag: F) -> [u16; 4096]
    requires n_bound { n ≤ 1024 }
    requires askable { (k : ℕ) → k < n → F.pre tag k }
    ensures { (t : ℕ → ℕ) → ((k x : ℕ) → k < n → F.post tag k x → x ≡ t k) → Places t n result }
{
    let mut places = [0; 4096];
    for k in (0..n).rev() {
        places[place_of(tag(k))] = (k + 1) as u16;
    }
    places
}

// For the committed rows.
pub fn commit_places(commits: &[u8], entries: usize) -> [u16; 4096]
    requires entries_in_bounds { commit_width * entries ≤ length commits.now }
    requires entries_bound { entries ≤ 1024 }
    ensures { Places (λ k. commit_tag (row_at commit_width k commits.now)) entries result }
{
    places_for(entries, |k| rows::commit_tag_at(commits, k))
}

// For the data rows.
pub fn row_places(rows: &[u8], used: usize) -> [u16; 4096]
    requires used_in_bounds { data_width * used ≤ length rows.now }
    requires used_bound { used ≤ 1024 }
    ensures { Places (λ k. tag_of (row_at data_width k rows.now)) used result }
{
    places_for(used, |k| rows::tag_at(rows, k))
}

// The number that a tag is committed under.
pub fn commit_at(commits: &[u8], entries: usize, places: &[u16; 4096], tag: u32) -> Option<u32>
    requires entries_in_bounds { commit_width * entries ≤ length commits.now }
    requires places { Places (λ k. commit_tag (row_at commit_width k commits.now)) entries places.now }
    ensures { result ≡ commit_of tag (commit_rows_in entries commits.now) }
{
    let x = place_of(tag);
    let at = places[x] as usize;
    if at == 0 {
        return None;
    }
    if rows::commit_tag_at(commits, at - 1) == tag {
        return Some(rows::commit_number_at(commits, at - 1));
    }
    search::commit_of(commits, entries, tag)
}

// The same, where commit is that of the tag last, which is not looked up again.
pub fn commit_again(
    commits: &[u8],
    entries: usize,
    places: &[u16; 4096],
    last: u32,
    commit: Option<u32>,
    tag: u32,
) -> Option<u32>
    requires entries_in_bounds { commit_width * entries ≤ length commits.now }
    requires places { Places (λ k. commit_tag (row_at commit_width k commits.now)) entries places.now }
    requires commit_value { commit ≡ commit_of last (commit_rows_in entries commits.now) }
    ensures { result ≡ commit_of tag (commit_rows_in entries commits.now) }
{
    if tag == last {
        return commit;
    }
    commit_at(commits, entries, places, tag)
}
