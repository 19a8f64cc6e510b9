// Whether the ancestry of each record that comes with a slip is whole, for slips of the new reading. One pass upwards: an include has a lower
// round, so it stands at a lower place.
#![tactic(auto)]

ghost use Rattle.std.specs.Prelude.{ℕ, ◌≤◌, ◌<◌, ◌≡◌, length, get_or};
ghost use Rattle.final_readings_spec.specs.Answers.{as_reading};
ghost use Rattle.slip_spec.specs.Supplied.{supplied_blocks};
ghost use Rattle.slip_spec.specs.Ancestry.{in_ancestry, lacks};
ghost use Rattle.slip_read_records.specs.Places.{block_at_place, Sorted, Places};
ghost use Rattle.slip_read_paths.specs.Walk.{InPlace};
ghost use Rattle.slip_read_ancestry.specs.Lacking.{Right, lost_at, Lacking, LackingIn};

use final_readings_spec::Reading;
use slip_read_paths::Led;

// The number of includes of the block at a place.
pub fn include_count_at(records: &[u8], order: &[u64], place: usize) -> usize
    requires { Sorted records.now order.now × (place < length order.now) }
    ensures { result ≡ length (block_at_place records.now order.now place).includes }
{
    let at = order[place] as usize;
    let from = at + 4;
    let end = slip_read_records::record_end(records, at);
    record_reader::include_count(&records[from..end])
}

// Whether an include is not among the records, or lacks an ancestor itself.
fn is_lost(lacking: &[u8], include: Led) -> bool
    requires { InPlace lacking.now include }
    ensures { result ≡ lost_at lacking.now include }
{
    match include {
        Led::To(place) => lacking[place] == 1,
        Led::Nowhere => true,
        Led::NotGiven => true,
    }
}

// Whether the block at a place lacks an ancestor; those of lower places are noted.
fn lacks_ancestor(records: &[u8], order: &[u64], lacking: &[u8], place: usize) -> bool
    requires { (Places records.now (supplied_blocks records.now) order.now × Right records.now) × (((place < length order.now) × (length order.now ≤ length lacking.now)) × Lacking records.now order.now place lacking.now) }
    ensures { result ≡ in_ancestry (lacks (supplied_blocks records.now)) (supplied_blocks records.now) (block_at_place records.now order.now place) }
{
    let count = include_count_at(records, order, place);
    for k in 0..count {
        let include = slip_read_paths::step(records, order, place, k);
        if is_lost(lacking, include) {
            return true;
        }
    }
    false
}

// Notes for each place whether the block there lacks an ancestor, 1 or 0; nothing where nobody withdraws.
pub fn note_lacking(records: &[u8], order: &[u64], reading: Reading, lacking: &mut [u8])
    requires { (Places records.now (supplied_blocks records.now) order.now × Right records.now) × ((length order.now ≤ length lacking.old) × ((j : ℕ) → get_or lacking.old j 0 ≡ 0)) }
    ensures { LackingIn (as_reading reading) records.now order.now lacking.new }
{
    if let Reading::Old = reading {
        return;
    }
    for j in 0..order.len() {
        let found = lacks_ancestor(records, order, lacking, j);
        lacking[j] = found as u8;
    }
}
