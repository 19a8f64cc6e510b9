// Who rejects the locator in the ancestry of each record that comes with a slip, for slips of the new reading. One pass upwards, as in slip_ancestry.
#![tactic(auto)]

ghost use Rattle.std.specs.Prelude.{ℕ, ◌+◌, ◌*◌, ◌≤◌, ◌<◌, ◌≡◌, ◌&&◌, length, get_or};
ghost use Rattle.committee_set.specs.AuthoritySet.{member};
ghost use Rattle.record_spec.specs.Block.{author};
ghost use Rattle.types.specs.Values.{as_locator};
ghost use Rattle.final_readings_spec.specs.Rejecting.{own_reject};
ghost use Rattle.final_readings_spec.specs.Answers.{as_reading};
ghost use Rattle.slip_spec.specs.Supplied.{supplied_blocks};
ghost use Rattle.slip_spec.specs.Ancestry.{in_ancestry, rejects_as};
ghost use Rattle.slip_read_records.specs.Places.{block_at_place, Sorted, Places};
ghost use Rattle.slip_read_ancestry.specs.Lacking.{Right};
ghost use Rattle.slip_read_rejecters.specs.Rejecting.{InTable, set_at, rejecters_at, Rejecting, RejectingIn, Meeting};

use committee::AuthorityIndex;
use committee_set::AuthoritySet;
use final_readings_spec::Reading;
use slip_read_paths::Led;
use types::TransactionLocator;

// The author of the block at a place, if it rejects the locator; else nobody.
fn own_reject(
    records: &[u8],
    order: &[u64],
    locator: TransactionLocator,
    place: usize,
) -> AuthoritySet
    requires { (Sorted records.now order.now × (place < length order.now)) × (author (block_at_place records.now order.now place) < 128) }
    ensures { result ≡ own_reject (block_at_place records.now order.now place) (as_locator locator) }
{
    let at = order[place] as usize;
    let from = at + 4;
    let end = slip_read_records::record_end(records, at);
    if !final_block_rejects::rejects(&records[from..end], locator) {
        return AuthoritySet::new();
    }
    let block = slip_read_records::reference_at(records, at);
    AuthoritySet::new().insert(block.authority)
}

// Who is noted to reject in the ancestry of the block at a place.
pub fn set_at(rejecting: &[u64], place: usize) -> AuthoritySet
    requires { 2 * place + 1 < length rejecting.now }
    ensures { result ≡ set_at rejecting.now place }
{
    AuthoritySet {
        low: rejecting[2 * place],
        high: rejecting[2 * place + 1],
    }
}

// The same of an include; nobody where it is not among the records.
fn rejecters_at(rejecting: &[u64], include: Led) -> AuthoritySet
    requires { InTable rejecting.now include }
    ensures { result ≡ rejecters_at rejecting.now include }
{
    match include {
        Led::To(place) => set_at(rejecting, place),
        Led::Nowhere => AuthoritySet::new(),
        Led::NotGiven => AuthoritySet::new(),
    }
}

// Who rejects in the ancestry of the block at a place; those of lower places are noted.
fn rejecters_of(
    records: &[u8],
    order: &[u64],
    locator: TransactionLocator,
    rejecting: &[u64],
    place: usize,
) -> AuthoritySet
    requires { (Places records.now (supplied_blocks records.now) order.now × Right records.now) × (((place < length order.now) × (2 * length order.now ≤ length rejecting.now)) × Rejecting records.now order.now (as_locator locator) place rejecting.now) }
    ensures { (a : ℕ) → a < 128 → member result a ≡ in_ancestry (rejects_as (as_locator locator) a) (supplied_blocks records.now) (block_at_place records.now order.now place) }
{
    let count = slip_read_ancestry::include_count_at(records, order, place);
    let mut found = own_reject(records, order, locator, place);
    for k in 0..count {
        let include = slip_read_paths::step(records, order, place, k);
        found = committee_set::union(found, rejecters_at(rejecting, include));
    }
    found
}

// Notes for each place who rejects in the ancestry of the block there, two words each; nothing where nobody withdraws.
pub fn note_rejecters(
    records: &[u8],
    order: &[u64],
    locator: TransactionLocator,
    reading: Reading,
    rejecting: &mut [u64],
)
    requires { (Places records.now (supplied_blocks records.now) order.now × Right records.now) × ((2 * length order.now ≤ length rejecting.old) × ((j : ℕ) → get_or rejecting.old j 0 ≡ 0)) }
    ensures { RejectingIn (as_reading reading) records.now order.now (as_locator locator) rejecting.new }
{
    if let Reading::Old = reading {
        return;
    }
    for j in 0..order.len() {
        let found = rejecters_of(records, order, locator, rejecting, j);
        rejecting[2 * j] = found.low;
        rejecting[2 * j + 1] = found.high;
    }
}

// Whether an owner is in both sets.
fn in_both(a: AuthoritySet, b: AuthoritySet, owner: AuthorityIndex) -> bool
    requires { owner.0 < 128 }
    ensures { result ≡ member a owner.0 && member b owner.0 }
{
    if !a.contains(owner) {
        return false;
    }
    b.contains(owner)
}

// Whether some owner is in both sets.
pub fn meet(a: AuthoritySet, b: AuthoritySet) -> bool
    ensures { Meeting a b result }
{
    for i in 0..128 {
        if in_both(a, b, AuthorityIndex(i)) {
            return true;
        }
    }
    false
}
