// Whether a lent store is in order (10): form, chain, and each record accepted after those before it.
#![tactic(auto)]

ghost use Rattle.std.specs.Prelude.{◌≡◌, true, false};
ghost use Rattle.base.specs.Lists.{all_of};
ghost use Rattle.committee.specs.Committee.{broken, total_stake};
ghost use Rattle.record_spec.specs.Record.{well_formed, block_in};
ghost use Rattle.store_spec.specs.Layout.{entries};
ghost use Rattle.store_spec.specs.Accept.{all_accepted};
ghost use Rattle.store_spec.specs.Store.{records_of, store_in_order};
ghost use Rattle.store_spec.specs.Entry.{positions, sorted_positions, laid_out, is_entry};
ghost use Rattle.store_spec.specs.Check.{stored_before, accepted_at};

use committee::Stake;

// Whether every include of a record is stored before a position.
fn includes_before(store: &[u8], order: &[u64], rec: &[u8], at: usize) -> bool
    requires { (laid_out store.now ≡ true) × ((order.now ≡ sorted_positions (records_of store.now)) × (well_formed rec.now ≡ true)) }
    ensures { result ≡ all_of (stored_before (entries (records_of store.now)) at) (block_in rec.now).includes }
{
    let count = record_reader::include_count(rec);
    for k in 0..count {
        let p = store_entries::find_ordered(store, order, record_reader::include(rec, k));
        if p == 0 {
            return false;
        }
        if at <= p {
            return false;
        }
    }
    true
}

// Whether the record at a position is accepted after those before it (21 to 30).
fn entry_accepted(stakes: &[u64], total: Stake, store: &[u8], order: &[u64], at: usize) -> bool
    requires { ((broken stakes.now ≡ false) × (total.0 ≡ total_stake stakes.now)) × ((laid_out store.now ≡ true) × ((order.now ≡ sorted_positions (records_of store.now)) × (is_entry store.now at ≡ true))) }
    ensures { result ≡ accepted_at stakes.now (records_of store.now) at }
{
    let from = at + 8;
    let end = store_entries::record_end(store, at);
    if record_clock::head_refusal(stakes, &store[from..end]).is_err() {
        return false;
    }
    if record_clock::body_refusal(stakes, total, &store[from..end]).is_err() {
        return false;
    }
    includes_before(store, order, &store[from..end], at)
}

// Whether every record is accepted after those before it, with the total of the stakes at hand.
fn accepted_in_turn(
    stakes: &[u64],
    total: Stake,
    store: &[u8],
    starts: &[u64],
    order: &[u64],
) -> bool
    requires { ((broken stakes.now ≡ false) × (total.0 ≡ total_stake stakes.now)) × ((laid_out store.now ≡ true) × ((order.now ≡ sorted_positions (records_of store.now)) × (starts.now ≡ positions (records_of store.now)))) }
    ensures { result ≡ all_accepted stakes.now (records_of store.now) }
{
    for start in starts {
        let at = *start as usize;
        if !entry_accepted(stakes, total, store, order, at) {
            return false;
        }
    }
    true
}

// Whether every record is accepted after those before it.
fn all_accepted(stakes: &[u64], store: &[u8], starts: &[u64], order: &[u64]) -> bool
    requires { (broken stakes.now ≡ false) × ((laid_out store.now ≡ true) × ((order.now ≡ sorted_positions (records_of store.now)) × (starts.now ≡ positions (records_of store.now)))) }
    ensures { result ≡ all_accepted stakes.now (records_of store.now) }
{
    let Ok(total) = committee::new_committee(stakes) else {
        // Never so: the committee is not broken.
        return false;
    };
    accepted_in_turn(stakes, total, store, starts, order)
}

// Whether the store is in order (10), for a committee that is not broken.
pub fn in_order(stakes: &[u64], store: &[u8]) -> bool
    requires { broken stakes.now ≡ false }
    ensures { result ≡ store_in_order stakes.now store.now }
{
    if !store_form::header_right(store) {
        return false;
    }
    let mut starts = [0u64; types::MAX_BLOCKS];
    if !store_form::entries_readable(store, &mut starts) {
        return false;
    }
    let count = base::read_u16(store, 8) as usize;
    let mut order = [0u64; types::MAX_BLOCKS];
    if !store_chain::chain_right(store, &starts[..count], &mut order) {
        return false;
    }
    all_accepted(stakes, store, &starts[..count], &order[..count])
}
