// The chain of a store (10): all its entries, in ascending reference order.
#![tactic(auto)]

ghost use Rattle.std.specs.Prelude.{◌≤◌, ◌≡◌, true, ltb, length, take};
ghost use Rattle.base.specs.Lists.{pairwise};
ghost use Rattle.store_spec.specs.Store.{records_of};
ghost use Rattle.store_spec.specs.Entry.{positions, sorted_positions, is_in, readable, chained, is_entry, none_or_entry, follows};

use std::cmp::Ordering;

// Whether a number is among ascending numbers.
fn contains(sorted: &[u64], x: u64) -> bool
    requires { pairwise ltb sorted.now ≡ true }
    ensures { result ≡ is_in x sorted.now }
{
    let mut low = 0;
    let mut high = sorted.len();
    while low < high {
        let middle = low + (high - low) / 2;
        let y = sorted[middle];
        if y == x {
            return true;
        }
        if y < x {
            low = middle + 1;
        } else {
            high = middle;
        }
    }
    false
}

// Whether the block at a position comes after the one at `last`, or `last` is none (zero).
fn comes_after(store: &[u8], last: usize, at: usize) -> bool
    requires { (none_or_entry store.now last ≡ true) × (is_entry store.now at ≡ true) }
    ensures { result ≡ follows store.now last at }
{
    if last == 0 {
        return true;
    }
    let order = types::compare(
        store_entries::reference_at(store, last),
        store_entries::reference_at(store, at),
    );
    match order {
        Ordering::Less => true,
        Ordering::Equal => false,
        Ordering::Greater => false,
    }
}

// Walks along the chain, whose positions are entries' in ascending reference order, as many as there are, and keeps them in that order.
pub fn chain_right(store: &[u8], starts: &[u64], order: &mut [u64]) -> bool
    requires { (readable store.now ≡ true) × ((starts.now ≡ positions (records_of store.now)) × (length starts.now ≤ length order.old)) }
    ensures value { result ≡ chained store.now }
    ensures order_after { result ≡ true → take (length starts.now) order.new ≡ sorted_positions (records_of store.now) }
{
    let mut at = base::read_u32(store, 0) as usize;
    let mut last: usize = 0;
    for k in 0..starts.len() {
        if !contains(starts, at as u64) {
            return false;
        }
        if !comes_after(store, last, at) {
            return false;
        }
        order[k] = at as u64;
        last = at;
        at = base::read_u32(store, at) as usize;
    }
    at == 0
}
