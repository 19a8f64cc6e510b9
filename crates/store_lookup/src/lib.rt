// The store in a lent slice: lookup along the chain, and by halving where the positions in ascending reference order are lent. Follows block_store.rs.
#![tactic(auto)]

ghost use Rattle.std.specs.Prelude.{◌≡◌, true, false, ◌∷◌, ◌≤◌, length, get_or};
ghost use Rattle.record_spec.specs.Record.{well_formed, block_in};
ghost use Rattle.types.specs.Values.{as_reference};
ghost use Rattle.store_spec.specs.Layout.{entries, position_of, lookup};
ghost use Rattle.store_spec.specs.Accept.{is_stored, first_missing};
ghost use Rattle.store_spec.specs.Store.{records_of};
ghost use Rattle.store_spec.specs.Entry.{laid_out, sorted_positions};
ghost use Rattle.store_lookup.specs.Step.{Neighbours};

use std::cmp::Ordering;
use types::BlockReference;

// The position of the block of that reference, along the chain; zero where it is not stored.
pub fn lookup(store: &[u8], block: BlockReference) -> usize
    requires { laid_out store.now ≡ true }
    ensures { result ≡ position_of (lookup (entries (records_of store.now)) (as_reference block)) }
{
    let mut at = base::read_u32(store, 0) as usize;
    let mut left = base::read_u16(store, 8) as usize;
    while 0 < left {
        let compared = types::compare(store_entries::reference_at(store, at), block);
        match compared {
            Ordering::Less => {
                at = base::read_u32(store, at) as usize;
                left = left - 1;
            }
            Ordering::Equal => {
                return at;
            }
            Ordering::Greater => {
                return 0;
            }
        }
    }
    0
}

// Where a new block goes in the chain: the positions of the last lower block and of the first higher one, zero where there is none.
#[derive(Clone, Copy)]
pub struct Place {
    pub below: usize,
    pub above: usize,
}

// The position before a place; zero before the first.
fn position_before(order: &[u64], k: usize) -> usize
    requires { k ≤ length order.now }
    ensures { result ≡ get_or (0 ∷ order.now) k 0 }
{
    if k == 0 {
        return 0;
    }
    order[k - 1] as usize
}

// The position at a place; zero past the last.
fn position_at(order: &[u64], k: usize) -> usize
    ensures { result ≡ get_or order.now k 0 }
{
    if order.len() <= k {
        return 0;
    }
    order[k] as usize
}

// Finds where a block goes that is not stored.
pub fn chain_place(store: &[u8], order: &[u64], block: BlockReference) -> Place
    requires { (laid_out store.now ≡ true) × ((order.now ≡ sorted_positions (records_of store.now)) × (is_stored (records_of store.now) (as_reference block) ≡ false)) }
    ensures { Neighbours store.now (as_reference block) result.below result.above }
{
    let Err(k) = record_reference_search::find_place(store, order, 8, block) else {
        // Never so: the block is not stored.
        return Place { below: 0, above: 0 };
    };
    let below = position_before(order, k);
    let above = position_at(order, k);
    Place { below, above }
}

// The index of the first include of a record that the store does not hold (30); the number of its includes where it holds all. The chain is walked
// from its high end, as `order` has it: a record mostly includes blocks of the round before.
pub fn first_missing(store: &[u8], order: &[u64], rec: &[u8]) -> usize
    requires { (laid_out store.now ≡ true) × ((order.now ≡ sorted_positions (records_of store.now)) × (well_formed rec.now ≡ true)) }
    ensures { result ≡ first_missing (records_of store.now) (block_in rec.now).includes }
{
    let count = record_reader::include_count(rec);
    let mut k: usize = 0;
    'includes: while k < count {
        let block = record_reader::include(rec, k);
        let mut left = order.len();
        'chain: while 0 < left {
            let at = order[left - 1] as usize;
            let compared = types::compare(store_entries::reference_at(store, at), block);
            match compared {
                Ordering::Equal => {
                    k = k + 1;
                    continue 'includes;
                }
                Ordering::Less => {
                    break 'includes;
                }
                Ordering::Greater => {
                    left = left - 1;
                }
            }
        }
        break 'includes;
    }
    k
}
