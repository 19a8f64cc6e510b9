// The entries of a store, by position and by reference.
#![tactic(auto)]

ghost use Rattle.std.specs.Prelude.{◌+◌, ◌≡◌, true};
ghost use Rattle.base.specs.Le.{le_at};
ghost use Rattle.types.specs.Values.{as_reference};
ghost use Rattle.store_spec.specs.Layout.{entries, position_of, lookup};
ghost use Rattle.store_spec.specs.Store.{records_of};
ghost use Rattle.store_spec.specs.Entry.{block_at, sorted_positions, laid_out, is_entry};

use committee::AuthorityIndex;
use types::BlockReference;

// Where the record of the entry at a position ends. It begins 8 bytes after the position.
pub fn record_end(store: &[u8], at: usize) -> usize
    requires { is_entry store.now at ≡ true }
    ensures { result ≡ at + 8 + le_at 4 store.now (at + 4) }
{
    at + 8 + base::read_u32(store, at + 4) as usize
}

// The reference of the block at a position.
pub fn reference_at(store: &[u8], at: usize) -> BlockReference
    requires { is_entry store.now at ≡ true }
    ensures { as_reference result ≡ (block_at store.now at).reference }
{
    record_reference_bytes::read_reference(store, at + 8)
}

// Its author alone.
pub fn author_at(store: &[u8], at: usize) -> AuthorityIndex
    requires { is_entry store.now at ≡ true }
    ensures { result.0 ≡ (block_at store.now at).reference.authority }
{
    let from = at + 8;
    let end = record_end(store, at);
    record_reader::author(&store[from..end])
}

// The position of the block of that reference, by its place among the positions in ascending reference order; zero where it is not stored.
pub fn find_ordered(store: &[u8], order: &[u64], block: BlockReference) -> usize
    requires { (laid_out store.now ≡ true) × (order.now ≡ sorted_positions (records_of store.now)) }
    ensures { result ≡ position_of (lookup (entries (records_of store.now)) (as_reference block)) }
{
    let Ok(k) = record_reference_search::find_place(store, order, 8, block) else {
        return 0;
    };
    order[k] as usize
}
