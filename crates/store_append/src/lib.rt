// Accepting a record into a store in a lent slice. Follows block_store.rs.
#![tactic(auto)]

ghost use Rattle.std.specs.Prelude.{◌+◌, ◌≤◌, ◌<◌, ◌≡◌, true, false, ◌∷◌, ◌++◌, length};
ghost use Rattle.std.proofs.lemmas.List.Edits.{sets};
ghost use Rattle.base.specs.Le.{le_bytes};
ghost use Rattle.record_spec.specs.Record.{well_formed, block_in};
ghost use Rattle.store_spec.specs.Accept.{is_stored};
ghost use Rattle.store_spec.specs.Store.{records_of, record_in, store_full, store_holding};
ghost use Rattle.store_spec.specs.Entry.{laid_out, sorted_positions};

// Writes an entry: next position, record length, record.
fn write_entry(store: &mut [u8], at: usize, next: u32, rec: &[u8])
    requires { (at + (8 + length rec.now) ≤ length store.old) × (length rec.now < 4294967296) }
    ensures { store.new ≡ sets store.old at (le_bytes 4 next ++ (le_bytes 4 (length rec.now) ++ rec.now)) }
{
    base::write_u32(store, at, next);
    base::write_u32(store, at + 4, rec.len() as u32);
    base::copy_to(store, at + 8, rec);
}

// Whether the store has no room for a record, in bytes or blocks (13).
pub fn is_full(store: &[u8], rec: &[u8]) -> bool
    requires { laid_out store.now ≡ true }
    ensures { result ≡ store_full store.now (record_in rec.now) }
{
    let room = store.len() - base::read_u32(store, 4) as usize;
    if room < 8 {
        return true;
    }
    if room - 8 < rec.len() {
        return true;
    }
    store_form::MAX_BLOCKS <= base::read_u16(store, 8)
}

// Accepts a record whose block is not stored: its entry after all others, the used length, the block count, and the one position that changes,
// which is the first position or the next position of the last lower block. (The first position stands at zero.) `order` has the positions in
// ascending reference order.
pub fn append(store: &mut [u8], order: &[u64], rec: &[u8])
    requires { (laid_out store.old ≡ true) × ((well_formed rec.now ≡ true) × ((is_stored (records_of store.old) (block_in rec.now).reference ≡ false) × ((store_full store.old (record_in rec.now) ≡ false) × (order.now ≡ sorted_positions (records_of store.old))))) }
    ensures { store.new ≡ store_holding (record_in rec.now ∷ records_of store.old) store.old }
{
    let used = base::read_u32(store, 4);
    let count = base::read_u16(store, 8);
    let place = store_lookup::chain_place(store, order, record_reader::reference(rec));
    let below = place.below;
    let end = used + 8 + rec.len() as u32;
    write_entry(store, used as usize, place.above as u32, rec);
    base::write_u32(store, 4, end);
    base::write_u16(store, 8, count + 1);
    base::write_u32(store, below, used);
}
