// The form of a store (10): its length and header, and its entries one after the other.
#![tactic(auto)]

ghost use Rattle.std.specs.Prelude.{◌≤◌, ◌≡◌, true, length, take};
ghost use Rattle.store_spec.specs.Store.{block_count, records_of};
ghost use Rattle.store_spec.specs.Entry.{positions, header_right, readable};

// The most bytes of a store, and the most blocks, as its count of two bytes has it.
const MAX_BYTES: usize = 4294967295;

pub const MAX_BLOCKS: u16 = 1024;

// Whether the length is allowed and the header's numbers can be those of a store.
pub fn header_right(store: &[u8]) -> bool
    ensures { result ≡ header_right store.now }
{
    if store.len() < 16 {
        return false;
    }
    if MAX_BYTES < store.len() {
        return false;
    }
    if store.len() < base::read_u32(store, 4) as usize {
        return false;
    }
    if MAX_BLOCKS < base::read_u16(store, 8) {
        return false;
    }
    if base::read_u32(store, 10) != 0 {
        return false;
    }
    base::read_u16(store, 14) == 0
}

// Walks over the entries, and keeps where each starts, in order of arrival.
pub fn entries_readable(store: &[u8], starts: &mut [u64]) -> bool
    requires { (header_right store.now ≡ true) × (1024 ≤ length starts.old) }
    ensures value { result ≡ readable store.now }
    ensures starts_after { result ≡ true → take (block_count store.now) starts.new ≡ positions (records_of store.now) }
{
    let used = base::read_u32(store, 4) as usize;
    let count = base::read_u16(store, 8) as usize;
    let mut at: usize = 16;
    for i in 0..count {
        if store.len() - at < 8 {
            return false;
        }
        let n = base::read_u32(store, at + 4) as usize;
        let from = at + 8;
        if store.len() - from < n {
            return false;
        }
        let end = from + n;
        if !record_reader::well_formed(&store[from..end]) {
            return false;
        }
        starts[i] = at as u64;
        at = end;
    }
    at == used
}
