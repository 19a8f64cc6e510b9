// The head of a slip and its certifying blocks, measured and written over the front of a slice.
#![tactic(auto)]

ghost use Rattle.std.specs.Prelude.{◌≡◌, ◌++◌, ℕ, ◌+◌, ◌*◌, ◌≤◌, ◌<◌, length, get_or, drop};
ghost use Rattle.std.proofs.lemmas.List.Edits.{sets};
ghost use Rattle.types.specs.Values.{as_locator};
ghost use Rattle.final_block_votes.specs.Walk.{SortedStore};
ghost use Rattle.slip_write_distances.specs.Near.{Distances};
ghost use Rattle.slip_write_certifiers.specs.Ready.{certifiers_size};
ghost use Rattle.slip_write_parts.specs.Listed.{Voted, head_bytes, listed_bytes};

use types::TransactionLocator;

// What a slip begins with: the byte of its reading, and its locator.
#[derive(Clone, Copy)]
pub struct SlipHead {
    pub first: u8,
    pub locator: TransactionLocator,
}

// The head, and the number of certifying blocks.
fn write_head(out: &mut [u8], head: SlipHead, count: u16)
    requires { 59 ≤ length out.old }
    ensures { out.new ≡ sets out.old 0 (head_bytes head.first (as_locator head.locator) count) }
{
    out[0] = head.first;
    record_reference_bytes::write_locator(out, 1, head.locator);
    base::write_u16(out, 57, count);
}

// How many bytes the head and the first n certifying blocks of a table take.
pub fn parts_size(near: &[u16], certifiers: &[u64], n: usize) -> usize
    requires { ((length near.now ≡ 131072) × (n ≤ 1024)) × ((3 * n ≤ length certifiers.now) × ((i : ℕ) → i < n → get_or certifiers.now (3 * i) 0 < 1024)) }
    ensures { result ≡ 59 + certifiers_size near.now certifiers.now n }
{
    59 + slip_write_certifiers::certifiers_size(near, certifiers, n)
}

// Writes the slip of the first n certifying blocks of a table, which fits.
pub fn write_parts(
    store: &[u8],
    order: &[u64],
    head: SlipHead,
    near: &[u16],
    steps: &[u8],
    certifiers: &[u64],
    n: usize,
    out: &mut [u8],
)
    requires { ((SortedStore store.now order.now × (length order.now ≤ 1024)) × Distances store.now order.now (as_locator head.locator) near.now steps.now (length order.now)) × ((((n ≤ 1024) × (3 * n ≤ length certifiers.now)) × Voted store.now order.now (as_locator head.locator) certifiers.now n) × (59 + certifiers_size near.now certifiers.now n ≤ length out.old)) }
    ensures { out.new ≡ listed_bytes store.now order.now (as_locator head.locator) head.first certifiers.now n ++ drop (length (listed_bytes store.now order.now (as_locator head.locator) head.first certifiers.now n)) out.old }
{
    write_head(out, head, n as u16);
    slip_write_certifiers::write_certifiers(store, order, near, steps, certifiers, n, out, 59);
}
