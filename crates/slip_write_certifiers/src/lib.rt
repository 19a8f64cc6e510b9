// The certifying blocks of a slip's table, measured and written.
#![tactic(auto)]

ghost use Rattle.std.specs.Prelude.{◌≡◌, ℕ, ◌+◌, ◌*◌, ◌≤◌, ◌<◌, length, get_or};
ghost use Rattle.std.proofs.lemmas.List.Edits.{sets};
ghost use Rattle.record_spec.specs.Reference.{TransactionLocator as Locator};
ghost use Rattle.final_block_votes.specs.Walk.{SortedStore};
ghost use Rattle.slip_write_distances.specs.Near.{Distances};
ghost use Rattle.slip_write_routes.specs.Reached.{Found, Reached, voters_size};
ghost use Rattle.slip_write_certifiers.specs.Ready.{Ready, certifier_bytes_at, certifiers_bytes, certifiers_size};

use committee_set::AuthoritySet;

// How many bytes the first n certifying blocks of the table take.
pub fn certifiers_size(near: &[u16], certifiers: &[u64], n: usize) -> usize
    requires { ((length near.now ≡ 131072) × (n ≤ 1024)) × ((3 * n ≤ length certifiers.now) × ((i : ℕ) → i < n → get_or certifiers.now (3 * i) 0 < 1024)) }
    ensures value { result ≡ certifiers_size near.now certifiers.now n }
    ensures upper_bound { result ≤ 8591033344 }
{
    let mut size: usize = 0;
    for i in 0..n {
        let k = certifiers[3 * i] as usize;
        let low = certifiers[3 * i + 1];
        let high = certifiers[3 * i + 2];
        size = size + (49 + slip_write_routes::voters_size(near, k, AuthoritySet { low, high }));
    }
    size
}

// Writes a certifying block: its reference, the number of its voters and the voters. Answers where it ends.
fn write_certifier(
    store: &[u8],
    order: &[u64],
    near: &[u16],
    steps: &[u8],
    k: usize,
    voters: AuthoritySet,
    out: &mut [u8],
    at: usize,
) -> usize
    requires { ((SortedStore store.now order.now × Found store.now order.now near.now steps.now) × ((k < length order.now) × (length order.now ≤ 1024))) × (Reached near.now k voters × (at + (49 + voters_size near.now k voters) ≤ length out.old)) }
    ensures value { result ≡ at + (49 + voters_size near.now k voters) }
    ensures out_after { (l : Locator) → Distances store.now order.now l near.now steps.now (length order.now) → out.new ≡ sets out.old at (certifier_bytes_at store.now order.now l k voters) }
{
    let block = store_entries::reference_at(store, order[k] as usize);
    record_reference_bytes::write_reference(out, at, block);
    out[at + types::REFERENCE_BYTES] = voters.count() as u8;
    slip_write_routes::write_voters(store, order, near, steps, k, voters, out, at + 49)
}

// Writes the first n certifying blocks of the table, one after the other.
pub fn write_certifiers(
    store: &[u8],
    order: &[u64],
    near: &[u16],
    steps: &[u8],
    certifiers: &[u64],
    n: usize,
    out: &mut [u8],
    at: usize,
)
    requires { ((SortedStore store.now order.now × Found store.now order.now near.now steps.now) × (length order.now ≤ 1024)) × ((3 * n ≤ length certifiers.now) × (Ready order.now near.now certifiers.now n × (at + certifiers_size near.now certifiers.now n ≤ length out.old))) }
    ensures { (l : Locator) → Distances store.now order.now l near.now steps.now (length order.now) → out.new ≡ sets out.old at (certifiers_bytes store.now order.now l certifiers.now n) }
{
    let mut to = at;
    for i in 0..n {
        let k = certifiers[3 * i] as usize;
        let low = certifiers[3 * i + 1];
        let high = certifiers[3 * i + 2];
        to = write_certifier(
            store,
            order,
            near,
            steps,
            k,
            AuthoritySet { low, high },
            out,
            to,
        );
    }
}
