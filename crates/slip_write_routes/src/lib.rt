// The voters of a certifying block as a slip lists them, each with the path to its nearest vote, read off the tables of distances.
#![tactic(auto)]

ghost use Rattle.std.specs.Prelude.{◌≡◌, ◌+◌, ◌*◌, ◌≤◌, ◌<◌, length, get_or};
ghost use Rattle.std.proofs.lemmas.List.Edits.{sets};
ghost use Rattle.record_spec.specs.Reference.{TransactionLocator};
ghost use Rattle.final_spec.specs.Finality.{blocks_of};
ghost use Rattle.slip_spec.specs.Paths.{path_to};
ghost use Rattle.slip_spec.specs.Reading.{votes_as};
ghost use Rattle.final_block_votes.specs.Walk.{SortedStore, block_at_place};
ghost use Rattle.slip_write_distances.specs.Near.{Distances};
ghost use Rattle.slip_write_routes.specs.Reached.{Found, voter_at, voters_at, Reached, voters_size};

use committee::AuthorityIndex;
use committee_set::AuthoritySet;

// Writes the path from the block at place k to the nearest vote of an author: each step is to the first include that is one nearer.
fn write_path(
    store: &[u8],
    order: &[u64],
    near: &[u16],
    steps: &[u8],
    k: usize,
    a: usize,
    out: &mut [u8],
    at: usize,
)
    requires { ((SortedStore store.now order.now × Found store.now order.now near.now steps.now) × ((k < length order.now) × (length order.now ≤ 1024))) × ((a < 128) × ((0 < get_or near.now (128 * k + a) 0) × (at + get_or near.now (128 * k + a) 0 ≤ length out.old + 1))) }
    ensures { (l : TransactionLocator) → Distances store.now order.now l near.now steps.now (length order.now) → out.new ≡ sets out.old at (path_to (votes_as l a) (blocks_of store.now) (block_at_place store.now order.now k)) }
{
    let mut p = k;
    let mut left = near[committee::MAX_MEMBERS * k + a] - 1;
    let mut to = at;
    while 0 < left {
        let j = steps[committee::MAX_MEMBERS * p + a];
        out[to] = j;
        let include = final_block_votes::include_at(store, order[p] as usize, j as usize);
        p = final_block_votes::place_of(store, order, include);
        left -= 1;
        to += 1;
    }
}

// Writes a voter of the block at place k: its author, the length of the path and the path. Answers where it ends.
fn write_voter(
    store: &[u8],
    order: &[u64],
    near: &[u16],
    steps: &[u8],
    k: usize,
    a: usize,
    out: &mut [u8],
    at: usize,
) -> usize
    requires { ((SortedStore store.now order.now × Found store.now order.now near.now steps.now) × ((k < length order.now) × (length order.now ≤ 1024))) × ((a < 128) × ((0 < get_or near.now (128 * k + a) 0) × (at + (9 + get_or near.now (128 * k + a) 0) ≤ length out.old))) }
    ensures value { result ≡ at + (9 + get_or near.now (128 * k + a) 0) }
    ensures out_after { (l : TransactionLocator) → Distances store.now order.now l near.now steps.now (length order.now) → out.new ≡ sets out.old at (voter_at store.now order.now l k a) }
{
    let away = near[committee::MAX_MEMBERS * k + a];
    base::write_u64(out, at, a as u64);
    base::write_u16(out, at + 8, away - 1);
    write_path(store, order, near, steps, k, a, out, at + 10);
    at + (9 + away as usize)
}

// How many bytes voters of the block at place k take.
pub fn voters_size(near: &[u16], k: usize, voters: AuthoritySet) -> usize
    requires { 128 * k + 128 ≤ length near.now }
    ensures value { result ≡ voters_size near.now k voters }
    ensures upper_bound { result ≤ 8389632 }
{
    let mut size: usize = 0;
    for a in 0..committee::MAX_MEMBERS {
        let more = 9 + near[committee::MAX_MEMBERS * k + a] as usize;
        let votes = voters.contains(AuthorityIndex(a as u64));
        if !votes {
            continue;
        }
        size += more;
    }
    size
}

// Writes voters of the block at place k, in ascending order; answers where they end.
pub fn write_voters(
    store: &[u8],
    order: &[u64],
    near: &[u16],
    steps: &[u8],
    k: usize,
    voters: AuthoritySet,
    out: &mut [u8],
    at: usize,
) -> usize
    requires { ((SortedStore store.now order.now × Found store.now order.now near.now steps.now) × ((k < length order.now) × (length order.now ≤ 1024))) × (Reached near.now k voters × (at + voters_size near.now k voters ≤ length out.old)) }
    ensures value { result ≡ at + voters_size near.now k voters }
    ensures out_after { (l : TransactionLocator) → Distances store.now order.now l near.now steps.now (length order.now) → out.new ≡ sets out.old at (voters_at store.now order.now l k voters) }
{
    let mut to = at;
    for a in 0..committee::MAX_MEMBERS {
        if !voters.contains(AuthorityIndex(a as u64)) {
            continue;
        }
        to = write_voter(store, order, near, steps, k, a, out, to);
    }
    to
}
