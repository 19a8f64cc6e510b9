// How many includes each stored block is away from the nearest vote of each author, and by which include the nearest is reached first.
#![tactic(auto)]

ghost use Rattle.std.specs.Prelude.{◌≡◌, ◌+◌, ◌*◌, ◌≤◌, ◌<◌, length, set};
ghost use Rattle.base.specs.Lists.{pick};
ghost use Rattle.record_spec.specs.Block.{author};
ghost use Rattle.types.specs.Values.{as_locator};
ghost use Rattle.final_spec.specs.Voters.{votes_for};
ghost use Rattle.final_block_votes.specs.Walk.{SortedStore, block_at_place};
ghost use Rattle.slip_write_distances.specs.Near.{Distances};

use types::TransactionLocator;

// The author of the block at place k is no include away from its vote, if the block votes.
fn note_own(store: &[u8], order: &[u64], locator: TransactionLocator, k: usize, near: &mut [u16])
    requires { (SortedStore store.now order.now × (k < length order.now)) × ((length order.now ≤ 1024) × (length near.old ≡ 131072)) }
    ensures { near.new ≡ pick (votes_for (block_at_place store.now order.now k) (as_locator locator)) (set near.old (128 * k + author (block_at_place store.now order.now k)) 1) near.old }
{
    let at = order[k] as usize;
    let own = final_block_votes::own_vote_at(store, at, locator);
    let block = store_entries::reference_at(store, at);
    if !own.contains(block.authority) {
        return;
    }
    near[committee::MAX_MEMBERS * k + block.authority.0 as usize] = 1;
}

// The rows of the block at place k; its includes stand at lower places.
fn read_block(
    store: &[u8],
    order: &[u64],
    locator: TransactionLocator,
    k: usize,
    near: &mut [u16],
    steps: &mut [u8],
)
    requires { ((SortedStore store.now order.now × (k < length order.now)) × (length order.now ≤ 1024)) × Distances store.now order.now (as_locator locator) near.old steps.old k }
    ensures { Distances store.now order.now (as_locator locator) near.new steps.new (k + 1) }
{
    let at = order[k] as usize;
    let count = final_block_votes::include_count_at(store, at);
    for j in 0..count {
        let i = final_block_votes::place_of(
            store,
            order,
            final_block_votes::include_at(store, at, j),
        );
        slip_write_rows::fold_include(near, steps, k, i, j as u8);
    }
    note_own(store, order, locator, k, near);
}

// The rows of all stored blocks, in ascending reference order: 128 words a block.
pub fn find_distances(
    store: &[u8],
    order: &[u64],
    locator: TransactionLocator,
    near: &mut [u16],
    steps: &mut [u8],
)
    requires { (SortedStore store.now order.now × (length order.now ≤ 1024)) × Distances store.now order.now (as_locator locator) near.old steps.old 0 }
    ensures { Distances store.now order.now (as_locator locator) near.new steps.new (length order.now) }
{
    for k in 0..order.len() {
        read_block(store, order, locator, k, near, steps);
    }
}
