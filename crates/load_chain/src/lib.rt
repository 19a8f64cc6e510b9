// The chain of changes that a share needs, one needing the next, as marks: a word for each stored block, in which the offset of the chain's
// member of that block stands, and one more; zero where it has none.
#![tactic(auto)]

ghost use Rattle.std.specs.Prelude.{◌≡◌, ℕ, ◌≤◌, length, get_or};
ghost use Rattle.types.specs.Values.{as_locator};
ghost use Rattle.final_block_votes.specs.Walk.{SortedStore};
ghost use Rattle.load_chain.specs.Chain.{Seen, Collected};

use types::TransactionLocator;

// What one look at a share says: it is not loadable, or the place of its block, and the change of a lower round that it needs, if any.
#[derive(Clone, Copy)]
pub enum Sight {
    No,
    Alone(usize),
    Needs(usize, TransactionLocator),
}

// One look at a share.
pub fn look(store: &[u8], order: &[u64], locator: TransactionLocator) -> Sight
    requires { SortedStore store.now order.now }
    ensures { Seen store.now order.now (as_locator locator) result }
{
    let Some((start, len)) = store_payload::stored_payload(store, locator) else {
        return Sight::No;
    };
    let block = locator.block;
    let place = final_block_votes::place_of(store, order, block);
    let end = start + len;
    let Some(change) = load_needed::needed_by(&store[start..end]) else {
        return Sight::Alone(place);
    };
    if locator.block.round.0 <= change.block.round.0 {
        return Sight::No;
    }
    Sight::Needs(place, change)
}

// Marks the chain of a share, walking down the needed changes. Rounds fall, so that it ends and no block has two of its members. Whether it is
// whole: else the share is not loadable.
pub fn mark_chain(
    store: &[u8],
    order: &[u64],
    marks: &mut [u64],
    locator: TransactionLocator,
) -> bool
    requires { SortedStore store.now order.now × ((length order.now ≤ length marks.old) × ((k : ℕ) → get_or marks.old k 0 ≡ 0)) }
    ensures { Collected store.now order.now (as_locator locator) marks.new result }
{
    let mut change = locator;
    loop {
        let seen = look(store, order, change);
        match seen {
            Sight::No => {
                return false;
            }
            Sight::Alone(place) => {
                marks[place] = change.offset + 1;
                return true;
            }
            Sight::Needs(place, earlier) => {
                marks[place] = change.offset + 1;
                change = earlier;
            }
        }
    }
}
