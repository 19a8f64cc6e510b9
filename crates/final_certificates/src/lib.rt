// Whether a stored block certifies a locator: its voters, less those who reject it where the reading takes these away, hold quorum. Follows
// finalization_interpreter.rs; the Rust has the old reading alone, in which nobody withdraws.
#![tactic(auto)]

ghost use Rattle.std.specs.Prelude.{◌≡◌, true, false, not, ◌&&◌, ◌<◌, length, get_or};
ghost use Rattle.committee.specs.Committee.{broken, total_stake, is_quorum};
ghost use Rattle.committee_set.specs.AuthoritySet.{stake_of};
ghost use Rattle.types.specs.Values.{as_locator};
ghost use Rattle.store_spec.specs.Entry.{block_at, is_entry};
ghost use Rattle.final_spec.specs.Finality.{blocks_of};
ghost use Rattle.final_block_votes.specs.Walk.{Sorted};
ghost use Rattle.final_readings_spec.specs.Readings.{certifies_in};
ghost use Rattle.final_readings_spec.specs.Answers.{as_reading};
ghost use Rattle.final_voters.specs.Walk.{RemembersBoth};

use committee::Stake;
use committee_set::AuthoritySet;
use final_readings_spec::{Reading, Speech};
use types::TransactionLocator;

// Whether the block at a position certifies, with these voters.
fn certifies(stakes: &[u64], total: Stake, store: &[u8], at: usize, votes: AuthoritySet) -> bool
    requires { ((broken stakes.now ≡ false) × (total.0 ≡ total_stake stakes.now)) × (is_entry store.now at ≡ true) }
    ensures { result ≡ not (block_at store.now at).marked && is_quorum stakes.now (stake_of stakes.now votes) }
{
    if final_block_votes::epoch_changed_at(store, at) {
        return false;
    }
    committee::is_quorum(total, committee_set::stake_of(stakes, votes))
}

// Whether the block at a place certifies, in the reading that is asked for. Who rejects is looked for only where the voters hold quorum.
pub fn certifies_at(
    stakes: &[u64],
    total: Stake,
    store: &[u8],
    order: &[u64],
    locator: TransactionLocator,
    reading: Reading,
    k: usize,
    memo: &mut [u64],
) -> bool
    requires { ((Sorted stakes.now store.now order.now × (total.0 ≡ total_stake stakes.now)) × (k < length order.now)) × RemembersBoth store.now order.now (as_locator locator) memo.old }
    ensures value { result ≡ certifies_in (as_reading reading) stakes.now (blocks_of store.now) (as_locator locator) (block_at store.now (get_or order.now k 0)) }
    ensures remembers_both { RemembersBoth store.now order.now (as_locator locator) memo.new }
{
    let at = order[k] as usize;
    let voting = final_voters::speakers_at(store, order, locator, Speech::Votes, k, memo);
    if !certifies(stakes, total, store, at, voting) {
        return false;
    }
    if let Reading::Old = reading {
        return true;
    }
    let rejecting = final_voters::speakers_at(store, order, locator, Speech::Rejects, k, memo);
    let standing = committee_set::less(voting, rejecting);
    committee::is_quorum(total, committee_set::stake_of(stakes, standing))
}
