// Whom to ring for a pending locator: the voters are those of its item in the table.
#![tactic(auto)]

ghost use Rattle.std.specs.Prelude.{◌≡◌, true};
ghost use Rattle.types.specs.Values.{as_locator};
ghost use Rattle.store_spec.specs.Entry.{laid_out};
ghost use Rattle.pending_spec.specs.Table.{HoldsItems};
ghost use Rattle.ring_fewest.specs.Answers.{as_ring};
ghost use Rattle.ring_pending.specs.WhomToRing.{ring_at, whom_to_ring, Claims};

use base::Refusal;
use committee::Stake;
use committee_set::AuthoritySet;
use types::TransactionLocator;

// Of a store and a table in order: whom to ring for what stands at a locator.
pub fn ring_at(
    stakes: &[u64],
    store: &[u8],
    table: &[u64],
    reachable: AuthoritySet,
    locator: TransactionLocator,
) -> Result<(AuthoritySet, Stake), Refusal>
    requires { (laid_out store.now ≡ true) × HoldsItems table.now }
    ensures { as_ring result ≡ ring_at stakes.now store.now table.now reachable (as_locator locator) }
{
    let block = locator.block;
    let p = store_lookup::lookup(store, block) as u64;
    let found = pending_search::holding(table, p, locator.offset);
    let Some(i) = found else {
        return Err(Refusal::NotPending);
    };
    let x = pending_words::item_at(table, i);
    let aggregator = x.aggregator;
    let voters = aggregator.votes;
    ring_fewest::fewest_owners(stakes, voters, reachable)
}

// The fewest owners, of those who can be reached, whose votes with those counted bring a pending locator to quorum, and their stake.
pub fn whom_to_ring(
    stakes: &[u64],
    store: &[u8],
    table: &[u64],
    reachable: AuthoritySet,
    locator: TransactionLocator,
) -> Result<(AuthoritySet, Stake), Refusal>
    ensures { as_ring result ≡ whom_to_ring stakes.now store.now table.now reachable (as_locator locator) }
{
    pending_question::lent_refusal(stakes, store, table)?;
    ring_at(stakes, store, table, reachable, locator)
}

// What is refused. The function does nothing: its contract is the claims, so that no check passes without their proofs.
pub fn claims()
    ensures { Claims }
{}
