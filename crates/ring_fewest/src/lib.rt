// Whom to ring so that a change gets its quorum: the owners of largest stake first, until the votes hold quorum.
#![tactic(auto)]

ghost use Rattle.std.specs.Prelude.{◌≡◌, true, false};
ghost use Rattle.committee.specs.Committee.{total_stake, is_quorum, broken};
ghost use Rattle.committee_set.specs.AuthoritySet.{united, set_of, stake_of};
ghost use Rattle.ring_owners.specs.Ranked.{rung, ring};
ghost use Rattle.ring_fewest.specs.Answers.{as_ring};

use base::Refusal;
use committee::{AuthorityIndex, Stake};
use committee_set::AuthoritySet;

// The owners rung one after the other until those counted hold quorum.
fn until_quorum(
    stakes: &[u64],
    total: Stake,
    voters: AuthoritySet,
    reachable: AuthoritySet,
) -> AuthoritySet
    requires { (broken stakes.now ≡ false) × (total.0 ≡ total_stake stakes.now) × (is_quorum stakes.now (stake_of stakes.now (united voters reachable)) ≡ true) }
    ensures { result ≡ set_of (rung stakes.now voters reachable) }
{
    let mut owners = AuthoritySet::new();
    let mut counted = voters;
    let mut stake = committee_set::stake_of(stakes, voters).0;
    while !committee::is_quorum(total, Stake(stake)) {
        let best = ring_owners::next_to_ring(stakes, counted, reachable);
        let owner = AuthorityIndex(best as u64);
        owners = owners.insert(owner);
        counted = counted.insert(owner);
        stake += stakes[best];
    }
    owners
}

// The fewest owners, of those who can be reached, whose votes with the voters' hold quorum, and their stake; nobody where the voters hold it already.
pub fn fewest_owners(
    stakes: &[u64],
    voters: AuthoritySet,
    reachable: AuthoritySet,
) -> Result<(AuthoritySet, Stake), Refusal>
    ensures { as_ring result ≡ ring stakes.now voters reachable }
{
    let Ok(total) = committee::new_committee(stakes) else {
        return Err(Refusal::BrokenCommittee);
    };
    let all = AuthoritySet {
        low: voters.low | reachable.low,
        high: voters.high | reachable.high,
    };
    if !committee::is_quorum(total, committee_set::stake_of(stakes, all)) {
        return Err(Refusal::QuorumOutOfReach);
    }
    let owners = until_quorum(stakes, total, voters, reachable);
    let stake = committee_set::stake_of(stakes, owners);
    Ok((owners, stake))
}
