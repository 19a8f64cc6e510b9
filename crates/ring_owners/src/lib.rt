// Whom to ring, the owners of largest stake first: definitions, what the answer means, and the owner to ring next.
#![tactic(auto)]

ghost use Rattle.std.specs.Prelude.{◌≡◌, false, [], ◌<◌, length};
ghost use Rattle.base.specs.Lists.{pick};
ghost use Rattle.committee.specs.Committee.{broken, get_stake};
ghost use Rattle.ring_owners.specs.Rung.{ringable};
ghost use Rattle.ring_owners.specs.Ranked.{reached};
ghost use Rattle.ring_owners.specs.Step.{First};
ghost use Rattle.ring_owners.specs.Claims.{Claims};
ghost use Rattle.ring_owners.specs.Cards.{Cards};

use committee::AuthorityIndex;
use committee_set::AuthoritySet;

// The stake that ringing an owner brings: none where he cannot be reached or is counted already.
fn gain(stakes: &[u64], counted: AuthoritySet, reachable: AuthoritySet, i: usize) -> u64
    requires { i < length stakes.now }
    ensures { result ≡ pick (ringable stakes.now counted reachable i) (get_stake stakes.now i) 0 }
{
    let owner = AuthorityIndex(i as u64);
    if !reachable.contains(owner) {
        return 0;
    }
    if counted.contains(owner) {
        return 0;
    }
    stakes[i]
}

// The owner of largest stake among those who can be rung, the lowest number among equals.
pub fn next_to_ring(stakes: &[u64], counted: AuthoritySet, reachable: AuthoritySet) -> usize
    requires { (broken stakes.now ≡ false) × (reached stakes.now counted reachable ≡ [] → ⊥) }
    ensures { First stakes.now (reached stakes.now counted reachable) result }
{
    let mut best = 0;
    let mut most: u64 = 0;
    for i in 0..stakes.len() {
        let stake = gain(stakes, counted, reachable, i);
        if most < stake {
            most = stake;
            best = i;
        }
    }
    best
}

// What the answer means. The function does nothing: its contract is the claims, so that no check passes without their proofs.
pub fn claims()
    ensures { Claims }
{}

// Whom to ring at small values, evaluated.
pub fn cards()
    ensures { Cards }
{}
