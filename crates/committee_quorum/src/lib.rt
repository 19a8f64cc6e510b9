// Whether a set of voters holds quorum, from one question to the next: those asked for last are not counted again.
#![tactic(auto)]

ghost use Rattle.std.specs.Prelude.{◌≡◌, false};
ghost use Rattle.committee.specs.Committee.{Committee, broken, total_stake};
ghost use Rattle.committee_quorum.specs.Sure.{Sure};

use committee::Stake;
use committee_set::AuthoritySet;

// A set of voters, and whether it holds quorum.
#[derive(Clone, Copy)]
pub struct Checked {
    pub voters: AuthoritySet,
    pub quorum: bool,
}

// Nobody, without quorum: where the questions begin.
pub fn nobody() -> Checked
    ensures { (c : Committee) → Sure c result }
{
    let voters = AuthoritySet::new();
    Checked {
        voters,
        quorum: false,
    }
}

// Whether voters hold quorum; those that were asked for last are not counted again.
pub fn check(stakes: &[u64], total: Stake, last: Checked, voters: AuthoritySet) -> Checked
    requires { ((broken stakes.now ≡ false) × (total.0 ≡ total_stake stakes.now)) × Sure stakes.now last }
    ensures { (result.voters ≡ voters) × Sure stakes.now result }
{
    if last.voters.low == voters.low {
        if last.voters.high == voters.high {
            return last;
        }
    }
    let quorum = committee::is_quorum(total, committee_set::stake_of(stakes, voters));
    Checked { voters, quorum }
}
