// What is checked of a record's includes: 24 and 25; and the authors of those at the round before, for the clock. Follows threshold_clock.rs,
// and `verify` of types.rs.
#![tactic(auto)]

ghost use Rattle.std.specs.Prelude.{◌≡◌, true, false, ◌+◌, ◌<◌, eqb};
ghost use mathlib.Core.List.{map, flatten};
ghost use Rattle.base.specs.Lists.{pick};
ghost use Rattle.base.specs.Checks.{refusal, passes};
ghost use Rattle.base.specs.Refusals.{refusal_in};
ghost use Rattle.committee.specs.Committee.{broken};
ghost use Rattle.committee_set.specs.AuthoritySet.{inserted};
ghost use Rattle.record_spec.specs.Record.{well_formed, block_in};
ghost use Rattle.record_spec.specs.Verify.{include_checks, previous_authors};

use base::Refusal;
use committee::RoundNumber;
use committee_set::AuthoritySet;
use types::BlockReference;

// 24 and 25, include by include, or none.
pub fn includes_refusal(stakes: &[u64], rec: &[u8]) -> Result<(), Refusal>
    requires { well_formed rec.now ≡ true }
    ensures { refusal_in result ≡ refusal (flatten (map (include_checks stakes.now (block_in rec.now)) (block_in rec.now).includes)) }
{
    let reference = record_reader::reference(rec);
    let count = record_reader::include_count(rec);
    for k in 0..count {
        let include = record_reader::include(rec, k);
        let Some(_) = committee::get_stake(stakes, include.authority) else {
            return Err(Refusal::UnknownIncludeAuthor);
        };
        if reference.round.0 <= include.round.0 {
            return Err(Refusal::IncludeRoundNotLower);
        }
    }
    Ok(())
}

// The voters with the author of an include of a lower round, if it stands at round - 1.
fn with_include(voters: AuthoritySet, include: BlockReference, round: RoundNumber) -> AuthoritySet
    requires { (include.authority.0 < 128) × (include.round.0 < round.0) }
    ensures { result ≡ pick (eqb (include.round.0 + 1) round.0) (inserted voters include.authority.0) voters }
{
    if include.round.0 + 1 != round.0 {
        return voters;
    }
    voters.insert(include.authority)
}

// The authors of includes at round - 1, of a record whose includes pass their checks.
pub fn previous_authors(stakes: &[u64], rec: &[u8]) -> AuthoritySet
    requires { (well_formed rec.now ≡ true) × ((broken stakes.now ≡ false) × (passes (flatten (map (include_checks stakes.now (block_in rec.now)) (block_in rec.now).includes)) ≡ true)) }
    ensures { result ≡ previous_authors (block_in rec.now) (block_in rec.now).includes }
{
    let reference = record_reader::reference(rec);
    let mut voters = AuthoritySet::new();
    let mut left = record_reader::include_count(rec);
    while 0 < left {
        left = left - 1;
        voters = with_include(voters, record_reader::include(rec, left), reference.round);
    }
    voters
}
