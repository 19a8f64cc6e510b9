// What is checked of a record by itself: 21, 22, 24 to 28, and the clock, 29. Follows threshold_clock.rs, and `verify` of types.rs.
#![tactic(auto)]

ghost use Rattle.std.specs.Prelude.{◌≡◌, true, false};
ghost use mathlib.Core.List.{map, flatten};
ghost use Rattle.base.specs.Checks.{refusal, passes};
ghost use Rattle.base.specs.Refusals.{refusal_in};
ghost use Rattle.committee.specs.Committee.{broken, total_stake};
ghost use Rattle.record_spec.specs.Record.{well_formed, block_in};
ghost use Rattle.record_spec.specs.Verify.{head_checks, include_checks, clock_valid, body_checks};

use base::Refusal;
use committee::Stake;

// 21 and 22 of a well-formed record, or none.
pub fn head_refusal(stakes: &[u64], rec: &[u8]) -> Result<(), Refusal>
    requires { well_formed rec.now ≡ true }
    ensures { refusal_in result ≡ refusal (head_checks stakes.now (block_in rec.now)) }
{
    let reference = record_reader::reference(rec);
    let Some(_) = committee::get_stake(stakes, reference.authority) else {
        return Err(Refusal::UnknownAuthor);
    };
    if reference.round.0 != 0 {
        return Ok(());
    }
    if record_reader::include_count(rec) != 0 {
        return Err(Refusal::RoundZeroNotEmpty);
    }
    if record_reader::statement_count(rec) != 0 {
        return Err(Refusal::RoundZeroNotEmpty);
    }
    Ok(())
}

// The clock of a record whose includes pass their checks: authors of includes at round - 1 hold quorum.
pub fn threshold_clock_valid_non_genesis(stakes: &[u64], total: Stake, rec: &[u8]) -> bool
    requires { ((well_formed rec.now ≡ true) × ((broken stakes.now ≡ false) × (passes (flatten (map (include_checks stakes.now (block_in rec.now)) (block_in rec.now).includes)) ≡ true))) × (total.0 ≡ total_stake stakes.now) }
    ensures { result ≡ clock_valid stakes.now (block_in rec.now) }
{
    let voters = record_check_includes::previous_authors(stakes, rec);
    let stake = committee_set::stake_of(stakes, voters);
    committee::is_quorum(total, stake)
}

// 24 to 29 of a well-formed record, or none.
pub fn body_refusal(stakes: &[u64], total: Stake, rec: &[u8]) -> Result<(), Refusal>
    requires { ((well_formed rec.now ≡ true) × (broken stakes.now ≡ false)) × (total.0 ≡ total_stake stakes.now) }
    ensures { refusal_in result ≡ refusal (body_checks stakes.now (block_in rec.now)) }
{
    record_check_includes::includes_refusal(stakes, rec)?;
    record_check_statements::statements_refusal(rec)?;
    let reference = record_reader::reference(rec);
    if reference.round.0 == 0 {
        return Ok(());
    }
    if threshold_clock_valid_non_genesis(stakes, total, rec) {
        return Ok(());
    }
    Err(Refusal::ClockNotMet)
}
