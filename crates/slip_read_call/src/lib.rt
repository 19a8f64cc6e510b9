// Reads a finality slip of either reading with the records that come with it: one pass over the slip's bytes, with no store.
#![tactic(auto)]

ghost use Rattle.std.specs.Prelude.{◌≤◌, ◌<◌, ◌≡◌, true, false, length};
ghost use Rattle.committee.specs.Committee.{total_stake, broken};
ghost use Rattle.final_readings_spec.specs.Answers.{as_reading};
ghost use Rattle.slip_spec.specs.Slip.{names_reading};
ghost use Rattle.slip_spec.specs.Supplied.{supplied_blocks};
ghost use Rattle.slip_spec.specs.Reading.{read_answer};
ghost use Rattle.slip_read_records.specs.Places.{Places};
ghost use Rattle.slip_read_ancestry.specs.Lacking.{Right};
ghost use Rattle.slip_read_body.specs.Step.{head_right, reading_at};
ghost use Rattle.slip_read_call.specs.Step.{Showed};
ghost use Rattle.slip_read_call.specs.Answers.{as_slip_answer};

use base::Refusal;
use committee::Stake;
use final_readings_spec::Reading;

// Whether the first byte names a reading: 0 the old one, 1 the one in which an owner may withdraw.
fn names_reading(slip: &[u8]) -> bool
    ensures { result ≡ names_reading slip.now }
{
    if slip.len() == 0 {
        return false;
    }
    slip[0] < 2
}

// The reading that the first byte names.
fn named_reading(slip: &[u8]) -> Reading
    requires { 0 < length slip.now }
    ensures { as_reading result ≡ reading_at slip.now }
{
    if slip[0] == 1 {
        return Reading::Withdrawing;
    }
    Reading::Old
}

// What a slip shows with its records, of which it is noted first who votes, where an ancestor is missing and who rejects.
fn show_slip(
    stakes: &[u64],
    total: Stake,
    slip: &[u8],
    records: &[u8],
    order: &[u64],
) -> Option<u64>
    requires { ((head_right slip.now ≡ true) × ((broken stakes.now ≡ false) × (total.0 ≡ total_stake stakes.now))) × ((Places records.now (supplied_blocks records.now) order.now × Right records.now) × (length order.now ≤ 1024)) }
    ensures { Showed stakes.now slip.now records.now result }
{
    let locator = record_reference_bytes::read_locator(slip, 1);
    let reading = named_reading(slip);
    let mut votes = [0u8; types::MAX_BLOCKS];
    slip_read_paths::note_votes(records, order, locator, &mut votes);
    let mut lacking = [0u8; types::MAX_BLOCKS];
    slip_read_ancestry::note_lacking(records, order, reading, &mut lacking);
    let mut rejecting = [0u64; 2048];
    slip_read_rejecters::note_rejecters(records, order, locator, reading, &mut rejecting);
    slip_read_body::take_slip(
        stakes, total, slip, records, order, &votes, &lacking, &rejecting,
    )
}

// Reads a slip with its records under a committee, and gives back the number of its certifying blocks: 5; 61 for another first byte or none; 52 for a slip or records of another form; 53 where a record
// that it names, also by path, or one of the ancestry of a new slip's certifying blocks is missing; 52 where it does not hold.
pub fn read_slip(stakes: &[u64], slip: &[u8], records: &[u8]) -> Result<u64, Refusal>
    ensures { as_slip_answer result ≡ read_answer stakes.now slip.now records.now }
{
    let Ok(total) = committee::new_committee(stakes) else {
        return Err(Refusal::BrokenCommittee);
    };
    if !names_reading(slip) {
        return Err(Refusal::SlipReadingUnknown);
    }
    if slip.len() < 59 {
        return Err(Refusal::SlipNotHeld);
    }
    let mut order = [0u64; types::MAX_BLOCKS];
    let Some(count) = slip_read_records::sort_records(stakes, records, &mut order) else {
        return Err(Refusal::SlipNotHeld);
    };
    let Some(shown) = show_slip(stakes, total, slip, records, &order[..count]) else {
        return Err(Refusal::SlipNotHeld);
    };
    if shown == 2 {
        return Err(Refusal::SlipRecordMissing);
    }
    if shown == 1 {
        return Err(Refusal::SlipNotHeld);
    }
    Ok(base::read_u16(slip, 57) as u64)
}
