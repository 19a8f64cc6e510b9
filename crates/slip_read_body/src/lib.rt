// The certifying blocks of a slip one after the other, and what the slip shows.
#![tactic(auto)]

ghost use Rattle.std.specs.Prelude.{◌+◌, ◌≤◌, ◌≡◌, true, ◌||◌, eqb, length};
ghost use Rattle.record_spec.specs.Reference.{reference_before};
ghost use Rattle.record_reference_bytes.specs.Step.{reference_at};
ghost use Rattle.slip_read_certifier.specs.Step.{Ready};
ghost use Rattle.slip_read_body.specs.Step.{head_right, TookCertifiers, TookSlip};

use committee::Stake;
use committee_set::AuthoritySet;
use slip_read_certifier::SlipPlace;
use std::cmp::Ordering;

// Whether the reference at a position is the first, or above the one at the last.
fn follows(slip: &[u8], i: usize, last: usize, at: usize) -> bool
    requires { (last + 48 ≤ length slip.now) × (at + 48 ≤ length slip.now) }
    ensures { result ≡ eqb i 0 || reference_before (reference_at slip.now last) (reference_at slip.now at) }
{
    if i == 0 {
        return true;
    }
    let order = types::compare(
        record_reference_bytes::read_reference(slip, last),
        record_reference_bytes::read_reference(slip, at),
    );
    match order {
        Ordering::Less => true,
        Ordering::Equal => false,
        Ordering::Greater => false,
    }
}

// The certifying blocks after the head, as many as it says: where they end, their authors, and what they show. Their references strictly ascend;
// none where they do not, or one is malformed.
fn take_certifiers(
    stakes: &[u64],
    total: Stake,
    slip: &[u8],
    records: &[u8],
    order: &[u64],
    votes: &[u8],
    lacking: &[u8],
    rejecting: &[u64],
) -> Option<(usize, AuthoritySet, u64)>
    requires { (head_right slip.now ≡ true) × Ready stakes.now total.0 records.now order.now votes.now lacking.now rejecting.now }
    ensures { TookCertifiers stakes.now slip.now records.now order.now votes.now lacking.now rejecting.now result }
{
    let count = base::read_u16(slip, 57) as usize;
    let mut at: usize = 59;
    let mut authors = AuthoritySet::new();
    let mut shown: u64 = 0;
    let mut last: usize = 0;
    for i in 0..count {
        let held = SlipPlace { at, total };
        let (end, own) = slip_read_certifier::take_certifier(
            stakes, held, slip, records, order, votes, lacking, rejecting,
        )?;
        if !follows(slip, i, last, at) {
            return None;
        }
        let author = base::read_u64(slip, at);
        authors = slip_read_voters::with_author(authors, author);
        shown = slip_read_verdicts::worse(shown, own);
        last = at;
        at = end;
    }
    Some((at, authors, shown))
}

// What a slip shows, with nothing after its certifying blocks.
pub fn take_slip(
    stakes: &[u64],
    total: Stake,
    slip: &[u8],
    records: &[u8],
    order: &[u64],
    votes: &[u8],
    lacking: &[u8],
    rejecting: &[u64],
) -> Option<u64>
    requires { (head_right slip.now ≡ true) × Ready stakes.now total.0 records.now order.now votes.now lacking.now rejecting.now }
    ensures { TookSlip stakes.now slip.now records.now order.now votes.now lacking.now rejecting.now result }
{
    let (end, authors, shown) = take_certifiers(
        stakes, total, slip, records, order, votes, lacking, rejecting,
    )?;
    if end != slip.len() {
        return None;
    }
    if shown != 0 {
        return Some(shown);
    }
    if slip_read_certifier::hold_quorum(stakes, total, authors) {
        return Some(0);
    }
    Some(1)
}
