// A certifying block of a slip with its voters: its form, and what it shows.
#![tactic(auto)]

ghost use Rattle.std.specs.Prelude.{◌≤◌, ◌≡◌, false, length};
ghost use Rattle.std.proofs.Math.Option.{Option};
ghost use Rattle.committee.specs.Committee.{total_stake, broken, is_quorum};
ghost use Rattle.committee_set.specs.AuthoritySet.{stake_of};
ghost use Rattle.record_spec.specs.Block.{Block};
ghost use Rattle.slip_spec.specs.Paths.{to_block, on_from};
ghost use Rattle.slip_spec.specs.Supplied.{supplied_blocks};
ghost use Rattle.slip_read_records.specs.Places.{Places};
ghost use Rattle.slip_read_paths.specs.Walk.{InPlace, LedTo};
ghost use Rattle.slip_read_rejecters.specs.Rejecting.{InTable};
ghost use Rattle.slip_read_certifier.specs.Verdict.{own_verdict};
ghost use Rattle.slip_read_certifier.specs.Step.{Stands, Ready, TookCertifier};

use committee::Stake;
use committee_set::AuthoritySet;
use slip_read_paths::Led;

// Where reading stands in a slip, and the total stake under which it is read.
#[derive(Clone, Copy)]
pub struct SlipPlace {
    pub at: usize,
    pub total: Stake,
}

// Whether authors hold quorum, each once.
pub fn hold_quorum(stakes: &[u64], total: Stake, authors: AuthoritySet) -> bool
    requires { (broken stakes.now ≡ false) × (total.0 ≡ total_stake stakes.now) }
    ensures { result ≡ is_quorum stakes.now (stake_of stakes.now authors) }
{
    let stake = committee_set::stake_of(stakes, authors);
    committee::is_quorum(total, stake)
}

// What a certifying block shows by itself: that it is among the records, and not marked.
fn own_verdict(records: &[u8], order: &[u64], certifier: Led) -> u64
    requires { Places records.now (supplied_blocks records.now) order.now × InPlace order.now certifier }
    ensures { (o : Option Block) → LedTo records.now order.now certifier (on_from to_block o) → result ≡ own_verdict o }
{
    match certifier {
        Led::To(place) => {
            if slip_read_paths::epoch_changed_at(records, order, place) {
                return 1;
            }
            0
        }
        Led::Nowhere => 2,
        Led::NotGiven => 2,
    }
}

// What the ancestry of a certifying block shows: that it is whole, and that none of the listed voters rejects there.
fn standing_verdict(lacking: &[u8], rejecting: &[u64], certifier: Led, voters: AuthoritySet) -> u64
    requires { InPlace lacking.now certifier × InTable rejecting.now certifier }
    ensures { Stands lacking.now rejecting.now certifier voters result }
{
    match certifier {
        Led::To(place) => {
            if lacking[place] == 1 {
                return 2;
            }
            if slip_read_rejecters::meet(voters, slip_read_rejecters::set_at(rejecting, place)) {
                return 1;
            }
            0
        }
        Led::Nowhere => 0,
        Led::NotGiven => 0,
    }
}

// The certifying block at a position, with its voters: where it ends, and what it shows (0 that it holds, 1 that it does not, 2 that a record is
// missing). None where it is malformed.
pub fn take_certifier(
    stakes: &[u64],
    held: SlipPlace,
    slip: &[u8],
    records: &[u8],
    order: &[u64],
    votes: &[u8],
    lacking: &[u8],
    rejecting: &[u64],
) -> Option<(usize, u64)>
    requires { (held.at ≤ length slip.now) × Ready stakes.now held.total.0 records.now order.now votes.now lacking.now rejecting.now }
    ensures { TookCertifier stakes.now slip.now held.at records.now order.now votes.now lacking.now rejecting.now result }
{
    let at = held.at;
    if slip.len() - at < 49 {
        return None;
    }
    let certifier = slip_read_paths::find(
        records,
        order,
        record_reference_bytes::read_reference(slip, at),
    );
    let count = slip[at + types::REFERENCE_BYTES] as usize;
    let (end, voters, shown) = slip_read_voters::take_voters(
        slip,
        at + 49,
        count,
        records,
        order,
        votes,
        certifier,
    )?;
    let given = slip_read_verdicts::worse(own_verdict(records, order, certifier), shown);
    let standing = standing_verdict(lacking, rejecting, certifier, voters);
    let shows = slip_read_verdicts::worse(given, standing);
    if shows != 0 {
        return Some((end, shows));
    }
    if hold_quorum(stakes, held.total, voters) {
        return Some((end, 0));
    }
    Some((end, 1))
}
