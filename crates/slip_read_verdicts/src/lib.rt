// What a voter's path shows: 0 that it holds, 1 that it does not, 2 that a record is missing.
#![tactic(auto)]

ghost use Rattle.std.specs.Prelude.{◌≤◌, ◌<◌, ◌≡◌, length};
ghost use Rattle.std.proofs.Math.Option.{Option, some};
ghost use Rattle.record_spec.specs.Reference.{TransactionLocator as Locator};
ghost use Rattle.record_spec.specs.Block.{Block};
ghost use Rattle.slip_spec.specs.Supplied.{supplied_blocks};
ghost use Rattle.slip_spec.specs.Paths.{to_block, on_from};
ghost use Rattle.slip_spec.specs.Reading.{votes_as};
ghost use Rattle.slip_read_records.specs.Places.{block_at_place, Sorted, Places};
ghost use Rattle.slip_read_verdicts.specs.Verdict.{worse, voter_verdict};
ghost use Rattle.slip_read_paths.specs.Walk.{Noted, InPlace, LedTo};

use slip_read_paths::Led;

// The worse of two.
pub fn worse(a: u64, b: u64) -> u64
    ensures { result ≡ worse a b }
{
    if a < b {
        return b;
    }
    a
}

// Whether the block at a place is its author's and votes.
fn is_vote(records: &[u8], order: &[u64], votes: &[u8], place: usize, author: u64) -> bool
    requires { Sorted records.now order.now × ((place < length order.now) × (length order.now ≤ length votes.now)) }
    ensures { (l : Locator) → Noted records.now order.now l (length order.now) votes.now → result ≡ votes_as l author (block_at_place records.now order.now place) }
{
    let reference = slip_read_records::reference_at(records, order[place] as usize);
    if reference.authority.0 != author {
        return false;
    }
    votes[place] == 1
}

// What a voter's path shows from the block at a place.
fn path_verdict(
    records: &[u8],
    order: &[u64],
    votes: &[u8],
    start: usize,
    author: u64,
    path: &[u8],
) -> u64
    requires { Places records.now (supplied_blocks records.now) order.now × ((start < length order.now) × (length order.now ≤ length votes.now)) }
    ensures { (l : Locator) → Noted records.now order.now l (length order.now) votes.now → result ≡ voter_verdict (supplied_blocks records.now) l author path.now (some (block_at_place records.now order.now start)) }
{
    let end = slip_read_paths::walk(records, order, start, path);
    match end {
        Led::To(place) => {
            if is_vote(records, order, votes, place, author) {
                return 0;
            }
            1
        }
        Led::Nowhere => 1,
        Led::NotGiven => 2,
    }
}

// The same from the certifier on; 2 where that is not among the records.
pub fn voter_verdict(
    records: &[u8],
    order: &[u64],
    votes: &[u8],
    certifier: Led,
    author: u64,
    path: &[u8],
) -> u64
    requires { Places records.now (supplied_blocks records.now) order.now × (InPlace order.now certifier × (length order.now ≤ length votes.now)) }
    ensures { (l : Locator) → Noted records.now order.now l (length order.now) votes.now → (o : Option Block) → LedTo records.now order.now certifier (on_from to_block o) → result ≡ voter_verdict (supplied_blocks records.now) l author path.now o }
{
    match certifier {
        Led::To(start) => path_verdict(records, order, votes, start, author, path),
        Led::Nowhere => 2,
        Led::NotGiven => 2,
    }
}
