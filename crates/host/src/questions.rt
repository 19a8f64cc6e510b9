// Questions about one locator, one block or a list of locators, and the shares that a station may load.
ghost use Rattle.std.specs.Prelude.{◌≡◌};
ghost use Rattle.host_calls.specs.Calls.{encoded, committee_of};
ghost use Rattle.host_pending_bytes.specs.Pending.{pending_stake_call, pending_voters_call};
ghost use Rattle.host_payload_bytes.specs.Payload.{payload_length_call, payload_start_call};
ghost use Rattle.host_finality.specs.Finality.{finality_call};
ghost use Rattle.final_readings_spec.specs.Readings.{old, withdrawing};
ghost use Rattle.host_times.specs.Times.{creation_time_call};
ghost use Rattle.host_ring.specs.Ring.{whom_to_ring_call, fewest_owners_call};
ghost use Rattle.host_loadable.specs.Loading.{is_loadable_call, loadable_call};
ghost use Rattle.sorted_spec.specs.Sorted.{answer_sorted};

use final_readings_spec::Reading;

// The length of a share's payload.
#[unsafe(no_mangle)]
pub extern "C" fn lomkhvide_payload_length(stakes: &[u8], store: &[u8], locator: &[u8]) -> u64
    ensures { result ≡ encoded (payload_length_call stakes.now store.now locator.now) }
{
    host_payload::payload_length(stakes, store, locator)
}

// Where in the store it begins.
#[unsafe(no_mangle)]
pub extern "C" fn lomkhvide_payload_start(stakes: &[u8], store: &[u8], locator: &[u8]) -> u64
    ensures { result ≡ encoded (payload_start_call stakes.now store.now locator.now) }
{
    host_payload::payload_start(stakes, store, locator)
}

// Whether a locator is final: 2 · number of certifying blocks, and 1 more where it is; their positions are written to the front.
#[unsafe(no_mangle)]
pub extern "C" fn lomkhvide_finality(
    stakes: &[u8],
    store: &[u8],
    positions: &mut [u8],
    locator: &[u8],
) -> u64
    ensures value { result ≡ encoded (finality_call old stakes.now store.now positions.old locator.now).answer }
    ensures positions_after { positions.new ≡ (finality_call old stakes.now store.now positions.old locator.now).positions }
{
    host_finality::finality_call(stakes, store, positions, locator, Reading::Old)
}

// The same in the reading in which an owner may withdraw.
#[unsafe(no_mangle)]
pub extern "C" fn lomkhvide_finality_withdrawing(
    stakes: &[u8],
    store: &[u8],
    positions: &mut [u8],
    locator: &[u8],
) -> u64
    ensures value { result ≡ encoded (finality_call withdrawing stakes.now store.now positions.old locator.now).answer }
    ensures positions_after { positions.new ≡ (finality_call withdrawing stakes.now store.now positions.old locator.now).positions }
{
    host_finality::finality_call(stakes, store, positions, locator, Reading::Withdrawing)
}

// The stake of a pending locator.
#[unsafe(no_mangle)]
pub extern "C" fn lomkhvide_pending_stake(
    stakes: &[u8],
    store: &[u8],
    table: &[u8],
    locator: &[u8],
) -> u64
    ensures { result ≡ encoded (pending_stake_call stakes.now store.now table.now locator.now) }
{
    host_pending::pending_stake(stakes, store, table, locator)
}

// The number of its voters.
#[unsafe(no_mangle)]
pub extern "C" fn lomkhvide_pending_voters(
    stakes: &[u8],
    store: &[u8],
    table: &[u8],
    locator: &[u8],
) -> u64
    ensures { result ≡ encoded (pending_voters_call stakes.now store.now table.now locator.now) }
{
    host_pending::pending_voters(stakes, store, table, locator)
}

// The number of owners to ring so that a pending locator gets its quorum; `found` takes their set and their stake.
#[unsafe(no_mangle)]
pub extern "C" fn lomkhvide_whom_to_ring(
    stakes: &[u8],
    store: &[u8],
    table: &[u8],
    low: u64,
    high: u64,
    locator: &[u8],
    found: &mut [u8],
) -> u64
    ensures value { result ≡ encoded (whom_to_ring_call stakes.now store.now table.now low high locator.now found.old).answer }
    ensures found_after { found.new ≡ (whom_to_ring_call stakes.now store.now table.now low high locator.now found.old).found }
{
    host_ring::whom_to_ring(stakes, store, table, low, high, locator, found)
}

// The same for any set of voters, without a store or a table.
#[unsafe(no_mangle)]
pub extern "C" fn lomkhvide_fewest_owners(
    stakes: &[u8],
    voters_low: u64,
    voters_high: u64,
    reachable_low: u64,
    reachable_high: u64,
    found: &mut [u8],
) -> u64
    ensures value { result ≡ encoded (fewest_owners_call stakes.now voters_low voters_high reachable_low reachable_high found.old).answer }
    ensures found_after { found.new ≡ (fewest_owners_call stakes.now voters_low voters_high reachable_low reachable_high found.old).found }
{
    host_ring::fewest_owners(
        stakes,
        voters_low,
        voters_high,
        reachable_low,
        reachable_high,
        found,
    )
}

// The time of a stored block: 1 where it was written to `found`, 0 where there is none.
#[unsafe(no_mangle)]
pub extern "C" fn lomkhvide_creation_time(
    stakes: &[u8],
    store: &[u8],
    reference: &[u8],
    found: &mut [u8],
) -> u64
    ensures value { result ≡ encoded (creation_time_call stakes.now store.now reference.now found.old).answer }
    ensures found_after { found.new ≡ (creation_time_call stakes.now store.now reference.now found.old).found }
{
    host_times::creation_time(stakes, store, reference, found)
}

// Whether a locator names a loadable stored share: 1 or 0.
#[unsafe(no_mangle)]
pub extern "C" fn lomkhvide_is_loadable(stakes: &[u8], store: &[u8], locator: &[u8]) -> u64
    ensures { result ≡ encoded (is_loadable_call old stakes.now store.now locator.now) }
{
    host_loadable::is_loadable(stakes, store, locator)
}

// The same where owners may withdraw.
#[unsafe(no_mangle)]
pub extern "C" fn lomkhvide_is_loadable_withdrawing(
    stakes: &[u8],
    store: &[u8],
    locator: &[u8],
) -> u64
    ensures { result ≡ encoded (is_loadable_call withdrawing stakes.now store.now locator.now) }
{
    host_loadable::is_loadable_withdrawing(stakes, store, locator)
}

// All loadable stored shares in ascending order: their number; they stand at the front of the places, two words each.
#[unsafe(no_mangle)]
pub extern "C" fn lomkhvide_loadable(stakes: &[u8], store: &[u8], places: &mut [u64]) -> u64
    ensures value { result ≡ encoded (loadable_call old stakes.now store.now places.old).answer }
    ensures places_after { places.new ≡ (loadable_call old stakes.now store.now places.old).places }
{
    host_loadable::loadable(stakes, store, places)
}

// The same where owners may withdraw.
#[unsafe(no_mangle)]
pub extern "C" fn lomkhvide_loadable_withdrawing(
    stakes: &[u8],
    store: &[u8],
    places: &mut [u64],
) -> u64
    ensures value { result ≡ encoded (loadable_call withdrawing stakes.now store.now places.old).answer }
    ensures places_after { places.new ≡ (loadable_call withdrawing stakes.now store.now places.old).places }
{
    host_loadable::loadable_withdrawing(stakes, store, places)
}

// Answers an ascending list of locators with the index: the number of locators, and three words each in front of `replies`.
#[unsafe(no_mangle)]
pub extern "C" fn lomkhvide_answer_sorted(
    stakes: &[u8],
    store: &[u8],
    index: &[u64],
    locators: &[u8],
    replies: &mut [u64],
) -> u64
    ensures value { result ≡ encoded (answer_sorted (committee_of stakes.now) store.now index.now locators.now replies.old).answer }
    ensures replies_after { replies.new ≡ (answer_sorted (committee_of stakes.now) store.now index.now locators.now replies.old).out }
{
    host_sorted::answer_sorted_of(stakes, store, index, locators, replies)
}
