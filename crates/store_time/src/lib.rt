// The time of a stored block's creation, by its reference (`meta_creation_time_ns` of types.rs).
#![tactic(auto)]

ghost use Rattle.std.specs.Prelude.{◌≡◌};
ghost use Rattle.types.specs.Values.{as_reference};
ghost use Rattle.store_time.specs.Times.{ask_time};
ghost use Rattle.store_time.specs.Answers.{as_time_answer};
ghost use Rattle.store_time.specs.Claims.{Claims};

use base::Refusal;
use types::BlockReference;

// The time of the block of that reference, in nanoseconds; none where its record has none, or no such block is stored (5, 10).
pub fn creation_time(
    stakes: &[u64],
    store: &[u8],
    reference: BlockReference,
) -> Result<Option<u64>, Refusal>
    ensures { as_time_answer result ≡ ask_time stakes.now store.now (as_reference reference) }
{
    let Ok(_) = committee::new_committee(stakes) else {
        return Err(Refusal::BrokenCommittee);
    };
    if !store_order::in_order(stakes, store) {
        return Err(Refusal::StoreNotInOrder);
    }
    let at = store_lookup::lookup(store, reference);
    if at == 0 {
        return Ok(None);
    }
    let from = at + 8;
    let end = store_entries::record_end(store, at);
    Ok(record_reader::creation_time(&store[from..end]))
}

// A stored block's time is the one in its record, and no other reference has one.
pub fn claims()
    ensures { Claims }
{}
