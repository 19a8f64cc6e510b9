// What is checked of a record before it is stored and counted.
#![tactic(auto)]

ghost use Rattle.std.specs.Prelude.{◌≡◌, true, false};
ghost use Rattle.base.specs.Checks.{refusal};
ghost use Rattle.base.specs.Refusals.{refusal_in};
ghost use Rattle.committee.specs.Committee.{broken};
ghost use Rattle.record_spec.specs.Record.{well_formed, block_in};
ghost use Rattle.record_spec.specs.Verify.{body_checks};
ghost use Rattle.store_spec.specs.Layout.{read_record};
ghost use Rattle.store_spec.specs.Accept.{block_checks};
ghost use Rattle.store_spec.specs.Store.{records_of};
ghost use Rattle.store_spec.specs.Entry.{laid_out, sorted_positions};
ghost use Rattle.feed_spec.specs.Feed.{accept_checks};

use base::Refusal;

// 24 to 29 of a well-formed record.
pub fn body_refusal(stakes: &[u64], rec: &[u8]) -> Result<(), Refusal>
    requires { (well_formed rec.now ≡ true) × (broken stakes.now ≡ false) }
    ensures { refusal_in result ≡ refusal (body_checks stakes.now (block_in rec.now)) }
{
    let Ok(total) = committee::new_committee(stakes) else {
        // Never so: the committee is not broken.
        return Err(Refusal::BrokenCommittee);
    };
    record_clock::body_refusal(stakes, total, rec)
}

// 21 to 30: what is checked of a well-formed record before the store.
pub fn block_refusal(stakes: &[u64], store: &[u8], order: &[u64], rec: &[u8]) -> Result<(), Refusal>
    requires { (broken stakes.now ≡ false) × (laid_out store.now ≡ true) × (well_formed rec.now ≡ true) × (order.now ≡ sorted_positions (records_of store.now)) }
    ensures { refusal_in result ≡ refusal (block_checks stakes.now (records_of store.now) (block_in rec.now)) }
{
    record_clock::head_refusal(stakes, rec)?;
    if store_entries::find_ordered(store, order, record_reader::reference(rec)) != 0 {
        return Err(Refusal::StoredAlready);
    }
    body_refusal(stakes, rec)?;
    if store_lookup::first_missing(store, order, rec) < record_reader::include_count(rec) {
        return Err(Refusal::IncludeNotStored);
    }
    Ok(())
}

// 20 to 30, 15 and 13: what is checked of a record, for which there are so many words for events.
pub fn record_refusal(
    stakes: &[u64],
    store: &[u8],
    order: &[u64],
    rec: &[u8],
    words: usize,
) -> Result<(), Refusal>
    requires { (broken stakes.now ≡ false) × (laid_out store.now ≡ true) × (order.now ≡ sorted_positions (records_of store.now)) }
    ensures { refusal_in result ≡ refusal (accept_checks stakes.now store.now words (read_record rec.now)) }
{
    if !record_reader::well_formed(rec) {
        return Err(Refusal::Malformed);
    }
    block_refusal(stakes, store, order, rec)?;
    if (words as u64) < record_shared_ranges::event_words(rec) {
        return Err(Refusal::EventsTooShort);
    }
    if store_append::is_full(store, rec) {
        return Err(Refusal::StoreFull);
    }
    Ok(())
}
