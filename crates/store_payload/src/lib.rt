// A stored share's payload, as the part of the store that holds it. Follows block_store.rs.
#![tactic(auto)]

ghost use Rattle.std.specs.Prelude.{◌≡◌, true, length};
ghost use Rattle.std.proofs.Math.ListN.{get_elem?};
ghost use Rattle.record_spec.specs.Record.{well_formed, block_in, statement_start};
ghost use Rattle.types.specs.Values.{as_locator};
ghost use Rattle.store_spec.specs.Entry.{laid_out};
ghost use Rattle.store_spec.specs.Payload.{share_stretch, payload_at, payload, payload_length};
ghost use Rattle.store_payload.specs.Answers.{shared_by, as_share, share_within, as_place, place_within, payload_place, as_payload_length};

use base::Refusal;
use record_statement::BaseStatement;
use types::TransactionLocator;

// Where a record has the payload of a statement that is a share: its start and its length; none of another statement.
pub fn share_place(statement: BaseStatement) -> Option<(usize, usize)>
    ensures { result ≡ shared_by statement }
{
    match statement {
        BaseStatement::Share(start, len) => Some((start, len)),
        BaseStatement::Accept(_) => None,
        BaseStatement::Reject(_) => None,
        BaseStatement::RejectFor(_, _) => None,
        BaseStatement::VoteRange(_) => None,
    }
}

// Where a well-formed record has the payload of the share of that offset: its start and its length; or there is no such share.
fn find_share(rec: &[u8], offset: u64) -> Option<(usize, usize)>
    requires { well_formed rec.now ≡ true }
    ensures result_value { as_share result ≡ share_stretch (statement_start rec.now offset) (get_elem? (block_in rec.now).statements offset) }
    ensures result_value_2 { share_within (length rec.now) result ≡ true }
{
    if record_reader::statement_count(rec) as u64 <= offset {
        return None;
    }
    let mut cursor = record_cursor::first_statement(rec);
    for i in 0..offset {
        let passed = record_cursor::next_statement(rec, cursor);
        cursor = passed.next;
    }
    let found = record_cursor::next_statement(rec, cursor);
    let statement = found.statement;
    share_place(statement)
}

// The payload that a locator names, in a store that is laid out as one: its start and its length; or there is no such share.
pub fn stored_payload(store: &[u8], locator: TransactionLocator) -> Option<(usize, usize)>
    requires { laid_out store.now ≡ true }
    ensures result_value { as_share result ≡ payload_at store.now (as_locator locator) }
    ensures result_value_2 { share_within (length store.now) result ≡ true }
{
    let at = store_lookup::lookup(store, locator.block);
    if at == 0 {
        return None;
    }
    let from = at + 8;
    let end = store_entries::record_end(store, at);
    let (start, len) = find_share(&store[from..end], locator.offset)?;
    Some((from + start, len))
}

// The payload that a locator names, its start and its length in the store (5, 10, 41).
pub fn find_payload(
    stakes: &[u64],
    store: &[u8],
    locator: TransactionLocator,
) -> Result<(usize, usize), Refusal>
    ensures result_value { as_place result ≡ payload_place stakes.now store.now (as_locator locator) }
    ensures result_value_2 { place_within (length store.now) result ≡ true }
{
    let Ok(_) = committee::new_committee(stakes) else {
        return Err(Refusal::BrokenCommittee);
    };
    if !store_order::in_order(stakes, store) {
        return Err(Refusal::StoreNotInOrder);
    }
    let Some((start, len)) = stored_payload(store, locator) else {
        return Err(Refusal::NoSuchShare);
    };
    Ok((start, len))
}

// A share's payload, as the part of the store that holds it; empty where there is none or the call is refused.
pub fn payload<'a>(stakes: &'a [u64], store: &'a [u8], locator: TransactionLocator) -> &'a [u8]
    ensures { result.now ≡ payload stakes.now store.now (as_locator locator) }
{
    let Ok((start, len)) = find_payload(stakes, store, locator) else {
        return &store[0..0];
    };
    let end = start + len;
    &store[start..end]
}

// Its length, or 5, 10, 41.
pub fn payload_length(
    stakes: &[u64],
    store: &[u8],
    locator: TransactionLocator,
) -> Result<u64, Refusal>
    ensures { as_payload_length result ≡ payload_length stakes.now store.now (as_locator locator) }
{
    let (_, len) = find_payload(stakes, store, locator)?;
    Ok(len as u64)
}
