// The pending question, with table and locator as bytes.
#![tactic(auto)]

ghost use Rattle.std.specs.Prelude.{◌≡◌, true, [], ◌∷◌, ◌++◌};
ghost use Rattle.base.specs.Checks.{◌⇒◌, refusal};
ghost use Rattle.base.specs.Refusals.{refusal_number};
ghost use Rattle.pending_question.specs.Answers.{as_pending};
ghost use Rattle.feed_spec.specs.Pending.{pending_checks};
ghost use Rattle.host_pending_bytes.specs.Pending.{pending_in, asked_pending};
ghost use Rattle.host_locators.specs.Locators.{locator_of};
ghost use Rattle.host_pending_bytes.specs.Claims.{Claims};

use base::Refusal;
use committee::Stake;

// 20 for bytes that are no locator, after 5, 10, 11.
fn no_locator(stakes: &[u64], store: &[u8], table: &[u64]) -> Refusal
    ensures { refusal_number result ≡ refusal (pending_checks stakes.now store.now table.now ++ ((true ⇒ 20) ∷ [])) }
{
    if let Err(refusal) = pending_question::lent_refusal(stakes, store, table) {
        return refusal;
    }
    Refusal::Malformed
}

fn pending_in(
    stakes: &[u64],
    store: &[u8],
    table: &[u64],
    locator: &[u8],
) -> Result<(Stake, u64), Refusal>
    ensures { as_pending result ≡ pending_in stakes.now store.now table.now (locator_of locator.now) }
{
    if locator.len() != types::LOCATOR_BYTES {
        return Err(no_locator(stakes, store, table));
    }
    pending_question::pending(
        stakes,
        store,
        table,
        record_reference_bytes::read_locator(locator, 0),
    )
}

pub fn pending_of(
    stakes: &[u64],
    store: &[u8],
    table: &[u8],
    locator: &[u8],
) -> Result<(Stake, u64), Refusal>
    ensures { as_pending result ≡ asked_pending stakes.now store.now table.now (locator_of locator.now) }
{
    if table.len() != host_calls::TABLE_BYTES {
        return Err(host_locators::refusal_before(Refusal::TableNotInOrder, stakes, store));
    }
    let mut words = [0u64; host_calls::TABLE_WORDS];
    words::words_of(table, &mut words);
    pending_in(stakes, store, &words, locator)
}

// A pending stake is taken for no refusal.
pub fn claims()
    ensures { Claims }
{}
