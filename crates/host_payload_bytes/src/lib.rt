// The questions about a share's payload, with the locator as bytes.
#![tactic(auto)]

ghost use Rattle.std.specs.Prelude.{◌≡◌};
ghost use Rattle.store_spec.specs.Payload.{payload_length};
ghost use Rattle.store_payload.specs.Answers.{as_payload_length, as_place, payload_place};
ghost use Rattle.host_locators.specs.Locators.{locator_of, asked};
ghost use Rattle.host_payload_bytes.specs.Payload.{ShareTold};

use base::Refusal;
use types::TransactionLocator;

// The share that is asked about: 20 for bytes that are no locator, after 5 and 10.
fn share_of(stakes: &[u64], store: &[u8], locator: &[u8]) -> Result<TransactionLocator, Refusal>
    ensures { ShareTold stakes.now store.now (locator_of locator.now) result }
{
    if locator.len() != types::LOCATOR_BYTES {
        return Err(host_locators::refusal_before(Refusal::Malformed, stakes, store));
    }
    Ok(record_reference_bytes::read_locator(locator, 0))
}

pub fn payload_length(stakes: &[u64], store: &[u8], locator: &[u8]) -> Result<u64, Refusal>
    ensures { as_payload_length result ≡ asked stakes.now store.now (payload_length stakes.now store.now) (locator_of locator.now) }
{
    let share = share_of(stakes, store, locator)?;
    store_payload::payload_length(stakes, store, share)
}

pub fn payload_place(
    stakes: &[u64],
    store: &[u8],
    locator: &[u8],
) -> Result<(usize, usize), Refusal>
    ensures { as_place result ≡ asked stakes.now store.now (payload_place stakes.now store.now) (locator_of locator.now) }
{
    let share = share_of(stakes, store, locator)?;
    store_payload::find_payload(stakes, store, share)
}
