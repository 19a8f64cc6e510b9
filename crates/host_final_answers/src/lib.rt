// How the questions about the lists cross: where they go on, the room that they are lent, and their answers as one word.
#![tactic(auto)]

ghost use Rattle.std.specs.Prelude.{◌≡◌, eqb, length};
ghost use Rattle.list_next.specs.Answers.{as_next_final};
ghost use Rattle.list_stretch_bytes.specs.Answers.{as_stretches};
ghost use Rattle.host_calls.specs.Calls.{encoded};
ghost use Rattle.host_final_answers.specs.Answers.{after_of, as_after, found_in, whole_stretches, stretches_number, counts_fit};

use base::Refusal;
use list_stretch_bytes::Stretches;
use types::TransactionLocator;

// Where a question goes on: after a locator, or from the start (`None`). Bytes that are neither are malformed.
pub fn after_of(bytes: &[u8]) -> Result<Option<TransactionLocator>, Refusal>
    ensures { as_after result ≡ after_of bytes.now }
{
    if bytes.len() == 0 {
        return Ok(None);
    }
    if bytes.len() != types::LOCATOR_BYTES {
        return Err(Refusal::Malformed);
    }
    Ok(Some(record_reference_bytes::read_locator(bytes, 0)))
}

// Whether the bytes are room for a locator.
pub fn holds_locator(bytes: &[u8]) -> bool
    ensures { result ≡ eqb (length bytes.now) 56 }
{
    bytes.len() == types::LOCATOR_BYTES
}

// Whether they are room for stretches: at least one, and nothing over.
pub fn holds_stretches(bytes: &[u8]) -> bool
    ensures { result ≡ whole_stretches bytes.now }
{
    if bytes.len() < list_stretch_bytes::STRETCH_BYTES {
        return false;
    }
    bytes.len() % list_stretch_bytes::STRETCH_BYTES == 0
}

// The next locator, in the room lent for it, and the answer's word.
pub fn found_in(found: &mut [u8], answer: Result<Option<TransactionLocator>, Refusal>) -> u64
    requires { length found.old ≡ 56 }
    ensures { (result ≡ encoded (found_in found.old (as_next_final answer)).answer) × (found.new ≡ (found_in found.old (as_next_final answer)).found) }
{
    match answer {
        Ok(Some(locator)) => {
            record_reference_bytes::write_locator(found, 0, locator);
            1
        }
        Ok(None) => 0,
        Err(refusal) => host_calls::refused(refusal),
    }
}

// The word of an answer in bulk.
pub fn stretches_number(answer: Result<Stretches, Refusal>) -> u64
    requires { counts_fit answer }
    ensures { result ≡ encoded (stretches_number (as_stretches answer)) }
{
    match answer {
        Ok(Stretches::Last(count)) => 2 * count,
        Ok(Stretches::More(count)) => 2 * count + 1,
        Err(refusal) => host_calls::refused(refusal),
    }
}
