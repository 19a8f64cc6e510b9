// What a payload needs: the change that its first bytes name.
#![tactic(auto)]

ghost use Rattle.std.specs.Prelude.{◌≡◌};
ghost use Rattle.load_spec.specs.Needs.{needed_by};
ghost use Rattle.load_needed.specs.Answers.{as_needed};

use types::TransactionLocator;

// What a payload needs: the locator after a first byte of 1; nothing by fewer than 57 bytes or another first byte.
pub fn needed_by(bytes: &[u8]) -> Option<TransactionLocator>
    ensures { as_needed result ≡ needed_by bytes.now }
{
    if bytes.len() < 57 {
        return None;
    }
    if bytes[0] != 1 {
        return None;
    }
    Some(record_reference_bytes::read_locator(bytes, 1))
}
