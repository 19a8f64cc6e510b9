// What the host's questions share: a locator that crosses as bytes, and the refusals that come before one about sizes.
#![tactic(auto)]

ghost use Rattle.std.specs.Prelude.{◌≡◌};
ghost use Rattle.base.specs.Refusals.{refusal_number};
ghost use Rattle.host_locators.specs.Locators.{refusal_before};

use base::Refusal;

// A refusal that applies in any case: 5 and 10 come first.
pub fn refusal_before(refusal: Refusal, stakes: &[u64], store: &[u8]) -> Refusal
    ensures { refusal_number result ≡ refusal_before (refusal_number refusal) stakes.now store.now }
{
    let Ok(_) = committee::new_committee(stakes) else {
        return Refusal::BrokenCommittee;
    };
    if !store_order::in_order(stakes, store) {
        return Refusal::StoreNotInOrder;
    }
    refusal
}
