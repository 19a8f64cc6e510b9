// A sorted list of locators answered for a host: stakes as bytes, index and replies as words.
#![tactic(auto)]

ghost use Rattle.std.specs.Prelude.{◌≡◌};
ghost use Rattle.sorted_spec.specs.Sorted.{answer_sorted};
ghost use Rattle.host_calls.specs.Calls.{encoded, committee_of};

// The number of locators; their replies stand in front of `replies`.
pub fn answer_sorted_of(
    stakes: &[u8],
    store: &[u8],
    index: &[u64],
    locators: &[u8],
    replies: &mut [u64],
) -> u64
    ensures value { result ≡ encoded (answer_sorted (committee_of stakes.now) store.now index.now locators.now replies.old).answer }
    ensures replies_after { replies.new ≡ (answer_sorted (committee_of stakes.now) store.now index.now locators.now replies.old).out }
{
    let mut held = [0u64; committee::MAX_MEMBERS];
    let n = host_calls::stakes_of(stakes, &mut held);
    match sorted_question::answer_sorted(&held[..n], store, index, locators, replies) {
        Ok(count) => count,
        Err(refusal) => host_calls::refused(refusal),
    }
}
