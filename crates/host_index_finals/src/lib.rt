// What the host's calls about the lists with the index are made of: the index crosses as words, the rest as bytes.
#![tactic(auto)]

ghost use Rattle.std.specs.Prelude.{◌≡◌};
ghost use Rattle.base.specs.Refusals.{refusal_number};
ghost use Rattle.final_spec.specs.Finality.{blocks_of};
ghost use Rattle.final_readings_spec.specs.Readings.{old};
ghost use Rattle.list_readings_spec.specs.Answers.{is_ordinary};
ghost use Rattle.list_readings_spec.specs.Lists.{listing};
ghost use Rattle.host_calls.specs.Calls.{encoded};
ghost use Rattle.host_final_answers.specs.Answers.{after_of};
ghost use Rattle.host_index_finals.specs.Indexed.{refusal_indexed, asked_stretches_indexed};

use base::Refusal;
use list_readings_spec::FinalList;

// A refusal that applies in any case: 5, 10 and 54 come first.
fn refusal_indexed(refusal: Refusal, stakes: &[u64], store: &[u8], index: &[u64]) -> Refusal
    ensures { refusal_number result ≡ refusal_indexed (refusal_number refusal) stakes.now store.now index.now }
{
    if let Err(lent) = index_lent::indexed_refusal(stakes, store, index) {
        return lent;
    }
    refusal
}

pub fn stretches_of(
    stakes: &[u64],
    store: &[u8],
    list: FinalList,
    index: &[u64],
    after: &[u8],
    out: &mut [u8],
) -> u64
    ensures { (result ≡ encoded (asked_stretches_indexed stakes.now store.now index.now (listing (is_ordinary list) old stakes.now (blocks_of store.now)) (after_of after.now) out.old).answer) × (out.new ≡ (asked_stretches_indexed stakes.now store.now index.now (listing (is_ordinary list) old stakes.now (blocks_of store.now)) (after_of after.now) out.old).stretches) }
{
    let Ok(place) = host_final_answers::after_of(after) else {
        return host_calls::refused(refusal_indexed(Refusal::Malformed, stakes, store, index));
    };
    if !host_final_answers::holds_stretches(out) {
        return host_calls::refused(refusal_indexed(Refusal::AnswerSlice, stakes, store, index));
    }
    let answer = index_list::list_stretches_indexed(stakes, store, list, index, out, place);
    host_final_answers::stretches_number(answer)
}
