// The final list asked for, as many stretches at a time as there is room for.
#![tactic(auto)]

ghost use Rattle.std.specs.Prelude.{◌≡◌, ◌*◌, ◌≤◌, length};
ghost use Rattle.final_readings_spec.specs.Readings.{old};
ghost use Rattle.list_readings_spec.specs.Answers.{is_ordinary};
ghost use Rattle.list_readings_spec.specs.Lists.{listed_stretches};
ghost use Rattle.types.specs.Values.{as_maybe};
ghost use Rattle.list_stretch_bytes.specs.Answers.{as_stretches};
ghost use Rattle.listing_final_steps.specs.Steps.{given_in, given_by};

use base::Refusal;
use final_readings_spec::Reading;
use list_readings_spec::FinalList;
use list_stretch_bytes::Stretches;
use types::TransactionLocator;

// How many stretches stand in front, and whether more locators follow these.
#[derive(Clone, Copy)]
pub struct Asked {
    pub count: usize,
    pub more: bool,
}

fn told(answer: Result<Stretches, Refusal>) -> Asked
    ensures { given_in result ≡ given_by (as_stretches answer) }
{
    match answer {
        Ok(Stretches::Last(n)) => Asked {
            count: n as usize,
            more: false,
        },
        Ok(Stretches::More(n)) => Asked {
            count: n as usize,
            more: true,
        },
        // Never so of a store that was fed: nothing is listed.
        Err(_) => Asked {
            count: 0,
            more: false,
        },
    }
}

// Asks for the list after a locator, or from the start.
pub fn ask(
    stakes: &[u64],
    store: &[u8],
    stretches: &mut [u8],
    after: Option<TransactionLocator>,
    list: FinalList,
) -> Asked
    ensures result_value { given_in result ≡ given_by (listed_stretches (is_ordinary list) old stakes.now store.now stretches.old (as_maybe after)).answer }
    ensures stretches_after { stretches.new ≡ (listed_stretches (is_ordinary list) old stakes.now store.now stretches.old (as_maybe after)).out }
    ensures count_in_bounds { 80 * result.count ≤ length stretches.old }
{
    let answer = list_bulk::list_stretches(stakes, store, list, Reading::Old, stretches, after);
    told(answer)
}
