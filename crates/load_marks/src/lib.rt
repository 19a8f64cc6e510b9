// Marked shares held against the ordinary list: the marks of final ones are taken away.
#![tactic(auto)]

ghost use Rattle.std.specs.Prelude.{true, ◌≤◌, length};
ghost use Rattle.final_spec.specs.Finality.{blocks_of};
ghost use Rattle.final_readings_spec.specs.Answers.{as_reading};
ghost use Rattle.list_readings_spec.specs.Lists.{all_listed};
ghost use Rattle.list_walk.specs.Walk.{Ready};
ghost use Rattle.load_mark_words.specs.Marks.{Cleared};

use committee::Stake;
use final_readings_spec::Reading;

// Takes away the marks of final shares, going along the ordinary list.
pub fn clear_finals(
    stakes: &[u64],
    total: Stake,
    store: &[u8],
    order: &[u64],
    reading: Reading,
    marks: &mut [u64],
)
    requires { Ready stakes.now total.0 store.now order.now × (length order.now ≤ length marks.old) }
    ensures { Cleared store.now order.now (all_listed true (as_reading reading) stakes.now (blocks_of store.now)) marks.old marks.new }
{
    let mut sets = [0u64; list_include_sets::WORDS];
    list_include_sets::note_includes(store, order, &mut sets);
    let mut edges = [0u64; list_window::TABLE_WORDS];
    let mut lanes = [0u64; list_lanes::LANES];
    let mut along = load_along::at_start(total, store, order, reading, &mut edges, &mut lanes);
    loop {
        let step = load_along::next_stretch(
            stakes, store, order, &sets, along, &mut edges, &mut lanes,
        );
        let ahead = step.ahead;
        let Some(range) = ahead else {
            return;
        };
        load_mark_words::clear_mark(store, order, marks, range);
        along = step.along;
    }
}
