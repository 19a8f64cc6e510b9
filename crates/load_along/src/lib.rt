// The ordinary list, of the final stored shares, gone along stretch by stretch with one sweep over the edges.
#![tactic(auto)]

ghost use Rattle.std.specs.Prelude.{◌≡◌, ℕ, get_or};
ghost use Rattle.final_readings_spec.specs.Readings.{Reading as ReadAs};
ghost use Rattle.final_readings_spec.specs.Answers.{as_reading};
ghost use Rattle.list_sweep.specs.Sweep.{Room};
ghost use Rattle.load_along.specs.Along.{tables, Held, Started, Stepped};

use committee::Stake;
use final_readings_spec::Reading;
use list_lanes::Wanted;
use list_readings_spec::FinalList;
use list_shown::Course;
use list_sweep::Sweep;
use types::{TransactionLocator, TransactionLocatorRange};

// Which list is gone along and how far: the committee's total stake, the ranges that the list wants, where the sweep stands, and the last locator that
// was passed.
#[derive(Clone, Copy)]
pub struct Along {
    pub total: Stake,
    pub wanted: Wanted,
    pub at: Option<Sweep>,
    pub after: Option<TransactionLocator>,
}

// The next stretch, or none is left.
#[derive(Clone, Copy)]
pub struct Step {
    pub ahead: Option<TransactionLocatorRange>,
    pub along: Along,
}

// Before the first stretch. All marks are 0.
pub fn at_start(
    total: Stake,
    store: &[u8],
    order: &[u64],
    reading: Reading,
    edges: &mut [u64],
    marks: &mut [u64],
) -> Along
    requires { Room store.now order.now edges.old marks.old × ((k : ℕ) → get_or marks.old k 0 ≡ 0) }
    ensures { Started (as_reading reading) total store.now order.now edges.old marks.old edges.new marks.new result }
{
    let wanted = Wanted {
        reading,
        list: FinalList::Ordinary,
    };
    let after = None;
    let at = list_sweep_start::begin(store, order, wanted, after, edges, marks);
    Along {
        total,
        wanted,
        at,
        after,
    }
}

// The next stretch of the list, or none is left, and how far it was gone along with it.
pub fn next_stretch(
    stakes: &[u64],
    store: &[u8],
    order: &[u64],
    sets: &[u64],
    along: Along,
    edges: &mut [u64],
    marks: &mut [u64],
) -> Step
    requires { (reading : ReadAs) × Held reading stakes.now store.now (tables order.now sets.now edges.old marks.old) along }
    ensures { Stepped stakes.now store.now (tables order.now sets.now edges.old marks.old) (tables order.now sets.now edges.new marks.new) along result }
{
    let total = along.total;
    let wanted = along.wanted;
    let at = along.at;
    let after = along.after;
    let Some(sweep) = at else {
        return Step { ahead: None, along };
    };
    let mut certified = [0u64; types::MAX_BLOCKS];
    let from = Course {
        total,
        wanted,
        sweep,
    };
    let next = list_shown::next_shown(
        stakes,
        store,
        order,
        sets,
        from,
        edges,
        marks,
        &mut certified,
    );
    let Some(f) = next else {
        return Step {
            ahead: None,
            along: Along {
                total,
                wanted,
                at: None,
                after,
            },
        };
    };
    let found = f.sweep;
    let shown = Course {
        total,
        wanted,
        sweep: found,
    };
    let end = list_stretch_end::run_on(stakes, store, order, sets, shown, edges, marks, &certified);
    let first = found.here;
    let block = first.block;
    let stop = end.here.offset;
    let last = TransactionLocator {
        block,
        offset: stop - 1,
    };
    Step {
        ahead: Some(TransactionLocatorRange {
            block,
            offset_start_inclusive: first.offset,
            offset_end_exclusive: stop,
        }),
        along: Along {
            total,
            wanted,
            at: Some(end),
            after: Some(last),
        },
    }
}
