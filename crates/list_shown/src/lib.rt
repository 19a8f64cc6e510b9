// The next locator that a list of final locators shows, by a sweep over the edges.
#![tactic(auto)]

ghost use Rattle.std.specs.Prelude.{◌≡◌, length};
ghost use Rattle.final_spec.specs.Finality.{blocks_of};
ghost use Rattle.types.specs.Values.{as_locator, as_maybe};
ghost use Rattle.list_include_sets.specs.Sets.{Included};
ghost use Rattle.list_walk.specs.Walk.{Ready};
ghost use Rattle.list_lanes.specs.Lanes.{lane_ranges};
ghost use Rattle.list_sweep.specs.Sweep.{Stands};
ghost use Rattle.list_marked.specs.Marked.{list_for};
ghost use Rattle.list_shown.specs.Shown.{Lent, NextFound};

use committee::Stake;
use final_certifying::Certifiers;
use list_lanes::Wanted;
use list_sweep::Sweep;
use types::TransactionLocator;

// The list that is asked for, under a total stake, and where the sweep stands.
#[derive(Clone, Copy)]
pub struct Course {
    pub total: Stake,
    pub wanted: Wanted,
    pub sweep: Sweep,
}

// A place where the list shows a locator, and its certifying blocks.
#[derive(Clone, Copy)]
pub struct FoundStretch {
    pub sweep: Sweep,
    pub found: Certifiers,
}

// Goes on from stop to stop to the first locator that the list shows, from where the sweep stands on. Where there is one, a word for each block says
// whether it certifies it.
pub fn next_shown(
    stakes: &[u64],
    store: &[u8],
    order: &[u64],
    sets: &[u64],
    course: Course,
    edges: &mut [u64],
    marks: &mut [u64],
    certified: &mut [u64],
) -> Option<FoundStretch>
    requires { Lent stakes.now course.total store.now order.now sets.now edges.old marks.old certified.old × Stands (lane_ranges course.wanted store.now order.now) store.now edges.old marks.old course.sweep }
    ensures { NextFound course.wanted stakes.now store.now order.now (as_locator course.sweep.here) edges.new marks.new certified.new result }
{
    let total = course.total;
    let wanted = course.wanted;
    let mut at = course.sweep;
    loop {
        let shown = list_marked::shown_marks(
            stakes, total, store, order, sets, wanted, marks, certified,
        );
        if let Some(found) = shown {
            return Some(FoundStretch { sweep: at, found });
        }
        at = list_sweep::advance(store, order, wanted, at, edges, marks)?;
    }
}

// The least locator of the list after a given one, or from the start; or there is none.
pub fn next_from(
    stakes: &[u64],
    total: Stake,
    store: &[u8],
    order: &[u64],
    sets: &[u64],
    wanted: Wanted,
    after: Option<TransactionLocator>,
) -> Option<TransactionLocator>
    requires { Ready stakes.now total.0 store.now order.now × Included store.now order.now sets.now (length order.now) }
    ensures { as_maybe result ≡ (list_for wanted stakes.now (blocks_of store.now)).next (as_maybe after) }
{
    let mut edges = [0u64; list_window::TABLE_WORDS];
    let mut marks = [0u64; list_lanes::LANES];
    let sweep = list_sweep_start::begin(store, order, wanted, after, &mut edges, &mut marks)?;
    let course = Course {
        total,
        wanted,
        sweep,
    };
    let mut certified = [0u64; types::MAX_BLOCKS];
    let found = next_shown(
        stakes,
        store,
        order,
        sets,
        course,
        &mut edges,
        &mut marks,
        &mut certified,
    )?;
    let at = found.sweep;
    Some(at.here)
}
