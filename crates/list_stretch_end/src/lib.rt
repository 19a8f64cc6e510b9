// Where the stretch of a locator ends, by a sweep over the edges.
#![tactic(auto)]

ghost use Rattle.types.specs.Values.{as_locator};
ghost use Rattle.list_lanes.specs.Lanes.{lane_ranges};
ghost use Rattle.list_sweep.specs.Sweep.{Stands};
ghost use Rattle.list_shown.specs.Shown.{Lent, AllAlike};
ghost use Rattle.list_stretch_end.specs.End.{RunOn};

use list_shown::Course;
use list_sweep::Sweep;

// From a locator that the list shows, with its certifying blocks in words, to the end of its stretch: from stop to stop while the list shows the locator
// there and the same blocks certify it.
pub fn run_on(
    stakes: &[u64],
    store: &[u8],
    order: &[u64],
    sets: &[u64],
    course: Course,
    edges: &mut [u64],
    marks: &mut [u64],
    certified: &[u64],
) -> Sweep
    requires { Lent stakes.now course.total store.now order.now sets.now edges.old marks.old certified.now × (Stands (lane_ranges course.wanted store.now order.now) store.now edges.old marks.old course.sweep × AllAlike course.wanted stakes.now store.now order.now marks.old certified.now) }
    ensures { RunOn course.wanted stakes.now store.now order.now (as_locator course.sweep.here) edges.new marks.new result }
{
    let total = course.total;
    let wanted = course.wanted;
    let mut other = [0u64; types::MAX_BLOCKS];
    let mut at = course.sweep;
    loop {
        let next = list_sweep::advance(store, order, wanted, at, edges, marks);
        let Some(stop) = next else {
            return at; // never: what is shown ends somewhere
        };
        let shown = list_marked::shown_marks(
            stakes, total, store, order, sets, wanted, marks, &mut other,
        );
        let Some(_) = shown else {
            return stop;
        };
        if !list_walk::same_words(certified, &other, order.len()) {
            return stop;
        }
        at = stop;
    }
}
