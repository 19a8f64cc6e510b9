// A slice filled with the stretches of a list of final locators, by one sweep over the edges.
#![tactic(auto)]

ghost use Rattle.std.specs.Prelude.{◌≡◌, List, ℕ, length};
ghost use Rattle.base.specs.Checks.{answered};
ghost use Rattle.final_spec.specs.Finality.{blocks_of};
ghost use Rattle.types.specs.Values.{as_locator, as_maybe};
ghost use Rattle.list_stretches_spec.specs.Stretches.{stretches};
ghost use Rattle.list_stretches_spec.specs.Bulk.{given_after, stretch_room, bytes_after};
ghost use Rattle.list_stretch_bytes.specs.Answers.{as_stretches};
ghost use Rattle.list_include_sets.specs.Sets.{Included};
ghost use Rattle.list_walk.specs.Walk.{Ready};
ghost use Rattle.list_lanes.specs.Lanes.{lane_ranges};
ghost use Rattle.list_sweep.specs.Sweep.{Stands};
ghost use Rattle.list_marked.specs.Marked.{list_for};
ghost use Rattle.list_shown.specs.Shown.{Lent};
ghost use Rattle.list_stretches.specs.Listed.{FilledFrom};

use base::Refusal;
use committee::Stake;
use list_lanes::Wanted;
use list_shown::Course;
use list_stretch_bytes::Stretches;
use types::TransactionLocator;

// Writes stretches from where the sweep stands on until the slice is full or no locator of the list follows.
fn fill_from(
    stakes: &[u64],
    store: &[u8],
    order: &[u64],
    sets: &[u64],
    course: Course,
    edges: &mut [u64],
    marks: &mut [u64],
    out: &mut [u8],
) -> Result<Stretches, Refusal>
    requires { (((flags : List ℕ) → length flags ≡ 1024 → Lent stakes.now course.total store.now order.now sets.now edges.old marks.old flags)) × Stands (lane_ranges course.wanted store.now order.now) store.now edges.old marks.old course.sweep }
    ensures { FilledFrom course.wanted stakes.now store.now (as_locator course.sweep.here) out.old out.new result }
{
    let total = course.total;
    let wanted = course.wanted;
    let room = out.len() / list_stretch_bytes::STRETCH_BYTES;
    let mut certified = [0u64; types::MAX_BLOCKS];
    let mut sweep = course.sweep;
    let mut n: usize = 0;
    loop {
        let here = Course {
            total,
            wanted,
            sweep,
        };
        let next = list_shown::next_shown(
            stakes,
            store,
            order,
            sets,
            here,
            edges,
            marks,
            &mut certified,
        );
        let Some(f) = next else {
            return Ok(Stretches::Last(n as u64));
        };
        if n == room {
            return Ok(Stretches::More(n as u64)); // the slice is full
        }
        let found = f.found;
        let stake = committee_set::stake_of(stakes, found.authors);
        let at = f.sweep;
        let locator = at.here;
        let shown = Course {
            total,
            wanted,
            sweep: at,
        };
        sweep = list_stretch_end::run_on(
            stakes, store, order, sets, shown, edges, marks, &certified,
        );
        let end = sweep.here.offset;
        list_stretch_bytes::write_stretch(out, n, locator, end, found.blocks as u64, stake);
        n += 1;
    }
}

// Writes stretches after a given locator, or from the start, until the slice is full or no locator of the list follows.
pub fn fill(
    stakes: &[u64],
    total: Stake,
    store: &[u8],
    order: &[u64],
    sets: &[u64],
    wanted: Wanted,
    out: &mut [u8],
    after: Option<TransactionLocator>,
) -> Result<Stretches, Refusal>
    requires { Ready stakes.now total.0 store.now order.now × Included store.now order.now sets.now (length order.now) }
    ensures result_value { as_stretches result ≡ answered (given_after (list_for wanted stakes.now (blocks_of store.now)) (as_maybe after) (stretches stakes.now (blocks_of store.now) (list_for wanted stakes.now (blocks_of store.now)) (stretch_room out.old) (as_maybe after))) }
    ensures out_after { out.new ≡ bytes_after (stretches stakes.now (blocks_of store.now) (list_for wanted stakes.now (blocks_of store.now)) (stretch_room out.old) (as_maybe after)) out.old }
{
    let mut edges = [0u64; list_window::TABLE_WORDS];
    let mut marks = [0u64; list_lanes::LANES];
    let begun = list_sweep_start::begin(store, order, wanted, after, &mut edges, &mut marks);
    let Some(sweep) = begun else {
        return Ok(Stretches::Last(0));
    };
    let course = Course {
        total,
        wanted,
        sweep,
    };
    fill_from(
        stakes, store, order, sets, course, &mut edges, &mut marks, out,
    )
}
