// Cuts in the pending table: an item that an offset falls inside of becomes two. Follows range_map.rs.
#![tactic(auto)]

ghost use Rattle.std.specs.Prelude.{◌≡◌, ◌+◌, ◌*◌, ◌≤◌, ◌<◌, length};
ghost use Rattle.pending_spec.specs.Items.{front_of, back_of, cut_at, both_cuts};
ghost use Rattle.pending_spec.specs.Table.{table_of, items_of, HoldsItems};
ghost use Rattle.pending_words.specs.Answers.{as_item};
ghost use Rattle.pending_words.specs.Step.{in_two};

use pending_words::Item;

// The part of an item before o.
fn front_of(x: Item, o: u64) -> Item
    ensures { as_item result ≡ front_of (as_item x) o }
{
    let votes = x.aggregator;
    Item {
        position: x.position,
        start: x.start,
        end: o,
        aggregator: votes,
    }
}

// The part of an item from o on.
fn back_of(x: Item, o: u64) -> Item
    ensures { as_item result ≡ back_of (as_item x) o }
{
    let votes = x.aggregator;
    Item {
        position: x.position,
        start: o,
        end: x.end,
        aggregator: votes,
    }
}

// Puts the item at an index in two parts, at o.
fn split_item(t: &mut [u64], i: usize, o: u64)
    requires { HoldsItems t.old × (i < length (items_of t.old)) × (6 * length (items_of t.old) + 6 < length t.old) }
    ensures { t.new ≡ table_of (length t.old) (in_two (items_of t.old) i o) }
{
    let n = pending_words::item_count(t);
    let x = pending_words::item_at(t, i);
    pending_words::move_up(t, i, n);
    pending_words::put_item(t, i, front_of(x, o));
    pending_words::put_item(t, i + 1, back_of(x, o));
    t[0] = n as u64 + 1;
}

// Cuts the item that the offset o of the entry at p falls inside of, if there is one.
pub fn cut_at(t: &mut [u64], p: u64, o: u64)
    requires { HoldsItems t.old × (6 * length (cut_at p o (items_of t.old)) < length t.old) }
    ensures { t.new ≡ table_of (length t.old) (cut_at p o (items_of t.old)) }
{
    let Some(i) = pending_search::inside(t, p, o) else {
        return;
    };
    split_item(t, i, o);
}

// How many items a cut at the offset o of the entry at p adds.
fn cuts_at(t: &[u64], p: u64, o: u64) -> usize
    requires { HoldsItems t.now }
    ensures { (length (cut_at p o (items_of t.now)) ≡ length (items_of t.now) + result) × (result ≤ 1) }
{
    let Some(_) = pending_search::inside(t, p, o) else {
        return 0;
    };
    1
}

// How many items there are after both cuts of a vote over start..end of the entry at p.
pub fn count_after_cuts(t: &[u64], p: u64, start: u64, end: u64) -> usize
    requires { HoldsItems t.now }
    ensures { result ≡ length (both_cuts p start end (items_of t.now)) }
{
    let n = pending_words::item_count(t);
    if start < end {
        let first = cuts_at(t, p, start);
        let second = cuts_at(t, p, end);
        return n + first + second;
    }
    n
}
