// A vote over a range of the pending table: both cuts, then each item in the range gets the vote. Follows range_map.rs.
#![tactic(auto)]

ghost use Rattle.std.specs.Prelude.{◌≡◌, true, false, map, ◌+◌, ◌≤◌, ◌<◌, length};
ghost use Rattle.committee.specs.Committee.{broken, known};
ghost use Rattle.pending_spec.specs.Items.{both_cuts, item_within, vote_over};
ghost use Rattle.pending_spec.specs.Table.{table_of, items_of, HoldsItems, room, table_formed};
ghost use Rattle.pending_words.specs.Answers.{as_item};
ghost use Rattle.pending_words.specs.Step.{Countable, voted_in};

use committee::{AuthorityIndex, Stake};
use pending_words::Item;

// Whether an item lies in start..end of the entry at p.
pub fn item_within(x: Item, p: u64, start: u64, end: u64) -> bool
    ensures { result ≡ item_within p start end (as_item x) }
{
    if x.position != p {
        return false;
    }
    if x.start < start {
        return false;
    }
    x.end <= end
}

// An item, with the vote of an authority whose stake is given if it lies in start..end of the entry at p.
fn vote_item(x: Item, a: AuthorityIndex, stake: Stake, p: u64, start: u64, end: u64) -> Item
    requires { (a.0 < 128) × (x.aggregator.stake.0 + stake.0 < 18446744073709551616) }
    ensures { as_item result ≡ voted_in stake.0 a.0 p start end (as_item x) }
{
    if !item_within(x, p, start, end) {
        return x;
    }
    let votes = x.aggregator;
    Item {
        position: x.position,
        start: x.start,
        end: x.end,
        aggregator: votes.with_vote(a, stake),
    }
}

// Each item in start..end of the entry at p gets the vote of an authority whose stake is given.
fn vote_items(t: &mut [u64], a: AuthorityIndex, stake: Stake, p: u64, start: u64, end: u64)
    requires { HoldsItems t.old × (a.0 < 128) × Countable stake.0 (items_of t.old) }
    ensures { t.new ≡ table_of (length t.old) (map (voted_in stake.0 a.0 p start end) (items_of t.old)) }
{
    let n = pending_words::item_count(t);
    for k in 0..n {
        let x = pending_words::read_item(t, k);
        pending_words::put_item(t, k, vote_item(x, a, stake, p, start, end));
    }
}

// A vote over start..end of the entry at p: both cuts, then each item in the range gets the vote. An empty range does nothing.
pub fn vote_over(stakes: &[u64], t: &mut [u64], a: AuthorityIndex, p: u64, start: u64, end: u64)
    requires broken { broken stakes.now ≡ false }
    requires known { known stakes.now a.0 ≡ true }
    requires formed { table_formed stakes.now t.old ≡ true }
    requires room { length (both_cuts p start end (items_of t.old)) ≤ room t.old }
    ensures { t.new ≡ table_of (length t.old) (vote_over stakes.now a.0 p start end (items_of t.old)) }
{
    if end <= start {
        return;
    }
    let Some(stake) = committee::get_stake(stakes, a) else {
        return;
    };
    pending_cuts::cut_at(t, p, start);
    pending_cuts::cut_at(t, p, end);
    vote_items(t, a, stake, p, start, end);
}
