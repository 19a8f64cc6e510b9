// The form of a pending table (11), as far as it needs no store.
#![tactic(auto)]

ghost use Rattle.std.specs.Prelude.{◌≡◌, false, not, ◌&&◌, ◌<◌, ltb, length, drop};
ghost use Rattle.base.specs.Lists.{any_of, all_of, pairwise, same};
ghost use Rattle.committee.specs.Committee.{broken};
ghost use Rattle.committee_aggregator.specs.StakeAggregator.{aggregator_in_order};
ghost use Rattle.pending_spec.specs.Items.{item_before, item_full};
ghost use Rattle.pending_spec.specs.Table.{table_of, items_of, Laid, table_formed};
ghost use Rattle.pending_words.specs.Answers.{as_item};
ghost use Rattle.pending_words.specs.Step.{stands_at};

use pending_words::Item;

// Whether all words from an index on are zero.
fn zero_from(t: &[u64], from: usize) -> bool
    ensures { result ≡ not (any_of (ltb 0) (drop from t.now)) }
{
    for i in from..t.len() {
        if 0 < t[i] {
            return false;
        }
    }
    true
}

// Whether the table is laid out as a table: the items that it counts, and all words past them zero.
fn laid_out(t: &[u64]) -> bool
    ensures { result ≡ same t.now (table_of (length t.now) (items_of t.now)) }
{
    if t.len() == 0 {
        return false;
    }
    let n = t[0];
    let most = (t.len() - 1) / pending_words::ITEM_WORDS;
    if (most as u64) < n {
        return false;
    }
    zero_from(t, pending_words::ITEM_WORDS * (n as usize) + 1)
}

// Whether an item stands before another: of an earlier entry, or below it.
fn item_before(x: Item, y: Item) -> bool
    ensures { result ≡ item_before (as_item x) (as_item y) }
{
    if x.position < y.position {
        return true;
    }
    if y.position < x.position {
        return false;
    }
    x.end <= y.start
}

// Whether the item at an index is not empty, and stands after the one before it.
fn stands_at(t: &[u64], k: usize) -> bool
    requires { Laid t.now × (k < length (items_of t.now)) }
    ensures { result ≡ stands_at (items_of t.now) k }
{
    let x = pending_words::item_at(t, k);
    if x.end <= x.start {
        return false;
    }
    if k == 0 {
        return true;
    }
    item_before(pending_words::item_at(t, k - 1), x)
}

// Whether the items ascend, are disjoint and not empty.
fn ascending(t: &[u64]) -> bool
    requires { Laid t.now }
    ensures { result ≡ pairwise item_before (items_of t.now) && all_of item_full (items_of t.now) }
{
    let n = pending_words::item_count(t);
    for k in 0..n {
        if !stands_at(t, k) {
            return false;
        }
    }
    true
}

// Whether every item's votes are known and its stake is their sum.
fn votes_in_order(stakes: &[u64], t: &[u64]) -> bool
    requires { (broken stakes.now ≡ false) × Laid t.now }
    ensures { result ≡ all_of (λ x. aggregator_in_order stakes.now x.aggregator) (items_of t.now) }
{
    let n = pending_words::item_count(t);
    for k in 0..n {
        let x = pending_words::item_at(t, k);
        let votes = x.aggregator;
        if !votes.in_order(stakes) {
            return false;
        }
    }
    true
}

// The part of 11 that needs no store: layout, order, no empty item, votes known, stake their sum.
pub fn table_formed(stakes: &[u64], t: &[u64]) -> bool
    requires { broken stakes.now ≡ false }
    ensures { result ≡ table_formed stakes.now t.now }
{
    if !laid_out(t) {
        return false;
    }
    if !ascending(t) {
        return false;
    }
    votes_in_order(stakes, t)
}
