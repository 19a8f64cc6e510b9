// Items leave the pending table, and are registered in it. Follows range_map.rs.
#![tactic(auto)]

ghost use Rattle.std.specs.Prelude.{◌≡◌, true, false, [], ◌∷◌, ◌++◌, ◌≤◌, ◌<◌, length};
ghost use Rattle.base.specs.Lists.{pick, keep};
ghost use Rattle.committee.specs.Committee.{broken, known};
ghost use Rattle.pending_spec.specs.Items.{first_vote, stays};
ghost use Rattle.pending_spec.specs.Table.{table_of, items_of, HoldsItems, room};
ghost use Rattle.pending_words.specs.Answers.{as_item};

use committee::{AuthorityIndex, Stake};
use committee_aggregator::StakeAggregator;
use pending_words::Item;

// 1 for an item that stays, 0 for one that leaves.
fn staying(x: Item, total: Stake, p: u64, start: u64, end: u64) -> usize
    ensures { (result ≡ pick (stays total.0 p start end (as_item x)) 1 0) × (result ≤ 1) }
{
    if !pending_votes::item_within(x, p, start, end) {
        return 1;
    }
    let votes = x.aggregator;
    if committee::is_quorum(total, votes.stake) {
        return 0;
    }
    1
}

// Takes the items out that lie in start..end of the entry at p and hold quorum of the total stake. Items that stay close up.
pub fn leave(total: Stake, t: &mut [u64], p: u64, start: u64, end: u64)
    requires { HoldsItems t.old }
    ensures { t.new ≡ table_of (length t.old) (keep (stays total.0 p start end) (items_of t.old)) }
{
    let n = pending_words::item_count(t);
    let mut kept = 0;
    for k in 0..n {
        let x = pending_words::read_item(t, k);
        pending_words::put_item(t, kept, x);
        kept += staying(x, total, p, start, end);
    }
    pending_words::clear(t, kept, n);
    t[0] = kept as u64;
}

// Puts an item over start..end of the entry at p, with the vote of its author, after all others.
pub fn register(stakes: &[u64], t: &mut [u64], a: AuthorityIndex, p: u64, start: u64, end: u64)
    requires broken { broken stakes.now ≡ false }
    requires known { known stakes.now a.0 ≡ true }
    requires holds { HoldsItems t.old }
    requires room { length (items_of t.old) < room t.old }
    ensures { t.new ≡ table_of (length t.old) (items_of t.old ++ first_vote stakes.now a.0 p start end ∷ []) }
{
    let Some(stake) = committee::get_stake(stakes, a) else {
        return;
    };
    let n = pending_words::item_count(t);
    let x = Item {
        position: p,
        start,
        end,
        aggregator: StakeAggregator::new().with_vote(a, stake),
    };
    pending_words::put_item(t, n, x);
    t[0] = n as u64 + 1;
}
