// The words of a pending table, item by item.
#![tactic(auto)]

ghost use Rattle.std.specs.Prelude.{◌≡◌, ◌+◌, ◌*◌, ◌≤◌, ◌<◌, length, get_or};
ghost use Rattle.std.proofs.lemmas.List.Edits.{sets};
ghost use Rattle.pending_spec.specs.Items.{no_item};
ghost use Rattle.pending_spec.specs.Table.{item_words, room, items_of, Laid};
ghost use Rattle.pending_words.specs.Answers.{as_item};
ghost use Rattle.pending_words.specs.Step.{slot, MovedUp, Cleared};

use committee::Stake;
use committee_aggregator::StakeAggregator;
use committee_set::AuthoritySet;

// The words of an item; a table has one word before its items.
pub const ITEM_WORDS: usize = 6;

// A range of offsets of the entry at a position, with its votes.
#[derive(Clone, Copy)]
pub struct Item {
    pub position: u64,
    pub start: u64,
    pub end: u64,
    pub aggregator: StakeAggregator,
}

// Six zero words.
fn no_item() -> Item
    ensures { as_item result ≡ no_item }
{
    Item {
        position: 0,
        start: 0,
        end: 0,
        aggregator: StakeAggregator {
            votes: AuthoritySet { low: 0, high: 0 },
            stake: Stake(0),
        },
    }
}

// The number of items.
pub fn item_count(t: &[u64]) -> usize
    requires { Laid t.now }
    ensures { result ≡ length (items_of t.now) }
{
    t[0] as usize
}

// How many items the table has room for.
pub fn room_of(t: &[u64]) -> usize
    ensures { result ≡ room t.now }
{
    if t.len() == 0 {
        return 0;
    }
    (t.len() - 1) / ITEM_WORDS
}

// The item in the six words at an index.
pub fn read_item(t: &[u64], i: usize) -> Item
    requires { 6 * i + 7 ≤ length t.now }
    ensures { as_item result ≡ slot t.now i }
{
    let b = ITEM_WORDS * i + 1;
    Item {
        position: t[b],
        start: t[b + 1],
        end: t[b + 2],
        aggregator: StakeAggregator {
            votes: AuthoritySet {
                low: t[b + 3],
                high: t[b + 4],
            },
            stake: Stake(t[b + 5]),
        },
    }
}

// The item at an index.
pub fn item_at(t: &[u64], i: usize) -> Item
    requires { Laid t.now × (i < length (items_of t.now)) }
    ensures { as_item result ≡ get_or (items_of t.now) i no_item }
{
    read_item(t, i)
}

// Writes the six words of an item at an index.
pub fn put_item(t: &mut [u64], i: usize, x: Item)
    requires { 6 * i + 7 ≤ length t.old }
    ensures { t.new ≡ sets t.old (6 * i + 1) (item_words (as_item x)) }
{
    let b = ITEM_WORDS * i + 1;
    t[b] = x.position;
    t[b + 1] = x.start;
    t[b + 2] = x.end;
    t[b + 3] = x.aggregator.votes.low;
    t[b + 4] = x.aggregator.votes.high;
    t[b + 5] = x.aggregator.stake.0;
}

// Moves the items i..n up by one, from the last on.
pub fn move_up(t: &mut [u64], i: usize, n: usize)
    requires { (i ≤ n) × (6 * n + 7 ≤ length t.old) }
    ensures { MovedUp t.old i n t.new }
{
    let mut k = n;
    while i < k {
        let x = read_item(t, k - 1);
        put_item(t, k, x);
        k -= 1;
    }
}

// Makes the items i..n zero.
pub fn clear(t: &mut [u64], i: usize, n: usize)
    requires { (i ≤ n) × (6 * n < length t.old) }
    ensures { Cleared t.old i n t.new }
{
    for k in i..n {
        put_item(t, k, no_item());
    }
}
