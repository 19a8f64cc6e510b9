// Finding an item of a pending table by an offset, by halving.
#![tactic(auto)]

ghost use Rattle.std.specs.Prelude.{◌≡◌, ℕ, ◌≤◌, ◌<◌};
ghost use Rattle.pending_spec.specs.Items.{item_holds, falls_inside};
ghost use Rattle.pending_spec.specs.Table.{items_of, HoldsItems};
ghost use Rattle.pending_words.specs.Answers.{as_item};
ghost use Rattle.pending_search.specs.Answers.{FoundBy, Constant};
ghost use Rattle.pending_search.specs.Step.{ends_before, Parted};

use pending_words::Item;

// What stands at an offset, and the end (excluded) of the offsets at which it stands.
#[derive(Clone, Copy)]
pub struct ItemStretch {
    pub found: Option<usize>,
    pub end: u64,
}

// Whether an item lies wholly before the offset o of the entry at p.
fn ends_before(x: Item, p: u64, o: u64) -> bool
    ensures { result ≡ ends_before p o (as_item x) }
{
    if x.position < p {
        return true;
    }
    if p < x.position {
        return false;
    }
    x.end <= o
}

// The index of the first item that does not lie wholly before the offset o of the entry at p, by halving.
fn search(t: &[u64], p: u64, o: u64) -> usize
    requires { HoldsItems t.now }
    ensures { Parted p o (items_of t.now) result }
{
    let mut low = 0;
    let mut high = pending_words::item_count(t);
    while low < high {
        let middle = low + (high - low) / 2;
        if ends_before(pending_words::item_at(t, middle), p, o) {
            low = middle + 1;
        } else {
            high = middle;
        }
    }
    low
}

// The item that holds the offset o of the entry at p, by its index, if there is one.
pub fn holding(t: &[u64], p: u64, o: u64) -> Option<usize>
    requires { HoldsItems t.now }
    ensures { FoundBy (item_holds p o) (items_of t.now) result }
{
    let i = search(t, p, o);
    if pending_words::item_count(t) <= i {
        return None;
    }
    let x = pending_words::item_at(t, i);
    if x.position != p {
        return None;
    }
    if o < x.start {
        return None;
    }
    Some(i)
}

// The item that the offset o of the entry at p falls inside of, by its index, if there is one.
pub fn inside(t: &[u64], p: u64, o: u64) -> Option<usize>
    requires { HoldsItems t.now }
    ensures { FoundBy (falls_inside p o) (items_of t.now) result }
{
    let i = search(t, p, o);
    if pending_words::item_count(t) <= i {
        return None;
    }
    let x = pending_words::item_at(t, i);
    if x.position != p {
        return None;
    }
    if o <= x.start {
        return None;
    }
    Some(i)
}

// What stands at the offset o of the entry at p, and up to where: the end of the item that holds it, the start of the next, or `end`.
pub fn stretch_at(t: &[u64], p: u64, o: u64, end: u64) -> ItemStretch
    requires { HoldsItems t.now × (o < end) }
    ensures { Constant (items_of t.now) p o end result }
{
    let i = search(t, p, o);
    if pending_words::item_count(t) <= i {
        return ItemStretch { found: None, end };
    }
    let x = pending_words::item_at(t, i);
    if x.position != p {
        return ItemStretch { found: None, end };
    }
    if o < x.start {
        return ItemStretch {
            found: None,
            end: smaller(x.start, end),
        };
    }
    ItemStretch {
        found: Some(i),
        end: smaller(x.end, end),
    }
}

// The smaller of two numbers: what lies below both lies below it.
fn smaller(a: u64, b: u64) -> u64
    ensures { (result ≤ a) × (result ≤ b) × ((k : ℕ) → k < a → k < b → k < result) }
{
    if a < b { a } else { b }
}
