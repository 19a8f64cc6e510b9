// Where the stored blocks stand in ascending reference order, and beside them where their parts begin, kept up as a block is stored.
#![tactic(auto)]

ghost use Rattle.std.specs.Prelude.{◌≡◌, true, ◌≤◌, ◌<◌, length, get_or};
ghost use Rattle.store_spec.specs.Store.{records_of};
ghost use Rattle.store_spec.specs.Entry.{laid_out, is_in, sorted_positions};
ghost use Rattle.index_part_places.specs.Places.{PutIn, Noted};

// The place of a word that is among them.
fn place_at(words: &[u64], word: u64) -> usize
    requires { is_in word words.now ≡ true }
    ensures { (result < length words.now) × (get_or words.now result 0 ≡ word) }
{
    for k in 0..words.len() {
        if words[k] == word {
            return k;
        }
    }
    // Never so: it is among them.
    0
}

// Puts a word at a place among the first n: those from there on move up.
fn put_in(words: &mut [u64], n: usize, place: usize, word: u64)
    requires { (place ≤ n) × (n < length words.old) }
    ensures { PutIn n place word words.old words.new }
{
    let mut j = n;
    while place < j {
        words[j] = words[j - 1];
        j -= 1;
    }
    words[place] = word;
}

// Once a block is stored at a position, with its part at a word of the index: the order anew, and the part's start at the block's place.
pub fn note_block(store: &[u8], order: &mut [u64], starts: &mut [u64], at: u64, part: u64)
    requires store { (laid_out store.now ≡ true) × (is_in at (sorted_positions (records_of store.now)) ≡ true) }
    requires room { (1024 ≤ length order.old) × (1024 ≤ length starts.old) }
    ensures { Noted (records_of store.now) at part order.new starts.old starts.new }
{
    let count = final_block_votes::sorted_positions(store, order);
    let place = place_at(&order[..count], at);
    put_in(starts, count - 1, place, part);
}
