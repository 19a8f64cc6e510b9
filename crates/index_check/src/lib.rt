// Whether the index is the one worked out from the store (54): part by part in order of arrival, each held against the merge of its includes' parts.
#![tactic(auto)]

ghost use Rattle.std.specs.Prelude.{◌≡◌, true, List, map, ◌≤◌, length};
ghost use Rattle.record_spec.specs.Block.{Block};
ghost use Rattle.record_spec.specs.Record.{well_formed, block_in};
ghost use Rattle.final_spec.specs.Finality.{blocks_of};
ghost use Rattle.final_block_votes.specs.Walk.{SortedStore};
ghost use Rattle.index_spec.specs.Part.{part_from, part_in};
ghost use Rattle.index_spec.specs.Index.{index_agrees};
ghost use Rattle.index_own_runs.specs.Own.{Voting};
ghost use Rattle.index_parts.specs.Parts.{Compared};
ghost use Rattle.index_check.specs.Known.{Known, Rooted, Opened};

// Puts a cursor before the part of each include of a record, and answers how many.
pub fn open_sources(
    store: &[u8],
    order: &[u64],
    starts: &[u64],
    index: &[u64],
    rec: &[u8],
    cursors: &mut [u64],
) -> usize
    requires store { SortedStore store.now order.now }
    requires record { well_formed rec.now ≡ true }
    requires known { (bs : List Block) × (Known store.now order.now index.now starts.now bs × Rooted store.now bs (block_in rec.now)) }
    requires room { 512 ≤ length cursors.old }
    ensures { (bs : List Block) → Known store.now order.now index.now starts.now bs → Rooted store.now bs (block_in rec.now) → Opened bs (block_in rec.now) index.now cursors.new result }
{
    let count = record_reader::include_count(rec);
    for j in 0..count {
        let place = final_block_votes::place_of(store, order, record_reader::include(rec, j));
        let start = starts[place] as usize;
        cursors[2 * j] = (start + 1) as u64;
        cursors[2 * j + 1] = index[start];
    }
    count
}

// Holds the words from a position on against the part of a record, whose own votes are written to the lent words, and answers where the part ends;
// none if they are not those of the part.
fn record_part_end(
    store: &[u8],
    order: &[u64],
    starts: &[u64],
    index: &[u64],
    rec: &[u8],
    at: usize,
    rows: &mut [u64],
    own: &mut [u64],
) -> Option<usize>
    requires store { SortedStore store.now order.now }
    requires record { Voting rec.now }
    requires known { (bs : List Block) × (Known store.now order.now index.now starts.now bs × Rooted store.now bs (block_in rec.now)) }
    requires room { (3072 ≤ length rows.old) × (10240 ≤ length own.old) }
    ensures { (bs : List Block) → Known store.now order.now index.now starts.now bs → Rooted store.now bs (block_in rec.now) → Compared index.now at (part_from (block_in rec.now) (map (part_in bs) (block_in rec.now).includes)) result }
{
    let mut cursors = [0u64; 512];
    let n = open_sources(store, order, starts, index, rec, &mut cursors);
    let mut mine = [0u64; 2];
    mine[1] = index_own_runs::own_runs(rec, rows, own) as u64;
    let mut ahead = [0u64; 512];
    index_parts::part_end(index, &mut cursors, &mut ahead, n, own, &mut mine, at)
}

// Whether the parts of the stored blocks stand one after the other in the index, and all its used words are theirs.
fn parts_agree(
    store: &[u8],
    order: &[u64],
    index: &[u64],
    starts: &mut [u64],
    rows: &mut [u64],
    own: &mut [u64],
) -> bool
    requires sorted_store { SortedStore store.now order.now × (length order.now ≤ length starts.old) }
    requires room { (3072 ≤ length rows.old) × (10240 ≤ length own.old) }
    ensures value { result ≡ index_agrees (blocks_of store.now) index.now }
    ensures known { result ≡ true → Known store.now order.now index.now starts.new (blocks_of store.now) }
{
    if index.len() == 0 {
        return false;
    }
    let mut at: usize = 16;
    let mut pos: usize = 1;
    for i in 0..order.len() {
        let from = at + 8;
        let end = store_entries::record_end(store, at);
        let ended = record_part_end(
            store,
            order,
            starts,
            index,
            &store[from..end],
            pos,
            rows,
            own,
        );
        let Some(next) = ended else {
            return false;
        };
        let place = final_block_votes::place_of(
            store,
            order,
            store_entries::reference_at(store, at),
        );
        starts[place] = pos as u64;
        pos = next;
        at = end;
    }
    index[0] == pos as u64
}

// Whether the index agrees with a store in order, whose sorted positions are lent; where it does, `starts` has for each of them where its part stands.
pub fn index_agrees(store: &[u8], order: &[u64], index: &[u64], starts: &mut [u64]) -> bool
    requires { SortedStore store.now order.now × (length order.now ≤ length starts.old) }
    ensures value { result ≡ index_agrees (blocks_of store.now) index.now }
    ensures known { result ≡ true → Known store.now order.now index.now starts.new (blocks_of store.now) }
{
    let mut rows = [0u64; index_own_runs::ROWS_WORDS];
    let mut own = [0u64; index_own_runs::RUNS_WORDS];
    parts_agree(store, order, index, starts, &mut rows, &mut own)
}
