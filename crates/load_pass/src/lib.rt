// The ordinary list gone along, and its loadable shares listed.
#![tactic(auto)]

ghost use Rattle.std.specs.Prelude.{◌≡◌, true, ◌*◌, ◌≤◌, length};
ghost use Rattle.types.specs.Values.{as_range, as_reference};
ghost use Rattle.store_spec.specs.Layout.{entries, position_of, lookup};
ghost use Rattle.store_spec.specs.Store.{records_of};
ghost use Rattle.store_spec.specs.Entry.{record_at, is_entry};
ghost use Rattle.record_cursor.specs.Cursor.{cursor_at};
ghost use Rattle.final_spec.specs.Finality.{blocks_of};
ghost use Rattle.final_readings_spec.specs.Answers.{as_reading};
ghost use Rattle.list_readings_spec.specs.Lists.{all_listed};
ghost use Rattle.final_block_votes.specs.Walk.{SortedStore};
ghost use Rattle.list_walk.specs.Walk.{Ready};
ghost use Rattle.load_pass.specs.Holding.{Holding, Past, Coming, Read, Listed};

use committee::Stake;
use final_readings_spec::Reading;
use record_cursor::StatementCursor;
use types::{TransactionLocator, TransactionLocatorRange};

// Up to which statement the block of the entry at a position was read.
#[derive(Clone, Copy)]
pub struct ReadUp {
    pub at: usize,
    pub cursor: StatementCursor,
}

// How many places are listed, and up to which statement was read.
#[derive(Clone, Copy)]
pub struct Reached {
    pub found: usize,
    pub read: ReadUp,
}

// Puts the loadable shares of a stretch after the first n places, going on in the record of its block from a statement that is not past it.
fn list_run(
    store: &[u8],
    rec: &[u8],
    read: ReadUp,
    range: TransactionLocatorRange,
    places: &mut [u64],
    n: usize,
) -> Reached
    requires { Coming store.now (as_range range) places.old n × ((read.at ≡ position_of (lookup (entries (records_of store.now)) (as_reference range.block))) × ((rec.now ≡ record_at store.now read.at) × ((read.cursor ≡ cursor_at rec.now read.cursor.index) × (read.cursor.index ≤ range.offset_start_inclusive)))) }
    ensures { Listed store.now (as_range range) places.old n places.new result.found × Read store.now result.read }
{
    let at = read.at;
    let mut cursor = read.cursor;
    let mut found = n;
    while (cursor.index as u64) < range.offset_end_exclusive {
        let offset = cursor.index as u64;
        let next = record_cursor::next_statement(rec, cursor);
        cursor = next.next;
        if offset < range.offset_start_inclusive {
            continue;
        }
        let statement = next.statement;
        let Some((start, len)) = store_payload::share_place(statement) else {
            // Never so: the stretch holds shares.
            continue;
        };
        let block = range.block;
        let end = start + len;
        found = load_places::list_share(
            store,
            places,
            found,
            at,
            TransactionLocator { block, offset },
            &rec[start..end],
        );
    }
    Reached {
        found,
        read: ReadUp { at, cursor },
    }
}

// Where to go on in the record of the entry at a position for an offset: from where it was read up to, or from its first statement.
fn read_from(store: &[u8], rec: &[u8], read: ReadUp, at: usize, offset: u64) -> ReadUp
    requires { Read store.now read × ((is_entry store.now at ≡ true) × (rec.now ≡ record_at store.now at)) }
    ensures { (result.at ≡ at) × ((result.cursor ≡ cursor_at rec.now result.cursor.index) × (result.cursor.index ≤ offset)) }
{
    let cursor = read.cursor;
    if read.at == at {
        if cursor.index as u64 <= offset {
            return read;
        }
    }
    ReadUp {
        at,
        cursor: record_cursor::first_statement(rec),
    }
}

// Puts the loadable shares of a stretch of the ordinary list after the first n places.
fn list_stretch(
    store: &[u8],
    order: &[u64],
    read: ReadUp,
    range: TransactionLocatorRange,
    places: &mut [u64],
    n: usize,
) -> Reached
    requires { Coming store.now (as_range range) places.old n × (SortedStore store.now order.now × Read store.now read) }
    ensures { Listed store.now (as_range range) places.old n places.new result.found × Read store.now result.read }
{
    let block = range.block;
    let at = store_entries::find_ordered(store, order, block);
    let from = at + 8;
    let end = store_entries::record_end(store, at);
    let rec = &store[from..end];
    let begun = read_from(store, rec, read, at, range.offset_start_inclusive);
    list_run(store, rec, begun, range, places, n)
}

// Puts all loadable shares at the front of the places; the answer is how many there are.
pub fn list_all(
    stakes: &[u64],
    total: Stake,
    store: &[u8],
    order: &[u64],
    reading: Reading,
    places: &mut [u64],
) -> usize
    requires { Ready stakes.now total.0 store.now order.now × (2 * length (all_listed true (as_reading reading) stakes.now (blocks_of store.now)) ≤ length places.old) }
    ensures { Holding (as_reading reading) stakes.now store.now (all_listed true (as_reading reading) stakes.now (blocks_of store.now)) places.new result × Past places.old places.new result }
{
    let mut sets = [0u64; list_include_sets::WORDS];
    list_include_sets::note_includes(store, order, &mut sets);
    let mut edges = [0u64; list_window::TABLE_WORDS];
    let mut lanes = [0u64; list_lanes::LANES];
    let mut along = load_along::at_start(total, store, order, reading, &mut edges, &mut lanes);
    let mut read = ReadUp {
        at: 0,
        cursor: StatementCursor { at: 0, index: 0 },
    };
    let mut n: usize = 0;
    loop {
        let step = load_along::next_stretch(
            stakes, store, order, &sets, along, &mut edges, &mut lanes,
        );
        let ahead = step.ahead;
        let Some(range) = ahead else {
            return n;
        };
        let reached = list_stretch(store, order, read, range, places, n);
        n = reached.found;
        read = reached.read;
        along = step.along;
    }
}
