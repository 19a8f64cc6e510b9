// A pending table beside its store (11), and the pending question.
#![tactic(auto)]

ghost use Rattle.std.specs.Prelude.{◌≡◌, true, false, ◌≤◌};
ghost use Rattle.base.specs.Lists.{pick};
ghost use Rattle.committee.specs.Committee.{broken};
ghost use Rattle.record_spec.specs.Block.{is_share_at};
ghost use Rattle.record_spec.specs.Record.{well_formed, block_in};
ghost use Rattle.record_cursor.specs.Cursor.{cursor_at};
ghost use Rattle.types.specs.Values.{as_locator};
ghost use Rattle.store_spec.specs.Layout.{entries};
ghost use Rattle.store_spec.specs.Store.{records_of};
ghost use Rattle.store_spec.specs.Entry.{readable, laid_out};
ghost use Rattle.pending_spec.specs.Table.{HoldsItems, shares_in, item_suits, item_stored, table_stored, table_in_order};
ghost use Rattle.pending_words.specs.Answers.{as_item};
ghost use Rattle.feed_spec.specs.Pending.{standing_at, pending, pending_checks};
ghost use Rattle.pending_question.specs.Answers.{as_pending};
ghost use Rattle.pending_question.specs.Step.{NotPast, OnEntry, Passed, EntryFrom, Ahead, WalkedTo};
ghost use Rattle.base.specs.Refusals.{refusal_in};
ghost use Rattle.base.specs.Checks.{refusal};

use base::Refusal;
use committee::Stake;
use pending_words::Item;
use record_cursor::StatementCursor;
use types::TransactionLocator;

// ---- the store's part of a table in order (11)

// Whether a share stands at an offset, and a place that is not past it.
#[derive(Clone, Copy)]
pub struct ShareAt {
    pub share: bool,
    pub cursor: StatementCursor,
}

// Whether all of a range are shares, and a place that is not past its end.
#[derive(Clone, Copy)]
struct Shares {
    all: bool,
    cursor: StatementCursor,
}

// How far the entries and the statements have been walked: an entry, and the one whose statements the place is among (zero: none yet).
#[derive(Clone, Copy)]
struct Walk {
    at: usize,
    last: usize,
    cursor: StatementCursor,
}

// Whether an item is of a stored block, and the walk after it.
#[derive(Clone, Copy)]
struct Stored {
    stored: bool,
    walk: Walk,
}

// Whether the share at an offset is there, walking on from a place that is not past it.
pub fn share_at(rec: &[u8], from: StatementCursor, o: u64) -> ShareAt
    requires { (well_formed rec.now ≡ true) × NotPast rec.now o from }
    ensures { (result.share ≡ is_share_at (block_in rec.now) o) × NotPast rec.now o result.cursor }
{
    let count = record_reader::statement_count(rec) as u64;
    if count <= o {
        return ShareAt {
            share: false,
            cursor: from,
        };
    }
    let mut cursor = from;
    while (cursor.index as u64) < o {
        let found = record_cursor::next_statement(rec, cursor);
        cursor = found.next;
    }
    let found = record_cursor::next_statement(rec, cursor);
    let statement = found.statement;
    let share = record_shared_ranges::is_share(statement);
    ShareAt { share, cursor }
}

// Whether each offset in start..end is a share's.
fn shares_in(rec: &[u8], from: StatementCursor, start: u64, end: u64) -> Shares
    requires { (well_formed rec.now ≡ true) × NotPast rec.now start from × (start ≤ end) }
    ensures { (result.all ≡ shares_in (block_in rec.now) start end) × (result.all ≡ true → NotPast rec.now end result.cursor) }
{
    let mut cursor = from;
    for o in start..end {
        let found = share_at(rec, cursor, o);
        cursor = found.cursor;
        if !found.share {
            return Shares { all: false, cursor };
        }
    }
    Shares { all: true, cursor }
}

// The first entry, from one on, that does not stand before a position; the used length where there is none.
fn entry_from(store: &[u8], from: usize, p: u64) -> usize
    requires { (readable store.now ≡ true) × OnEntry store.now from × Passed store.now from p }
    ensures { EntryFrom store.now p result }
{
    let used = base::read_u32(store, 4) as usize;
    let mut at = from;
    while at < used {
        if p <= at as u64 {
            return at;
        }
        at = store_entries::record_end(store, at);
    }
    at
}

// Whether the items of a block may hold this one: its offsets are shares and its votes hold the sharer.
fn item_suits(rec: &[u8], x: Item, from: StatementCursor) -> Shares
    requires { (well_formed rec.now ≡ true) × NotPast rec.now x.start from × (x.start ≤ x.end) }
    ensures { (result.all ≡ item_suits (as_item x) (block_in rec.now)) × (result.all ≡ true → NotPast rec.now x.end result.cursor) }
{
    let found = shares_in(rec, from, x.start, x.end);
    let cursor = found.cursor;
    if !found.all {
        return Shares { all: false, cursor };
    }
    let reference = record_reader::reference(rec);
    let author = reference.authority;
    let aggregator = x.aggregator;
    let votes = aggregator.votes;
    let all = votes.contains(author);
    Shares { all, cursor }
}

// The place at which the statements of a record are read on: the one given where it is of this record, else the first.
fn place_in(rec: &[u8], same: bool, cursor: StatementCursor) -> StatementCursor
    requires { well_formed rec.now ≡ true }
    ensures { result ≡ pick same cursor (cursor_at rec.now 0) }
{
    if same {
        return cursor;
    }
    record_cursor::first_statement(rec)
}

// Whether an item is of a stored block, with shares at its offsets and the sharer among its votes. The walk has not passed it.
fn item_stored(store: &[u8], x: Item, walk: Walk) -> Stored
    requires { (readable store.now ≡ true) × OnEntry store.now walk.at × Ahead store.now walk (as_item x) × (x.start ≤ x.end) }
    ensures { (result.stored ≡ item_stored (entries (records_of store.now)) (as_item x)) × (result.stored ≡ true → WalkedTo store.now (as_item x) result.walk) }
{
    let at = entry_from(store, walk.at, x.position);
    if at as u64 != x.position {
        return Stored {
            stored: false,
            walk,
        };
    }
    if at == base::read_u32(store, 4) as usize {
        return Stored {
            stored: false,
            walk,
        };
    }
    let from = at + 8;
    let end = store_entries::record_end(store, at);
    let cursor = place_in(&store[from..end], at == walk.last, walk.cursor);
    let found = item_suits(&store[from..end], x, cursor);
    let stored = found.all;
    let next = found.cursor;
    Stored {
        stored,
        walk: Walk {
            at,
            last: at,
            cursor: next,
        },
    }
}

// The part of a table in order (11) that needs the store: one walk over the entries, and one over the statements of each block that has items.
fn items_stored(store: &[u8], table: &[u64]) -> bool
    requires { (readable store.now ≡ true) × HoldsItems table.now }
    ensures { result ≡ table_stored (entries (records_of store.now)) table.now }
{
    let n = pending_words::item_count(table);
    let mut walk = Walk {
        at: 16,
        last: 0,
        cursor: StatementCursor { at: 0, index: 0 },
    };
    for k in 0..n {
        let x = pending_words::item_at(table, k);
        let found = item_stored(store, x, walk);
        if !found.stored {
            return false;
        }
        walk = found.walk;
    }
    true
}

// Whether a table is in order (11) beside a store in order.
fn table_in_order(stakes: &[u64], store: &[u8], table: &[u64]) -> bool
    requires { (broken stakes.now ≡ false) × (readable store.now ≡ true) }
    ensures { result ≡ table_in_order stakes.now (entries (records_of store.now)) table.now }
{
    if !pending_form::table_formed(stakes, table) {
        return false;
    }
    items_stored(store, table)
}

// 5, 10, 11: what every call checks that is lent a committee, a store and a table.
pub fn lent_refusal(stakes: &[u64], store: &[u8], table: &[u64]) -> Result<(), Refusal>
    ensures first { refusal_in result ≡ refusal (pending_checks stakes.now store.now table.now) }
    ensures laid { refusal_in result ≡ 0 → laid_out store.now ≡ true }
{
    let Ok(_) = committee::new_committee(stakes) else {
        return Err(Refusal::BrokenCommittee);
    };
    if !store_order::in_order(stakes, store) {
        return Err(Refusal::StoreNotInOrder);
    }
    if !table_in_order(stakes, store, table) {
        return Err(Refusal::TableNotInOrder);
    }
    Ok(())
}

// ---- the pending question

// Of a store and a table in order: what stands at a locator.
fn standing(
    store: &[u8],
    table: &[u64],
    locator: TransactionLocator,
) -> Result<(Stake, u64), Refusal>
    requires { (laid_out store.now ≡ true) × HoldsItems table.now }
    ensures { as_pending result ≡ standing_at store.now table.now (as_locator locator) }
{
    let block = locator.block;
    let p = store_lookup::lookup(store, block) as u64;
    let found = pending_search::holding(table, p, locator.offset);
    let Some(i) = found else {
        return Err(Refusal::NotPending);
    };
    let x = pending_words::item_at(table, i);
    let aggregator = x.aggregator;
    let votes = aggregator.votes;
    let stake = aggregator.stake;
    let voters = votes.count();
    Ok((stake, voters))
}

// Asks for a pending locator: its stake and its number of voters, or a refusal.
pub fn pending(
    stakes: &[u64],
    store: &[u8],
    table: &[u64],
    locator: TransactionLocator,
) -> Result<(Stake, u64), Refusal>
    ensures { as_pending result ≡ pending stakes.now store.now table.now (as_locator locator) }
{
    lent_refusal(stakes, store, table)?;
    standing(store, table, locator)
}
