// How many shares are stored.
#![tactic(auto)]

ghost use Rattle.std.specs.Prelude.{◌≡◌, true, ◌≤◌, length};
ghost use Rattle.record_spec.specs.Record.{well_formed, block_in};
ghost use Rattle.final_spec.specs.Finality.{blocks_of};
ghost use Rattle.final_block_votes.specs.Walk.{Sorted};
ghost use Rattle.list_ordinary_spec.specs.Shares.{shares_of, stored_shares};

// How many shares the block of a record has.
fn shares_in(rec: &[u8]) -> usize
    requires { well_formed rec.now ≡ true }
    ensures { (result ≡ length (shares_of (block_in rec.now))) × (result ≤ 1024) }
{
    let count = record_reader::statement_count(rec);
    let mut cursor = record_cursor::first_statement(rec);
    let mut n: usize = 0;
    while cursor.index < count {
        let next = record_cursor::next_statement(rec, cursor);
        cursor = next.next;
        let statement = next.statement;
        if record_shared_ranges::is_share(statement) {
            n += 1;
        }
    }
    n
}

// How many shares are stored.
pub fn count_shares(stakes: &[u64], store: &[u8], order: &[u64]) -> usize
    requires { Sorted stakes.now store.now order.now × (length order.now ≤ 1024) }
    ensures { result ≡ length (stored_shares (blocks_of store.now)) }
{
    let mut n: usize = 0;
    for k in 0..order.len() {
        let at = order[k] as usize;
        let from = at + 8;
        let end = store_entries::record_end(store, at);
        n += shares_in(&store[from..end]);
    }
    n
}
