// Whether a record's items fit a table (14): they are tried on a copy of it.
#![tactic(auto)]

ghost use Rattle.std.specs.Prelude.{◌≡◌, leb, length, ◌≤◌};
ghost use Rattle.record_spec.specs.Record.{block_in};
ghost use Rattle.store_spec.specs.Store.{records_of};
ghost use Rattle.store_spec.specs.Entry.{sorted_positions};
ghost use Rattle.pending_spec.specs.Table.{room, items_of};
ghost use Rattle.feed_spec.specs.ProcessBlock.{process_block};
ghost use Rattle.feed_missed.specs.Kinds.{with_new};
ghost use Rattle.feed_aggregator.specs.Step.{Feeding};

// Copies words over others of the same number.
fn copy_words(from: &[u64], to: &mut [u64])
    requires { length from.now ≡ length to.old }
    ensures { to.new ≡ from.now }
{
    for i in 0..from.len() {
        to[i] = from[i];
    }
}

// Whether a record's items fit the table (14): the votes are tried on a copy of it.
pub fn items_fit(
    stakes: &[u64],
    store: &[u8],
    order: &[u64],
    rec: &[u8],
    table: &[u64],
    work: &mut [u64],
    events: &mut [u64],
) -> bool
    requires lent { Feeding stakes.now store.now rec.now table.now }
    requires work { length table.now ≤ length work.old }
    requires order { order.now ≡ sorted_positions (records_of store.now) }
    ensures value { result ≡ leb (process_block stakes.now (with_new store.now rec.now) (block_in rec.now) (items_of table.now)).most (room table.now) }
    ensures events_unchanged { events.new ≡ events.old }
{
    let n = table.len();
    copy_words(table, &mut work[..n]);
    let tried = feed_aggregator::process_block(
        stakes,
        store,
        order,
        rec,
        &mut work[..n],
        events,
        false,
    );
    tried.fits
}
