// Records fed and written, and finality slips.
ghost use Rattle.std.specs.Prelude.{◌≡◌};
ghost use Rattle.host_calls.specs.Calls.{encoded, committee_of};
ghost use Rattle.host_feed_bytes.specs.Feed.{feed_call};
ghost use Rattle.host_feed_records.specs.FeedRecords.{feed_records_call};
ghost use Rattle.host_feed_records_indexed.specs.FeedRecords.{feed_records_indexed_call};
ghost use Rattle.host_feed_indexed.specs.IndexedFeed.{feed_indexed_call};
ghost use Rattle.final_readings_spec.specs.Readings.{old, withdrawing};
ghost use Rattle.std.proofs.Math.Option.{some};
ghost use Rattle.draft_spec.specs.Writing.{write_timed, write_record};
ghost use Rattle.draft_size.specs.Asked.{requested};
ghost use Rattle.slip_spec.specs.Reading.{read_answer};
ghost use Rattle.host_slip_writer.specs.WriteSlip.{write_slip_call};

use final_readings_spec::Reading;

// Feeds a record: the number of events, which stand at the front, three words each.
#[unsafe(no_mangle)]
pub extern "C" fn lomkhvide_feed(
    stakes: &[u8],
    store: &mut [u8],
    table: &mut [u8],
    events: &mut [u8],
    rec: &[u8],
) -> u64
    ensures value { result ≡ encoded (feed_call stakes.now store.old table.old events.old rec.now).answer }
    ensures store_after { store.new ≡ (feed_call stakes.now store.old table.old events.old rec.now).store }
    ensures table_after { table.new ≡ (feed_call stakes.now store.old table.old events.old rec.now).table }
    ensures events_after { events.new ≡ (feed_call stakes.now store.old table.old events.old rec.now).events }
{
    host_feed::feed(stakes, store, table, events, rec)
}

// The same with the index beside the store, to which the record's part is appended.
#[unsafe(no_mangle)]
pub extern "C" fn lomkhvide_feed_indexed(
    stakes: &[u8],
    store: &mut [u8],
    table: &mut [u8],
    index: &mut [u64],
    events: &mut [u8],
    rec: &[u8],
) -> u64
    ensures value { result ≡ encoded (feed_indexed_call stakes.now store.old table.old index.old events.old rec.now).answer }
    ensures store_after { store.new ≡ (feed_indexed_call stakes.now store.old table.old index.old events.old rec.now).store }
    ensures table_after { table.new ≡ (feed_indexed_call stakes.now store.old table.old index.old events.old rec.now).table }
    ensures index_after { index.new ≡ (feed_indexed_call stakes.now store.old table.old index.old events.old rec.now).index }
    ensures events_after { events.new ≡ (feed_indexed_call stakes.now store.old table.old index.old events.old rec.now).events }
{
    host_feed_indexed::feed_indexed(stakes, store, table, index, events, rec)
}

// Feeds records one after the other, each after its length in four bytes: their number. Each has a word that tells its outcome.
#[unsafe(no_mangle)]
pub extern "C" fn lomkhvide_feed_records(
    stakes: &[u8],
    store: &mut [u8],
    table: &mut [u8],
    events: &mut [u64],
    outcomes: &mut [u64],
    records: &[u8],
) -> u64
    ensures value { result ≡ encoded (feed_records_call stakes.now store.old table.old events.old outcomes.old records.now).answer }
    ensures store_after { store.new ≡ (feed_records_call stakes.now store.old table.old events.old outcomes.old records.now).store }
    ensures table_after { table.new ≡ (feed_records_call stakes.now store.old table.old events.old outcomes.old records.now).table }
    ensures events_after { events.new ≡ (feed_records_call stakes.now store.old table.old events.old outcomes.old records.now).events }
    ensures outcomes_after { outcomes.new ≡ (feed_records_call stakes.now store.old table.old events.old outcomes.old records.now).outcomes }
{
    host_feed_records::feed_records(stakes, store, table, events, outcomes, records)
}

// The same with the index beside the store, to which the parts of the accepted records are appended.
#[unsafe(no_mangle)]
pub extern "C" fn lomkhvide_feed_records_indexed(
    stakes: &[u8],
    store: &mut [u8],
    table: &mut [u8],
    index: &mut [u64],
    events: &mut [u64],
    outcomes: &mut [u64],
    records: &[u8],
) -> u64
    ensures value { result ≡ encoded (feed_records_indexed_call stakes.now store.old table.old index.old events.old outcomes.old records.now).answer }
    ensures store_after { store.new ≡ (feed_records_indexed_call stakes.now store.old table.old index.old events.old outcomes.old records.now).store }
    ensures table_after { table.new ≡ (feed_records_indexed_call stakes.now store.old table.old index.old events.old outcomes.old records.now).table }
    ensures index_after { index.new ≡ (feed_records_indexed_call stakes.now store.old table.old index.old events.old outcomes.old records.now).index }
    ensures events_after { events.new ≡ (feed_records_indexed_call stakes.now store.old table.old index.old events.old outcomes.old records.now).events }
    ensures outcomes_after { outcomes.new ≡ (feed_records_indexed_call stakes.now store.old table.old index.old events.old outcomes.old records.now).outcomes }
{
    host_feed_records_indexed::feed_records_indexed(
        stakes, store, table, index, events, outcomes, records,
    )
}

// Writes a record of our own into `out`: its length.
#[unsafe(no_mangle)]
pub extern "C" fn lomkhvide_write_record(
    author: u64,
    round: u64,
    digest: &[u8],
    mark: u64,
    includes: &[u8],
    statements: &[u8],
    out: &mut [u8],
) -> u64
    ensures value { result ≡ encoded (write_record (requested author round digest.now mark includes.now statements.now) out.old).answer }
    ensures out_after { out.new ≡ (write_record (requested author round digest.now mark includes.now statements.now) out.old).out }
{
    host_records::write_record_of(author, round, digest, mark, includes, statements, out)
}

// The same with the time of its creation, in nanoseconds.
#[unsafe(no_mangle)]
pub extern "C" fn lomkhvide_write_timed_record(
    author: u64,
    round: u64,
    digest: &[u8],
    mark: u64,
    time: u64,
    includes: &[u8],
    statements: &[u8],
    out: &mut [u8],
) -> u64
    ensures value { result ≡ encoded (write_timed (some time) (requested author round digest.now mark includes.now statements.now) out.old).answer }
    ensures out_after { out.new ≡ (write_timed (some time) (requested author round digest.now mark includes.now statements.now) out.old).out }
{
    host_records::write_timed_record_of(
        author, round, digest, mark, time, includes, statements, out,
    )
}

// Reads a finality slip of either reading with the records that come with it: the number of its certifying blocks.
#[unsafe(no_mangle)]
pub extern "C" fn lomkhvide_read_slip(stakes: &[u8], slip: &[u8], records: &[u8]) -> u64
    ensures { result ≡ encoded (read_answer (committee_of stakes.now) slip.now records.now) }
{
    host_slips::read_slip(stakes, slip, records)
}

// Writes the finality slip of a final locator into `out`: its length.
#[unsafe(no_mangle)]
pub extern "C" fn lomkhvide_write_slip(
    stakes: &[u8],
    store: &[u8],
    locator: &[u8],
    out: &mut [u8],
) -> u64
    ensures value { result ≡ encoded (write_slip_call old stakes.now store.now locator.now out.old).answer }
    ensures out_after { out.new ≡ (write_slip_call old stakes.now store.now locator.now out.old).out }
{
    host_slip_writer::write_slip(stakes, store, locator, Reading::Old, out)
}

// The same in the reading in which an owner may withdraw.
#[unsafe(no_mangle)]
pub extern "C" fn lomkhvide_write_slip_withdrawing(
    stakes: &[u8],
    store: &[u8],
    locator: &[u8],
    out: &mut [u8],
) -> u64
    ensures value { result ≡ encoded (write_slip_call withdrawing stakes.now store.now locator.now out.old).answer }
    ensures out_after { out.new ≡ (write_slip_call withdrawing stakes.now store.now locator.now out.old).out }
{
    host_slip_writer::write_slip(stakes, store, locator, Reading::Withdrawing, out)
}
