// The bytes of a slip, over the front of a slice: of the certifying blocks of a table, each with all its voters by the shortest, then first, path.
#![tactic(auto)]

ghost use Rattle.std.specs.Prelude.{◌≡◌, ◌*◌, ◌≤◌, length};
ghost use Rattle.types.specs.Values.{as_locator};
ghost use Rattle.final_block_votes.specs.Walk.{SortedStore};
ghost use Rattle.final_readings_spec.specs.Answers.{as_reading};
ghost use Rattle.slip_spec.specs.Slip.{reading_byte};
ghost use Rattle.slip_write_bytes.specs.Answers.{as_slip_answer};
ghost use Rattle.slip_write_parts.specs.Listed.{Voted, listed_bytes};
ghost use Rattle.slip_write_bytes.specs.Listed.{written_over};

use base::Refusal;
use final_readings_spec::Reading;
use slip_write_parts::SlipHead;
use types::TransactionLocator;

// The byte of a reading.
fn reading_byte(reading: Reading) -> u8
    ensures { result ≡ reading_byte (as_reading reading) }
{
    match reading {
        Reading::Old => 0,
        Reading::Withdrawing => 1,
    }
}

// Writes the slip of the first n certifying blocks of a table, in the reading that is asked for, and answers its length, or 50.
pub fn write_listed(
    store: &[u8],
    order: &[u64],
    locator: TransactionLocator,
    reading: Reading,
    certifiers: &[u64],
    n: usize,
    out: &mut [u8],
) -> Result<usize, Refusal>
    requires { (SortedStore store.now order.now × (length order.now ≤ 1024)) × (((n ≤ 1024) × (3 * n ≤ length certifiers.now)) × Voted store.now order.now (as_locator locator) certifiers.now n) }
    ensures result_value { as_slip_answer result ≡ (written_over (listed_bytes store.now order.now (as_locator locator) (reading_byte (as_reading reading)) certifiers.now n) out.old).answer }
    ensures out_after { out.new ≡ (written_over (listed_bytes store.now order.now (as_locator locator) (reading_byte (as_reading reading)) certifiers.now n) out.old).out }
{
    let mut near = [0u16; 131072];
    let mut steps = [0u8; 131072];
    slip_write_distances::find_distances(store, order, locator, &mut near, &mut steps);
    let size = slip_write_parts::parts_size(&near, certifiers, n);
    if out.len() < size {
        return Err(Refusal::TooShortToWrite);
    }
    let first = reading_byte(reading);
    let head = SlipHead { first, locator };
    slip_write_parts::write_parts(store, order, head, &near, &steps, certifiers, n, out);
    Ok(size)
}
