// An index that grows with its store: the part of a record that is fed, counted against the room that is left (55) and appended.
#![tactic(auto)]

ghost use Rattle.index_growth.specs.Growing.{Growing, Grew};

use base::Refusal;

// Appends a record's part, if there is room for it; else 55. Its own votes are worked out once, and its includes' parts are found once, to count and to
// append.
pub fn grow(
    store: &[u8],
    order: &[u64],
    starts: &[u64],
    index: &mut [u64],
    rec: &[u8],
) -> Result<(), Refusal>
    requires { Growing store.now order.now starts.now index.old rec.now }
    ensures { Grew store.now index.old rec.now index.new result }
{
    let used = index[0] as usize;
    let room = index.len() - used;
    if room == 0 {
        return Err(Refusal::IndexTooShort);
    }
    let mut rows = [0u64; index_own_runs::ROWS_WORDS];
    let mut own = [0u64; index_own_runs::RUNS_WORDS];
    let mut mine = [0u64; 2];
    mine[1] = index_own_runs::own_runs(rec, &mut rows, &mut own) as u64;
    let mut cursors = [0u64; 512];
    let n = index_check::open_sources(store, order, starts, &index[..used], rec, &mut cursors);
    let mut counting = cursors;
    let mut mine_counting = mine;
    let counted = index_parts::run_count(
        &index[..used],
        &mut counting,
        n,
        &own,
        &mut mine_counting,
        (room - 1) / index_runs::RUN_WORDS,
    );
    let Some(count) = counted else {
        return Err(Refusal::IndexTooShort);
    };
    index_append::append_part(index, used, &mut cursors, n, &own, &mut mine, count);
    Ok(())
}
