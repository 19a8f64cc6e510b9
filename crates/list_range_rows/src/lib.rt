// Rows as ranges of locators in a table, joined in one pass where they overlap or touch. A row is the position of a reference in the store, the
// start and the end, which is excluded.
#![tactic(auto)]

ghost use Rattle.std.specs.Prelude.{◌≡◌, ◌+◌, ◌-◌, ◌*◌, ◌≤◌, ◌<◌, length};
ghost use Rattle.std.proofs.lemmas.List.Edits.{sets};
ghost use Rattle.list_row_sort.specs.Rows.{row_at, row_words};
ghost use Rattle.list_range_rows.specs.Ranges.{new_row, Joinable, RowsJoined};
ghost use Rattle.list_range_rows.specs.Step.{RowJoined};

// Writes the three words of a row.
pub fn put_row(rows: &mut [u64], k: usize, at: u64, start: u64, end: u64)
    requires { 3 * k + 3 ≤ length rows.old }
    ensures { rows.new ≡ sets rows.old (3 * k) (row_words (new_row at start end)) }
{
    let from = list_row_sort::ROW_WORDS * k;
    rows[from] = at;
    rows[from + 1] = start;
    rows[from + 2] = end;
}

// Joins the row at an index to the first m, which stand before it: it lengthens the last of them, or is one more.
fn join_row(store: &[u8], rows: &mut [u64], m: usize, i: usize) -> usize
    requires m_le_i { (m ≤ i) × (3 * i + 3 ≤ length rows.old) }
    requires i_in_bounds { ((row_at rows.old i).at + 48 ≤ length store.now) × (0 < m → (row_at rows.old (m - 1)).at + 48 ≤ length store.now) }
    ensures { RowJoined store.now rows.old rows.new m i result }
{
    let from = list_row_sort::ROW_WORDS * i;
    let at = rows[from];
    let start = rows[from + 1];
    let end = rows[from + 2];
    if m == 0 {
        put_row(rows, 0, at, start, end);
        return 1;
    }
    let last = list_row_sort::ROW_WORDS * (m - 1);
    let last_at = rows[last];
    let last_start = rows[last + 1];
    let last_end = rows[last + 2];
    if list_row_sort::key_before(store, last_at as usize, last_end, at as usize, start) {
        put_row(rows, m, at, start, end);
        return m + 1;
    }
    if last_end < end {
        put_row(rows, m - 1, last_at, last_start, end);
        return m;
    }
    m
}

// Joins the first n rows of a table, which ascend, where they overlap or touch.
pub fn join_rows(store: &[u8], rows: &mut [u64], n: usize) -> usize
    requires { Joinable store.now n rows.old }
    ensures { RowsJoined store.now n rows.old rows.new result }
{
    let mut m: usize = 0;
    for i in 0..n {
        m = join_row(store, rows, m, i);
    }
    m
}
