// The edges of rows as ranges, in another table: a row for where a range begins and one for where it ends, each with the place of the block whose ranges
// they are in its mark, doubled, and one more at a beginning. Sorted, they say of each locator which blocks have a range there.
#![tactic(auto)]

ghost use Rattle.std.specs.Prelude.{◌≡◌, ◌+◌, ◌*◌, ◌≤◌, ◌<◌, length};
ghost use Rattle.list_row_sort.specs.Rows.{row_at};
ghost use Rattle.list_edge_rows.specs.Edges.{EdgesFit, Edged};
ghost use Rattle.list_edge_rows.specs.Step.{put_both};

// Puts the two edges of the row at an index after the first n rows of another table.
fn put_edges(rows: &[u64], i: usize, place: usize, edges: &mut [u64], n: usize)
    requires { (3 * i + 3 ≤ length rows.now) × ((3 * n + 6 ≤ length edges.old) × (place < 9223372036854775808)) }
    ensures { edges.new ≡ put_both edges.old n place (row_at rows.now i) }
{
    let from = list_row_sort::ROW_WORDS * i;
    let mark = 2 * (place as u64);
    list_range_rows::put_row(edges, n, rows[from], rows[from + 1], mark + 1);
    list_range_rows::put_row(edges, n + 1, rows[from], rows[from + 2], mark);
}

// Puts the edges of the first m rows, which are ranges of the block at a place, after the first n rows of another table.
pub fn edge_rows(rows: &[u64], m: usize, place: usize, edges: &mut [u64], n: usize) -> usize
    requires { EdgesFit rows.now edges.old m place n }
    ensures { Edged rows.now edges.old edges.new m place n result }
{
    let mut k = n;
    for i in 0..m {
        put_edges(rows, i, place, edges, k);
        k += 2;
    }
    k
}
