// How many offsets of a table are pending, and the lines that counts stand in: the last one, and those of a refused committee.
#![tactic(auto)]

ghost use Rattle.std.specs.Prelude.{◌≡◌, ◌%◌, ◌^◌, ◌≤◌, ◌++◌, length};
ghost use Rattle.pending_spec.specs.Table.{HoldsItems, items_of};
ghost use Rattle.listing_text.specs.Text.{Wrote};
ghost use Rattle.listing_lines.specs.Lines.{refused_line, end_line};
ghost use Rattle.listing_counts.specs.Pending.{pending_offsets};

// How many offsets are pending.
pub fn pending_offsets(table: &[u64]) -> u64
    requires { HoldsItems table.now }
    ensures { result ≡ pending_offsets (items_of table.now) % 2 ^ 64 }
{
    let n = pending_words::item_count(table);
    let mut sum: u64 = 0;
    for k in 0..n {
        let x = pending_words::item_at(table, k);
        sum = std::num::wrapping_add_u64(sum, x.end - x.start);
    }
    sum
}

// Puts the last line in front: what was counted, and what is pending in the table.
pub fn put_counts(
    out: &mut [u8],
    table: &[u64],
    accepted: u64,
    refused: u64,
    processed: u64,
    finals: u64,
) -> usize
    requires { HoldsItems table.now × (128 ≤ length out.old) }
    ensures { Wrote out.old out.new 0 result (end_line accepted refused processed (pending_offsets (items_of table.now) % 2 ^ 64) finals) }
{
    let pending = pending_offsets(table);
    listing_lines::put_end(out, 0, accepted, refused, processed, pending, finals)
}

// Puts the lines of a refused committee in front.
pub fn put_refusal(out: &mut [u8], number: u64) -> usize
    requires { 256 ≤ length out.old }
    ensures { Wrote out.old out.new 0 result (refused_line 0 number ++ end_line 0 0 0 0 0) }
{
    let at = listing_lines::put_refused(out, 0, 0, number);
    listing_lines::put_end(out, at, 0, 0, 0, 0, 0)
}
