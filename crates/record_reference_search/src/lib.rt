// Where a reference stands among ascending ones, each at the same distance from a position in bytes: by halving.
#![tactic(auto)]

ghost use Rattle.std.specs.Prelude.{length};
ghost use Rattle.types.specs.Values.{as_reference};
ghost use Rattle.record_reference_search.specs.Places.{reference_from, Ascending, FoundAmong};

use std::cmp::Ordering;
use types::BlockReference;

// The place of a reference among those that stand `skip` bytes after the positions, which ascend; where it is not among them, the place that it
// would have is the error.
pub fn find_place(
    s: &[u8],
    order: &[u64],
    skip: usize,
    block: BlockReference,
) -> Result<usize, usize>
    requires { Ascending s.now order.now skip }
    ensures { FoundAmong (length order.now) (reference_from s.now order.now skip) (as_reference block) result }
{
    let mut low = 0;
    let mut high = order.len();
    while low < high {
        let middle = low + (high - low) / 2;
        let at = order[middle] as usize;
        let compared = types::compare(record_reference_bytes::read_reference(s, at + skip), block);
        match compared {
            Ordering::Equal => {
                return Ok(middle);
            }
            Ordering::Less => {
                low = middle + 1;
            }
            Ordering::Greater => {
                high = middle;
            }
        }
    }
    Err(low)
}
