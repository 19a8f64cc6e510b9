// The lines of a stretch of final locators.
#![tactic(auto)]

ghost use Rattle.std.specs.Prelude.{◌+◌, ◌<◌};
ghost use Rattle.listing_final_lines.specs.Lines.{PutLines};

// A stretch of final locators: their block's round, author and the first four bytes of its digest as a number, the first one highest; the first
// offset, how many there are, the number of certifying blocks and their authors' stake.
#[derive(Clone, Copy)]
pub struct Stretch {
    pub round: u64,
    pub author: u64,
    pub head: u64,
    pub first: u64,
    pub lines: u64,
    pub blocks: u64,
    pub stake: u64,
}

// How many bytes were put, and how many lines of the stretch there are with these and those before them.
#[derive(Clone, Copy)]
pub struct Part {
    pub put: usize,
    pub done: u64,
}

// Puts the lines of a stretch in front, from the line of index `done` on, as many as fit.
pub fn put_lines(out: &mut [u8], stretch: Stretch, done: u64) -> Part
    requires { stretch.first + stretch.lines < 18446744073709551616 }
    ensures { PutLines stretch done result out.old out.new }
{
    let mut at = 0;
    let mut next = done;
    while next < stretch.lines {
        if out.len() - at < 128 {
            return Part {
                put: at,
                done: next,
            };
        }
        at = listing_lines::put_final(
            out,
            at,
            stretch.round,
            stretch.author,
            stretch.head,
            stretch.first + next,
            stretch.blocks,
            stretch.stake,
        );
        next += 1;
    }
    Part {
        put: at,
        done: next,
    }
}
