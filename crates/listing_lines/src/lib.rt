// The lines of `listing`, each of at most 128 bytes.
#![tactic(auto)]

ghost use Rattle.std.specs.Prelude.{◌+◌, ◌≤◌, length};
ghost use Rattle.listing_lines.specs.Lines.{refused_line, event_line, final_line, end_line};
ghost use Rattle.listing_text.specs.Text.{Wrote};

// `refused K N`
pub fn put_refused(out: &mut [u8], at: usize, k: u64, number: u64) -> usize
    requires { at + 128 ≤ length out.old }
    ensures { Wrote out.old out.new at result (refused_line k number) }
{
    let ns = [k, number];
    listing_text::put_line(out, at, b"refused", &ns, b'\n')
}

// `processed K S O`, `late K S O` or `unknown K S O`
pub fn put_event(out: &mut [u8], at: usize, kind: u64, k: u64, statement: u64, offset: u64) -> usize
    requires { at + 128 ≤ length out.old }
    ensures { Wrote out.old out.new at result (event_line kind k statement offset) }
{
    let ns = [k, statement, offset];
    if kind == 1 {
        return listing_text::put_line(out, at, b"processed", &ns, b'\n');
    }
    if kind == 2 {
        return listing_text::put_line(out, at, b"late", &ns, b'\n');
    }
    listing_text::put_line(out, at, b"unknown", &ns, b'\n')
}

// `final ROUND AUTHOR D OFFSET BLOCKS STAKE`, of the digest its first four bytes as a number, the first one highest
pub fn put_final(
    out: &mut [u8],
    at: usize,
    round: u64,
    author: u64,
    digest: u64,
    offset: u64,
    blocks: u64,
    stake: u64,
) -> usize
    requires { at + 128 ≤ length out.old }
    ensures { Wrote out.old out.new at result (final_line round author digest offset blocks stake) }
{
    let who = [round, author];
    let rest = [offset, blocks, stake];
    let named = listing_text::put_line(out, at, b"final", &who, b' ');
    let to = listing_text::put_hex(out, named, digest, 8);
    listing_text::put_line(out, to, b"", &rest, b'\n')
}

// `end` with the five counts
pub fn put_end(
    out: &mut [u8],
    at: usize,
    accepted: u64,
    refused: u64,
    processed: u64,
    pending: u64,
    finals: u64,
) -> usize
    requires { at + 128 ≤ length out.old }
    ensures { Wrote out.old out.new at result (end_line accepted refused processed pending finals) }
{
    let ns = [accepted, refused, processed, pending, finals];
    listing_text::put_line(out, at, b"end", &ns, b'\n')
}
