// Text written into a slice: decimal and hex numbers, and a name with numbers after it. Each function writes from `at` on and answers where it
// ended.
#![tactic(auto)]

ghost use Rattle.std.specs.Prelude.{◌≡◌, ◌+◌, ◌*◌, ◌≤◌, ◌<◌, length};
ghost use Rattle.listing_text.specs.Text.{decimal, hex_digit, hex, Wrote, numbers, number_line};

fn put_text(out: &mut [u8], at: usize, text: &[u8]) -> usize
    requires { at + length text.now ≤ length out.old }
    ensures { Wrote out.old out.new at result text.now }
{
    for i in 0..text.len() {
        out[at + i] = text[i];
    }
    at + text.len()
}

fn put_decimal(out: &mut [u8], at: usize, n: u64) -> usize
    requires { at + 20 ≤ length out.old }
    ensures { Wrote out.old out.new at result (decimal n) }
{
    if n < 10 {
        out[at] = (48 + n) as u8;
        return at + 1;
    }
    let next = put_decimal(out, at, n / 10);
    out[next] = (48 + n % 10) as u8;
    next + 1
}

fn hex_digit(d: u64) -> u8
    requires { d < 16 }
    ensures { result ≡ hex_digit d }
{
    if d < 10 {
        return (48 + d) as u8;
    }
    (87 + d) as u8
}

pub fn put_hex(out: &mut [u8], at: usize, n: u64, digits: usize) -> usize
    requires { at + digits ≤ length out.old }
    ensures { Wrote out.old out.new at result (hex digits n) }
{
    if digits == 0 {
        return at;
    }
    let next = put_hex(out, at, n / 16, digits - 1);
    out[next] = hex_digit(n % 16);
    next + 1
}

// Each number after a space.
fn put_numbers(out: &mut [u8], at: usize, ns: &[u64]) -> usize
    requires { at + 21 * length ns.now ≤ length out.old }
    ensures { Wrote out.old out.new at result (numbers ns.now) }
{
    let mut to = at;
    for number in ns {
        out[to] = 32;
        to = put_decimal(out, to + 1, *number);
    }
    to
}

// A name, the numbers, and one byte after them.
pub fn put_line(out: &mut [u8], at: usize, name: &[u8], ns: &[u64], last: u8) -> usize
    requires { at + length name.now + 21 * length ns.now < length out.old }
    ensures { Wrote out.old out.new at result (number_line name.now ns.now last) }
{
    let named = put_text(out, at, name);
    let to = put_numbers(out, named, ns);
    out[to] = last;
    to + 1
}
