// Numbers as text: the digits of a number and the byte that ends them, written into a lent slice.
// Kept: not `write!`, which has a contract for a String alone, and that is heap.
ghost use Rattle.std.specs.Prelude.{◌≡◌, ◌+◌, ◌≤◌, ◌<◌, length};
ghost use Rattle.replay_text.specs.Digits as spec;
ghost use Rattle.text_report.specs.Placed.{Wrote};

// The digits of 64 bits, at most in decimal and always in hexadecimal.
const DECIMAL_DIGITS: usize = 20;

pub(crate) const HEXADECIMAL_DIGITS: usize = 16;

// The last `count` digits of n, and the byte `end`; the place after them.
pub(crate) fn put_digits(
    out: &mut [u8],
    at: usize,
    base: u64,
    count: usize,
    n: u64,
    end: u8,
) -> usize
    requires { (at + count < length out.old) × (0 < base) × (base ≤ 16) }
    ensures { Wrote (spec.ended_by end (spec.digits base count n)) out.old at out.new result }
{
    let mut rest = n;
    for i in (0..count).rev() {
        out[at + i] = glyph(rest % base);
        rest /= base;
    }
    out[at + count] = end;
    at + count + 1
}

fn glyph(d: u64) -> u8
    requires { d < 16 }
    ensures { result ≡ spec.glyph d }
{
    if d < 10 {
        b'0' + d as u8
    } else {
        b'a' + (d as u8 - 10)
    }
}

// How many decimal digits n has.
// Kept: a division to a digit, as the definition `places` counts them.
pub(crate) fn places(n: u64) -> usize
    ensures { (result ≡ spec.places n) × (result ≤ spec.decimal_digits) }
{
    let mut rest = n;
    for count in 1..DECIMAL_DIGITS {
        if rest < 10 {
            return count;
        }
        rest /= 10;
    }
    DECIMAL_DIGITS
}
