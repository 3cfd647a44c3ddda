// Text in a lent buffer, piece after piece: bytes as they are, and numbers in decimal. Bytes outside
// the piece keep their values. The definitions are in `specs/Text`, and in `laws` `specs/Put`. It rests
// on `laws` alone.
#![tactic(auto)]

ghost use Rattle.std.specs.Prelude.{◌+◌, ◌≤◌, ◌<◌, ◌≡◌, ◌++◌, length};
ghost use Rattle.text.specs.Text.{digit, zeros, decimal};
ghost use Rattle.laws.specs.Put.{Put};

// Writes `t` into the buffer from `at` on, and answers the place past it.
// Kept as a buffer and a place: a struct of both would have to be made, and its place given back, by every public
// function that writes.
pub fn put(out: &mut [u8], at: usize, t: &[u8]) -> usize
    requires { at + length t.now ≤ length out.old }
    ensures { Put at t.now out.old out.new result }
{
    let end = at + t.len();
    out[at..end].copy_from_slice(t);
    end
}

// The last decimal digit of `v`, as text.
fn digit_of(v: usize) -> u8
    ensures { result ≡ digit v }
{
    b'0' + (v % 10) as u8
}

// How many of the four decimal digits of `v`, below 10,000, are leading zeros.
// Kept as comparisons: `3 - v.checked_ilog10().unwrap_or(0)` is no plainer.
fn leading_zeros(v: usize) -> usize
    ensures { (result ≡ zeros v) × (result ≤ 3) }
{
    if v < 10 {
        return 3;
    }
    if v < 100 {
        return 2;
    }
    if v < 1000 { 1 } else { 0 }
}

// Writes `v` in decimal, without leading zeros, and answers the place past it. A number of more than
// four digits cannot be asked for, so none is printed with digits left out.
pub fn put_decimal(out: &mut [u8], at: usize, v: usize) -> usize
    requires { (at + 4 ≤ length out.old) × (v < 10000) }
    ensures { Put at (decimal v) out.old out.new result × (result ≤ at + 4) }
{
    let digits = [
        digit_of(v / 1000),
        digit_of(v / 100),
        digit_of(v / 10),
        digit_of(v),
    ];
    let zeros = leading_zeros(v);
    put(out, at, &digits[zeros..])
}

// Writes `t` and behind it `v` in decimal, and answers the place past both.
pub fn put_numbered(out: &mut [u8], at: usize, t: &[u8], v: usize) -> usize
    requires { (at + length t.now + 4 ≤ length out.old) × (v < 10000) }
    ensures { Put at (t.now ++ decimal v) out.old out.new result × (result ≤ at + length t.now + 4) }
{
    let at = put(out, at, t);
    put_decimal(out, at, v)
}
