// Little-endian numbers in a slice of bytes, read and written. A byte past the end reads as 0, so
// that each reader answers for every slice and place; the writer asks for room. The definitions are
// in `specs/Endian`. It rests on `laws` alone.
#![tactic(auto)]

ghost use Rattle.std.specs.Prelude.{◌≡◌, ◌+◌, ◌≤◌, ◌<◌, length};
ghost use Rattle.laws.specs.Put.{Put};
ghost use Rattle.endian.specs.Endian.{byte_at, u16_at, u32_at, bytes4};

// The byte at `k`.
pub fn byte_at(bytes: &[u8], k: usize) -> u8
    ensures { result ≡ byte_at bytes.now k }
{
    bytes.get(k).copied().unwrap_or(0)
}

// The u16 whose low byte is at `k`. Where both bytes are there they are read without a further test.
pub fn u16_at(bytes: &[u8], k: usize) -> u16
    ensures { result ≡ u16_at bytes.now k }
{
    if 2 <= bytes.len() && k <= bytes.len() - 2 {
        u16::from(bytes[k]) + 256 * u16::from(bytes[k + 1])
    } else {
        u16::from(byte_at(bytes, k))
    }
}

// The u32 whose lowest byte is at `k`.
pub fn u32_at(bytes: &[u8], k: usize) -> u32
    ensures { result ≡ u32_at bytes.now k }
{
    if bytes.len() <= k {
        return 0;
    }
    let low = u16_at(bytes, k);
    let high = u16_at(bytes, k + 2);
    u32::from(low) + 65536 * u32::from(high)
}

// Writes the four bytes of `v` into the buffer from `at` on, and answers the place past them.
// Kept as four stores: `to_le_bytes` is an array, and by P3 no array of ours holds response bytes.
pub fn put_u32(out: &mut [u8], at: usize, v: u32) -> usize
    requires { at + 4 ≤ length out.old }
    ensures { Put at (bytes4 v) out.old out.new result }
{
    out[at] = (v % 256) as u8;
    out[at + 1] = (v / 256 % 256) as u8;
    out[at + 2] = (v / 65536 % 256) as u8;
    out[at + 3] = (v / 16777216) as u8;
    at + 4
}
