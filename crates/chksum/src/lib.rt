// The mailbox's sums: the chksum that a request must have, with the bytes of its code, and the chksum
// of a response, without them, written in front of it. The definitions are in `specs/Chksum`, the
// laws for callers in `specs/Laws`. It rests on `endian` and `laws`.
#![tactic(auto)]

ghost use Rattle.std.specs.Prelude.{◌≡◌, ◌+◌, ◌%◌, ◌^◌, ◌≤◌, length, drop};
ghost use Rattle.std.specs.List.{fold};
ghost use Rattle.endian.specs.Endian.{bytes4};
ghost use Rattle.chksum.specs.Chksum.{sum_bytes, minus, request_sum, closed};

// The sum of every byte after chksum on top of `start`, wrapping in 32 bits.
fn sum_on(start: u32, message: &[u8]) -> u32
    ensures { result ≡ fold (λ sum byte. (sum + byte) % 2 ^ 32) start (drop 4 message.now) }
{
    match message.get(4..) {
        Some(body) => body
            .iter()
            .fold(start, |sum, byte| sum.wrapping_add(*byte as u32)),
        None => start,
    }
}

// The chksum of a message: 0 minus what it sums, wrapping in 32 bits. It sums every
// byte after chksum on top of `start`: the sum of the code's bytes for a request, 0 for a response.
fn chksum_of(start: u32, message: &[u8]) -> u32
    ensures { result ≡ minus (start + sum_bytes (drop 4 message.now)) }
{
    0u32.wrapping_sub(sum_on(start, message))
}

// The sum of the four bytes of a code.
fn code_sum(code: u32) -> u32
    ensures { result ≡ sum_bytes (bytes4 code) }
{
    code % 256 + code / 256 % 256 + code / 65536 % 256 + code / 16777216
}

// The chksum that a request with this code must have.
pub fn request_sum(code: u32, request: &[u8]) -> u32
    ensures { result ≡ request_sum code request.now }
{
    chksum_of(code_sum(code), request)
}

// Writes the chksum of a response of `n` bytes in front of the bytes that it sums.
pub fn close(out: &mut [u8], n: usize)
    requires { (4 ≤ n) × (n ≤ length out.old) }
    ensures { out.new ≡ closed n out.old }
{
    let chksum = chksum_of(0, &out[..n]);
    let _ = endian::put_u32(out, 0, chksum);
}
