// Writing text into a lent buffer, which may be too short for it.
#![tactic(auto)]

ghost use Rattle.std.specs.Prelude.{◌≡◌, ◌+◌, ◌≤◌, length, decimal};
ghost use Rattle.buffer.specs.Put.{Put, Puts};

// Copies `bytes` into `out` from `at` on, and says where they end. Where they do not fit, `out` stays as it is.
pub fn put_bytes(out: &mut [u8], at: usize, bytes: &[u8]) -> Option<usize>
    ensures { Puts at bytes.now out.old result out.new }
{
    // Buffer and place are two parameters only in this crate, which writes lent bytes: what lays text behind text holds
    // both in one struct.
    let end = at.checked_add(bytes.len())?;
    if end > out.len() {
        return None;
    }
    out[at..end].copy_from_slice(bytes);
    Some(end)
}

// Writes the digits of `n` into `out` from `at` on, and says where they end. Where they do not fit, `out` stays as it is.
pub fn put_number(out: &mut [u8], at: usize, n: u64) -> Option<usize>
    ensures { Puts at (decimal n) out.old result out.new }
{
    let end = at.checked_add(number_length(n))?;
    if end > out.len() {
        return None;
    }
    Some(put_digits(out, at, n))
}

// How many digits `n` has.
pub fn number_length(n: u64) -> usize
    ensures { result ≡ length (decimal n) }
{
    if n < 10 { 1 } else { number_length(n / 10) + 1 }
}

// Writes the digits of `n`, which fit: those before the last one first.
fn put_digits(out: &mut [u8], at: usize, n: u64) -> usize
    requires { at + length (decimal n) ≤ length out.old }
    ensures { Put at (decimal n) out.old result out.new }
{
    let last = if n < 10 {
        at
    } else {
        put_digits(out, at, n / 10)
    };
    out[last] = b'0' + (n % 10) as u8;
    last + 1
}
