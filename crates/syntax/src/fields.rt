// Numbers parted by commas.
ghost use Rattle.syntax.specs.Fields.{ReadsFields, one, two, three};

use crate::cut::split;

// The most digits of a number.
const MOST_DIGITS: usize = 8;

// A decimal number of 1 to 8 digits, with no leading zero but `0` itself.
pub fn number(s: &[u8]) -> Option<u32>
    ensures { ReadsFields one s.now result }
{
    if s.is_empty() || s.len() > MOST_DIGITS {
        return None;
    }
    if s[0] == b'0' && s.len() > 1 {
        return None;
    }
    // A loop: `try_fold` ends at the first byte that is no digit as well, and is no shorter.
    let mut n = 0u32;
    for b in s {
        if !b.is_ascii_digit() {
            return None;
        }
        n = n * 10 + u32::from(*b - b'0');
    }
    Some(n)
}

// Two numbers.
pub fn pair(body: &[u8]) -> Option<(u32, u32)>
    ensures { ReadsFields two body.now result }
{
    // Not one `numbers<N>` for `pair` and `triple`, over the parts of the slice's own `split`: that has no proof yet, which
    // would need an invariant on the parts to come, where these two are proved by one cut each.
    let (first, second) = split(body, b',')?;
    Some((number(first)?, number(second)?))
}

// Three numbers.
pub fn triple(body: &[u8]) -> Option<(u32, u32, u32)>
    ensures { ReadsFields three body.now result }
{
    let (first, rest) = split(body, b',')?;
    let a = number(first)?;
    let (b, c) = pair(rest)?;
    Some((a, b, c))
}
