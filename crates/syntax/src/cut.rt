// Where a text is cut.
ghost use Rattle.syntax.specs.Cut.{Splits, CutsLine};

// What stands before the first `byte` of `s`, and what stands after it.
pub fn split(s: &[u8], byte: u8) -> Option<(&[u8], &[u8])>
    ensures { Splits byte s.now result }
{
    let i = s.iter().position(|b| *b == byte)?;
    Some((&s[..i], &s[i + 1..]))
}

// What stands on the line that `text` begins with, after its `key`, and what follows the line.
pub fn cut_line<'a>(text: &'a [u8], key: &[u8]) -> Option<(&'a [u8], &'a [u8])>
    ensures { CutsLine key.now text.now result }
{
    let rest = text.strip_prefix(key)?;
    split(rest, b'\n')
}
