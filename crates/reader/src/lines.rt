// A text, read line after line.
ghost use Rattle.std.specs.Prelude.{◌+◌, ◌^◌, ◌<◌, length};

use syntax::cut::cut_line;
use syntax::fault::*;

// What is left of a text.
#[derive(Drop)]
pub(crate) struct Lines<'a> {
    rest: &'a [u8],
    // The number of the next line.
    next: usize,
    // Each line has a byte at least, so the numbers of those to come fit.
    ghost fits: { next + length rest.now < 2 ^ 64 },
}

impl<'a> Lines<'a> {
    ghost use Rattle.std.specs.Prelude.{◌≡◌, ℕ, Bool, List};
    ghost use Rattle.std.specs.Fn.{FnOnceReturnsAt};
    ghost use Rattle.reader.specs.Lines.{form, ReadsBody, ReadsLine, Ends};

    // The lines of `text`, from the first.
    pub(crate) fn new(text: &'a [u8]) -> Lines<'a>
        ensures rest { result.rest.now ≡ text.now }
        ensures next { result.next ≡ 1 }
    {
        Lines {
            rest: text,
            next: 1,
        }
    }

    // What is told of the next line, where it breaks `rule`.
    fn fault(&self, rule: TextRule) -> TextFault
        ensures rule { result.rule ≡ rule }
        ensures place { result.place ≡ self.now.next }
    {
        TextFault {
            rule,
            place: self.next,
        }
    }

    // What `read` makes of that which stands behind `key` on the next line.
    pub(crate) fn line<T, F: FnOnce(&[u8]) -> Result<T, TextRule>>(
        &mut self,
        key: &[u8],
        read: F,
    ) -> Result<T, TextFault>
        requires { F.IsAlwaysCallable read }
        ensures { (ranges : List (ℕ → Bool)) (row : T → List ℕ) → ((body : List ℕ) (r : _) → FnOnceReturnsAt F.FnOnce read body r → ReadsBody ranges row body r) → ReadsLine (form key.now ranges) row self.old result self.new }
    {
        let (body, rest) = cut_line(self.rest, key).ok_or(self.fault(TextRule::Line))?;
        match read(body) {
            Ok(value) => {
                *self = Lines {
                    rest,
                    next: self.next + 1,
                };
                Ok(value)
            }
            Err(rule) => Err(self.fault(rule)),
        }
    }

    // Whether there are no more lines, or one too many.
    pub(crate) fn end(&self) -> Result<(), TextFault>
        ensures { Ends self.now result }
    {
        if !self.rest.is_empty() {
            return Err(self.fault(TextRule::Line));
        }
        Ok(())
    }
}
