// What can be wrong, and where.
ghost use Rattle.std.specs.Prelude.{◌≡◌, ℕ};
ghost use Rattle.syntax.specs.Fault.{number};

// What one layer holds its input to, rule by rule; each rule has the number of its refusal.
pub trait Rule {
    ghost number: { Self → ℕ };

    fn number(&self) -> u32
        ensures { result ≡ number self.now };
}

// A broken rule, and the place that breaks it.
#[derive(Clone, Copy, PartialEq, Eq, Debug)]
pub struct Fault<R> {
    pub rule: R,
    pub place: usize,
}

impl<R: Rule> Fault<R> {
    // The number of the refusal.
    pub fn number(&self) -> u32
        ensures { result ≡ R.number self.now.rule }
    {
        self.rule.number()
    }
}

// The rules that a text is held to, in the order in which a line is held to them, with the numbers of their refusals.
#[derive(Clone, Copy, PartialEq, Eq, Debug)]
pub enum TextRule {
    // The text is longer than a record may be.
    TooLong = 1,
    // A line has another key or no end, or there is a line too many.
    Line = 2,
    // A line's numbers are malformed, too few or too many.
    Number = 3,
    // A number is outside its range.
    Range = 4,
}

// The line that breaks a rule, from 1; a text that is too long has place 0.
pub type TextFault = Fault<TextRule>;

impl Rule for TextRule {
    ghost number = { number };

    fn number(&self) -> u32 {
        *self as u32
    }
}
