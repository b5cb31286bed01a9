// Lines with one number.
ghost use Rattle.std.specs.Prelude.{[], ◌∷◌};
ghost use Rattle.records.specs.Layout.{single, between, one_of};
ghost use Rattle.syntax.specs.Fields.{one};
ghost use Rattle.reader.specs.Lines.{ReadsBody, ReadsLine};

use crate::lines::Lines;
use syntax::fault::*;
use syntax::fields::number;

// A number from `low` to `high`.
fn bounded_number(body: &[u8], low: u32, high: u32) -> Result<u32, TextRule>
    ensures { ReadsBody (between low high ∷ []) one.fields body.now result }
{
    let n = number(body).ok_or(TextRule::Number)?;
    if !(low..=high).contains(&n) {
        return Err(TextRule::Range);
    }
    Ok(n)
}

// One of the numbers `choices`.
fn chosen_number(body: &[u8], choices: &[u32]) -> Result<u32, TextRule>
    ensures { ReadsBody (one_of choices.now ∷ []) one.fields body.now result }
{
    let n = number(body).ok_or(TextRule::Number)?;
    if !choices.contains(&n) {
        return Err(TextRule::Range);
    }
    Ok(n)
}

impl Lines<'_> {
    // Reads a line with a number from `low` to `high`.
    pub(crate) fn bounded(&mut self, key: &[u8], low: u32, high: u32) -> Result<u32, TextFault>
        ensures { ReadsLine (single key.now (between low high)) one.fields self.old result self.new }
    {
        self.line(key, |body| bounded_number(body, low, high))
    }

    // Reads a line with one of the numbers `choices`.
    pub(crate) fn choice(&mut self, key: &[u8], choices: &[u32]) -> Result<u32, TextFault>
        ensures { ReadsLine (single key.now (one_of choices.now)) one.fields self.old result self.new }
    {
        self.line(key, |body| chosen_number(body, choices))
    }
}
