// The questions, which change nothing.
ghost use Rattle.std.specs.Prelude.{◌≡◌};
ghost use Rattle.calls.specs.Answers.{figure_answer, ask_answer, stand_answer};
ghost use Rattle.calls.specs.Outcomes.{WriteCall, ListCall};
ghost use Rattle.bench.specs.View.{view};

use super::Bench;
use calls::call::*;
use calls::fault::*;
use calls::refusal::*;
use categories::category::Category;
use figure::outcome::Figures;

impl Bench {
    // Writes the record's text to the front of a buffer, and answers its length.
    pub fn write(&self, out: &mut [u8]) -> Result<usize, Refusal>
        ensures { WriteCall out.old (view self.now) result out.new }
    {
        self.admit(Call::Write)?;
        Ok(writer::write(&self.task().record, out)?)
    }

    // The worst case in cycles, and the greatest pair of charged misses and fetches.
    pub fn figure(&self) -> Result<Figures, Refusal>
        ensures { result ≡ figure_answer (view self.now) }
    {
        self.admit(Call::Figure)?;
        Ok(self.examined().found.figures)
    }

    // The category of a fetch of a block at one of the block's levels, the innermost being level 0.
    pub fn ask(&self, block: usize, fetch: u32, level: usize) -> Result<Category, Refusal>
        ensures { result ≡ ask_answer (view self.now) block fetch level }
    {
        self.admit(Call::Ask)?;
        Ok(self.examined().category(block, fetch, level)?)
    }

    // Writes the lines of a block's fetches to the front of a buffer, and answers their length.
    pub fn list(&self, block: usize, out: &mut [u8]) -> Result<usize, Refusal>
        ensures { ListCall block out.old (view self.now) result out.new }
    {
        self.admit(Call::List)?;
        let examined = self.examined();
        if block >= examined.task.record.blocks.len() {
            return Err(Refusal::Bench(BenchFault::NoSuch(Part::Block)));
        }
        Ok(listing::list(&examined.task, &examined.found, block, out)?)
    }

    // Where the open walk stands, and what it has counted.
    pub fn stand(&self) -> Result<Standing, Refusal>
        ensures { result ≡ stand_answer (view self.now) }
    {
        self.admit(Call::Stand)?;
        Ok(Standing::from(self.walk()))
    }
}
