// What is printed of the bench's answers.
use calls::call::Standing;
use calls::refusal::Refusal;
use categories::category::Category;
use figure::outcome::Figures;
use std::fmt;

// What the bench answers to a call that it takes.
#[derive(Clone, Copy)]
pub enum Answer {
    Loaded,
    Started,
    Stepped,
    Closed,
    Passes(u32),
    Figures(Figures),
    Category(Category),
    Standing(Standing),
}

impl fmt::Display for Answer {
    fn fmt<W: fmt::Write>(&self, f: &mut fmt::Formatter<W>) -> fmt::Result {
        match self {
            Answer::Loaded => write!(f, "loaded"),
            Answer::Started => write!(f, "started"),
            Answer::Stepped => write!(f, "stepped"),
            Answer::Closed => write!(f, "closed"),
            Answer::Passes(passes) => write!(f, "passes={passes}"),
            Answer::Figures(figures) => {
                let cycles = figures.cycles;
                let (charged, fetches) = figures.greatest;
                write!(f, "figure={cycles}\ncharged={charged}\nfetches={fetches}")
            }
            Answer::Category(category) => write!(f, "category={}", category.letters()),
            Answer::Standing(standing) => {
                let Standing {
                    block,
                    cycles,
                    misses,
                    fetches,
                } = standing;
                write!(
                    f,
                    "block={block}\ncycles={cycles}\nmisses={misses}\nfetches={fetches}"
                )
            }
        }
    }
}

// Prints what is answered, or the refusal.
pub fn print_answer(rt: &HostRuntime, answer: Result<Answer, Refusal>) -> anyhow::Result<()> {
    match answer {
        Ok(answer) => println!(rt; "{answer}")?,
        Err(refusal) => println!(rt; "{refusal}")?,
    }
    Ok(())
}
