// Why a record is refused.
ghost use Rattle.std.specs.Prelude.{◌≡◌, Some};
ghost use Rattle.load.specs.Refusal.{number, layer, place, refusal_line, carried};
ghost use Rattle.load.specs.declared.refusal.Refusal.TheVariants.{Graph};

use reader::error::ReadError;
use std::fmt;
use syntax::fault::TextFault;
use task::fault::GraphFault;

// A refusal carries the fault of the layer that found it, whole.
#[derive(Clone, Copy, PartialEq, Eq, Debug)]
pub enum Refusal {
    Text(TextFault),
    Graph(GraphFault),
    NoMemory,
}

impl From<ReadError> for Refusal {
    ghost from_gives = { λ e r. r ≡ carried e };

    fn from(error: ReadError) -> Refusal {
        match error {
            ReadError::Fault(fault) => Refusal::Text(fault),
            ReadError::NoMemory => Refusal::NoMemory,
        }
    }
}

impl From<GraphFault> for Refusal {
    ghost from_gives = { λ f r. r ≡ Graph f };

    fn from(broken: GraphFault) -> Refusal {
        Refusal::Graph(broken)
    }
}

impl Refusal {
    // The number of the refusal; 0 where memory ran out.
    pub fn number(&self) -> u32
        ensures { result ≡ number self.now }
    {
        // The fault answers, as for `place`: faults of two layers are two types, so an arm for each.
        match self {
            Refusal::Text(fault) => fault.number(),
            Refusal::Graph(fault) => fault.number(),
            Refusal::NoMemory => 0,
        }
    }

    // The layer that refuses.
    pub fn layer(&self) -> &'static str
        ensures { result.now ≡ layer self.now }
    {
        match self {
            Refusal::Text(_) => "text",
            Refusal::Graph(_) => "graph",
            Refusal::NoMemory => "memory",
        }
    }

    // The line, loop, block or edge that is refused.
    pub fn place(&self) -> usize
        ensures { result ≡ place self.now }
    {
        match self {
            Refusal::Text(fault) => fault.place,
            Refusal::Graph(fault) => fault.place,
            Refusal::NoMemory => 0,
        }
    }
}

impl fmt::Display for Refusal {
    ghost output = { λ x. Some (refusal_line x) };

    fn fmt<W: fmt::Write>(&self, f: &mut fmt::Formatter<W>) -> fmt::Result {
        let number = self.number();
        let layer = self.layer();
        let place = self.place();
        write!(f, "refused={number},{layer},{place}")
    }
}
