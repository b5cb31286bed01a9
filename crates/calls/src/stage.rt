// The stages of a bench, by name and number.
ghost use Rattle.std.specs.Prelude.{◌≡◌};
ghost use Rattle.calls.specs.Fault.{stage_number};

#[derive(Clone, Copy)]
pub enum StageName {
    Unused = 0,
    Loaded = 1,
    Examined = 2,
    Walking = 3,
}

impl StageName {
    // The number that a refusal places the stage by.
    pub fn number(self) -> usize
        ensures { result ≡ stage_number self }
    {
        self as usize
    }
}
