// States of up to 64 fluents.
ghost use Rattle.std.specs.Prelude.{◌≡◌, ◌↔◌, IsTrue};
ghost use Rattle.literals.specs.State.{is_true, lowest, Fits};

use super::literal::Literal;

// The word whose lowest bits, as many as there are fluents, are set.
pub(crate) fn lowest(fluents: u8) -> u64
    ensures { result ≡ lowest fluents }
{
    if fluents < 64 {
        (1 << fluents) - 1
    } else {
        u64::MAX
    }
}

// Which fluents are true: bit f - 1 for fluent f.
#[derive(Clone, Copy, PartialEq, Eq, Debug)]
pub struct State {
    pub(crate) bits: u64,
}

impl State {
    pub fn new(bits: u64) -> State
        ensures { result.bits ≡ bits }
    {
        State { bits }
    }

    pub fn bits(self) -> u64
        ensures { result ≡ self.bits }
    {
        self.bits
    }

    // Whether a literal is true.
    pub fn is_true(self, l: Literal) -> bool
        ensures { result ≡ is_true self l }
    {
        (self.bits >> l.place() & 1 == 1) == l.holds()
    }

    // Whether no fluent is true beyond the first `fluents`.
    #[tactic(auto, using(crate::proofs::States::fits_iff))]
    pub fn fits(self, fluents: u8) -> bool
        ensures { IsTrue result ↔ Fits self fluents }
    {
        let first = self.bits & lowest(fluents);
        first == self.bits
    }
}
