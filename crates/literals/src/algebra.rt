// Sets of literals made of other sets, and the set of what is true in a state.
ghost use Rattle.std.specs.Prelude.{◌≡◌, ℕ, ◌<◌, ◌&&◌, ◌||◌, ◌==◌, not, nat_lt};
ghost use Rattle.std.specs.Int.{bit_at};
ghost use Rattle.literals.specs.Literal.{opposite};
ghost use Rattle.literals.specs.Set.{has};
ghost use Rattle.literals.specs.State.{is_true};

use super::literal::Literal;
use super::set::LiteralSet;
use super::state::{State, lowest};

impl LiteralSet {
    // What is in one of the two sets.
    pub fn joined(self, other: LiteralSet) -> LiteralSet
        ensures { (l : Literal) → has result l ≡ (has self l || has other l) }
    {
        LiteralSet {
            holds: self.holds | other.holds,
            fails: self.fails | other.fails,
        }
    }

    // What is in this set and has no opposite in the other.
    pub fn kept(self, against: LiteralSet) -> LiteralSet
        ensures { (l : Literal) → has result l ≡ (has self l && not (has against (opposite l))) }
    {
        LiteralSet {
            holds: without(self.holds, against.fails),
            fails: without(self.fails, against.holds),
        }
    }
}

impl State {
    // What is true of the first so many fluents.
    pub fn literals(self, fluents: u8) -> LiteralSet
        ensures { (l : Literal) → has result l ≡ (nat_lt l.place fluents && is_true self l) }
    {
        let mask = lowest(fluents);
        LiteralSet {
            holds: self.bits & mask,
            fails: without(mask, self.bits),
        }
    }
}

// The bits of a word that the other does not have.
fn without(word: u64, other: u64) -> u64
    ensures { (i : ℕ) → i < 64 → (bit_at result i == 1) ≡ ((bit_at word i == 1) && not (bit_at other i == 1)) }
{
    word & !other
}
