// Sets of literals.
ghost use Rattle.std.specs.Prelude.{◌≡◌, ◌↔◌, IsTrue, true, false, ◌||◌};
ghost use Rattle.literals.specs.Literal.{same};
ghost use Rattle.literals.specs.State.{is_true};
ghost use Rattle.literals.specs.Set.{has, insert, Consistent, Includes};

use super::literal::Literal;
use super::state::State;

// A set of literals, as two words: bit f - 1 of `holds` for the literal f, of `fails` for the literal -f.
#[derive(Clone, Copy, PartialEq, Eq, Debug)]
pub struct LiteralSet {
    pub(crate) holds: u64,
    pub(crate) fails: u64,
}

impl LiteralSet {
    pub fn new() -> LiteralSet
        ensures { (l : Literal) → has result l ≡ false }
    {
        LiteralSet { holds: 0, fails: 0 }
    }

    pub fn contains(self, l: Literal) -> bool
        ensures { result ≡ has self l }
    {
        let word = if l.holds() { self.holds } else { self.fails };
        word >> l.place() & 1 == 1
    }

    // Adds a literal.
    #[tactic(auto, using(crate::proofs::Insert::insert_true, crate::proofs::Insert::insert_false, crate::proofs::Insert::has_true, crate::proofs::Insert::has_false))]
    pub fn insert(&mut self, l: Literal)
        ensures exact { self.new ≡ insert self.old l }
        ensures has { (k : Literal) → has self.new k ≡ (same l k || has self.old k) }
    {
        if l.holds() {
            self.holds |= 1 << l.place();
        } else {
            self.fails |= 1 << l.place();
        }
    }

    // Whether it has no literal together with its opposite.
    #[tactic(auto, using(crate::proofs::Sets::consistent_iff))]
    pub fn is_consistent(self) -> bool
        ensures { IsTrue result ↔ Consistent self }
    {
        self.holds & self.fails == 0
    }

    // Whether it has each literal of the other set.
    #[tactic(auto, using(crate::proofs::Sets::includes_by_fails, crate::proofs::Sets::includes_by_holds))]
    pub fn includes(self, other: LiteralSet) -> bool
        ensures { IsTrue result ↔ Includes self other }
    {
        other.holds & self.holds == other.holds && other.fails & self.fails == other.fails
    }

    // The state in which a fluent is true exactly where the set says so.
    pub fn state(self) -> State
        ensures bits { result.bits ≡ self.holds }
        ensures is_true { (l : Literal) → l.holds ≡ true → is_true result l ≡ has self l }
    {
        State::new(self.holds)
    }
}
