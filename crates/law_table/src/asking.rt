// What a draft has.
ghost use Rattle.std.specs.Prelude.{◌≡◌, ◌+◌, true, List};
ghost use Rattle.law_table.specs.Start.{Given, Unstarted, UnstartedOf, starts_once};
ghost use Rattle.laws.specs.Code.{rows_of};
ghost use Rattle.law_table.specs.Entry.{rows};

use super::draft::Draft;
use laws::Rows;
use literals::Literal;

impl Draft {
    pub fn fluents(&self) -> u8
        ensures { result ≡ self.now.fluents }
    {
        self.fluents
    }

    pub fn actions(&self) -> u16
        ensures { result ≡ self.now.actions }
    {
        self.actions
    }

    // The rows in order of entry.
    pub fn rows(&self) -> Rows<'_>
        ensures { rows_of result.literals.now result.laws.now ≡ rows self.now }
    {
        Rows {
            laws: self.laws.as_slice(),
            literals: self.literals.as_slice(),
        }
    }

    // The literals of the goal in order of entry.
    pub fn goals(&self) -> &[Literal]
        ensures { result.now ≡ self.now.goal.items }
    {
        self.goal.as_slice()
    }

    // The lowest fluent that has not exactly one start literal.
    #[tactic(auto, using(crate::proofs::Counts::unstarted_of))]
    pub fn unstarted(&self) -> Option<u8>
        ensures first { Unstarted self.now result }
        ensures of_given { (ls : List Literal) → Given self.now ls → UnstartedOf self.now ls result }
    {
        for place in 0..self.fluents {
            if !self.starts_once(place + 1) {
                return Some(place + 1);
            }
        }
        None
    }

    // Whether a fluent has exactly one start literal.
    fn starts_once(&self, fluent: u8) -> bool
        ensures { (l : Literal) → l.holds ≡ true → l.place + 1 ≡ fluent → result ≡ starts_once self.now l }
    {
        match Literal::try_from(i16::from(fluent)) {
            Ok(literal) => self.is_once(literal),
            Err(_) => false,
        }
    }

    fn is_once(&self, literal: Literal) -> bool
        ensures { result ≡ starts_once self.now literal }
    {
        let other = literal.opposite();
        let one = self.given.contains(literal) != self.given.contains(other);
        one && !self.again.contains(literal) && !self.again.contains(other)
    }
}
