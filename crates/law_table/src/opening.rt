// Beginning a draft, its goal and its start.
ghost use Rattle.std.specs.Prelude.{◌≡◌, ◌&&◌, ◌||◌, List, [], IfOk};
ghost use Rattle.literals.specs.Literal.{same};
ghost use Rattle.literals.specs.Set.{has};
ghost use Rattle.law_table.specs.Entry.{Begun, GoalEntered, StartEntered};
ghost use Rattle.law_table.specs.Start.{Given, GivenAfter};

use super::draft::Draft;
use super::fault::EntryFault;
use arrayvec::ArrayVec;
use literals::{Literal, LiteralSet};

impl Draft {
    // A draft of so many fluents and actions, with no row, no goal and no start.
    pub fn new(fluents: u16, actions: u16) -> Result<Draft, EntryFault>
        ensures begun { Begun fluents actions result }
        ensures given { IfOk result (λ d. Given d []) }
    {
        if fluents == 0 || fluents > 64 || actions > 200 {
            return Err(EntryFault::OutOfRange);
        }
        Ok(Draft {
            fluents: fluents as u8,
            actions,
            laws: ArrayVec::new(),
            literals: ArrayVec::new(),
            goal: ArrayVec::new(),
            given: LiteralSet::new(),
            again: LiteralSet::new(),
        })
    }

    // One literal more has to be true for the goal.
    pub fn goal(&mut self, number: i16) -> Result<(), EntryFault>
        ensures { GoalEntered self.old number result self.new }
    {
        let literal = self.read(number)?;
        if self.goal.is_full() {
            return Err(EntryFault::Full);
        }
        self.goal.push(literal);
        Ok(())
    }

    // A literal is true at the start.
    pub fn start(&mut self, number: i16) -> Result<(), EntryFault>
        ensures entered { StartEntered self.old number result self.new }
        ensures given { (ls : List Literal) → Given self.old ls → GivenAfter ls number result self.new }
    {
        let literal = self.read(number)?;
        self.again = repeated(self.given, self.again, literal);
        self.given.insert(literal);
        Ok(())
    }
}

// The literals that were given more than once, when one more is given.
fn repeated(given: LiteralSet, again: LiteralSet, literal: Literal) -> LiteralSet
    ensures { (k : Literal) → has result k ≡ ((same literal k && has given literal) || has again k) }
{
    if !given.contains(literal) {
        return again;
    }
    let mut more = again;
    more.insert(literal);
    more
}
