// Entering rows.
ghost use Rattle.std.specs.Prelude.{◌≡◌, length};
ghost use Rattle.law_table.specs.Entry.{RowLaid, RowEntered, impossible_if, causes, always};
ghost use Rattle.law_table.specs.Limits.{Fits, body_laid, row_with};

use super::draft::Draft;
use super::fault::EntryFault;
use arrayvec::ArrayVec;
use laws::{Body, Law};
use literals::Literal;

impl Draft {
    // An impossible row: the action cannot be done where the body is true.
    #[tactic(auto, using(crate::proofs::Entries::impossible_entered))]
    pub fn impossible(&mut self, action: u16, body: &[i16]) -> Result<(), EntryFault>
        ensures { RowEntered self.old (impossible_if action body.now) result self.new }
    {
        self.check_action(action)?;
        let literals = self.read_body(body)?;
        let body = self.next_body(&literals);
        self.lay(Law::Impossible { action, body }, literals.as_slice())
    }

    // An effect row: the action makes the head true where the body is true.
    #[tactic(auto, using(crate::proofs::Entries::effect_entered))]
    pub fn effect(&mut self, action: u16, head: i16, body: &[i16]) -> Result<(), EntryFault>
        ensures { RowEntered self.old (causes action head body.now) result self.new }
    {
        self.check_action(action)?;
        let head = self.read(head)?;
        let literals = self.read_body(body)?;
        let body = self.next_body(&literals);
        self.lay(Law::Effect { action, head, body }, literals.as_slice())
    }

    // A state law: where the body is true, the head is. With the head 0 the body must never be true.
    pub fn state_law(&mut self, head: i16, body: &[i16]) -> Result<(), EntryFault>
        ensures { RowEntered self.old (always head body.now) result self.new }
    {
        let head = self.read_head(head)?;
        let literals = self.read_body(body)?;
        let body = self.next_body(&literals);
        self.lay(Law::State { head, body }, literals.as_slice())
    }

    // A body of these literals, after those that there are.
    fn next_body(&self, literals: &ArrayVec<Literal, 8>) -> Body
        ensures from { result.from ≡ length self.now.literals.items }
        ensures count { result.count ≡ length literals.now.items }
    {
        Body {
            from: self.literals.len() as u16,
            count: literals.len() as u8,
        }
    }

    // Lays down a row whose body comes after the literals that there are.
    fn lay(&mut self, law: Law, body: &[Literal]) -> Result<(), EntryFault>
        requires from { (body_laid law).from ≡ length self.old.literals.items }
        requires count { (body_laid law).count ≡ length body.now }
        requires fits { Fits self.old.fluents self.old.actions (row_with law body.now) }
        ensures { RowLaid self.old (row_with law body.now) result self.new }
    {
        if self.laws.is_full() {
            return Err(EntryFault::Full);
        }
        match self.literals.try_extend_from_slice(body) {
            // Never: where a row has room, its literals have.
            Err(_) => Err(EntryFault::Full),
            Ok(()) => {
                self.laws.push(law);
                Ok(())
            }
        }
    }
}
