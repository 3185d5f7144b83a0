// The numbers of an entry, read.
ghost use Rattle.law_table.specs.Entry.{LiteralRead, HeadRead, ActionRead, BodyRead};

use super::draft::Draft;
use super::fault::EntryFault;
use arrayvec::ArrayVec;
use literals::Literal;

impl Draft {
    // A literal of the draft's fluents.
    pub(crate) fn read(&self, number: i16) -> Result<Literal, EntryFault>
        ensures { LiteralRead self.now.fluents number result }
    {
        let literal = Literal::try_from(number)?;
        if literal.fluent() > self.fluents {
            return Err(EntryFault::OutOfRange);
        }
        Ok(literal)
    }

    // The head of a state law: none for 0.
    pub(crate) fn read_head(&self, number: i16) -> Result<Option<Literal>, EntryFault>
        ensures { HeadRead self.now.fluents number result }
    {
        match number {
            0 => Ok(None),
            _ => Ok(Some(self.read(number)?)),
        }
    }

    // Whether there is such an action.
    pub(crate) fn check_action(&self, action: u16) -> Result<(), EntryFault>
        ensures { ActionRead self.now.actions action result }
    {
        match action {
            0 => Err(EntryFault::OutOfRange),
            a if a > self.actions => Err(EntryFault::OutOfRange),
            _ => Ok(()),
        }
    }

    // The literals of a body.
    pub(crate) fn read_body(&self, body: &[i16]) -> Result<ArrayVec<Literal, 8>, EntryFault>
        ensures { BodyRead self.now.fluents body.now result }
    {
        if body.len() > 8 {
            return Err(EntryFault::OutOfRange);
        }
        let mut literals = ArrayVec::new();
        for number in body {
            literals.push(self.read(*number)?);
        }
        Ok(literals)
    }
}
