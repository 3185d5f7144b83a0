// Rows with the literals of their bodies beside them, and the closure of a set of literals under the state laws.
ghost use Rattle.std.specs.Prelude.{◌≡◌};
ghost use Rattle.laws.specs.Code.{body_of, row_of, rows_of, grown, run, closed_set};
ghost use Rattle.laws.specs.Rows.{Closure, lies_in};
ghost use Rattle.literals.specs.Set.{has};

use super::law::{Body, Law};
use literals::{Literal, LiteralSet};

#[derive(Clone, Copy)]
pub struct Rows<'a> {
    pub laws: &'a [Law],
    pub literals: &'a [Literal],
}

// Whether each literal of a body is in the set. It is left at the first that is not.
pub(crate) fn lies_in(body: &[Literal], set: LiteralSet) -> bool
    ensures { result ≡ lies_in body.now (has set) }
{
    body.iter().all(|literal| set.contains(*literal))
}

impl<'a> Rows<'a> {
    // The literals of a body. A body that reaches beyond those that there are has fewer.
    pub fn body(&self, body: Body) -> &'a [Literal]
        ensures { result.now ≡ body_of self.now.literals.now body }
    {
        let from = usize::from(body.from).min(self.literals.len());
        let rest = &self.literals[from..];
        &rest[..usize::from(body.count).min(rest.len())]
    }

    // Adds the head of a state law whose body lies in the set.
    fn grow(&self, law: Law, set: LiteralSet) -> LiteralSet
        ensures { result ≡ grown (row_of self.now.literals.now law) set }
    {
        match law {
            Law::State {
                head: Some(head),
                body,
            } if lies_in(self.body(body), set) && !set.contains(head) => {
                let mut grown = set;
                grown.insert(head);
                grown
            }
            _ => set,
        }
    }

    // One pass over the rows.
    fn pass(&self, set: LiteralSet) -> LiteralSet
        ensures { result ≡ run (rows_of self.now.literals.now self.now.laws.now) set }
    {
        let mut grown = set;
        for law in self.laws {
            grown = self.grow(*law, grown);
        }
        grown
    }

    // The closure of a set: the least set that contains it and has the head of each state law whose body lies in it. A pass that adds
    // nothing is the last.
    pub fn close(&self, set: LiteralSet) -> LiteralSet
        ensures exact { result ≡ closed_set (rows_of self.now.literals.now self.now.laws.now) set }
        ensures closure { Closure (rows_of self.now.literals.now self.now.laws.now) (has set) (has result) }
    {
        let mut closed = set;
        loop {
            let grown = self.pass(closed);
            if grown == closed {
                return closed;
            }
            closed = grown;
        }
    }
}
