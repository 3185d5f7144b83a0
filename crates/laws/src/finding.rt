// The first row that bars an action, and the first that a state breaks.
ghost use Rattle.std.specs.Prelude.{◌≡◌, ◌↔◌, None};
ghost use Rattle.laws.specs.Code.{row_of, rows_of};
ghost use Rattle.laws.specs.Rows.{Closed, Unforbidden, bars, breaks, first_from};
ghost use Rattle.literals.specs.Set.{has};

use super::law::Law;
use super::rows::{Rows, lies_in};
use literals::LiteralSet;

impl<'a> Rows<'a> {
    // The number of the first impossible row of the action whose body is true in the state. Rows are numbered from 1.
    pub fn barring(&self, action: u16, s: LiteralSet) -> Option<usize>
        ensures { result ≡ first_from 1 (bars action (has s)) (rows_of self.now.literals.now self.now.laws.now) }
    {
        for (i, law) in self.laws.iter().enumerate() {
            if self.is_barred(*law, action, s) {
                return Some(i + 1);
            }
        }
        None
    }

    fn is_barred(&self, law: Law, action: u16, s: LiteralSet) -> bool
        ensures { result ≡ bars action (has s) (row_of self.now.literals.now law) }
    {
        match law {
            Law::Impossible { action: of, body } => of == action && lies_in(self.body(body), s),
            _ => false,
        }
    }

    // The number of the first state law that the state breaks. Where there is none, the state keeps them all.
    pub fn broken(&self, s: LiteralSet) -> Option<usize>
        ensures first { result ≡ first_from 1 (breaks (has s)) (rows_of self.now.literals.now self.now.laws.now) }
        ensures kept { (result ≡ None) ↔ (Closed (rows_of self.now.literals.now self.now.laws.now) (has s) × Unforbidden (rows_of self.now.literals.now self.now.laws.now) (has s)) }
    {
        for (i, law) in self.laws.iter().enumerate() {
            if self.is_broken(*law, s) {
                return Some(i + 1);
            }
        }
        None
    }

    fn is_broken(&self, law: Law, s: LiteralSet) -> bool
        ensures { result ≡ breaks (has s) (row_of self.now.literals.now law) }
    {
        match law {
            Law::State { head: None, body } => lies_in(self.body(body), s),
            Law::State {
                head: Some(head),
                body,
            } => lies_in(self.body(body), s) && !s.contains(head),
            _ => false,
        }
    }
}
