// Where a step leads, by narrowing.
ghost use Rattle.std.specs.Prelude.{◌≡◌, ℕ, ◌||◌};
ghost use Rattle.laws.specs.Code.{row_of, rows_of, with_effect, forbids_row};
ghost use Rattle.laws.specs.Rows.{effects, forbids};
ghost use Rattle.laws.specs.Step.{Total, Heads, against, LastFloor, Narrowed, SaysOfB};
ghost use Rattle.literals.specs.Set.{has};

use super::law::Law;
use super::rows::{Rows, lies_in};
use literals::LiteralSet;

// Why a step leads nowhere that is known.
#[derive(Clone, Copy, PartialEq, Eq, Debug)]
pub enum Unsettled {
    // No state fits.
    NoResult,
    // Narrowing leaves open which state fits.
    Open,
}

impl<'a> Rows<'a> {
    // Where an action leads from the state that `s` tells.
    pub fn narrow(&self, action: u16, s: LiteralSet) -> Result<LiteralSet, Unsettled>
        ensures narrowed { Narrowed (rows_of self.now.literals.now self.now.laws.now) action (has s) result }
        ensures of_b { (n : ℕ) → Total n (has s) → Heads n (rows_of self.now.literals.now self.now.laws.now) → SaysOfB n (rows_of self.now.literals.now self.now.laws.now) action (has s) result }
    {
        let effects = self.effects(action, s);
        let floor = self.last_floor(effects, s);
        if !floor.is_consistent() || self.forbids(floor) {
            return Err(Unsettled::NoResult);
        }
        let ceiling = self.against(effects, s, floor);
        if !ceiling.is_consistent() {
            return Err(Unsettled::Open);
        }
        Ok(ceiling)
    }

    // The last floor: each is made against the ceiling of the one before it, until one repeats.
    fn last_floor(&self, effects: LiteralSet, s: LiteralSet) -> LiteralSet
        ensures { LastFloor (rows_of self.now.literals.now self.now.laws.now) (has effects) (has s) (has result) }
    {
        let mut floor = self.close(effects);
        'floors: loop {
            let ceiling = self.against(effects, s, floor);
            let next = self.against(effects, s, ceiling);
            if floor.includes(next) {
                break 'floors floor;
            }
            floor = next;
        }
    }

    // The closure of the effects with what the state keeps against a set.
    fn against(&self, effects: LiteralSet, s: LiteralSet, set: LiteralSet) -> LiteralSet
        ensures { has result ≡ against (rows_of self.now.literals.now self.now.laws.now) (has effects) (has s) (has set) }
    {
        self.close(effects.joined(s.kept(set)))
    }

    // The heads of the action's effect rows whose bodies are true in the state.
    fn effects(&self, action: u16, s: LiteralSet) -> LiteralSet
        ensures { has result ≡ effects (rows_of self.now.literals.now self.now.laws.now) action (has s) }
    {
        let mut heads = LiteralSet::new();
        for law in self.laws {
            heads = self.add_effect(*law, action, s, heads);
        }
        heads
    }

    fn add_effect(&self, law: Law, action: u16, s: LiteralSet, heads: LiteralSet) -> LiteralSet
        ensures { result ≡ with_effect (row_of self.now.literals.now law) action s heads }
    {
        match law {
            Law::Effect {
                action: of,
                head,
                body,
            } if of == action && lies_in(self.body(body), s) => {
                let mut more = heads;
                more.insert(head);
                more
            }
            _ => heads,
        }
    }

    // Whether the set has a body that must never be true.
    pub fn forbids(&self, set: LiteralSet) -> bool
        ensures { result ≡ forbids (rows_of self.now.literals.now self.now.laws.now) (has set) }
    {
        for law in self.laws {
            if self.is_forbidden(*law, set) {
                return true;
            }
        }
        false
    }

    fn is_forbidden(&self, law: Law, set: LiteralSet) -> bool
        ensures { result ≡ forbids_row (row_of self.now.literals.now law) set }
    {
        match law {
            Law::State { head: None, body } => lies_in(self.body(body), set),
            _ => false,
        }
    }
}
