// A network while it is entered.
ghost use Rattle.std.specs.Prelude.{◌≤◌, ◌*◌, length};
ghost use Rattle.laws.specs.Code.{rows_of};
ghost use Rattle.law_table.specs.Single.{AllOf-prop, AllFit-prop, Laid-prop};
ghost use Rattle.law_table.specs.Limits.{AllOf, AllFit, Laid};

use arrayvec::ArrayVec;
use laws::Law;
use literals::{Literal, LiteralSet};

// The rows in order of entry, with the literals of their bodies beside them; the goal; which literals were given for the start, and
// which of them more than once.
#[derive(Drop)]
pub struct Draft {
    pub(crate) fluents: u8,
    pub(crate) actions: u16,
    pub(crate) laws: ArrayVec<Law, 192>,
    pub(crate) literals: ArrayVec<Literal, 1536>,
    pub(crate) goal: ArrayVec<Literal, 16>,
    pub(crate) given: LiteralSet,
    pub(crate) again: LiteralSet,
    ghost one: { 1 ≤ fluents },
    ghost few_fluents: { fluents ≤ 64 },
    ghost few_actions: { actions ≤ 200 },
    // A row has at most 8 literals, so those of 192 rows have room.
    ghost room: { length literals.items ≤ 8 * length laws.items },
    ghost laid: { Laid (length literals.items) laws.items } by { Laid-prop _ _ },
    ghost rows_fit: { AllFit fluents actions (rows_of literals.items laws.items) } by { AllFit-prop _ _ _ },
    ghost goal_fits: { AllOf fluents goal.items } by { AllOf-prop _ _ },
}
