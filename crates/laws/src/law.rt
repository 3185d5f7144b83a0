// Rows.
ghost use Rattle.std.specs.Prelude.{◌≡◌};
ghost use Rattle.laws.specs.Code.{no_row};

use literals::Literal;

// A body: so many literals, from a place on, of those that lie beside the rows. It is true where all of them are.
#[derive(Clone, Copy, PartialEq, Eq, Debug)]
pub struct Body {
    pub from: u16,
    pub count: u8,
}

#[derive(Clone, Copy, PartialEq, Eq, Debug)]
pub enum Law {
    // The action cannot be done where the body is true.
    Impossible {
        action: u16,
        body: Body,
    },
    // The action makes the head true where the body is true.
    Effect {
        action: u16,
        head: Literal,
        body: Body,
    },
    // Where the body is true, the head is. With no head the body is never true.
    State {
        head: Option<Literal>,
        body: Body,
    },
}

// What a place for a row holds at first: a row of no action, since they are numbered from 1.
impl Default for Law {
    ghost is_default = { λ law. law ≡ no_row };

    fn default() -> Law {
        Law::Impossible {
            action: 0,
            body: Body { from: 0, count: 0 },
        }
    }
}
