// Literals.
ghost use Rattle.std.specs.Prelude.{◌≡◌, ◌+◌, ◌<◌};

use std::fmt;
use thiserror::Error;

// Why a number is no literal.
#[derive(Clone, Copy, PartialEq, Eq, Debug, Error)]
#[error("there is no such literal")]
pub struct NoLiteral;

// A literal says that a fluent is true, or that it is false. Fluents are numbered from 1 to 64; `place` is the number less 1.
#[derive(Clone, Copy, PartialEq, Eq, Debug)]
pub struct Literal {
    place: u8,
    holds: bool,
    ghost within: { place < 64 },
}

impl Literal {
    ghost use Rattle.literals.specs.Literal.{opposite, number_of};

    // The fluent's number.
    pub fn fluent(self) -> u8
        ensures { result ≡ self.place + 1 }
    {
        self.place + 1
    }

    // The number less 1.
    pub(crate) fn place(self) -> u8
        ensures value { result ≡ self.place }
        ensures within { result < 64 }
    {
        self.place
    }

    // Whether it says that the fluent is true.
    pub fn holds(self) -> bool
        ensures { result ≡ self.holds }
    {
        self.holds
    }

    // As a number: f where it says that fluent f is true, -f where it says that it is false.
    pub fn number(self) -> i16
        ensures { result ≡ number_of self }
    {
        let fluent = i16::from(self.fluent());
        if self.holds { fluent } else { -fluent }
    }

    // The literal that says the other of the same fluent.
    pub fn opposite(self) -> Literal
        ensures { result ≡ opposite self }
    {
        Literal {
            place: self.place,
            holds: !self.holds,
        }
    }
}

// What a place for a literal holds at first: fluent 1 is false.
impl Default for Literal {
    ghost use Rattle.std.specs.Prelude.{◌≡◌, negsuc};
    ghost use Rattle.literals.specs.Literal.{number_of};

    ghost is_default = { λ l. number_of l ≡ negsuc 0 };

    fn default() -> Literal {
        Literal {
            place: 0,
            holds: false,
        }
    }
}

// The literal with a number, refused where there is none.
impl TryFrom<i16> for Literal {
    type Error = NoLiteral;

    ghost use Rattle.literals.specs.Literal.{Reads};

    ghost try_from_gives = { Reads };

    fn try_from(n: i16) -> Result<Self, NoLiteral> {
        match n {
            1..=64 => Ok(Literal {
                place: (n - 1) as u8,
                holds: true,
            }),
            -64..=-1 => Ok(Literal {
                place: (-n - 1) as u8,
                holds: false,
            }),
            _ => Err(NoLiteral),
        }
    }
}

// Its number.
impl fmt::Display for Literal {
    fn fmt<W: fmt::Write>(&self, f: &mut fmt::Formatter<W>) -> fmt::Result {
        write!(f, "{}", self.number())
    }
}

#[cfg(test)]
mod tests {
    use super::*;
    use std::alloc::AllocError;

    // No contract says what is printed.
    #[test]
    fn texts(rt: HostRuntime) -> Result<(), AllocError> {
        let alloc = rt.alloc();
        let none = "there is no such literal";
        for (n, text) in [
            (1, "1"),
            (64, "64"),
            (-1, "-1"),
            (-64, "-64"),
            (0, none),
            (65, none),
        ] {
            let shown = match Literal::try_from(n) {
                Ok(l) => format!(in alloc; "{l}")?,
                Err(e) => format!(in alloc; "{e}")?,
            };
            assert_eq!(rt; shown.as_str(), text);
        }
        Ok(())
    }
}
