// The presses and gateways of the hall, the number of each press, and the gateway that it hangs on.
ghost use Rattle.std.specs.Prelude.{◌≡◌};
ghost use Rattle.hall.specs.Network.{gateway, press_number};

use std::fmt;

#[derive(Clone, Copy, PartialEq, Eq, Debug)]
pub enum Press {
    One,
    Two,
    Three,
}

#[derive(Clone, Copy, PartialEq, Eq, Debug)]
pub enum Gateway {
    One,
    Two,
}

impl Press {
    // Presses 1 and 2 hang on gateway 1, press 3 on gateway 2.
    pub fn gateway(self) -> Gateway
        ensures { result ≡ gateway self }
    {
        match self {
            Press::One | Press::Two => Gateway::One,
            Press::Three => Gateway::Two,
        }
    }

    // By this number a press is told.
    pub fn number(self) -> u16
        ensures { result ≡ press_number self }
    {
        match self {
            Press::One => 1,
            Press::Two => 2,
            Press::Three => 3,
        }
    }
}

impl fmt::Display for Press {
    fn fmt<W: fmt::Write>(&self, f: &mut fmt::Formatter<W>) -> fmt::Result {
        write!(f, "{}", self.number())
    }
}

impl fmt::Display for Gateway {
    fn fmt<W: fmt::Write>(&self, f: &mut fmt::Formatter<W>) -> fmt::Result {
        f.write_str(match self {
            Gateway::One => "1",
            Gateway::Two => "2",
        })
    }
}
