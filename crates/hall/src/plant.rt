// Where the plant stands.
ghost use Rattle.std.specs.Prelude.{◌≡◌, false, slice_index_or};
ghost use Rattle.hall.specs.Plant.{is_state, at_goal, trusts, serves_new, is_open, store, chain, on_network, with_store, with_chain, facts};

use super::network::{Gateway, Press};
use std::fmt;

// Which roots a press trusts.
#[derive(Clone, Copy, PartialEq, Eq, Debug)]
pub enum Store {
    OldRoot,
    BothRoots,
}

// Which chain a gateway serves.
#[derive(Clone, Copy, PartialEq, Eq, Debug)]
pub enum Chain {
    Old,
    New,
}

// The maintenance window, in which gateway 2 may be switched.
#[derive(Clone, Copy, PartialEq, Eq, Debug)]
pub enum Window {
    Closed,
    Open,
}

// Named fields, not arrays: a clause sees an array as a list, and specs/ would go by index in place of cases.
#[derive(Clone, Copy, PartialEq, Eq, Debug)]
pub struct Plant {
    pub press1: Store,
    pub press2: Store,
    pub press3: Store,
    pub gateway1: Chain,
    pub gateway2: Chain,
    pub window: Window,
}

impl Chain {
    pub fn is_new(self) -> bool
        ensures { result ≡ serves_new self }
    {
        self == Chain::New
    }
}

impl Window {
    pub fn is_open(self) -> bool
        ensures { result ≡ is_open self }
    {
        self == Window::Open
    }
}

impl Store {
    // A press that does not trust the chain of its gateway is off the network.
    pub fn trusts(self, chain: Chain) -> bool
        ensures { result ≡ trusts self chain }
    {
        !matches!((self, chain), (Store::OldRoot, Chain::New))
    }
}

impl Plant {
    pub fn store(self, press: Press) -> Store
        ensures { result ≡ store self press }
    {
        match press {
            Press::One => self.press1,
            Press::Two => self.press2,
            Press::Three => self.press3,
        }
    }

    pub fn chain(self, gateway: Gateway) -> Chain
        ensures { result ≡ chain self gateway }
    {
        match gateway {
            Gateway::One => self.gateway1,
            Gateway::Two => self.gateway2,
        }
    }

    // Whether a press trusts what its gateway serves.
    pub fn on_network(self, press: Press) -> bool
        ensures { result ≡ on_network self press }
    {
        self.store(press).trusts(self.chain(press.gateway()))
    }

    pub(crate) fn with_store(mut self, press: Press, store: Store) -> Plant
        ensures { result ≡ with_store self press store }
    {
        match press {
            Press::One => self.press1 = store,
            Press::Two => self.press2 = store,
            Press::Three => self.press3 = store,
        }
        self
    }

    pub(crate) fn with_chain(mut self, gateway: Gateway, chain: Chain) -> Plant
        ensures { result ≡ with_chain self gateway chain }
    {
        match gateway {
            Gateway::One => self.gateway1 = chain,
            Gateway::Two => self.gateway2 = chain,
        }
        self
    }

    // The window is open only once gateway 1 serves the new chain.
    pub fn is_state(self) -> bool
        ensures { result ≡ is_state self }
    {
        !self.window.is_open() || self.gateway1.is_new()
    }

    // Both gateways serve the new chain, the window is closed, and every press is on the network.
    pub fn at_goal(self) -> bool
        ensures { result ≡ at_goal self }
    {
        self.gateway1.is_new()
            && self.gateway2.is_new()
            && !self.window.is_open()
            && self.on_network(Press::One)
            && self.on_network(Press::Two)
            && self.on_network(Press::Three)
    }

    // What is shown at a place, also of a value that is not a state.
    pub(crate) fn fact(self, place: u16) -> bool
        ensures { result ≡ slice_index_or (facts self) place false }
    {
        match place {
            1 => self.press1.trusts(Chain::New),
            2 => self.press2.trusts(Chain::New),
            3 => self.press3.trusts(Chain::New),
            4 => self.gateway1.is_new(),
            5 => self.gateway2.is_new(),
            6 => self.window.is_open(),
            7 => self.on_network(Press::One),
            8 => self.on_network(Press::Two),
            9 => self.on_network(Press::Three),
            _ => false,
        }
    }
}

// What is shown at places 1 to 6, which is all that the plant is: also of a value that is not a state.
impl fmt::Display for Plant {
    fn fmt<W: fmt::Write>(&self, f: &mut fmt::Formatter<W>) -> fmt::Result {
        write!(f, "{}", u16::from(self.fact(1)))?;
        for place in 2..=6 {
            write!(f, " {}", u16::from(self.fact(place)))?;
        }
        Ok(())
    }
}
