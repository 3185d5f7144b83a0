// Tests of closures and of narrowing, on small networks.
#![tactic(auto)]

#[cfg(test)]
mod tests {
    use laws::{Body, Law, Rows, Unsettled};
    use literals::{Literal, LiteralSet, NoLiteral, State};

    const NONE: Body = Body { from: 0, count: 0 };

    // One literal of those that lie beside the rows.
    fn one(from: u16) -> Body {
        Body { from, count: 1 }
    }

    fn literal(number: i16) -> Result<Literal, NoLiteral> {
        Literal::try_from(number)
    }

    // Where action 1 leads from a state of three fluents.
    fn led(rows: Rows, bits: u64) -> Result<State, Unsettled> {
        Ok(rows.narrow(1, State::new(bits).literals(3))?.state())
    }

    // Laws 2 if 3 and 3 if 2, effect 1, from -1 -2 -3: neither of the two laws can begin by itself.
    #[test]
    fn what_waits_for_itself_stays_out(rt: HostRuntime) -> Result<(), NoLiteral> {
        let literals = [literal(3)?, literal(2)?];
        let laws = [
            Law::State {
                head: Some(literal(2)?),
                body: one(0),
            },
            Law::State {
                head: Some(literal(3)?),
                body: one(1),
            },
            Law::Effect {
                action: 1,
                head: literal(1)?,
                body: NONE,
            },
        ];
        let rows = Rows {
            laws: &laws,
            literals: &literals,
        };
        assert_eq!(rt; led(rows, 0), Ok(State::new(1)));
        Ok(())
    }

    // Laws -1 if 2 and -2 if 1, effect 2, from 1 -2 and 3: the effect wins over what is kept.
    #[test]
    fn an_effect_drives_out_what_was(rt: HostRuntime) -> Result<(), NoLiteral> {
        let literals = [literal(2)?, literal(1)?];
        let laws = [
            Law::State {
                head: Some(literal(-1)?),
                body: one(0),
            },
            Law::State {
                head: Some(literal(-2)?),
                body: one(1),
            },
            Law::Effect {
                action: 1,
                head: literal(2)?,
                body: NONE,
            },
        ];
        let rows = Rows {
            laws: &laws,
            literals: &literals,
        };
        assert_eq!(rt; led(rows, 5), Ok(State::new(6)));
        Ok(())
    }

    // Laws -3 if 1 2 and -2 if 1 3, effect 1, from -1 2 3: either of 2 and 3 may go.
    #[test]
    fn two_ways_are_left_open(rt: HostRuntime) -> Result<(), NoLiteral> {
        let literals = [literal(1)?, literal(2)?, literal(1)?, literal(3)?];
        let laws = [
            Law::State {
                head: Some(literal(-3)?),
                body: Body { from: 0, count: 2 },
            },
            Law::State {
                head: Some(literal(-2)?),
                body: Body { from: 2, count: 2 },
            },
            Law::Effect {
                action: 1,
                head: literal(1)?,
                body: NONE,
            },
        ];
        let rows = Rows {
            laws: &laws,
            literals: &literals,
        };
        assert_eq!(rt; led(rows, 6), Err(Unsettled::Open));
        Ok(())
    }

    // Effect 1, and never 1: no state fits. The first row bars action 2 where 2 is true; the last law is broken where 1 is.
    #[test]
    fn no_state_fits(rt: HostRuntime) -> Result<(), NoLiteral> {
        let literals = [literal(2)?, literal(1)?];
        let laws = [
            Law::Impossible {
                action: 2,
                body: one(0),
            },
            Law::Effect {
                action: 1,
                head: literal(1)?,
                body: NONE,
            },
            Law::State {
                head: None,
                body: one(1),
            },
        ];
        let rows = Rows {
            laws: &laws,
            literals: &literals,
        };
        assert_eq!(rt; led(rows, 0), Err(Unsettled::NoResult));
        let second = State::new(2).literals(3);
        assert_eq!(rt; rows.barring(2, second), Some(1));
        assert_eq!(rt; rows.barring(1, second), None);
        assert_eq!(rt; rows.broken(second), None);
        assert_eq!(rt; rows.broken(State::new(1).literals(3)), Some(3));
        Ok(())
    }

    // Closing goes on until a pass adds nothing, also against the order of the rows.
    #[test]
    fn a_chain_is_closed(rt: HostRuntime) -> Result<(), NoLiteral> {
        let literals = [literal(1)?, literal(2)?, literal(3)?];
        let laws = [
            Law::State {
                head: Some(literal(4)?),
                body: one(2),
            },
            Law::State {
                head: Some(literal(3)?),
                body: one(1),
            },
            Law::State {
                head: Some(literal(2)?),
                body: one(0),
            },
        ];
        let rows = Rows {
            laws: &laws,
            literals: &literals,
        };
        let mut first = LiteralSet::new();
        first.insert(literal(1)?);
        let closed = rows.close(first);
        assert_eq!(rt; closed.contains(literal(4)?), true);
        assert_eq!(rt; closed.contains(literal(-4)?), false);
        assert_eq!(rt; rows.close(LiteralSet::new()), LiteralSet::new());
        Ok(())
    }
}
