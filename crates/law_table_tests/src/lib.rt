// Tests of networks that are entered row by row.
#![tactic(auto)]

#[cfg(test)]
mod tests {
    use law_table::{Draft, EntryFault};
    use laws::Unsettled;
    use literals::State;
    use model::Cause;
    use std::alloc::AllocError;

    // The gateway and the press. Fluents 1 and 2: gateway and press trust the new root; 3: the gateway shows the new chain; 4: the
    // press reaches it. Actions 1 and 2 install the new root, action 3 switches the chain.
    fn gateway_and_press() -> Result<Draft, EntryFault> {
        let mut draft = Draft::new(4, 3)?;
        draft.impossible(3, &[-1])?;
        draft.effect(1, 1, &[])?;
        draft.effect(2, 2, &[])?;
        draft.effect(3, 3, &[])?;
        draft.state_law(4, &[-3])?;
        draft.state_law(4, &[2])?;
        draft.state_law(-4, &[3, -2])?;
        draft.state_law(0, &[-4])?;
        for number in [-1, -2, -3, 4] {
            draft.start(number)?;
        }
        draft.goal(3)?;
        Ok(draft)
    }

    #[test]
    fn a_network_is_entered(rt: HostRuntime) -> Result<(), EntryFault> {
        let draft = gateway_and_press()?;
        let rows = draft.rows();
        assert_eq!(rt; rows.laws.len(), 8);
        assert_eq!(rt; rows.literals.len(), 6);
        assert_eq!(rt; draft.goals().len(), 1);
        let start = State::new(8).literals(4);
        assert_eq!(rt; rows.barring(3, start), Some(1));
        assert_eq!(rt; rows.barring(1, start), None);
        assert_eq!(rt; rows.broken(start), None);
        // After action 1 alone the press would lose the gateway.
        let root = State::new(9).literals(4);
        assert_eq!(rt; rows.narrow(1, start).map(|s| s.state()), Ok(State::new(9)));
        assert_eq!(rt; rows.barring(3, root), None);
        assert_eq!(rt;
            rows.narrow(3, root).map(|s| s.state()),
            Err(Unsettled::NoResult)
        );
        let both = State::new(11).literals(4);
        assert_eq!(rt; rows.narrow(3, both).map(|s| s.state()), Ok(State::new(15)));
        Ok(())
    }

    #[test]
    fn limits_of_fluents_and_actions(rt: HostRuntime) {
        for (fluents, actions, fits) in [
            (1, 0, true),
            (64, 200, true),
            (0, 0, false),
            (65, 0, false),
            (1, 201, false),
            (65535, 65535, false),
        ] {
            let draft = Draft::new(fluents, actions);
            assert_eq!(rt; draft.is_ok(), fits);
        }
    }

    #[test]
    fn numbers_beyond_their_limits(rt: HostRuntime) -> Result<(), EntryFault> {
        let mut draft = Draft::new(4, 3)?;
        let out = Err(EntryFault::OutOfRange);
        assert_eq!(rt; draft.impossible(0, &[]), out);
        assert_eq!(rt; draft.impossible(4, &[]), out);
        assert_eq!(rt; draft.impossible(1, &[0]), out);
        assert_eq!(rt; draft.impossible(1, &[1, 5]), out);
        assert_eq!(rt; draft.impossible(1, &[1; 9]), out);
        assert_eq!(rt; draft.effect(4, 1, &[]), out);
        assert_eq!(rt; draft.effect(1, 0, &[]), out);
        assert_eq!(rt; draft.effect(1, -5, &[]), out);
        assert_eq!(rt; draft.effect(1, 1, &[-32768]), out);
        assert_eq!(rt; draft.state_law(5, &[]), out);
        assert_eq!(rt; draft.state_law(0, &[32767]), out);
        assert_eq!(rt; draft.goal(0), out);
        assert_eq!(rt; draft.start(-5), out);
        assert_eq!(rt; draft.rows().laws.len(), 0);
        assert_eq!(rt; draft.rows().literals.len(), 0);
        assert_eq!(rt; draft.goals().len(), 0);
        Ok(())
    }

    // The lowest fluent with no start literal, with two, or with the same one twice.
    #[test]
    fn what_has_no_start(rt: HostRuntime) -> Result<(), EntryFault> {
        let mut draft = Draft::new(3, 0)?;
        assert_eq!(rt; draft.unstarted(), Some(1));
        draft.start(-3)?;
        draft.start(1)?;
        assert_eq!(rt; draft.unstarted(), Some(2));
        draft.start(2)?;
        assert_eq!(rt; draft.unstarted(), None);
        draft.start(-3)?;
        assert_eq!(rt; draft.unstarted(), Some(3));
        draft.start(-1)?;
        assert_eq!(rt; draft.unstarted(), Some(1));
        assert_eq!(rt; gateway_and_press()?.unstarted(), None);
        Ok(())
    }

    // A body may have a literal twice, or a literal and its opposite. 192 rows of 8 literals fit, and 16 goal literals; one more does
    // not. Where a number is beyond its limit too, that is told.
    #[test]
    fn a_full_network(rt: HostRuntime) -> Result<(), EntryFault> {
        let mut draft = Draft::new(64, 200)?;
        for _ in 0..192 {
            draft.effect(200, -64, &[64, 64, -64, 1, 2, 3, 4, 5])?;
        }
        for _ in 0..16 {
            draft.goal(-64)?;
        }
        assert_eq!(rt; draft.effect(1, 1, &[]), Err(EntryFault::Full));
        assert_eq!(rt; draft.effect(1, 0, &[]), Err(EntryFault::OutOfRange));
        assert_eq!(rt; draft.state_law(0, &[65]), Err(EntryFault::OutOfRange));
        assert_eq!(rt; draft.goal(1), Err(EntryFault::Full));
        assert_eq!(rt; draft.goal(65), Err(EntryFault::OutOfRange));
        assert_eq!(rt; draft.rows().laws.len(), 192);
        assert_eq!(rt; draft.rows().literals.len(), 1536);
        assert_eq!(rt; draft.goals().len(), 16);
        Ok(())
    }

    // No contract says what is printed.
    #[test]
    fn texts(rt: HostRuntime) -> Result<(), AllocError> {
        let alloc = rt.alloc();
        for (fault, number, text) in [
            (EntryFault::OutOfRange, 13, "a number is beyond its limit"),
            (EntryFault::Full, 14, "there is no room for one more"),
        ] {
            let shown = format!(in alloc; "{fault}")?;
            assert_eq!(rt; shown.as_str(), text);
            assert_eq!(rt; fault.number(), number);
        }
        Ok(())
    }
}
