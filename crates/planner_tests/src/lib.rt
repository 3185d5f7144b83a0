// Tests of trails, planning and checking on small models.
#![tactic(auto)]

#[cfg(test)]
mod tests {
    use counter::{Counter, CounterFault};
    use model::Cause;
    use planner::{CheckFault, PlanAnswer, PlanFault, check, plan};
    use std::alloc::AllocError;
    use trail::{Trail, TrailFault};

    // What planning from `from` answers with all the places that a plan can need.
    fn planned(counter: Counter, from: u16, bound: u16) -> Result<PlanAnswer, PlanFault> {
        plan(
            &counter,
            from,
            bound,
            &mut Trail::new(&mut [0; 25]),
            &mut Trail::new(&mut [0; 24]),
        )
    }

    #[test]
    fn a_trail_without_places(rt: HostRuntime) {
        let mut places = [0u16; 0];
        let mut trail = Trail::new(&mut places);
        assert_eq!(rt; trail.room(), 0);
        assert_eq!(rt; trail.push(7), Err(TrailFault::Full));
        assert_eq!(rt; TrailFault::Full.number(), 14);
        assert_eq!(rt; trail.len(), 0);
        assert_eq!(rt; trail.get(0), None);
        assert_eq!(rt; trail.last(), None);
        assert_eq!(rt; trail.pop(), None);
    }

    #[test]
    fn a_trail_of_one_place(rt: HostRuntime) {
        let mut places = [5u16; 1];
        let mut trail = Trail::new(&mut places);
        assert_eq!(rt; trail.len(), 0);
        assert_eq!(rt; trail.pop(), None);
        assert_eq!(rt; trail.push(7), Ok(1));
        assert_eq!(rt; trail.push(8), Err(TrailFault::Full));
        assert_eq!(rt; trail.get(0), Some(7));
        assert_eq!(rt; trail.get(1), None);
        assert_eq!(rt; trail.pop(), Some(7));
        assert_eq!(rt; trail.len(), 0);
        assert_eq!(rt; places[0], 7);
    }

    #[test]
    fn a_full_trail_gives_back_in_turn(rt: HostRuntime) {
        let mut places = [0u16; 3];
        let mut trail = Trail::new(&mut places);
        assert_eq!(rt; trail.push(1), Ok(1));
        assert_eq!(rt; trail.push(2), Ok(2));
        assert_eq!(rt; trail.push(3), Ok(3));
        assert_eq!(rt; trail.push(4), Err(TrailFault::Full));
        assert_eq!(rt; trail.last(), Some(3));
        assert_eq!(rt; trail.pop(), Some(3));
        assert_eq!(rt; trail.last(), Some(2));
        assert_eq!(rt; trail.push(9), Ok(3));
        assert_eq!(rt; trail.get(2), Some(9));
        trail.clear();
        assert_eq!(rt; trail.len(), 0);
        assert_eq!(rt; trail.room(), 3);
        assert_eq!(rt; places, [1, 2, 9]);
    }

    #[test]
    fn bounds(rt: HostRuntime) {
        assert_eq!(rt; planned(Counter::new(1, 0), 0, 0), Ok(PlanAnswer::Steps(0)));
        assert_eq!(rt; planned(Counter::new(1, 1), 0, 0), Ok(PlanAnswer::NoWay));
        assert_eq!(rt;
            planned(Counter::new(1, 24), 0, 24),
            Ok(PlanAnswer::Steps(24))
        );
        assert_eq!(rt;
            planned(Counter::new(1, 24), 0, 65535),
            Ok(PlanAnswer::Steps(24))
        );
        assert_eq!(rt;
            planned(Counter::new(1, 25), 0, 65535),
            Ok(PlanAnswer::NoWay)
        );
        assert_eq!(rt;
            planned(Counter::new(1, 25), 1, 24),
            Ok(PlanAnswer::Steps(24))
        );
    }

    #[test]
    fn no_actions(rt: HostRuntime) {
        assert_eq!(rt;
            planned(Counter::new(0, 0), 0, 24),
            Ok(PlanAnswer::Steps(0))
        );
        assert_eq!(rt; planned(Counter::new(0, 1), 0, 24), Ok(PlanAnswer::NoWay));
    }

    #[test]
    fn two_hundred_actions(rt: HostRuntime) {
        let mut states = [0; 3];
        let mut actions = [0; 2];
        let answer = plan(
            &Counter::new(200, 301),
            0,
            2,
            &mut Trail::new(&mut states),
            &mut Trail::new(&mut actions),
        );
        assert_eq!(rt; answer, Ok(PlanAnswer::Steps(2)));
        assert_eq!(rt; actions, [101, 200]);
        assert_eq!(rt; states, [0, 101, 301]);
        assert_eq!(rt;
            planned(Counter::new(200, 401), 0, 2),
            Ok(PlanAnswer::NoWay)
        );
    }

    #[test]
    fn later_places_stay(rt: HostRuntime) {
        let mut states = [8; 5];
        let mut actions = [9; 5];
        let answer = plan(
            &Counter::new(3, 4),
            0,
            2,
            &mut Trail::new(&mut states),
            &mut Trail::new(&mut actions),
        );
        assert_eq!(rt; answer, Ok(PlanAnswer::Steps(2)));
        assert_eq!(rt; actions, [1, 3, 9, 9, 9]);
        assert_eq!(rt; states, [0, 1, 4, 8, 8]);
    }

    #[test]
    fn refusals_in_their_order(rt: HostRuntime) {
        let counter = Counter::new(3, 4);
        let mut two = [0; 2];
        let mut one = [0; 1];
        let mut few = Trail::new(&mut two);
        let mut fewer = Trail::new(&mut one);
        assert_eq!(rt;
            plan(&counter, 1000, 2, &mut few, &mut fewer),
            Err(PlanFault::NotAState)
        );
        assert_eq!(rt;
            plan(&counter, 0, 2, &mut few, &mut fewer),
            Err(PlanFault::FewStates)
        );
        assert_eq!(rt;
            plan(&counter, 0, 2, &mut Trail::new(&mut [0; 3]), &mut fewer),
            Err(PlanFault::FewActions)
        );
        assert_eq!(rt; PlanFault::NotAState.number(), 22);
        assert_eq!(rt; PlanFault::FewStates.number(), 34);
        assert_eq!(rt; PlanFault::FewActions.number(), 35);
    }

    #[test]
    fn checks(rt: HostRuntime) {
        let counter = Counter::new(3, 4);
        assert_eq!(rt; check(&counter, 0, &[1, 3]), Ok(2));
        assert_eq!(rt; check(&counter, 4, &[]), Ok(0));
        assert_eq!(rt; check(&counter, 1000, &[1]), Err(CheckFault::NotAState));
        assert_eq!(rt;
            check(&counter, 0, &[3]),
            Err(CheckFault::Short { length: 1 })
        );
        let cause = CounterFault::NoAction;
        assert_eq!(rt;
            check(&counter, 0, &[1, 3, 4, 0]),
            Err(CheckFault::Step { place: 3, cause })
        );
        let fault: CheckFault<CounterFault> = CheckFault::Step { place: 3, cause };
        assert_eq!(rt; fault.number(), 21);
        assert_eq!(rt; fault.added(), 3);
    }

    #[test]
    fn texts_of_refusals(rt: HostRuntime) -> Result<(), AllocError> {
        let alloc = rt.alloc();
        assert_eq!(rt;
            format!(in alloc; "{}", TrailFault::Full)?.as_str(),
            "the trail is full"
        );
        let plans = [
            (PlanFault::NotAState, "the value is not a state"),
            (PlanFault::FewStates, "too few places for states"),
            (PlanFault::FewActions, "too few places for actions"),
        ];
        for (fault, text) in plans {
            assert_eq!(rt; format!(in alloc; "{fault}")?.as_str(), text);
        }
        let causes = [
            (
                CounterFault::NoAction,
                "at place 3: there is no such action",
            ),
            (
                CounterFault::NotAState,
                "at place 3: a state is at most 999",
            ),
            (CounterFault::Beyond, "at place 3: the sum is above 999"),
        ];
        for (cause, text) in causes {
            let fault = CheckFault::Step { place: 3, cause };
            assert_eq!(rt; format!(in alloc; "{fault}")?.as_str(), text);
        }
        let none: CheckFault<CounterFault> = CheckFault::NotAState;
        assert_eq!(rt;
            format!(in alloc; "{none}")?.as_str(),
            "at place 0: not a state"
        );
        let short: CheckFault<CounterFault> = CheckFault::Short { length: 2 };
        assert_eq!(rt;
            format!(in alloc; "{short}")?.as_str(),
            "after 2 actions: short of the goal"
        );
        Ok(())
    }
}
