// Tests of campaigns and of replaying, on a small model.
#![tactic(auto)]

#[cfg(test)]
mod tests {
    use campaign::{Advice, Answer, Call, Campaign, CampaignFault, Event, Order};
    use counter::Counter;
    use model::{Cause, Model, ShownModel, Unshown};
    use replay::{ShortLog, replay};
    use std::alloc::AllocError;
    use std::test::Fail;
    use trail::Trail;

    const BLANK: Event<u16> = Event {
        call: Call::Done,
        answer: Answer::NoWay,
    };

    // Asks with all the places that asking can need.
    fn asked(campaign: &mut Campaign<Counter>) -> Result<Advice, CampaignFault> {
        campaign.ask(&mut Trail::new(&mut [0; 25]), &mut Trail::new(&mut [0; 24]))
    }

    fn order(action: u16, steps: u16) -> Result<Advice, CampaignFault> {
        Ok(Advice::Order(Order { action, steps }))
    }

    #[test]
    fn bound_0(rt: HostRuntime) {
        let mut met = Campaign::open(Counter::new(1, 0), 0);
        assert_eq!(rt; asked(&mut met), Ok(Advice::Reached));
        let mut unmet = Campaign::open(Counter::new(1, 1), 0);
        assert_eq!(rt; asked(&mut unmet), Ok(Advice::NoWay));
        assert_eq!(rt; unmet.done(), Err(CampaignFault::NoOrder));
        assert_eq!(rt; unmet.order(), None);
    }

    #[test]
    fn a_goal_reached_by_a_finding(rt: HostRuntime) {
        let mut campaign = Campaign::open(Counter::new(1, 500), 3);
        assert_eq!(rt; asked(&mut campaign), Ok(Advice::NoWay));
        assert_eq!(rt; campaign.find(498), Ok(0));
        assert_eq!(rt; asked(&mut campaign), order(1, 2));
        assert_eq!(rt; campaign.find(500), Err(CampaignFault::OrderOut));
        assert_eq!(rt; campaign.failed(), Ok(1));
        assert_eq!(rt; campaign.find(500), Ok(1));
        assert_eq!(rt; asked(&mut campaign), Ok(Advice::Reached));
        assert_eq!(rt; campaign.left(), 2);
    }

    #[test]
    fn twenty_four_steps_done(rt: HostRuntime) {
        let mut campaign = Campaign::open(Counter::new(1, 24), 65535);
        for done in 0..24 {
            assert_eq!(rt; asked(&mut campaign), order(1, 24 - done));
            assert_eq!(rt; campaign.done(), Ok(done + 1));
        }
        assert_eq!(rt; asked(&mut campaign), Ok(Advice::Reached));
        assert_eq!(rt; campaign.stands(), 24);
        assert_eq!(rt; campaign.left(), 0);
    }

    #[test]
    fn twenty_four_reports_used_up(rt: HostRuntime) {
        let mut campaign = Campaign::open(Counter::new(1, 1), 24);
        for failed in 0..24 {
            assert_eq!(rt; asked(&mut campaign), order(1, 1));
            assert_eq!(rt; campaign.failed(), Ok(failed + 1));
        }
        assert_eq!(rt; asked(&mut campaign), Ok(Advice::NoWay));
        assert_eq!(rt; campaign.failed(), Err(CampaignFault::NoOrder));
        assert_eq!(rt; campaign.reports(), 24);
        assert_eq!(rt; campaign.stands(), 0);
    }

    #[test]
    fn no_actions(rt: HostRuntime) {
        let mut met = Campaign::open(Counter::new(0, 0), 24);
        assert_eq!(rt; asked(&mut met), Ok(Advice::Reached));
        let mut unmet = Campaign::open(Counter::new(0, 7), 24);
        assert_eq!(rt; asked(&mut unmet), Ok(Advice::NoWay));
        assert_eq!(rt; unmet.find(7), Ok(0));
        assert_eq!(rt; asked(&mut unmet), Ok(Advice::Reached));
    }

    #[test]
    fn refusals_in_their_order(rt: HostRuntime) {
        let mut campaign = Campaign::open(Counter::new(3, 4), 2);
        let mut two = [0; 2];
        let mut one = [0; 1];
        let mut few = Trail::new(&mut two);
        let mut fewer = Trail::new(&mut one);
        assert_eq!(rt;
            campaign.ask(&mut few, &mut fewer),
            Err(CampaignFault::FewStates)
        );
        assert_eq!(rt;
            campaign.ask(&mut Trail::new(&mut [0; 3]), &mut fewer),
            Err(CampaignFault::FewActions)
        );
        assert_eq!(rt; asked(&mut campaign), order(1, 2));
        assert_eq!(rt;
            campaign.ask(&mut few, &mut fewer),
            Err(CampaignFault::OrderOut)
        );
        assert_eq!(rt; campaign.find(1000), Err(CampaignFault::OrderOut));
        assert_eq!(rt; campaign.done(), Ok(1));
        assert_eq!(rt; campaign.find(1000), Err(CampaignFault::NotAState));
        assert_eq!(rt; campaign.ask(&mut few, &mut fewer), order(3, 1));
        assert_eq!(rt; few.get(1), Some(4));
        assert_eq!(rt; fewer.get(0), Some(3));
    }

    #[test]
    fn numbers(rt: HostRuntime) {
        assert_eq!(rt; CampaignFault::NotAState.number(), 22);
        assert_eq!(rt; CampaignFault::OrderOut.number(), 31);
        assert_eq!(rt; CampaignFault::NoOrder.number(), 32);
        assert_eq!(rt; CampaignFault::FewStates.number(), 34);
        assert_eq!(rt; CampaignFault::FewActions.number(), 35);
    }

    #[test]
    fn texts_of_calls_and_refusals(rt: HostRuntime) -> Result<(), AllocError> {
        let alloc = rt.alloc();
        let ask = Call::Ask {
            states: 25,
            actions: 24,
        };
        let texts = [
            (ask, "ask with places for 25 states and 24 actions"),
            (Call::Done, "done"),
            (Call::Failed, "failed"),
            (Call::Find(7), "find 7"),
            (Call::Show(3), "show place 3"),
        ];
        for (call, text) in texts {
            assert_eq!(rt; format!(in alloc; "{call}")?.as_str(), text);
        }
        let short = ShortLog {
            model: Counter::new(1, 9),
        };
        assert_eq!(rt;
            format!(in alloc; "{short}")?.as_str(),
            "too few places for the log"
        );
        Ok(())
    }

    #[test]
    fn shows_where_the_plant_stands(rt: HostRuntime) {
        let mut campaign = Campaign::open(Counter::new(1, 9), 24);
        assert_eq!(rt; campaign.find(7), Ok(0));
        assert_eq!(rt; campaign.show(0), 0);
        assert_eq!(rt; campaign.show(1), 7);
        assert_eq!(rt; campaign.show(2), 0);
    }

    #[test]
    fn replays(rt: HostRuntime) -> Result<(), Fail> {
        let calls = [
            Call::Ask {
                states: 2,
                actions: 9,
            },
            Call::Ask {
                states: 9,
                actions: 9,
            },
            Call::Done,
            Call::Show(1),
        ];
        let counter = Counter::new(3, 4);
        let mut states = [7; 5];
        let mut actions = [8; 5];
        let mut places = [BLANK; 5];
        let mut log = Trail::new(&mut places);
        let Ok(campaign) = replay(counter, 2, &calls, &mut states, &mut actions, &mut log) else {
            return Err(Fail::new("the log has room"));
        };
        assert_eq!(rt; log.len(), 4);
        assert_eq!(rt; campaign.left(), 1);
        assert_eq!(rt; campaign.stands(), 1);
        assert_eq!(rt; places[0].answer, Answer::Refused(CampaignFault::FewStates));
        let first = Order {
            action: 1,
            steps: 2,
        };
        assert_eq!(rt; places[1].answer, Answer::Order(first));
        assert_eq!(rt; places[2].answer, Answer::Accepted(1));
        assert_eq!(rt; places[3].answer, Answer::Number(1));
        assert_eq!(rt; places[4].answer, BLANK.answer);
        assert_eq!(rt; states, [0, 1, 4, 7, 7]);
        assert_eq!(rt; actions, [1, 3, 8, 8, 8]);
        Ok(())
    }

    // Each call by the campaign's own function, and all of them replayed.
    #[test]
    fn own_calls_and_replayed_ones_agree(rt: HostRuntime) -> Result<(), Fail> {
        let ask = Call::Ask {
            states: 25,
            actions: 24,
        };
        let counter = Counter::new(3, 5);
        let mut campaign = Campaign::open(counter, 4);
        let own = [
            (Call::Done, Answer::from(campaign.done())),
            (ask, Answer::from(asked(&mut campaign))),
            (ask, Answer::from(asked(&mut campaign))),
            (Call::Find(4), Answer::from(campaign.find(4))),
            (Call::Failed, Answer::from(campaign.failed())),
            (Call::Find(1000), Answer::from(campaign.find(1000))),
            (Call::Find(4), Answer::from(campaign.find(4))),
            (Call::Show(1), Answer::Number(campaign.show(1))),
            (ask, Answer::from(asked(&mut campaign))),
            (Call::Done, Answer::from(campaign.done())),
            (ask, Answer::from(asked(&mut campaign))),
        ];
        let mut places = [BLANK; 11];
        let mut log = Trail::new(&mut places);
        let calls = own.map(|(call, _)| call);
        let Ok(replayed) = replay(counter, 4, &calls, &mut [0; 25], &mut [0; 24], &mut log) else {
            return Err(Fail::new("the log has room"));
        };
        assert_eq!(rt; replayed.reports(), campaign.reports());
        assert_eq!(rt; replayed.stands(), campaign.stands());
        for (event, (call, answer)) in places.iter().zip(own) {
            assert_eq!(rt; event.call, call);
            assert_eq!(rt; event.answer, answer);
        }
        Ok(())
    }

    #[test]
    fn a_log_that_is_too_short(rt: HostRuntime) -> Result<(), Fail> {
        let calls = [Call::Show(1), Call::Show(2)];
        let mut states = [7; 3];
        let mut actions = [8; 2];
        let mut places = [BLANK; 1];
        let mut log = Trail::new(&mut places);
        assert_eq!(rt; log.push(BLANK).is_ok(), true);
        let Err(short) = replay(
            Counter::new(3, 4),
            2,
            &calls,
            &mut states,
            &mut actions,
            &mut log,
        ) else {
            return Err(Fail::new("the log has no room"));
        };
        assert_eq!(rt; short.number(), 14);
        assert_eq!(rt; short.model.actions(), 3);
        assert_eq!(rt; log.len(), 1);
        assert_eq!(rt; places[0].answer, BLANK.answer);
        Ok(())
    }

    #[test]
    fn replays_a_model_that_shows_nothing(rt: HostRuntime) -> Result<(), Fail> {
        let calls = [
            Call::Find(4),
            Call::Show(1),
            Call::Ask {
                states: 3,
                actions: 2,
            },
        ];
        let unshown = Unshown {
            model: Counter::new(3, 4),
        };
        let mut places = [BLANK; 3];
        let mut log = Trail::new(&mut places);
        let Ok(campaign) = replay(unshown, 2, &calls, &mut [0; 3], &mut [0; 2], &mut log) else {
            return Err(Fail::new("the log has room"));
        };
        assert_eq!(rt; campaign.stands(), 4);
        assert_eq!(rt; places[0].answer, Answer::Accepted(0));
        assert_eq!(rt; places[1].answer, Answer::Number(0));
        assert_eq!(rt; places[2].answer, Answer::Reached);
        Ok(())
    }
}
