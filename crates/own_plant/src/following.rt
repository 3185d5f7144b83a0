// Following the hall's rollover: a crew's calls, made one by one on a campaign, and then replayed.
ghost use Rattle.std.specs.Prelude.{◌≡◌};
ghost use Rattle.std.specs.Bool.{Decides};
ghost use Rattle.own_plant.specs.Agreeing.{answers};

use super::{ACTIONS, STATES};
use campaign::{Answer, Call, Campaign, Event, Order};
use hall::{Chain, Hall, Job, Plant, Store, Window};
use model::{Cause, Model};
use replay::{carry_out, replay};
use std::io;
use trail::Trail;

// How many reports the crew has, those of steps tried in vain among them.
const BOUND: u16 = 9;

const CALLS: usize = 36;

// The window stands open although all else is done.
const WINDOW_LEFT_OPEN: Plant = Plant {
    press1: Store::BothRoots,
    press2: Store::BothRoots,
    press3: Store::BothRoots,
    gateway1: Chain::New,
    gateway2: Chain::New,
    window: Window::Open,
};

// A crew that works to the goal with one step tried in vain, finds the window open again, and uses up its reports.
fn crew_calls() -> [Call<Plant>; CALLS] {
    let start = Hall.start();
    let ask = Call::Ask {
        states: STATES,
        actions: ACTIONS,
    };
    let few_states = Call::Ask {
        states: usize::from(BOUND),
        actions: ACTIONS,
    };
    let few_actions = Call::Ask {
        states: STATES,
        actions: usize::from(BOUND) - 1,
    };
    let impossible = Plant {
        window: Window::Open,
        ..start
    };
    [
        Call::Done,
        few_states,
        few_actions,
        ask,
        ask,
        Call::Find(start),
        Call::Done,
        ask,
        Call::Failed,
        ask,
        Call::Done,
        Call::Show(1),
        Call::Show(2),
        Call::Show(3),
        Call::Show(4),
        Call::Show(5),
        Call::Show(6),
        Call::Show(7),
        Call::Show(8),
        Call::Show(9),
        Call::Find(impossible),
        ask,
        Call::Done,
        ask,
        Call::Done,
        ask,
        Call::Done,
        ask,
        Call::Done,
        ask,
        Call::Done,
        ask,
        Call::Find(WINDOW_LEFT_OPEN),
        ask,
        Call::Failed,
        ask,
    ]
}

// An asking that has all the places that it can need does not tell them. How many that is, is this program's own to say, so the match
// stands here and not in the text of a call.
fn print_call(rt: &impl Print, call: Call<Plant>) -> io::Result<()> {
    match call {
        Call::Ask {
            states: STATES,
            actions: ACTIONS,
        } => print!(rt; "ask"),
        _ => print!(rt; "{call}"),
    }
}

fn print_answer(rt: &impl Print, answer: Answer) -> io::Result<()> {
    if let Answer::Order(Order { action, .. }) = answer
        && let Ok(job) = Job::try_from(action)
    {
        return println!(rt; ": {answer} ({job})");
    }
    println!(rt; ": {answer}")
}

// Whether two logs have the same answers. By length and `all`: with `eq` of the two chains the proof did not close.
fn agrees(log: &[Event<Plant>], other: &[Event<Plant>]) -> bool
    ensures { Decides result (answers log.now ≡ answers other.now) }
{
    let said = log.iter().map(|event| event.answer);
    let others = other.iter().map(|event| event.answer);
    log.len() == other.len() && said.zip(others).all(|(answer, other)| answer == other)
}

// Replays the calls into the lent places of a log, and says whether the answers are those of the other log.
fn print_replay(
    rt: &impl Print,
    calls: &[Call<Plant>],
    places: &mut [Event<Plant>],
    other: &[Event<Plant>],
) -> io::Result<()> {
    let mut states = [Hall.start(); STATES];
    let mut actions = [0; ACTIONS];
    print!(rt; "replay of {} calls: ", calls.len())?;
    let mut log = Trail::new(places);
    match replay(Hall, BOUND, calls, &mut states, &mut actions, &mut log) {
        Ok(campaign) => print!(rt; "reports: {}, ", campaign.reports())?,
        Err(short) => return println!(rt; "refused, {}: {short}", short.number()),
    }
    if agrees(places, other) {
        println!(rt; "the answers agree")
    } else {
        println!(rt; "the answers differ")
    }
}

// Makes the calls on a campaign, prints each with its answer, and keeps a log.
fn print_calls(
    rt: &impl Print,
    calls: &[Call<Plant>],
    log: &mut Trail<Event<Plant>>,
) -> io::Result<()> {
    let mut campaign = Campaign::open(Hall, BOUND);
    for call in calls {
        let mut states = [Hall.start(); STATES];
        let mut actions = [0; ACTIONS];
        let answer = carry_out(&mut campaign, *call, &mut states, &mut actions);
        print_call(rt, *call)?;
        print_answer(rt, answer)?;
        let _ = log.push(Event {
            call: *call,
            answer,
        });
    }
    Ok(())
}

// Follows a campaign call by call, and replays it.
pub fn print_campaign(rt: &impl Print) -> io::Result<()> {
    println!(rt; "A campaign of at most {BOUND} steps.")?;
    let calls = crew_calls();
    let blank = Event {
        call: Call::Done,
        answer: Answer::NoWay,
    };
    let mut first = [blank; CALLS];
    print_calls(rt, &calls, &mut Trail::new(&mut first))?;
    print_replay(rt, &calls, &mut [blank; CALLS - 1], &first)?;
    print_replay(rt, &calls, &mut [blank; CALLS], &first)
}
