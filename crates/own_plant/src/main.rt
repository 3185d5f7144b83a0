// A customer's own plant under the planner: plans its rollover, checks lists of actions, follows a campaign, and prints what
// it did.
#![tactic(auto)]

ghost use Rattle.own_plant.specs.Lent.{Lent};
ghost use Rattle.planner.specs.Planned.{bound_read};

mod following;
mod numbers;

use following::print_campaign;
use hall::{Hall, HallFault, Job, Plant, Window};
use model::{Cause, Model};
use numbers::Numbers;
use planner::{PlanAnswer, PlanFault, check, plan};
use std::io;
use trail::Trail;

// As many places as the longest plan needs. They are lent: planning has no memory of its own.
const STATES: usize = 25;

const ACTIONS: usize = 24;

fn print_jobs(rt: &impl Print) -> io::Result<()> {
    for action in 1..=Hall.actions() {
        if let Ok(job) = Job::try_from(action) {
            println!(rt; "job {action}: {job}")?;
        }
    }
    Ok(())
}

// One line: the shown numbers, and the job that led there.
fn print_step(rt: &impl Print, plant: Plant, step: usize, action: u16) -> io::Result<()> {
    let numbers = Numbers(plant);
    match Job::try_from(action) {
        Ok(job) => println!(rt; "{numbers}  after step {step}, action {action}: {job}"),
        Err(_) => println!(rt; "{numbers}  after step {step}, action {action}"),
    }
}

fn print_plan(rt: &impl Print, states: &[Plant], actions: &[u16]) -> io::Result<()> {
    if let Some(start) = states.first() {
        println!(rt; "{}  at the start", Numbers(*start))?;
    }
    for (step, (action, plant)) in (1..).zip(actions.iter().zip(states.iter().skip(1))) {
        print_step(rt, *plant, step, *action)?;
    }
    Ok(())
}

fn print_check(rt: &impl Print, plant: Plant, actions: &[u16]) -> io::Result<()> {
    print!(rt; "check of")?;
    for action in actions {
        print!(rt; " {action}")?;
    }
    match check(&Hall, plant, actions) {
        Ok(count) => println!(rt; ": accepted, {count} actions"),
        Err(fault) => println!(rt; ": refused, {} {fault}", fault.number()),
    }
}

// The hall has words of its own for a value that is not a state.
fn print_refusal(rt: &impl Print, fault: PlanFault) -> io::Result<()> {
    let number = fault.number();
    match fault {
        PlanFault::NotAState => println!(rt; "refused, {number}: {}", HallFault::NotAState),
        _ => println!(rt; "refused, {number}: {fault}"),
    }
}

// Plans over lent slices. Once the trails are gone, the slices hold what the trails held.
fn plan_over(
    plant: Plant,
    bound: u16,
    states: &mut [Plant],
    actions: &mut [u16],
) -> Result<PlanAnswer, PlanFault>
    ensures { Lent plant (bound_read bound) result states.old states.new actions.old actions.new }
{
    plan(
        &Hall,
        plant,
        bound,
        &mut Trail::new(states),
        &mut Trail::new(actions),
    )
}

// Plans from a plant over the lent places, prints the answer, and checks a plan that was found.
fn print_planning(
    rt: &impl Print,
    plant: Plant,
    bound: u16,
    states: &mut [Plant],
    actions: &mut [u16],
) -> io::Result<()> {
    print!(rt; "plan within {bound} steps: ")?;
    match plan_over(plant, bound, states, actions) {
        Ok(PlanAnswer::Steps(steps)) => {
            println!(rt; "{steps} steps")?;
            let list = &actions[..usize::from(steps)];
            print_plan(rt, states, list)?;
            print_check(rt, plant, list)
        }
        Ok(PlanAnswer::NoWay) => println!(rt; "no way"),
        Err(fault) => print_refusal(rt, fault),
    }
}

// A plan, the lack of one at one step less, and lists that are not accepted.
fn print_answers(rt: &impl Print) -> io::Result<()> {
    let start = Hall.start();
    let mut states = [start; STATES];
    let mut actions = [0; ACTIONS];
    print_planning(rt, start, 24, &mut states, &mut actions)?;
    print_planning(rt, start, 6, &mut states, &mut actions)?;
    print_check(rt, start, &[4, 2, 1])?;
    print_check(rt, start, &[1, 2, 4])
}

// Each cause of the hall, met by a list of jobs that breaks off.
fn print_causes(rt: &impl Print) -> io::Result<()> {
    let start = Hall.start();
    print_check(rt, start, &[1, 1])?;
    print_check(rt, start, &[4, 9])?;
    print_check(rt, start, &[4, 5])?;
    print_check(rt, start, &[4, 6, 8])?;
    print_check(rt, start, &[1, 6])?;
    print_check(rt, start, &[10])
}

// What is refused: a value that is not a state, and one place less than a plan of 24 actions needs.
fn print_refusals(rt: &impl Print) -> io::Result<()> {
    let start = Hall.start();
    let impossible = Plant {
        window: Window::Open,
        ..start
    };
    let mut states = [start; STATES];
    let mut actions = [0; ACTIONS];
    print_check(rt, impossible, &[7])?;
    print_planning(rt, impossible, 24, &mut states, &mut actions)?;
    print_planning(rt, start, 24, &mut [start; STATES - 1], &mut actions)?;
    print_planning(rt, start, 24, &mut states, &mut [0; ACTIONS - 1])
}

fn main(rt: HostRuntime) -> io::Result<()> {
    println!(rt; "Rolling a hall over to its new certificate chain.")?;
    print_jobs(&rt)?;
    println!(rt;
        "Shown, 1 for yes: presses 1 to 3 trust the new root, gateways 1 and 2 serve the new chain,"
    )?;
    println!(rt; "the maintenance window is open, presses 1 to 3 are on the network.")?;
    print_answers(&rt)?;
    print_causes(&rt)?;
    print_refusals(&rt)?;
    print_campaign(&rt)
}
