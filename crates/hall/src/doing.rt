// When a job can be done, and how the hall stands once it is.
ghost use Rattle.std.specs.Prelude.{◌≡◌, IfOk};
ghost use Rattle.hall.specs.Jobs.{after, can_do, done, can_install, can_switch, can_open, can_close, can_put_back};
ghost use Rattle.hall.specs.Rules.{Rules};

use super::fault::HallFault;
use super::job::Job;
use super::network::{Gateway, Press};
use super::plant::{Chain, Plant, Store, Window};

fn can_install(press: Press, store: Store, chain: Chain) -> Result<(), HallFault>
    ensures { result ≡ can_install press store chain }
{
    match (store, chain) {
        (Store::BothRoots, _) => Err(HallFault::AlreadyDone),
        (Store::OldRoot, Chain::Old) => Ok(()),
        (Store::OldRoot, Chain::New) => Err(HallFault::OffNetwork(press)),
    }
}

fn can_switch(gateway: Gateway, chain: Chain, window: Window) -> Result<(), HallFault>
    ensures { result ≡ can_switch gateway chain window }
{
    match (chain, gateway, window) {
        (Chain::New, _, _) => Err(HallFault::AlreadyDone),
        (Chain::Old, Gateway::One, _) => Ok(()),
        (Chain::Old, Gateway::Two, Window::Closed) => Err(HallFault::WindowClosed),
        (Chain::Old, Gateway::Two, Window::Open) => Ok(()),
    }
}

fn can_open(window: Window, chain: Chain) -> Result<(), HallFault>
    ensures { result ≡ can_open window chain }
{
    match (window, chain) {
        (Window::Open, _) => Err(HallFault::AlreadyDone),
        (Window::Closed, Chain::Old) => Err(HallFault::TooEarly),
        (Window::Closed, Chain::New) => Ok(()),
    }
}

fn can_close(window: Window) -> Result<(), HallFault>
    ensures { result ≡ can_close window }
{
    match window {
        Window::Closed => Err(HallFault::AlreadyDone),
        Window::Open => Ok(()),
    }
}

fn can_put_back(gateway: Gateway, chain: Chain, window: Window) -> Result<(), HallFault>
    ensures { result ≡ can_put_back gateway chain window }
{
    match (chain, gateway, window) {
        (Chain::Old, _, _) => Err(HallFault::AlreadyDone),
        (Chain::New, Gateway::One, Window::Open) => Err(HallFault::WindowOpen),
        (Chain::New, Gateway::One, Window::Closed) => Ok(()),
        (Chain::New, Gateway::Two, Window::Closed) => Err(HallFault::WindowClosed),
        (Chain::New, Gateway::Two, Window::Open) => Ok(()),
    }
}

// Whether a job can be done, or why not. A match here and in `done`, since the definitions go by the same cases.
fn can_do(plant: Plant, job: Job) -> Result<(), HallFault>
    ensures { result ≡ can_do plant job }
{
    match job {
        Job::Install(press) => {
            can_install(press, plant.store(press), plant.chain(press.gateway()))
        }
        Job::Switch(gateway) => can_switch(gateway, plant.chain(gateway), plant.window),
        Job::OpenWindow => can_open(plant.window, plant.gateway1),
        Job::CloseWindow => can_close(plant.window),
        Job::PutBack(gateway) => can_put_back(gateway, plant.chain(gateway), plant.window),
    }
}

// How the hall stands once a job is done: each changes one thing.
fn done(plant: Plant, job: Job) -> Plant
    ensures { result ≡ done plant job }
{
    match job {
        Job::Install(press) => plant.with_store(press, Store::BothRoots),
        Job::Switch(gateway) => plant.with_chain(gateway, Chain::New),
        Job::OpenWindow => Plant {
            window: Window::Open,
            ..plant
        },
        Job::CloseWindow => Plant {
            window: Window::Closed,
            ..plant
        },
        Job::PutBack(gateway) => plant.with_chain(gateway, Chain::Old),
    }
}

// What a job comes to.
pub fn after(plant: Plant, job: Job) -> Result<Plant, HallFault>
    ensures value { result ≡ after plant job }
    ensures rules { IfOk result (λ next. Rules plant next) }
{
    can_do(plant, job)?;
    Ok(done(plant, job))
}
