// What a crew can do in the hall: the actions of the model, by their numbers.
ghost use Rattle.std.specs.Prelude.{◌≡◌};
ghost use Rattle.std.specs.Option.{ok_or};
ghost use Rattle.hall.specs.Jobs.{job};
ghost use Rattle.hall.specs.declared.fault.HallFault.TheVariants.{NoSuchJob};

use super::fault::HallFault;
use super::network::{Gateway, Press};
use std::fmt;

#[derive(Clone, Copy, PartialEq, Eq, Debug)]
pub enum Job {
    Install(Press),
    Switch(Gateway),
    OpenWindow,
    CloseWindow,
    PutBack(Gateway),
}

// The job with an action's number, if there is one.
impl TryFrom<u16> for Job {
    type Error = HallFault;

    ghost try_from_gives = { λ action r. r ≡ ok_or (job action) NoSuchJob };

    fn try_from(action: u16) -> Result<Self, HallFault> {
        match action {
            1 => Ok(Job::Install(Press::One)),
            2 => Ok(Job::Install(Press::Two)),
            3 => Ok(Job::Install(Press::Three)),
            4 => Ok(Job::Switch(Gateway::One)),
            5 => Ok(Job::Switch(Gateway::Two)),
            6 => Ok(Job::OpenWindow),
            7 => Ok(Job::CloseWindow),
            8 => Ok(Job::PutBack(Gateway::One)),
            9 => Ok(Job::PutBack(Gateway::Two)),
            _ => Err(HallFault::NoSuchJob),
        }
    }
}

impl fmt::Display for Job {
    fn fmt<W: fmt::Write>(&self, f: &mut fmt::Formatter<W>) -> fmt::Result {
        match self {
            Job::Install(press) => write!(f, "install the new root on press {press}"),
            Job::Switch(gateway) => write!(f, "switch gateway {gateway} to the new chain"),
            Job::OpenWindow => f.write_str("open the maintenance window"),
            Job::CloseWindow => f.write_str("close the maintenance window"),
            Job::PutBack(gateway) => write!(f, "put gateway {gateway} back to the old chain"),
        }
    }
}
