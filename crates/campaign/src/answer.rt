// What the calls of a campaign answer.
ghost use Rattle.std.specs.Prelude.{◌≡◌};
ghost use Rattle.campaign.specs.Answers.{of_ask, of_report};

use super::fault::CampaignFault;
use super::order::Order;
use model::Cause;
use std::fmt;

// What asking says where it is not refused.
#[derive(Clone, Copy, PartialEq, Eq, Debug)]
pub enum Advice {
    // Carry this out next.
    Order(Order),
    // The goal is met.
    Reached,
    // No list of actions within the steps left leads to the goal.
    NoWay,
}

// The answer to any call, for a list of different calls. It repeats the cases of `Advice`, so that whoever reads a log matches once.
#[derive(Clone, Copy, PartialEq, Eq, Debug)]
pub enum Answer {
    Order(Order),
    Reached,
    NoWay,
    // A report or a finding was accepted; so many reports were accepted by then.
    Accepted(u16),
    // The number shown.
    Number(u16),
    Refused(CampaignFault),
}

// What asking answers, as the type that serves every call.
impl From<Result<Advice, CampaignFault>> for Answer {
    ghost from_gives = { λ r a. a ≡ of_ask r };

    fn from(r: Result<Advice, CampaignFault>) -> Answer {
        match r {
            Ok(Advice::Order(order)) => Answer::Order(order),
            Ok(Advice::Reached) => Answer::Reached,
            Ok(Advice::NoWay) => Answer::NoWay,
            Err(fault) => Answer::Refused(fault),
        }
    }
}

// What done, failed and finding answer, as the type that serves every call.
impl From<Result<u16, CampaignFault>> for Answer {
    ghost from_gives = { λ r a. a ≡ of_report r };

    fn from(r: Result<u16, CampaignFault>) -> Answer {
        match r {
            Ok(reports) => Answer::Accepted(reports),
            Err(fault) => Answer::Refused(fault),
        }
    }
}

impl fmt::Display for Answer {
    fn fmt<W: fmt::Write>(&self, f: &mut fmt::Formatter<W>) -> fmt::Result {
        match *self {
            Answer::Order(Order { action, steps }) => write!(
                f,
                "order: action {action}, steps to the goal: {steps}"
            ),
            Answer::Reached => f.write_str("reached"),
            Answer::NoWay => f.write_str("no way"),
            Answer::Accepted(reports) => write!(f, "accepted, reports: {reports}"),
            Answer::Number(number) => write!(f, "{number}"),
            Answer::Refused(fault) => write!(f, "refused, {}: {fault}", fault.number()),
        }
    }
}
