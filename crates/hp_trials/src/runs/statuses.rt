//! The numbers of the statuses.

use crate::runs::trial::{tell, tell_status};
use hp_top::Status;
use std::alloc::{AllocError, Global};

const STATUSES: [(&str, Status); 12] = [
    ("# done", Status::Done),
    ("# no memory", Status::NoMemory),
    ("# usage", Status::Usage),
    ("# read fault", Status::ReadFault),
    ("# domain refused", Status::DomainRefused),
    ("# problem refused", Status::ProblemRefused),
    ("# run fault", Status::RunFault),
    ("# write fault", Status::WriteFault),
    ("# plan refused", Status::PlanRefused),
    ("# no such path", Status::NoSuchPath),
    ("# no plan", Status::NoPlan),
    ("# cut short", Status::CutShort),
];

/// Each status, from the first to the last.
pub fn try_all(alloc: Global, out: &mut Vec<u8>) -> Result<(), AllocError> {
    for (name, status) in &STATUSES {
        tell(out, name)?;
        tell_status(alloc, out, *status)?;
    }
    Ok(())
}
