//! The order of remarks.

ghost use Rattle.std.specs.Prelude.{◌≡◌, IfOk, OnOk, map};
ghost use Rattle.hp_lint.specs.LintViews.{remark_of};
ghost use Rattle.hp_lint.specs.Remarks.{in_order};

use crate::report::{Remark, Report};
use std::alloc::AllocError;

fn put_in_order(list: &mut Vec<Remark>) -> Result<(), AllocError>
    ensures { OnOk result (map remark_of list.new.items ≡ in_order (map remark_of list.old.items)) }
{
    list.sort_by_key(|remark| remark.span.from)
}

/// The remarks of a report, by where they begin. Those that begin at one place keep their order.
pub fn sort(report: Report) -> Result<Vec<Remark>, AllocError>
    ensures { IfOk result (λ list. map remark_of list.items ≡ in_order (map remark_of report.list.items)) }
{
    let mut list = report.into_list();
    put_in_order(&mut list)?;
    Ok(list)
}
