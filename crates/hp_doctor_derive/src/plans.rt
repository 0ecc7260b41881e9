//! The plan that is given.
ghost use Rattle.std.specs.Prelude.{◌≡◌, ℕ, List, IfErr, IfOk, None, Some, length, map};
ghost use Rattle.hp_doctor.specs.Accepting.{Stops, of_text};
ghost use Rattle.hp_doctor.specs.Mending.{steps_form};
ghost use Rattle.hp_doctor.specs.Texts.{texts_of};
ghost use Rattle.hp_io.specs.declared.folder.Input.TheVariants as inputs;
ghost use Rattle.hp_syntax.specs.Forest.{IsForest};
ghost use Rattle.hp_text.specs.Nodes.{forest_of};
ghost use Rattle.hp_doctor_derive.specs.Blanked.{blanked};
ghost use Rattle.hp_doctor_derive.specs.Plans.{IsPlan, IsPlanIf, StopsPlan, plan_of, span_in, text_given};

use crate::blanks::blanked;
use hp_doctor::{Stop, Texts};
use hp_forms::{FormRefusal, plan_steps};
use hp_io::Input;
use hp_out::Refusal;
use hp_syntax::{Ground, Span};
use hp_text::{Forest, TextRefusal, read};
use std::alloc::Global;

/// The steps of a plan, and the forest of its text.
pub struct Plan {
    pub forest: Forest,
    pub steps: Vec<Ground>,
}

impl Drop for Plan {
    fn drop(self) {
        let Plan { forest, steps } = self;
        drop(forest);
        drop(steps);
    }
}

/// Where a step stands in the text of the plan.
pub fn span_at(plan: &Plan, step: u64) -> Option<Span>
    ensures { result ≡ span_in step (plan_of plan.now).forest }
{
    match plan.forest.nodes.get(step as usize) {
        Some(node) => Some(node.span),
        None => None,
    }
}

/// Why a text isn't read as a plan that has no forest.
fn stop_of(refusal: TextRefusal) -> Stop
    ensures { result ≡ of_text inputs.Plan refusal }
{
    match refusal {
        TextRefusal::Bad(kind, offset) => {
            Stop::Refused(Refusal::Text(Input::Plan, kind, offset))
        }
        TextRefusal::NoMemory => Stop::NoMemory,
    }
}

/// The plan that a forest is.
fn plan_in(alloc: Global, forest: Forest) -> Result<Plan, Stop>
    ensures plan { (text : List ℕ) → IsForest text (forest_of forest)
        → IfOk result (λ p. IsPlan text (plan_of p)) }
    ensures stops { (text : List ℕ) → IsForest text (forest_of forest)
        → IfErr result (Stops inputs.Plan steps_form (Some text)) }
{
    match plan_steps(alloc, &forest) {
        Ok(steps) => Ok(Plan { forest, steps }),
        Err(FormRefusal::Expected { what, span }) => {
            Err(Stop::Refused(Refusal::Form(Input::Plan, what, span)))
        }
        Err(FormRefusal::NoMemory) => Err(Stop::NoMemory),
    }
}

/// The plan that a text is.
fn read_plan(alloc: Global, text: &[u8]) -> Result<Plan, Stop>
    ensures plan { IfOk result (λ p. IsPlan text.now (plan_of p)) }
    ensures stops { IfErr result (Stops inputs.Plan steps_form (Some text.now)) }
{
    match read(alloc, text) {
        Ok(forest) => plan_in(alloc, forest),
        Err(refusal) => Err(stop_of(refusal)),
    }
}

/// The plan that a text is without the planner's own lines.
fn read_without(alloc: Global, text: &[u8]) -> Result<Plan, Stop>
    ensures plan { IfOk result (λ p. IsPlan (blanked text.now) (plan_of p)) }
    ensures stops { IfErr result (Stops inputs.Plan steps_form (Some (blanked text.now))) }
{
    match blanked(alloc, text) {
        Ok(other) => read_plan(alloc, other.as_slice()),
        Err(_) => Err(Stop::NoMemory),
    }
}

/// The plan that a text is as it is, or else without the planner's own lines.
fn read_given(alloc: Global, text: &[u8]) -> Result<Plan, Stop>
    ensures plan { IfOk result (λ p. IsPlanIf (Some text.now) (plan_of p)) }
    ensures stops { IfErr result (StopsPlan (Some text.now)) }
{
    match read_plan(alloc, text) {
        Ok(plan) => Ok(plan),
        Err(Stop::Refused(refusal)) => match read_without(alloc, text) {
            Ok(plan) => Ok(plan),
            Err(Stop::Refused(_)) => Err(Stop::Refused(refusal)),
            Err(Stop::NoMemory) => Err(Stop::NoMemory),
        },
        Err(Stop::NoMemory) => Err(Stop::NoMemory),
    }
}

/// Why no plan is read of a file without a text.
fn unread() -> Stop
    ensures { StopsPlan None result }
{
    Stop::Refused(Refusal::Read(Input::Plan))
}

/// The plan in the file of the plan.
pub fn plan_given(alloc: Global, files: &Texts) -> Result<Plan, Stop>
    ensures plan { IfOk result (λ p. IsPlanIf (text_given (texts_of files.now)) (plan_of p)) }
    ensures stops { IfErr result (StopsPlan (text_given (texts_of files.now))) }
{
    match &files.plan {
        Some(file) => match &file.lines {
            Some(lines) => read_given(alloc, lines.text()),
            None => Err(unread()),
        },
        None => Err(unread()),
    }
}
