//! Reading and checking a domain and a problem as the planner does.

ghost use Rattle.std.specs.Prelude.{◌≡◌, ℕ, IfErr, IfOk, List, None, Some, map};
ghost use Rattle.hp_io.specs.declared.folder.Input.TheVariants as inputs;
ghost use Rattle.hp_doctor.specs.Accepting.{Has, IsAccepted, StopBoth, Stops, StopsAtCheck, faults, of_file, of_form, of_text};
ghost use Rattle.hp_doctor.specs.Accepting.{refused_status, refusal_status};
ghost use Rattle.hp_doctor.specs.Mending.{steps_form};
ghost use Rattle.hp_doctor.specs.Texts.{file_of, texts_of};
ghost use Rattle.hp_syntax.specs.Checks.{first_of};
ghost use Rattle.hp_syntax.specs.Forest.{IsForest};
ghost use Rattle.hp_syntax.specs.Grammar.{domain_form, problem_form};
ghost use Rattle.hp_syntax.specs.GroundViews.{ground_of};
ghost use Rattle.hp_syntax.specs.TextForms.{IsRead};
ghost use Rattle.hp_syntax.specs.Views.{domain_of, problem_of};
ghost use Rattle.hp_text.specs.Nodes.{forest_of};

use crate::texts::{Text, Texts};
use hp_check::first_fault;
use hp_forms::{FileRefusal, FormRefusal, plan_steps, read_domain, read_problem};
use hp_io::Input;
use hp_out::{Refusal, text_of};
use hp_syntax::{Domain, Ground, Problem, Status};
use hp_text::{Forest, TextRefusal, read};
use std::alloc::Global;

/// Why files aren't accepted.
#[derive(Clone, Copy)]
pub enum Stop {
    NoMemory,
    /// The planner refuses them so.
    Refused(Refusal),
}

/// A domain and a problem that the planner accepts.
pub struct Accepted {
    pub domain: Domain,
    pub problem: Problem,
}

impl Drop for Accepted {
    fn drop(self) {
        let Accepted { domain, problem } = self;
        drop(domain);
        drop(problem);
    }
}

/// The status of a run that is refused.
pub fn refusal_status(refusal: Refusal) -> Status
    ensures { result ≡ refusal_status refusal }
{
    match refusal {
        Refusal::Usage => Status::Usage,
        Refusal::Read(_) => Status::ReadFault,
        Refusal::Text(which, _, _) => refused_status(which),
        Refusal::Form(which, _, _) => refused_status(which),
        Refusal::Check(fault) => refused_status(text_of(fault.in_problem)),
        Refusal::NoPair(_, _) => Status::ProblemRefused,
    }
}

fn refused_status(which: Input) -> Status
    ensures { result ≡ refused_status which }
{
    match which {
        Input::Domain => Status::DomainRefused,
        Input::Problem => Status::ProblemRefused,
        Input::Plan => Status::PlanRefused,
    }
}

/// Why a text isn't read that has no forest.
fn of_text(which: Input, refusal: TextRefusal) -> Stop
    ensures { result ≡ of_text which refusal }
{
    match refusal {
        TextRefusal::Bad(kind, offset) => Stop::Refused(Refusal::Text(which, kind, offset)),
        TextRefusal::NoMemory => Stop::NoMemory,
    }
}

/// Why a text isn't read of which the forest has no form.
fn of_form(which: Input, refusal: FormRefusal) -> Stop
    ensures { result ≡ of_form which refusal }
{
    match refusal {
        FormRefusal::Expected { what, span } => Stop::Refused(Refusal::Form(which, what, span)),
        FormRefusal::NoMemory => Stop::NoMemory,
    }
}

/// Why a text isn't read that is refused, or of which the forest has no form.
fn of_file(which: Input, refusal: FileRefusal) -> Stop
    ensures { result ≡ of_file which refusal }
{
    match refusal {
        FileRefusal::Text(refusal) => of_text(which, refusal),
        FileRefusal::Form(refusal) => of_form(which, refusal),
    }
}

/// The domain that a text is.
pub fn domain_in(alloc: Global, text: &[u8]) -> Result<Domain, Stop>
    ensures domain { IfOk result (λ d. IsRead domain_form text.now (domain_of d)) }
    ensures stops { IfErr result (Stops inputs.Domain domain_form (Some text.now)) }
{
    match read_domain(alloc, text) {
        Ok(domain) => Ok(domain),
        Err(refusal) => Err(of_file(Input::Domain, refusal)),
    }
}

/// The problem that a text is.
pub fn problem_in(alloc: Global, text: &[u8]) -> Result<Problem, Stop>
    ensures problem { IfOk result (λ p. IsRead problem_form text.now (problem_of p)) }
    ensures stops { IfErr result (Stops inputs.Problem problem_form (Some text.now)) }
{
    match read_problem(alloc, text) {
        Ok(problem) => Ok(problem),
        Err(refusal) => Err(of_file(Input::Problem, refusal)),
    }
}

/// The steps of the plan that a forest is.
fn plan_of(alloc: Global, forest: &Forest) -> Result<Vec<Ground>, Stop>
    ensures plan { (text : List ℕ) → IsForest text (forest_of forest.now)
        → IfOk result (λ v. IsRead steps_form text (map ground_of v.items)) }
    ensures stops { (text : List ℕ) → IsForest text (forest_of forest.now)
        → IfErr result (Stops inputs.Plan steps_form (Some text)) }
{
    match plan_steps(alloc, forest) {
        Ok(steps) => Ok(steps),
        Err(refusal) => Err(of_form(Input::Plan, refusal)),
    }
}

/// The steps of the plan that a text is.
pub fn plan_in(alloc: Global, text: &[u8]) -> Result<Vec<Ground>, Stop>
    ensures plan { IfOk result (λ v. IsRead steps_form text.now (map ground_of v.items)) }
    ensures stops { IfErr result (Stops inputs.Plan steps_form (Some text.now)) }
{
    match read(alloc, text) {
        Ok(forest) => plan_of(alloc, &forest),
        Err(refusal) => Err(of_text(Input::Plan, refusal)),
    }
}

/// The domain in a file.
fn domain_of_file(alloc: Global, file: &Text) -> Result<Domain, Stop>
    ensures domain { IfOk result (λ d. Has domain_form (file_of file.now).text (domain_of d)) }
    ensures stops { IfErr result (Stops inputs.Domain domain_form (file_of file.now).text) }
{
    match &file.lines {
        Some(lines) => domain_in(alloc, lines.text()),
        None => Err(Stop::Refused(Refusal::Read(Input::Domain))),
    }
}

/// The problem in a file.
fn problem_of_file(alloc: Global, file: &Text) -> Result<Problem, Stop>
    ensures problem { IfOk result (λ p. Has problem_form (file_of file.now).text (problem_of p)) }
    ensures stops { IfErr result (Stops inputs.Problem problem_form (file_of file.now).text) }
{
    match &file.lines {
        Some(lines) => problem_in(alloc, lines.text()),
        None => Err(Stop::Refused(Refusal::Read(Input::Problem))),
    }
}

/// A domain and a problem, checked.
fn checked(domain: Domain, problem: Problem) -> Result<Accepted, Stop>
    ensures ok { IfOk result (λ a. (domain_of a.domain ≡ domain_of domain) × (problem_of a.problem ≡ problem_of problem)
        × (first_of (faults (domain_of domain) (problem_of problem)) ≡ None)) }
    ensures err { IfErr result (λ e. StopsAtCheck e (first_of (faults (domain_of domain) (problem_of problem)))) }
{
    match first_fault(&domain, &problem) {
        None => Ok(Accepted { domain, problem }),
        Some(fault) => Err(Stop::Refused(Refusal::Check(fault))),
    }
}

/// The domain and the problem of a run, where the planner accepts them.
pub fn accept(alloc: Global, files: &Texts) -> Result<Accepted, Stop>
    ensures accepted { IfOk result (λ a. IsAccepted (texts_of files.now) (domain_of a.domain) (problem_of a.problem)) }
    ensures stops { IfErr result (StopBoth (texts_of files.now)) }
{
    let domain = match domain_of_file(alloc, &files.domain) {
        Ok(domain) => domain,
        Err(stop) => return Err(stop),
    };
    match problem_of_file(alloc, &files.problem) {
        Ok(problem) => checked(domain, problem),
        Err(stop) => Err(stop),
    }
}
