//! From files to a domain, a problem and a plan.

ghost use Rattle.std.specs.Prelude.{◌≡◌, ◌≢◌, ◌≤◌, ℕ, List, None, Some, length, map, Ok, Err, IfOk, IfErr, IsErrOf};
ghost use Rattle.hp_io.specs.Inputs.{by_input};
ghost use Rattle.hp_io.specs.declared.folder.Input.{Input};
ghost use Rattle.hp_io.specs.declared.folder.Input.TheVariants as inputs;
ghost use Rattle.hp_forms.specs.PlanForms.{plan_form};
ghost use Rattle.hp_syntax.specs.Forest.{IsForest};
ghost use Rattle.hp_syntax.specs.GroundViews.{ground_of};
ghost use Rattle.hp_syntax.specs.Grammar.{domain_form, problem_form};
ghost use Rattle.hp_syntax.specs.Numbered.{IsNumberedDomain};
ghost use Rattle.hp_syntax.specs.Views.{domain_of, problem_of};
ghost use Rattle.hp_syntax.specs.TextForms.{IsRead};
ghost use Rattle.hp_terms.specs.FormReads.{Refuses};
ghost use Rattle.hp_terms.specs.declared.refusal.FormRefusal.{FormRefusal};
ghost use Rattle.hp_text.specs.Nodes.{forest_of};
ghost use Rattle.hp_text.specs.Refusals.{RefusesText};
ghost use Rattle.hp_top.specs.Loading.{ReadsFile, Reads, HasText, IsUnread, IsRefusedFor, StopsAt, LoadsBoth, LoadsThree, folder_run, plain_of, plain_with_plan, of_file, of_form, of_text};
ghost use Rattle.hp_top.specs.Outcome.{steps_form};
ghost use Rattle.hp_top.specs.Touching.{Touches, TouchesBy, IsUntouched, input_run};
ghost use Rattle.hp_words.specs.Words.{verification_of};

use crate::reading::{ReadError, read_rest};
use hp_forms::{FileRefusal, FormRefusal};
use hp_io::{BeginError, Folder, Input};
use hp_out::Refusal;
use hp_syntax::laws::{limits_are_kept, refusals_are_decided_by_the_prefix};
use hp_syntax::{Domain, Ground, Problem};
use hp_text::{Forest, TextRefusal, read};
use hp_words::Verification;
use std::alloc::Global;

/// Why files aren't read as a domain, a problem and a plan.
#[derive(Clone, Copy)]
pub enum LoadError {
    NoMemory,
    /// A file isn't there, couldn't be read, or its text or its form is refused.
    Refused(Refusal),
}

/// A domain and a problem that are read.
pub struct Loaded {
    pub domain: Domain,
    pub problem: Problem,
}

impl Drop for Loaded {
    fn drop(self) {
        let Loaded { domain, problem } = self;
        drop(domain);
        drop(problem);
    }
}

/// A domain and a problem that are read, and the steps of a plan.
pub struct LoadedPlan {
    pub files: Loaded,
    pub steps: Vec<Ground>,
}

impl Drop for LoadedPlan {
    fn drop(self) {
        let LoadedPlan { files, steps } = self;
        drop(files);
        drop(steps);
    }
}

/// Why a text isn't read that has no forest.
fn of_text(which: Input, refusal: TextRefusal) -> LoadError
    ensures { result ≡ of_text which refusal }
{
    match refusal {
        TextRefusal::Bad(kind, offset) => LoadError::Refused(Refusal::Text(which, kind, offset)),
        TextRefusal::NoMemory => LoadError::NoMemory,
    }
}

/// Why a text isn't read of which the forest has no form.
fn of_form(which: Input, refusal: FormRefusal) -> LoadError
    ensures { result ≡ of_form which refusal }
{
    match refusal {
        FormRefusal::Expected { what, span } => LoadError::Refused(Refusal::Form(
            which, what, span,
        )),
        FormRefusal::NoMemory => LoadError::NoMemory,
    }
}

/// Why a text isn't read that is refused, or of which the forest has no form.
fn of_file(which: Input, refusal: FileRefusal) -> LoadError
    ensures { result ≡ of_file which refusal }
{
    match refusal {
        FileRefusal::Text(refusal) => of_text(which, refusal),
        FileRefusal::Form(refusal) => of_form(which, refusal),
    }
}

/// The forest of a text. The text is gone when this returns.
fn forest_in(alloc: Global, bytes: Vec<u8>) -> Result<Forest, TextRefusal>
    ensures forest { IfOk result (λ f. IsForest bytes.items (forest_of f)) }
    ensures length { IfOk result (λ f. f.len ≡ length bytes.items) }
    ensures refused { IfErr result (RefusesText bytes.items) }
{
    read(alloc, bytes.as_slice())
}

/// The domain that a text is.
pub fn domain_in(alloc: Global, bytes: Vec<u8>) -> Result<Domain, LoadError>
    ensures domain { IfOk result (λ d. IsRead domain_form bytes.items (domain_of d)) }
    ensures numbered { IfOk result (λ d. IsNumberedDomain (domain_of d)) }
    ensures refused { IfErr result (IsRefusedFor inputs.Domain domain_form bytes.items) }
{
    match hp_forms::read_domain(alloc, bytes.as_slice()) {
        Ok(domain) => Ok(domain),
        Err(refusal) => Err(of_file(Input::Domain, refusal)),
    }
}

/// The problem that a text is.
pub fn problem_in(alloc: Global, bytes: Vec<u8>) -> Result<Problem, LoadError>
    ensures problem { IfOk result (λ p. IsRead problem_form bytes.items (problem_of p)) }
    ensures refused { IfErr result (IsRefusedFor inputs.Problem problem_form bytes.items) }
{
    match hp_forms::read_problem(alloc, bytes.as_slice()) {
        Ok(problem) => Ok(problem),
        Err(refusal) => Err(of_file(Input::Problem, refusal)),
    }
}

/// The steps of the plan that a forest is.
fn steps_of(alloc: Global, forest: &Forest) -> Result<Vec<Ground>, LoadError>
    ensures form { IfOk result (λ v. plan_form (forest_of forest.now) ≡ Ok (map ground_of v.items)) }
    ensures refused { IfErr result (λ e. (refusal : FormRefusal) × (e ≡ of_form inputs.Plan refusal)
        × Refuses refusal (plan_form (forest_of forest.now))) }
{
    match hp_forms::plan_steps(alloc, forest) {
        Ok(steps) => Ok(steps),
        Err(refusal) => Err(of_form(Input::Plan, refusal)),
    }
}

/// The steps of the plan that a text is.
fn steps_in(alloc: Global, bytes: Vec<u8>) -> Result<Vec<Ground>, LoadError>
    ensures steps { IfOk result (λ v. IsRead steps_form bytes.items (map ground_of v.items)) }
    ensures refused { IfErr result (IsRefusedFor inputs.Plan steps_form bytes.items) }
{
    match forest_in(alloc, bytes) {
        Ok(forest) => steps_of(alloc, &forest),
        Err(refusal) => Err(of_text(Input::Plan, refusal)),
    }
}

/// The prefix of a file, up to its end or one byte past the longest text.
fn file_prefix<F: Folder>(
    alloc: Global,
    folder: &mut F,
    which: Input,
    name: &str,
) -> Result<Vec<u8>, ReadError>
    ensures bytes { IfOk result (λ bytes. ReadsFile bytes.items (F.file folder.old name.now)) }
    ensures files { (n : List ℕ) → F.file folder.new n ≡ F.file folder.old n }
    ensures later { (w : Input) → F.faults folder.old w ≤ F.faults folder.new w }
    ensures cause { IsErrOf result ReadError.Failed
        → IsUnread which (F.file folder.old name.now) (F.faults folder.old) (F.faults folder.new) }
    ensures touched { Touches (F.file folder.old name.now) (input_run
        (F.begun folder.old which) (F.begun folder.new which)
        (F.rest folder.old which) (F.rest folder.new which)) }
    ensures others { (w : Input) → w ≢ which → IsUntouched
        (input_run (F.begun folder.old w) (F.begun folder.new w) (F.rest folder.old w) (F.rest folder.new w)) }
{
    match folder.begin(which, name) {
        Ok(()) => read_rest(alloc, folder, which),
        Err(BeginError::Failed) => Err(ReadError::Failed),
        Err(BeginError::NoMemory) => Err(ReadError::NoMemory),
    }
}

/// The domain in a file.
pub fn load_domain<F: Folder>(
    alloc: Global,
    folder: &mut F,
    name: &str,
) -> Result<Domain, LoadError>
    ensures domain { IfOk result (λ d. Reads domain_form (F.file folder.old name.now) (domain_of d)) }
    ensures numbered { IfOk result (λ d. IsNumberedDomain (domain_of d)) }
    ensures stops { IfErr result (λ e. StopsAt inputs.Domain domain_form e (F.file folder.old name.now)
        (F.faults folder.old) (F.faults folder.new)) }
    ensures touched { Touches (F.file folder.old name.now) (input_run
        (F.begun folder.old inputs.Domain) (F.begun folder.new inputs.Domain)
        (F.rest folder.old inputs.Domain) (F.rest folder.new inputs.Domain)) }
    ensures others { (w : Input) → w ≢ inputs.Domain → IsUntouched
        (input_run (F.begun folder.old w) (F.begun folder.new w) (F.rest folder.old w) (F.rest folder.new w)) }
    ensures files { (n : List ℕ) → F.file folder.new n ≡ F.file folder.old n }
    ensures later { (w : Input) → F.faults folder.old w ≤ F.faults folder.new w }
{
    match file_prefix(alloc, folder, Input::Domain, name) {
        Ok(bytes) => {
            // Nothing runs here: the laws make known that the prefix is read as the whole text is.
            refusals_are_decided_by_the_prefix();
            limits_are_kept();
            domain_in(alloc, bytes)
        }
        Err(ReadError::Failed) => Err(LoadError::Refused(Refusal::Read(Input::Domain))),
        Err(ReadError::NoMemory) => Err(LoadError::NoMemory),
    }
}

/// The problem in a file.
fn load_problem<F: Folder>(alloc: Global, folder: &mut F, name: &str) -> Result<Problem, LoadError>
    ensures problem { IfOk result (λ p. Reads problem_form (F.file folder.old name.now) (problem_of p)) }
    ensures text { IfOk result (λ p. HasText problem_form (problem_of p)) }
    ensures stops { IfErr result (λ e. StopsAt inputs.Problem problem_form e (F.file folder.old name.now)
        (F.faults folder.old) (F.faults folder.new)) }
    ensures touched { Touches (F.file folder.old name.now) (input_run
        (F.begun folder.old inputs.Problem) (F.begun folder.new inputs.Problem)
        (F.rest folder.old inputs.Problem) (F.rest folder.new inputs.Problem)) }
    ensures others { (w : Input) → w ≢ inputs.Problem → IsUntouched
        (input_run (F.begun folder.old w) (F.begun folder.new w) (F.rest folder.old w) (F.rest folder.new w)) }
    ensures files { (n : List ℕ) → F.file folder.new n ≡ F.file folder.old n }
    ensures later { (w : Input) → F.faults folder.old w ≤ F.faults folder.new w }
{
    match file_prefix(alloc, folder, Input::Problem, name) {
        Ok(bytes) => {
            // Nothing runs here: the laws make known that the prefix is read as the whole text is.
            refusals_are_decided_by_the_prefix();
            limits_are_kept();
            problem_in(alloc, bytes)
        }
        Err(ReadError::Failed) => Err(LoadError::Refused(Refusal::Read(Input::Problem))),
        Err(ReadError::NoMemory) => Err(LoadError::NoMemory),
    }
}

/// The steps of the plan in a file.
fn load_steps<F: Folder>(
    alloc: Global,
    folder: &mut F,
    name: &str,
) -> Result<Vec<Ground>, LoadError>
    ensures steps { IfOk result (λ v. Reads steps_form (F.file folder.old name.now) (map ground_of v.items)) }
    ensures stops { IfErr result (λ e. StopsAt inputs.Plan steps_form e (F.file folder.old name.now)
        (F.faults folder.old) (F.faults folder.new)) }
    ensures touched { Touches (F.file folder.old name.now) (input_run
        (F.begun folder.old inputs.Plan) (F.begun folder.new inputs.Plan)
        (F.rest folder.old inputs.Plan) (F.rest folder.new inputs.Plan)) }
    ensures others { (w : Input) → w ≢ inputs.Plan → IsUntouched
        (input_run (F.begun folder.old w) (F.begun folder.new w) (F.rest folder.old w) (F.rest folder.new w)) }
    ensures files { (n : List ℕ) → F.file folder.new n ≡ F.file folder.old n }
    ensures later { (w : Input) → F.faults folder.old w ≤ F.faults folder.new w }
{
    match file_prefix(alloc, folder, Input::Plan, name) {
        Ok(bytes) => {
            // Nothing runs here: the laws make known that the prefix is read as the whole text is.
            refusals_are_decided_by_the_prefix();
            limits_are_kept();
            steps_in(alloc, bytes)
        }
        Err(ReadError::Failed) => Err(LoadError::Refused(Refusal::Read(Input::Plan))),
        Err(ReadError::NoMemory) => Err(LoadError::NoMemory),
    }
}

/// The domain and the problem in two files. What else was read is gone when this returns.
pub fn load<F: Folder>(
    alloc: Global,
    folder: &mut F,
    domain: &str,
    problem: &str,
) -> Result<Loaded, LoadError>
    ensures loads { LoadsBoth (folder_run (F.file folder.old) (F.faults folder.old) (F.faults folder.new))
        domain.now problem.now (plain_of result) }
    ensures numbered { IfOk result (λ l. IsNumberedDomain (domain_of l.domain)) }
    ensures text { IfOk result (λ l. HasText problem_form (problem_of l.problem)) }
    ensures files { (n : List ℕ) → F.file folder.new n ≡ F.file folder.old n }
    ensures later { (w : Input) → F.faults folder.old w ≤ F.faults folder.new w }
    ensures touched { (w : Input) →
        TouchesBy (F.file folder.old) (by_input w (Some domain.now) (Some problem.now) None)
        (input_run (F.begun folder.old w) (F.begun folder.new w) (F.rest folder.old w) (F.rest folder.new w)) }
{
    let domain = match load_domain(alloc, folder, domain) {
        Ok(domain) => domain,
        Err(cause) => return Err(cause),
    };
    match load_problem(alloc, folder, problem) {
        Ok(problem) => Ok(Loaded { domain, problem }),
        Err(cause) => Err(cause),
    }
}

/// The domain, the problem and the plan in three files. What else was read is gone when this returns.
pub fn load_with_plan<F: Folder>(
    alloc: Global,
    folder: &mut F,
    asked: Verification,
) -> Result<LoadedPlan, LoadError>
    ensures loads { LoadsThree (folder_run (F.file folder.old) (F.faults folder.old) (F.faults folder.new))
        (verification_of asked.entry) (plain_with_plan result) }
    ensures numbered { IfOk result (λ l. IsNumberedDomain (domain_of l.files.domain)) }
    ensures text { IfOk result (λ l. HasText problem_form (problem_of l.files.problem)) }
    ensures files { (n : List ℕ) → F.file folder.new n ≡ F.file folder.old n }
    ensures later { (w : Input) → F.faults folder.old w ≤ F.faults folder.new w }
    ensures touched { (w : Input) →
        TouchesBy (F.file folder.old) (by_input w (Some asked.entry.domain.now) (Some asked.entry.problem.now) (Some asked.entry.plan.now))
        (input_run (F.begun folder.old w) (F.begun folder.new w) (F.rest folder.old w) (F.rest folder.new w)) }
{
    let files = match load(alloc, folder, asked.domain, asked.problem) {
        Ok(files) => files,
        Err(cause) => return Err(cause),
    };
    match load_steps(alloc, folder, asked.plan) {
        Ok(steps) => Ok(LoadedPlan { files, steps }),
        Err(cause) => Err(cause),
    }
}
