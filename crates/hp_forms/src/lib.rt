//! The forms of files: from a forest to a domain, a problem or the steps of a plan, or to what was wanted where.
//!
//! Each function reads one line of the grammar (`hp_syntax`, `Grammar`; for plans `PlanForms`), and its contract says
//! that it gives what that line gives. Recursion goes by the nesting of brackets alone, and along the
//! parts of a list there are loops.
#![tactic(auto)]

ghost use Rattle.std.specs.Prelude.{IfErr, IfOk, map};
ghost use Rattle.hp_syntax.specs.Grammar as grammar;
ghost use Rattle.hp_syntax.specs.GroundViews.{ground_of};
ghost use Rattle.hp_syntax.specs.Numbered.{IsNumberedDomain, IsNumberedProblem};
ghost use Rattle.hp_syntax.specs.TextForms.{IsRead};
ghost use Rattle.hp_syntax.specs.Views.{domain_of, problem_of};
ghost use Rattle.hp_text.specs.Nodes.{forest_of};
ghost use Rattle.hp_terms.specs.FormReads.{Gives};
ghost use Rattle.hp_forms.specs.Files.{RefusesFile};
ghost use Rattle.hp_forms.specs.PlanForms.{plan_form};

mod files;
mod plans;
mod stepwise;
mod texts;

pub use hp_syntax::What;
use hp_syntax::laws::forms_are_numbered;
use hp_syntax::{Domain, Ground, Problem};
pub use hp_terms::FormRefusal;
use hp_text::Forest;
use std::alloc::Global;
pub use texts::FileRefusal;

/// The domain that a forest is the form of. The forest is copied, which `into_domain` spares.
pub fn domain(alloc: Global, forest: &Forest) -> Result<Domain, FormRefusal>
    ensures form { Gives domain_of result (grammar.domain_form forest.now.len (forest_of forest.now)) }
    ensures numbered { IfOk result (λ d. IsNumberedDomain (domain_of d)) }
{
    into_domain(alloc, forest.copy(alloc)?)
}

/// The domain that a forest is the form of. The nodes of a rule are let go once it is formed, so that a forest of many
/// rules and the domain are never there whole at once.
pub fn into_domain(alloc: Global, forest: Forest) -> Result<Domain, FormRefusal>
    ensures form { Gives domain_of result (grammar.domain_form forest.len (forest_of forest)) }
    ensures numbered { IfOk result (λ d. IsNumberedDomain (domain_of d)) }
{
    // Nothing runs here: the law makes known that each variable number is the place of a name.
    forms_are_numbered();
    files::domain(alloc, forest)
}

/// The problem that a forest is the form of. The forest is copied, which `into_problem` spares.
pub fn problem(alloc: Global, forest: &Forest) -> Result<Problem, FormRefusal>
    ensures form { Gives problem_of result (grammar.problem_form forest.now.len (forest_of forest.now)) }
    ensures numbered { IfOk result (λ p. IsNumberedProblem (problem_of p)) }
{
    into_problem(alloc, forest.copy(alloc)?)
}

/// The problem that a forest is the form of. The nodes of an atom of the state are let go once it is formed, so that a
/// large state and its nodes are never there whole at once. A task list is formed beside all its nodes.
pub fn into_problem(alloc: Global, forest: Forest) -> Result<Problem, FormRefusal>
    ensures form { Gives problem_of result (grammar.problem_form forest.len (forest_of forest)) }
    ensures numbered { IfOk result (λ p. IsNumberedProblem (problem_of p)) }
{
    forms_are_numbered();
    files::problem(alloc, forest)
}

/// The domain that a text is. The nodes of a rule are let go before those of the next are read, so that the nodes of the
/// whole text are never there at once. Only what is refused, or has `nil` in place of its rules, is read as a whole.
pub fn read_domain(alloc: Global, bytes: &[u8]) -> Result<Domain, FileRefusal>
    ensures domain { IfOk result (λ d. IsRead grammar.domain_form bytes.now (domain_of d)) }
    ensures numbered { IfOk result (λ d. IsNumberedDomain (domain_of d)) }
    ensures refused { IfErr result (RefusesFile grammar.domain_form bytes.now) }
{
    forms_are_numbered();
    texts::domain(alloc, bytes)
}

/// The problem that a text is. The nodes of an atom of a state are let go before those of the next are read. Only what
/// is refused, or has `nil` in place of a state, is read as a whole.
pub fn read_problem(alloc: Global, bytes: &[u8]) -> Result<Problem, FileRefusal>
    ensures problem { IfOk result (λ p. IsRead grammar.problem_form bytes.now (problem_of p)) }
    ensures numbered { IfOk result (λ p. IsNumberedProblem (problem_of p)) }
    ensures refused { IfErr result (RefusesFile grammar.problem_form bytes.now) }
{
    forms_are_numbered();
    texts::problem(alloc, bytes)
}

/// The steps of the plan that a forest is the form of, in order: each node is an atom without variables, and its step
/// is the list of its name and its arguments. Else what was wanted at the first node, in reading order, that isn't so:
/// a variable is refused as `Ground` where it stands. An empty file is the empty plan.
pub fn plan_steps(alloc: Global, forest: &Forest) -> Result<Vec<Ground>, FormRefusal>
    ensures form { Gives (λ v. map ground_of v.items) result (plan_form (forest_of forest.now)) }
{
    plans::steps(alloc, forest.nodes.as_slice())
}
