//! Rules, domains and problems.

ghost use Rattle.std.specs.Prelude.{◌≡◌, cond, bytes_eq, [], map};
ghost use Rattle.std.specs.List.{flat_map};
ghost use Rattle.hp_syntax.specs.declared.check.CheckKind.TheVariants.{OtherDomain};
ghost use Rattle.hp_syntax.specs.Checks as checks;
ghost use Rattle.hp_syntax.specs.Checks.{earlier, first_of};
ghost use Rattle.hp_syntax.specs.Views.{effect_of, operator_of, branch_of, method_of, clause_of, axiom_of, rule_of, domain_of, pair_of, problem_of};

use crate::expressions::{expression, precondition};
use crate::patterns::{atom, atoms, pattern};
use crate::tasks::tasks;
use crate::watch::{Region, Watch};
use hp_syntax::limits::MOST_VARIABLES;
use hp_syntax::{
    Axiom, Branch, CheckKind, Clause, Domain, Effect, Method, Name, Operator, Pair, Problem, Rule,
    Span,
};

fn variables(watch: &mut Watch, vars: &[Name], span: Span)
    ensures { watch.new.first ≡ earlier watch.old.first (first_of (checks.vars_faults vars.now span)) }
{
    let too_many = vars.len() > MOST_VARIABLES;
    watch.found_if(too_many, CheckKind::TooManyVariables, Region::Body, span);
}

fn effect(watch: &mut Watch, effect: &Effect)
    ensures { watch.new.first ≡ earlier watch.old.first (first_of (checks.effect_faults (effect_of effect.now))) }
{
    match effect {
        Effect::Atom(changed) | Effect::Protection(changed) => atom(watch, Region::Body, changed),
        Effect::Forall(_, range, changed) => {
            expression(watch, 1, range);
            atoms(watch, Region::Body, changed.as_slice());
        }
    }
}

fn effects(watch: &mut Watch, list: &[Effect])
    ensures { watch.new.first ≡ earlier watch.old.first
        (first_of (flat_map checks.effect_faults (map effect_of list.now))) }
{
    for part in list {
        effect(watch, part);
    }
}

fn operator(watch: &mut Watch, operator: &Operator)
    ensures { watch.new.first ≡ earlier watch.old.first
        (first_of (checks.operator_faults (operator_of operator.now))) }
{
    variables(watch, operator.vars.as_slice(), operator.span);
    atom(watch, Region::Head, &operator.head);
    precondition(watch, &operator.pre);
    effects(watch, operator.dels.as_slice());
    effects(watch, operator.adds.as_slice());
    pattern(watch, Region::Body, &operator.cost);
}

fn branch(watch: &mut Watch, branch: &Branch)
    ensures { watch.new.first ≡ earlier watch.old.first (first_of (checks.branch_faults (branch_of branch.now))) }
{
    precondition(watch, &branch.pre);
    tasks(watch, Region::Body, &branch.tasks);
}

fn branches(watch: &mut Watch, list: &[Branch])
    ensures { watch.new.first ≡ earlier watch.old.first
        (first_of (flat_map checks.branch_faults (map branch_of list.now))) }
{
    for part in list {
        branch(watch, part);
    }
}

fn method(watch: &mut Watch, method: &Method)
    ensures { watch.new.first ≡ earlier watch.old.first (first_of (checks.method_faults (method_of method.now))) }
{
    variables(watch, method.vars.as_slice(), method.span);
    atom(watch, Region::Head, &method.head);
    branches(watch, method.branches.as_slice());
}

fn clause(watch: &mut Watch, clause: &Clause)
    ensures { watch.new.first ≡ earlier watch.old.first (first_of (checks.clause_faults (clause_of clause.now))) }
{
    expression(watch, 1, &clause.body);
}

fn clauses(watch: &mut Watch, list: &[Clause])
    ensures { watch.new.first ≡ earlier watch.old.first
        (first_of (flat_map checks.clause_faults (map clause_of list.now))) }
{
    for part in list {
        clause(watch, part);
    }
}

fn axiom(watch: &mut Watch, rule: &Axiom)
    ensures { watch.new.first ≡ earlier watch.old.first (first_of (checks.axiom_faults (axiom_of rule.now))) }
{
    variables(watch, rule.vars.as_slice(), rule.span);
    atom(watch, Region::Head, &rule.head);
    clauses(watch, rule.clauses.as_slice());
}

fn rule(watch: &mut Watch, rule: &Rule)
    ensures { watch.new.first ≡ earlier watch.old.first (first_of (checks.rule_faults (rule_of rule.now))) }
{
    match rule {
        Rule::Operator(part) => operator(watch, part),
        Rule::Method(part) => method(watch, part),
        Rule::Axiom(part) => axiom(watch, part),
    }
}

/// All of a domain.
#[tactic(auto, using(crate::proofs::FaultLemmas::joined), unfolding(hp_syntax::specs::Checks::domain_faults))]
pub fn domain_part(watch: &mut Watch, domain: &Domain)
    ensures { watch.new.first ≡ earlier watch.old.first (first_of (checks.domain_faults (domain_of domain.now))) }
{
    for part in &domain.rules {
        rule(watch, part);
    }
}

fn pair(watch: &mut Watch, pair: &Pair)
    ensures { watch.new.first ≡ earlier watch.old.first (first_of (checks.pair_faults (pair_of pair.now))) }
{
    atoms(watch, Region::Problem, pair.state.as_slice());
    tasks(watch, Region::Problem, &pair.tasks);
}

fn pairs(watch: &mut Watch, list: &[Pair])
    ensures { watch.new.first ≡ earlier watch.old.first
        (first_of (flat_map checks.pair_faults (map pair_of list.now))) }
{
    for part in list {
        pair(watch, part);
    }
}

/// The domain that a problem names is the one that it is planned in.
fn named_domain(watch: &mut Watch, named: &Name, domain: &Name, span: Span)
    ensures { watch.new.first ≡ earlier watch.old.first
        (first_of (cond (bytes_eq named.now domain.now) [] (checks.found OtherDomain checks.InProblem span))) }
{
    if named != domain {
        watch.found(CheckKind::OtherDomain, Region::Problem, span);
    }
}

/// All of a problem of this domain.
#[tactic(auto, using(crate::proofs::FaultLemmas::joined), unfolding(hp_syntax::specs::Checks::problem_faults))]
pub fn problem_part(watch: &mut Watch, domain: &Domain, problem: &Problem)
    ensures { watch.new.first ≡ earlier watch.old.first
        (first_of (checks.problem_faults (domain_of domain.now) (problem_of problem.now))) }
{
    named_domain(watch, &problem.domain, &domain.name, problem.domain_span);
    pairs(watch, problem.pairs.as_slice());
}
