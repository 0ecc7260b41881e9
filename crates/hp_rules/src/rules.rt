//! Operators, methods and axioms.

ghost use Rattle.std.specs.Prelude.{◌<◌, map, option_map, length, true, IfOk};
ghost use Rattle.hp_syntax.specs.Steps as steps;
ghost use Rattle.hp_syntax.specs.Grammar as grammar;
ghost use Rattle.hp_syntax.specs.Views.{pattern_of, atom_of, precondition_of, effect_of, rule_of, branch_of, clause_of};
ghost use Rattle.hp_text.specs.Nodes.{node_of, nodes_of};
ghost use Rattle.hp_syntax.specs.Steps.{Names};
ghost use Rattle.hp_terms.specs.FormReads.{Reads, Gives};
ghost use Rattle.hp_rules.specs.Branches as branches;
ghost use Rattle.hp_rules.specs.Operators as operators;

use crate::effects::effects;
use crate::tasks::tasks;
use hp_conditions::expressions::expression;
use hp_conditions::preconditions::precondition;
use hp_syntax::{
    AtomPat, Axiom, Branch, Clause, Effect, Method, Name, Operator, Pat, PatKind, Pre, Rule, Span,
    What,
};
use hp_terms::FormRefusal;
use hp_terms::names::{HeadKind, is, is_branch_name};
use hp_terms::nodes::{closing, expected, next};
use hp_terms::scope::Scope;
use hp_terms::terms::{Setting, begun, headed, term};
use hp_text::{Node, NodeKind};
use std::alloc::Global;

/// A cost that isn't written is 1, with the operator's span.
#[tactic(auto, unfolding(hp_syntax::specs::Grammar::cost, hp_syntax::specs::Views::pattern_of))]
fn cost(scope: &mut Scope, span: Span, rest: &[Node]) -> Result<Pat, FormRefusal>
    ensures { Reads pattern_of result (grammar.cost span (nodes_of rest.now))
        scope.old.names.keys scope.new.names.keys }
{
    match rest {
        [] => Ok(Pat {
            span,
            kind: PatKind::Num(1000),
        }),
        [only] => term(scope, Setting::Rule, only),
        [first, second, ..] => {
            term(scope, Setting::Rule, first)?;
            expected(What::End, second.span)
        }
    }
}

/// The head and the precondition of an operator, and what follows them.
#[tactic(auto, unfolding(crate::specs::Operators::opening))]
fn opening<'a>(
    scope: &mut Scope,
    span: Span,
    rest: &'a [Node],
) -> Result<(AtomPat, Pre, &'a [Node]), FormRefusal>
    ensures { Reads (λ x. (atom_of x.0, (precondition_of x.1, nodes_of x.2.now))) result
        (operators.opening span (nodes_of rest.now)) scope.old.names.keys scope.new.names.keys }
{
    let (node, rest) = next(What::Head, closing(span), rest)?;
    let head = headed(scope, What::Head, HeadKind::Primitive, Setting::Rule, node)?;
    let (node, rest) = next(What::Pre, closing(span), rest)?;
    let pre = precondition(scope, node)?;
    Ok((head, pre, rest))
}

/// The effects of an operator, its deletes and its adds, and the nodes behind them.
#[tactic(auto, unfolding(crate::specs::Operators::changes))]
fn changes<'a>(
    scope: &mut Scope,
    span: Span,
    rest: &'a [Node],
) -> Result<(Vec<Effect>, Vec<Effect>, &'a [Node]), FormRefusal>
    ensures { Reads (λ x. (map effect_of x.0.items, (map effect_of x.1.items, nodes_of x.2.now))) result
        (operators.changes span (nodes_of rest.now)) scope.old.names.keys scope.new.names.keys }
{
    let (node, rest) = next(What::Effects, closing(span), rest)?;
    let dels = effects(scope, node)?;
    let (node, rest) = next(What::Effects, closing(span), rest)?;
    let adds = effects(scope, node)?;
    Ok((dels, adds, rest))
}

/// `(:operator head precondition deletes adds cost)`
#[tactic(auto, unfolding(crate::specs::Operators::operator))]
fn operator(scope: &mut Scope, span: Span, rest: &[Node]) -> Result<Rule, FormRefusal>
    ensures { Gives rule_of result (steps.value_in (operators.operator span (nodes_of rest.now) scope.old.names.keys)) }
{
    let (head, pre, rest) = opening(scope, span, rest)?;
    let (dels, adds, rest) = changes(scope, span, rest)?;
    let cost = cost(scope, span, rest)?;
    Ok(Rule::Operator(Operator {
        span,
        vars: scope.all_names()?,
        head,
        pre,
        dels,
        adds,
        cost,
    }))
}

/// The name of a branch, where a name token stands there; `nil` is none.
#[tactic(auto, unfolding(hp_syntax::specs::Grammar::branch_name))]
fn branch_name(node: &Node) -> Result<Option<&Name>, FormRefusal>
    ensures { (names : Names) → Reads (option_map (λ x. x.now)) result
        (branches.name_if_any (node_of node.now)) names names }
{
    match &node.kind {
        NodeKind::Name(name) if is(name, b"nil") => Ok(None),
        NodeKind::Name(name) if is_branch_name(name) => Ok(Some(name)),
        NodeKind::Name(_) => expected(What::Name, node.span),
        NodeKind::Num(_) | NodeKind::List(_) => Ok(None),
    }
}

/// The name of the next branch where it has one, and the node behind it.
#[tactic(auto, unfolding(crate::specs::Branches::start))]
fn branch_start<'a>(
    scope: &Scope,
    what: What,
    end: Span,
    nodes: &'a [Node],
) -> Result<(Option<Name>, &'a Node, &'a [Node]), FormRefusal>
    ensures reads { (names : Names) → Reads (λ x. (x.0, (node_of x.1.now, nodes_of x.2.now))) result
        (branches.start what end (nodes_of nodes.now)) names names }
    ensures shorter { IfOk result (λ x. length x.2.now < length nodes.now) }
{
    let (first, rest) = next(what, end, nodes)?;
    match branch_name(first)? {
        None => Ok((None, first, rest)),
        Some(name) => {
            let name = name.copy(scope.alloc)?;
            let (second, rest) = next(what, end, rest)?;
            Ok((Some(name), second, rest))
        }
    }
}

/// A branch of a method, and what follows it.
#[tactic(auto, unfolding(crate::specs::Branches::branch))]
fn branch<'a>(
    scope: &mut Scope,
    end: Span,
    nodes: &'a [Node],
) -> Result<(Branch, &'a [Node]), FormRefusal>
    ensures reads { Reads (λ x. (branch_of x.0, nodes_of x.1.now)) result (branches.branch end (nodes_of nodes.now))
        scope.old.names.keys scope.new.names.keys }
    ensures shorter { IfOk result (λ x. length x.1.now < length nodes.now) }
{
    let (name, first, rest) = branch_start(scope, What::Pre, end, nodes)?;
    let pre = precondition(scope, first)?;
    let (second, rest) = next(What::Tasks, end, rest)?;
    let tasks = tasks(scope, Setting::Rule, second)?;
    Ok((Branch { name, pre, tasks }, rest))
}

/// The branches of a method, one or more.
fn branches(scope: &mut Scope, end: Span, nodes: &[Node]) -> Result<Vec<Branch>, FormRefusal>
    ensures { Reads (λ v. map branch_of v.items) result (grammar.branches end true (nodes_of nodes.now))
        scope.old.names.keys scope.new.names.keys }
{
    let mut branches = Vec::with_capacity(scope.alloc, nodes.len() / 3)?;
    let mut rest = nodes;
    loop {
        let (next, others) = branch(scope, end, rest)?;
        branches.push(next)?;
        if others.is_empty() {
            branches.shrink_to_fit();
            return Ok(branches);
        }
        rest = others;
    }
}

/// `(:method head branch ..)`
#[tactic(auto, unfolding(hp_syntax::specs::Grammar::method))]
fn method(scope: &mut Scope, span: Span, rest: &[Node]) -> Result<Rule, FormRefusal>
    ensures { Gives rule_of result (steps.value_in (grammar.method span (nodes_of rest.now) scope.old.names.keys)) }
{
    let (node, rest) = next(What::Head, closing(span), rest)?;
    let head = headed(scope, What::Head, HeadKind::Compound, Setting::Rule, node)?;
    let branches = branches(scope, closing(span), rest)?;
    Ok(Rule::Method(Method {
        span,
        vars: scope.all_names()?,
        head,
        branches,
    }))
}

/// A branch of an axiom, and what follows it.
#[tactic(auto, unfolding(crate::specs::Branches::clause))]
fn clause<'a>(
    scope: &mut Scope,
    end: Span,
    nodes: &'a [Node],
) -> Result<(Clause, &'a [Node]), FormRefusal>
    ensures reads { Reads (λ x. (clause_of x.0, nodes_of x.1.now)) result (branches.clause end (nodes_of nodes.now))
        scope.old.names.keys scope.new.names.keys }
    ensures shorter { IfOk result (λ x. length x.1.now < length nodes.now) }
{
    let (name, first, rest) = branch_start(scope, What::Expr, end, nodes)?;
    let body = expression(scope, first)?;
    Ok((Clause { name, body }, rest))
}

/// The branches of an axiom, one or more.
fn clauses(scope: &mut Scope, end: Span, nodes: &[Node]) -> Result<Vec<Clause>, FormRefusal>
    ensures { Reads (λ v. map clause_of v.items) result (grammar.clauses end true (nodes_of nodes.now))
        scope.old.names.keys scope.new.names.keys }
{
    let mut clauses = Vec::with_capacity(scope.alloc, nodes.len() / 2)?;
    let mut rest = nodes;
    loop {
        let (next, others) = clause(scope, end, rest)?;
        clauses.push(next)?;
        if others.is_empty() {
            clauses.shrink_to_fit();
            return Ok(clauses);
        }
        rest = others;
    }
}

/// `(:- head branch ..)`
#[tactic(auto, unfolding(hp_syntax::specs::Grammar::axiom_rule))]
fn axiom(scope: &mut Scope, span: Span, rest: &[Node]) -> Result<Rule, FormRefusal>
    ensures { Gives rule_of result
        (steps.value_in (grammar.axiom_rule span (nodes_of rest.now) scope.old.names.keys)) }
{
    let (node, rest) = next(What::Head, closing(span), rest)?;
    let head = headed(scope, What::Head, HeadKind::Plain, Setting::Rule, node)?;
    let clauses = clauses(scope, closing(span), rest)?;
    Ok(Rule::Axiom(Axiom {
        span,
        vars: scope.all_names()?,
        head,
        clauses,
    }))
}

/// A rule by its word.
#[tactic(auto, unfolding(hp_syntax::specs::Grammar::keyed_rule))]
fn keyed(scope: &mut Scope, span: Span, key: &Name, rest: &[Node]) -> Result<Rule, FormRefusal>
    ensures { Gives rule_of result (steps.from_no_names (grammar.keyed_rule span key.now (nodes_of rest.now))) }
{
    scope.clear();
    if is(key, b":operator") {
        operator(scope, span, rest)
    } else if is(key, b":method") {
        method(scope, span, rest)
    } else if is(key, b":-") {
        axiom(scope, span, rest)
    } else {
        expected(What::Rule, span)
    }
}

/// The rule that a node is, with variables of its own.
#[tactic(auto, unfolding(hp_syntax::specs::Grammar::rule), using(crate::proofs::RuleSteps::reads_by_itself))]
pub fn rule(scope: &mut Scope, node: &Node) -> Result<Rule, FormRefusal>
    ensures { (names : Names) → Reads rule_of result (grammar.rule (node_of node.now)) names names }
{
    match begun(node) {
        Some((key, rest)) => keyed(scope, node.span, key, rest),
        None => expected(What::Rule, node.span),
    }
}
