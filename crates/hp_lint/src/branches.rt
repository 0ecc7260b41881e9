//! Branches behind one that always gives something.

ghost use Rattle.std.specs.Prelude.{◌≡◌, OnOk, false, map};
ghost use Rattle.std.specs.Option.{option_copied};
ghost use Rattle.std.specs.List.{flat_map};
ghost use Rattle.hp_syntax.specs.Views.{expression_of, expressions_of, precondition_of, branch_of, clause_of, rule_of};
ghost use Rattle.hp_lint.specs.Branches as plain;
ghost use Rattle.hp_lint.specs.LintViews.{Told};

use crate::report::{Concern, Report};
use hp_syntax::{Branch, Clause, Expr, ExprKind, Name, Pre, Rule, Span};
use std::alloc::AllocError;

/// Whether an expression gives something in each state.
#[cycle(always)]
fn always(part: &Expr) -> bool
    ensures { result ≡ plain.always (expression_of part.now) }
{
    match &part.kind {
        ExprKind::And(parts) => all_always(parts.as_slice()),
        ExprKind::Or(parts) => any_always(parts.as_slice()),
        ExprKind::Atom(_) => false,
        ExprKind::Not(_) => false,
        ExprKind::Forall(_, _, _) => false,
        ExprKind::Assign(_, _) => false,
        ExprKind::Call(_) => false,
    }
}

#[cycle(always)]
#[tactic(auto, unfolding(crate::specs::Branches::all_always))]
fn all_always(parts: &[Expr]) -> bool
    ensures { result ≡ plain.all_always (expressions_of parts.now) }
{
    for part in parts {
        if !always(part) {
            return false;
        }
    }
    true
}

#[cycle(always)]
#[tactic(auto, unfolding(crate::specs::Branches::any_always))]
fn any_always(parts: &[Expr]) -> bool
    ensures { result ≡ plain.any_always (expressions_of parts.now) }
{
    for part in parts {
        if always(part) {
            return true;
        }
    }
    false
}

fn always_before(pre: &Pre) -> bool
    ensures { result ≡ plain.always_before (precondition_of pre.now) }
{
    match pre {
        Pre::Plain(whole) | Pre::First(whole) => always(whole),
        Pre::Sorted(_, _) => false,
    }
}

fn precondition_span(pre: &Pre) -> Span
    ensures { result ≡ plain.precondition_span (precondition_of pre.now) }
{
    match pre {
        Pre::Plain(whole) | Pre::First(whole) | Pre::Sorted(_, whole) => whole.span,
    }
}

fn tell_if(
    report: &mut Report,
    hidden: bool,
    span: Span,
    name: Option<&Name>,
) -> Result<(), AllocError>
    ensures { OnOk result (Told (plain.if_hidden hidden span (option_copied name.entry))
        report.old.list.items report.new.list.items) }
{
    if hidden {
        report.tell(Concern::NeverReached, false, span, name)?;
    }
    Ok(())
}

fn tell_branches(report: &mut Report, branches: &[Branch]) -> Result<(), AllocError>
    ensures { OnOk result (Told (plain.hidden_branches false (map branch_of branches.now))
        report.old.list.items report.new.list.items) }
{
    let mut hidden = false;
    for branch in branches {
        tell_if(
            report,
            hidden,
            precondition_span(&branch.pre),
            branch.name.as_ref(),
        )?;
        hidden |= always_before(&branch.pre);
    }
    Ok(())
}

fn tell_clauses(report: &mut Report, clauses: &[Clause]) -> Result<(), AllocError>
    ensures { OnOk result (Told (plain.hidden_clauses false (map clause_of clauses.now))
        report.old.list.items report.new.list.items) }
{
    let mut hidden = false;
    for clause in clauses {
        tell_if(report, hidden, clause.body.span, clause.name.as_ref())?;
        hidden |= always(&clause.body);
    }
    Ok(())
}

fn tell_rule(report: &mut Report, rule: &Rule) -> Result<(), AllocError>
    ensures { OnOk result (Told (plain.hidden_in (rule_of rule.now)) report.old.list.items report.new.list.items) }
{
    match rule {
        Rule::Operator(_) => Ok(()),
        Rule::Method(method) => tell_branches(report, method.branches.as_slice()),
        Rule::Axiom(axiom) => tell_clauses(report, axiom.clauses.as_slice()),
    }
}

/// Tells of each branch that is never reached.
pub fn tell_hidden(report: &mut Report, rules: &[Rule]) -> Result<(), AllocError>
    ensures { OnOk result (Told (flat_map plain.hidden_in (map rule_of rules.now))
        report.old.list.items report.new.list.items) }
{
    for rule in rules {
        tell_rule(report, rule)?;
    }
    Ok(())
}
