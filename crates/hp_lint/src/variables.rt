//! Variables that stand once in their rule, and variables that can't be bound where they are needed.

ghost use Rattle.std.specs.Prelude.{◌≡◌, ◌++◌, ◌∷◌, [], IfOk, OnOk, List, false, true, map};
ghost use Rattle.std.specs.List.{flat_map};
ghost use Rattle.hp_syntax.specs.Syntax.{Does, Refines};
ghost use Rattle.hp_syntax.specs.Views.{atom_of, pattern_of, precondition_of, effect_of, operator_of, branch_of, method_of, rule_of};
ghost use Rattle.hp_lint.specs.Variables as plain;
ghost use Rattle.hp_lint.specs.LintViews.{either_seen, is_seen, is_seen_once, Counted, Told};

use crate::report::{Concern, Report};
use crate::uses::{Use, Uses};
use hp_syntax::{AtomPat, Branch, Effect, Method, Name, Operator, Pat, Pre, Rule};
use indexmap::IndexSet;
use std::alloc::{AllocError, Global};

/// The variables that stand at places, and those that stand at more than one.
pub struct Counts {
    seen: IndexSet<u32>,
    again: IndexSet<u32>,
}

impl Drop for Counts {
    fn drop(self) {
        let Counts { seen, again } = self;
        drop(seen);
        drop(again);
    }
}

impl Counts {
    pub fn of(alloc: Global, uses: &[Use]) -> Result<Counts, AllocError>
        ensures { IfOk result (Counted uses.now) }
    {
        let mut counts = Counts {
            seen: IndexSet::new(alloc),
            again: IndexSet::new(alloc),
        };
        for found in uses {
            counts.add(*found)?;
        }
        Ok(counts)
    }

    pub fn add(&mut self, found: Use) -> Result<(), AllocError>
        ensures { OnOk result ((done : List Use) → Counted done self.old → Counted (done ++ found ∷ []) self.new) }
    {
        if !self.seen.insert(found.var)? {
            self.again.insert(found.var)?;
        }
        Ok(())
    }

    pub fn has(&self, var: u32) -> bool
        ensures { result ≡ is_seen self.now var }
    {
        self.seen.contains(&var)
    }

    fn has_once(&self, var: u32) -> bool
        ensures { result ≡ is_seen_once self.now var }
    {
        self.seen.contains(&var) && !self.again.contains(&var)
    }
}

fn tell_use(
    report: &mut Report,
    names: &[Name],
    counts: &Counts,
    found: &Use,
) -> Result<(), AllocError>
    ensures { OnOk result (Told (plain.on_use names.now (is_seen_once counts.now) found.now)
        report.old.list.items report.new.list.items) }
{
    if counts.has_once(found.var) {
        let name = names.get(found.var as usize);
        report.tell(Concern::StandsOnce, false, found.span, name)?;
    }
    Ok(())
}

fn tell_uses(
    report: &mut Report,
    names: &[Name],
    counts: &Counts,
    found: &[Use],
) -> Result<(), AllocError>
    ensures { OnOk result (Told (flat_map (plain.on_use names.now (is_seen_once counts.now)) found.now)
        report.old.list.items report.new.list.items) }
{
    for part in found {
        tell_use(report, names, counts, part)?;
    }
    Ok(())
}

fn rule_names(rule: &Rule) -> &[Name]
    ensures { result.now ≡ plain.rule_vars (rule_of rule.now) }
{
    match rule {
        Rule::Operator(operator) => operator.vars.as_slice(),
        Rule::Method(method) => method.vars.as_slice(),
        Rule::Axiom(axiom) => axiom.vars.as_slice(),
    }
}

fn tell_once_in(report: &mut Report, rule: &Rule) -> Result<(), AllocError>
    ensures { OnOk result (Told (plain.once_in (rule_of rule.now)) report.old.list.items report.new.list.items) }
{
    let mut uses = Uses::new(report.alloc);
    uses.rule(report.alloc, rule)?;
    let counts = Counts::of(report.alloc, uses.list.as_slice())?;
    tell_uses(report, rule_names(rule), &counts, uses.list.as_slice())
}

/// Tells of each variable that stands once in its rule.
pub fn tell_once(report: &mut Report, rules: &[Rule]) -> Result<(), AllocError>
    ensures { OnOk result (Told (flat_map plain.once_in (map rule_of rules.now))
        report.old.list.items report.new.list.items) }
{
    for rule in rules {
        tell_once_in(report, rule)?;
    }
    Ok(())
}

// ---- variables that can't be bound

/// What is known to be bound at a place: by the whole rule or its head, and by the part itself.
#[derive(Clone, Copy)]
struct Bound<'a> {
    names: &'a [Name],
    around: &'a Counts,
    own: &'a Counts,
}

fn tell_needed_use(report: &mut Report, bound: &Bound, needed: &Use) -> Result<(), AllocError>
    ensures { OnOk result (Told (plain.on_needed bound.now.names.now (either_seen bound.now.around.now bound.now.own.now) needed.now)
        report.old.list.items report.new.list.items) }
{
    if !bound.around.has(needed.var) && !bound.own.has(needed.var) {
        let name = bound.names.get(needed.var as usize);
        report.tell(Concern::Unbound, false, needed.span, name)?;
    }
    Ok(())
}

fn tell_needed(report: &mut Report, bound: &Bound, needed: &[Use]) -> Result<(), AllocError>
    ensures { OnOk result (Told (flat_map (plain.on_needed bound.now.names.now
        (either_seen bound.now.around.now bound.now.own.now)) needed.now)
        report.old.list.items report.new.list.items) }
{
    for part in needed {
        tell_needed_use(report, bound, part)?;
    }
    Ok(())
}

/// What the expression of an effect can bind.
fn bound_by_effect(alloc: Global, effect: &Effect) -> Result<Counts, AllocError>
    ensures { IfOk result (Counted (plain.effect_bound (effect_of effect.now))) }
{
    let mut uses = Uses::new(alloc);
    uses.effect_bound(effect)?;
    Counts::of(alloc, uses.list.as_slice())
}

fn tell_effect(
    report: &mut Report,
    names: &[Name],
    around: &Counts,
    effect: &Effect,
) -> Result<(), AllocError>
    ensures { OnOk result (Told (plain.effect_unbound names.now (is_seen around.now) (effect_of effect.now))
        report.old.list.items report.new.list.items) }
{
    let own = bound_by_effect(report.alloc, effect)?;
    let mut needed = Uses::new(report.alloc);
    needed.effect_needs(effect)?;
    let bound = Bound {
        names,
        around,
        own: &own,
    };
    tell_needed(report, &bound, needed.list.as_slice())
}

fn tell_effects(
    report: &mut Report,
    names: &[Name],
    around: &Counts,
    effects: &[Effect],
) -> Result<(), AllocError>
    ensures { OnOk result (Told (flat_map (plain.effect_unbound names.now (is_seen around.now)) (map effect_of effects.now))
        report.old.list.items report.new.list.items) }
{
    for effect in effects {
        tell_effect(report, names, around, effect)?;
    }
    Ok(())
}

fn tell_cost(
    report: &mut Report,
    names: &[Name],
    around: &Counts,
    cost: &Pat,
) -> Result<(), AllocError>
    ensures { OnOk result (Told (flat_map (plain.on_needed names.now (is_seen around.now)) (plain.pattern_uses true (pattern_of cost.now)))
        report.old.list.items report.new.list.items) }
{
    let own = Counts::of(report.alloc, &[])?;
    let mut needed = Uses::new(report.alloc);
    needed.pattern(true, cost)?;
    let bound = Bound {
        names,
        around,
        own: &own,
    };
    tell_needed(report, &bound, needed.list.as_slice())
}

/// What the head and the precondition of an operator can bind.
fn bound_by_operator(alloc: Global, operator: &Operator) -> Result<Counts, AllocError>
    ensures { IfOk result (Counted (plain.operator_bound (operator_of operator.now))) }
{
    let mut uses = Uses::new(alloc);
    uses.atom(false, &operator.head)?;
    uses.bound_before(&operator.pre)?;
    Counts::of(alloc, uses.list.as_slice())
}

fn tell_operator(report: &mut Report, known: &Counts, operator: &Operator) -> Result<(), AllocError>
    ensures { OnOk result (Told (plain.operator_unbound (is_seen known.now) (operator_of operator.now))
        report.old.list.items report.new.list.items) }
{
    let names = operator.vars.as_slice();
    tell_effects(report, names, known, operator.dels.as_slice())?;
    tell_effects(report, names, known, operator.adds.as_slice())?;
    tell_cost(report, names, known, &operator.cost)
}

fn tell_unbound_in_operator(report: &mut Report, operator: &Operator) -> Result<(), AllocError>
    ensures { OnOk result (Told (plain.unbound_in (Does (operator_of operator.now)))
        report.old.list.items report.new.list.items) }
{
    let bound = bound_by_operator(report.alloc, operator)?;
    tell_operator(report, &bound, operator)
}

/// What an atom can bind.
pub fn bound_by_head(alloc: Global, head: &AtomPat) -> Result<Counts, AllocError>
    ensures { IfOk result (Counted (plain.atom_uses false (atom_of head.now))) }
{
    let mut uses = Uses::new(alloc);
    uses.atom(false, head)?;
    Counts::of(alloc, uses.list.as_slice())
}

/// What a precondition can bind.
fn bound_by_precondition(alloc: Global, pre: &Pre) -> Result<Counts, AllocError>
    ensures { IfOk result (Counted (plain.bound_before (precondition_of pre.now))) }
{
    let mut uses = Uses::new(alloc);
    uses.bound_before(pre)?;
    Counts::of(alloc, uses.list.as_slice())
}

fn tell_branch(
    report: &mut Report,
    names: &[Name],
    head: &Counts,
    branch: &Branch,
) -> Result<(), AllocError>
    ensures { OnOk result (Told (plain.branch_unbound names.now (is_seen head.now) (branch_of branch.now))
        report.old.list.items report.new.list.items) }
{
    let own = bound_by_precondition(report.alloc, &branch.pre)?;
    let mut needed = Uses::new(report.alloc);
    needed.tasks(report.alloc, &branch.tasks)?;
    let bound = Bound {
        names,
        around: head,
        own: &own,
    };
    tell_needed(report, &bound, needed.list.as_slice())
}

fn tell_branches(
    report: &mut Report,
    names: &[Name],
    head: &Counts,
    branches: &[Branch],
) -> Result<(), AllocError>
    ensures { OnOk result (Told (flat_map (plain.branch_unbound names.now (is_seen head.now)) (map branch_of branches.now))
        report.old.list.items report.new.list.items) }
{
    for branch in branches {
        tell_branch(report, names, head, branch)?;
    }
    Ok(())
}

fn tell_unbound_in_method(report: &mut Report, method: &Method) -> Result<(), AllocError>
    ensures { OnOk result (Told (plain.unbound_in (Refines (method_of method.now)))
        report.old.list.items report.new.list.items) }
{
    let head = bound_by_head(report.alloc, &method.head)?;
    tell_branches(
        report,
        method.vars.as_slice(),
        &head,
        method.branches.as_slice(),
    )
}

fn tell_unbound_in(report: &mut Report, rule: &Rule) -> Result<(), AllocError>
    ensures { OnOk result (Told (plain.unbound_in (rule_of rule.now)) report.old.list.items report.new.list.items) }
{
    match rule {
        Rule::Operator(operator) => tell_unbound_in_operator(report, operator),
        Rule::Method(method) => tell_unbound_in_method(report, method),
        Rule::Axiom(_) => Ok(()),
    }
}

/// Tells of each variable of an effect, a cost or a task that can't be bound.
pub fn tell_unbound(report: &mut Report, rules: &[Rule]) -> Result<(), AllocError>
    ensures { OnOk result (Told (flat_map plain.unbound_in (map rule_of rules.now))
        report.old.list.items report.new.list.items) }
{
    for rule in rules {
        tell_unbound_in(report, rule)?;
    }
    Ok(())
}
