//! Atoms that are asked for, and atoms that hold at first, are added or are concluded.

ghost use Rattle.std.specs.Prelude.{◌≡◌, IfOk, OnOk, map, bytes_eq};
ghost use Rattle.std.specs.List.{flat_map, list_any};
ghost use Rattle.hp_syntax.specs.Views.{atom_of, expression_of, expressions_of, precondition_of, effect_of, branch_of, clause_of, rule_of, pair_of};
ghost use Rattle.hp_lint.specs.Asking as plain;
ghost use Rattle.hp_lint.specs.Asking.{asked_in, asked_in_each, on_asked};
ghost use Rattle.hp_lint.specs.LintViews.{accepts_atom, accepts_name, lent_atoms, Lists, Told};

use crate::report::{Concern, Report};
use crate::table::Table;
use hp_syntax::{AtomPat, Branch, Clause, Effect, Expr, ExprKind, Name, Pair, Pre, Rule};
use std::alloc::{AllocError, Global};

/// Each atom of an expression.
#[cycle(asked)]
pub fn asked<'a>(list: &mut Vec<&'a AtomPat>, part: &'a Expr) -> Result<(), AllocError>
    ensures { OnOk result (Lists (asked_in (expression_of part.now)) list.old.items list.new.items) }
{
    match &part.kind {
        ExprKind::Atom(held) => {
            list.push(held)?;
            Ok(())
        }
        ExprKind::And(parts) | ExprKind::Or(parts) => asked_in_each(list, parts.as_slice()),
        ExprKind::Not(part) => asked(list, part),
        ExprKind::Forall(_, range, body) => {
            asked(list, range)?;
            asked(list, body)
        }
        ExprKind::Assign(_, _) | ExprKind::Call(_) => Ok(()),
    }
}

#[cycle(asked)]
#[tactic(auto, unfolding(crate::specs::Asking::asked_in_each))]
fn asked_in_each<'a>(list: &mut Vec<&'a AtomPat>, parts: &'a [Expr]) -> Result<(), AllocError>
    ensures { OnOk result (Lists (asked_in_each (expressions_of parts.now)) list.old.items list.new.items) }
{
    for part in parts {
        asked(list, part)?;
    }
    Ok(())
}

fn asked_before<'a>(list: &mut Vec<&'a AtomPat>, pre: &'a Pre) -> Result<(), AllocError>
    ensures { OnOk result (Lists (plain.asked_before (precondition_of pre.now)) list.old.items list.new.items) }
{
    match pre {
        Pre::Plain(whole) | Pre::First(whole) | Pre::Sorted(_, whole) => asked(list, whole),
    }
}

fn asked_for<'a>(list: &mut Vec<&'a AtomPat>, effect: &'a Effect) -> Result<(), AllocError>
    ensures { OnOk result (Lists (plain.asked_for (effect_of effect.now)) list.old.items list.new.items) }
{
    match effect {
        Effect::Forall(_, range, _) => asked(list, range),
        Effect::Atom(_) | Effect::Protection(_) => Ok(()),
    }
}

fn asked_for_all<'a>(list: &mut Vec<&'a AtomPat>, effects: &'a [Effect]) -> Result<(), AllocError>
    ensures { OnOk result (Lists (flat_map plain.asked_for (map effect_of effects.now)) list.old.items list.new.items) }
{
    for effect in effects {
        asked_for(list, effect)?;
    }
    Ok(())
}

fn asked_by_branches<'a>(
    list: &mut Vec<&'a AtomPat>,
    branches: &'a [Branch],
) -> Result<(), AllocError>
    ensures { OnOk result (Lists (flat_map plain.asked_by_branch (map branch_of branches.now))
        list.old.items list.new.items) }
{
    for branch in branches {
        asked_before(list, &branch.pre)?;
    }
    Ok(())
}

fn asked_by_clauses<'a>(
    list: &mut Vec<&'a AtomPat>,
    clauses: &'a [Clause],
) -> Result<(), AllocError>
    ensures { OnOk result (Lists (flat_map plain.asked_by_clause (map clause_of clauses.now))
        list.old.items list.new.items) }
{
    for clause in clauses {
        asked(list, &clause.body)?;
    }
    Ok(())
}

fn asked_by<'a>(list: &mut Vec<&'a AtomPat>, rule: &'a Rule) -> Result<(), AllocError>
    ensures { OnOk result (Lists (plain.asked_by (rule_of rule.now)) list.old.items list.new.items) }
{
    match rule {
        Rule::Operator(operator) => {
            asked_before(list, &operator.pre)?;
            asked_for_all(list, operator.dels.as_slice())?;
            asked_for_all(list, operator.adds.as_slice())
        }
        Rule::Method(method) => asked_by_branches(list, method.branches.as_slice()),
        Rule::Axiom(axiom) => asked_by_clauses(list, axiom.clauses.as_slice()),
    }
}

/// All atoms that rules ask for.
pub fn all_asked(alloc: Global, rules: &[Rule]) -> Result<Vec<&AtomPat>, AllocError>
    ensures { IfOk result (λ list. lent_atoms list.items ≡ flat_map plain.asked_by (map rule_of rules.now)) }
{
    let mut list = Vec::new(alloc);
    for rule in rules {
        asked_by(&mut list, rule)?;
    }
    Ok(list)
}

fn all_of<'a>(list: &mut Vec<&'a AtomPat>, atoms: &'a [AtomPat]) -> Result<(), AllocError>
    ensures { OnOk result (Lists (map atom_of atoms.now) list.old.items list.new.items) }
{
    for atom in atoms {
        list.push(atom)?;
    }
    Ok(())
}

fn added_by<'a>(list: &mut Vec<&'a AtomPat>, effect: &'a Effect) -> Result<(), AllocError>
    ensures { OnOk result (Lists (plain.added_by (effect_of effect.now)) list.old.items list.new.items) }
{
    match effect {
        Effect::Atom(added) => {
            list.push(added)?;
            Ok(())
        }
        Effect::Protection(_) => Ok(()),
        Effect::Forall(_, _, atoms) => all_of(list, atoms.as_slice()),
    }
}

fn all_added<'a>(list: &mut Vec<&'a AtomPat>, effects: &'a [Effect]) -> Result<(), AllocError>
    ensures { OnOk result (Lists (flat_map plain.added_by (map effect_of effects.now)) list.old.items list.new.items) }
{
    for effect in effects {
        added_by(list, effect)?;
    }
    Ok(())
}

fn given_by<'a>(list: &mut Vec<&'a AtomPat>, rule: &'a Rule) -> Result<(), AllocError>
    ensures { OnOk result (Lists (plain.given_by (rule_of rule.now)) list.old.items list.new.items) }
{
    match rule {
        Rule::Operator(operator) => all_added(list, operator.adds.as_slice()),
        Rule::Method(_) => Ok(()),
        Rule::Axiom(axiom) => {
            list.push(&axiom.head)?;
            Ok(())
        }
    }
}

/// All atoms that rules add or conclude.
pub fn given_by_rules(alloc: Global, rules: &[Rule]) -> Result<Vec<&AtomPat>, AllocError>
    ensures { IfOk result (λ list. lent_atoms list.items ≡ flat_map plain.given_by (map rule_of rules.now)) }
{
    let mut list = Vec::new(alloc);
    for rule in rules {
        given_by(&mut list, rule)?;
    }
    Ok(list)
}

/// All atoms that hold at first.
pub fn given_by_pairs(alloc: Global, pairs: &[Pair]) -> Result<Vec<&AtomPat>, AllocError>
    ensures { IfOk result (λ list. lent_atoms list.items ≡ flat_map plain.given_by_pair (map pair_of pairs.now)) }
{
    let mut list = Vec::new(alloc);
    for pair in pairs {
        all_of(&mut list, pair.state.as_slice())?;
    }
    Ok(list)
}

fn is_one_of(name: &Name, names: &[&[u8]]) -> bool
    ensures { result ≡ list_any (bytes_eq name.now) (map (λ n. n.now) names.now) }
{
    names.iter().any(|known| name.bytes() == *known)
}

/// Whether a name is one of a call here, in JSHOP2 or in Lisp.
fn is_named_like_call(name: &Name) -> bool
    ensures { result ≡ plain.is_named_like_call name.now }
{
    is_one_of(
        name,
        &[
            b"+", b"-", b"*", b"/", b"^", b"<", b"<=", b">", b">=", b"=", b"!=", b"==", b"/=",
            b"<>", b"mod", b"min", b"max", b"abs", b"member", b"eval", b"setof", b"eq", b"eql",
            b"equal", b"expt", b"sqrt", b"rem", b"floor", b"ceiling", b"round", b"1+", b"1-",
            b"length", b"null", b"evenp", b"oddp", b"zerop", b"plusp", b"minusp",
        ],
    )
}

fn doubt(given: &Table, name: &Name) -> Concern
    ensures { result ≡ plain.doubt (accepts_name given.now) name.now }
{
    if is_named_like_call(name) && !given.has_name(name) {
        Concern::NamedLikeCall
    } else {
        Concern::NothingGives
    }
}

fn tell_atom(report: &mut Report, given: &Table, atom: &AtomPat) -> Result<(), AllocError>
    ensures { OnOk result (Told (on_asked (accepts_atom given.now) (accepts_name given.now) (atom_of atom.now))
        report.old.list.items report.new.list.items) }
{
    if !given.fits(atom) {
        let concern = doubt(given, &atom.name);
        report.tell(concern, false, atom.span, Some(&atom.name))?;
    }
    Ok(())
}

/// Tells of each atom that fits none of those that a table knows.
pub fn tell_atoms(report: &mut Report, given: &Table, asked: &[&AtomPat]) -> Result<(), AllocError>
    ensures { OnOk result (Told (flat_map (on_asked (accepts_atom given.now) (accepts_name given.now)) (lent_atoms asked.now))
        report.old.list.items report.new.list.items) }
{
    for atom in asked {
        tell_atom(report, given, atom)?;
    }
    Ok(())
}
