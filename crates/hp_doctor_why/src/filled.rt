//! Parts of rules with the values that their variables have.
ghost use Rattle.std.specs.Prelude.{◌≡◌, ◌++◌, IfOk, OnOk, Some, codes, flat_map, map, option_map, slice_get};
ghost use Rattle.std.specs.List.{list_any};
ghost use Rattle.hp_syntax.specs.GroundViews.{ground_of};
ghost use Rattle.hp_syntax.specs.TermTexts.{term_text};
ghost use Rattle.hp_syntax.specs.Views.{atom_of, domain_of, effect_of, expression_of, operator_of, rule_of};
ghost use Rattle.hp_doctor_why.specs.Filled as plain;

use crate::phrases::{FILLED, PROTECTED_HERE};
use hp_print::{atom_pat_text, ground_text, pat_text};
use hp_syntax::{AtomPat, Domain, Effect, Expr, ExprKind, Ground, Name, Operator, Rule};
use hp_unmet::part_at;
use std::alloc::{AllocError, Global};

/// The text of a term as a name.
fn term_name(alloc: Global, term: &Ground) -> Result<Name, AllocError>
    ensures { IfOk result (λ n. n ≡ term_text (ground_of term.now)) }
{
    let text = ground_text(alloc, term)?;
    Name::new(alloc, text.as_slice())
}

/// What a variable is written as by its value, where it has one, or else by its name.
fn value_or_name(alloc: Global, name: &Name, value: &Option<Ground>) -> Result<Name, AllocError>
    ensures { IfOk result (λ n. n ≡ plain.value_or_name name.now (Some (option_map ground_of value.now))) }
{
    match value {
        Some(term) => term_name(alloc, term),
        None => name.copy(alloc),
    }
}

/// What the variable of a place is written as.
fn filled_name(
    alloc: Global,
    name: &Name,
    values: &[Option<Ground>],
    place: usize,
) -> Result<Name, AllocError>
    ensures { IfOk result (λ n. n
        ≡ plain.value_or_name name.now (slice_get (map (option_map ground_of) values.now) place)) }
{
    match values.get(place) {
        Some(value) => value_or_name(alloc, name, value),
        None => name.copy(alloc),
    }
}

/// What the variables of some names are written as.
pub fn filled_names(
    alloc: Global,
    names: &[Name],
    values: &[Option<Ground>],
) -> Result<Vec<Name>, AllocError>
    ensures { IfOk result (λ v. v.items ≡ plain.filled_names names.now (map (option_map ground_of) values.now)) }
{
    let mut filled = Vec::with_capacity(alloc, names.len())?;
    for (place, name) in names.iter().enumerate() {
        let own = filled_name(alloc, name, values, place)?;
        filled.push(own)?;
    }
    Ok(filled)
}

/// The names of the variables of a rule.
pub fn rule_names(rule: &Rule) -> &[Name]
    ensures { result.now ≡ plain.rule_names (rule_of rule.now) }
{
    match rule {
        Rule::Operator(operator) => operator.vars.as_slice(),
        Rule::Method(method) => method.vars.as_slice(),
        Rule::Axiom(axiom) => axiom.vars.as_slice(),
    }
}

/// The names of the variables of the rule at a place, none where there is no rule.
pub fn names_at(domain: &Domain, rule: usize) -> &[Name]
    ensures { result.now ≡ plain.names_at (domain_of domain.now) rule }
{
    match domain.rules.get(rule) {
        Some(rule) => rule_names(rule),
        None => &[],
    }
}

/// The text of the negation of an atom, and none for another part.
fn negated_text(alloc: Global, names: &[Name], part: &Expr) -> Result<Vec<u8>, AllocError>
    ensures { IfOk result (λ v. v.items ≡ plain.negated_text names.now (expression_of part.now)) }
{
    match &part.kind {
        ExprKind::Atom(atom) => negated_atom(alloc, names, atom),
        ExprKind::And(_) => Ok(Vec::new(alloc)),
        ExprKind::Or(_) => Ok(Vec::new(alloc)),
        ExprKind::Not(_) => Ok(Vec::new(alloc)),
        ExprKind::Forall(_, _, _) => Ok(Vec::new(alloc)),
        ExprKind::Assign(_, _) => Ok(Vec::new(alloc)),
        ExprKind::Call(_) => Ok(Vec::new(alloc)),
    }
}

fn negated_atom(alloc: Global, names: &[Name], atom: &AtomPat) -> Result<Vec<u8>, AllocError>
    ensures { IfOk result (λ v. v.items
        ≡ codes "(not " ++ plain.atom_text names.now (atom_of atom.now) ++ codes ")") }
{
    let own = atom_pat_text(alloc, atom, names)?;
    let mut text = Vec::new(alloc);
    text.extend_from_slice(b"(not ")?;
    text.extend_from_slice(own.as_slice())?;
    text.extend_from_slice(b")")?;
    Ok(text)
}

/// The text of an atom, of the negation of one or of a call, and none for another part.
pub fn part_text(alloc: Global, names: &[Name], part: &Expr) -> Result<Vec<u8>, AllocError>
    ensures { IfOk result (λ v. v.items ≡ plain.part_text names.now (expression_of part.now)) }
{
    match &part.kind {
        ExprKind::Atom(atom) => atom_pat_text(alloc, atom, names),
        ExprKind::And(_) => Ok(Vec::new(alloc)),
        ExprKind::Or(_) => Ok(Vec::new(alloc)),
        ExprKind::Not(part) => negated_text(alloc, names, part),
        ExprKind::Forall(_, _, _) => Ok(Vec::new(alloc)),
        ExprKind::Assign(_, _) => Ok(Vec::new(alloc)),
        ExprKind::Call(call) => pat_text(alloc, call, names),
    }
}

/// Puts a line with a text after other bytes, where it isn't the plain one.
fn push_if_other(out: &mut Vec<u8>, filled: &[u8], unfilled: &[u8]) -> Result<(), AllocError>
    ensures { OnOk result (out.new.items ≡ out.old.items ++ plain.line_if_other filled.now unfilled.now) }
{
    if filled == unfilled {
        return Ok(());
    }
    out.extend_from_slice(FILLED)?;
    out.extend_from_slice(filled)?;
    out.extend_from_slice(b"\n")
}

/// Puts a part with the values of its variables after other bytes, where some variable in it has one.
fn push_filled(
    out: &mut Vec<u8>,
    names: &[Name],
    values: &[Option<Ground>],
    part: &Expr,
) -> Result<(), AllocError>
    ensures { OnOk result (out.new.items ≡ out.old.items
        ++ plain.filled_line names.now (map (option_map ground_of) values.now) (expression_of part.now)) }
{
    let alloc = *out.allocator();
    let own = filled_names(alloc, names, values)?;
    let filled = part_text(alloc, own.as_slice(), part)?;
    let unfilled = part_text(alloc, names, part)?;
    push_if_other(out, filled.as_slice(), unfilled.as_slice())
}

/// Puts the part at a place of a precondition with the values of its variables after other bytes, where some variable in
/// it has one.
pub fn push_filled_at(
    out: &mut Vec<u8>,
    domain: &Domain,
    rule: usize,
    branch: usize,
    place: usize,
    values: &[Option<Ground>],
) -> Result<(), AllocError>
    ensures { OnOk result (out.new.items ≡ out.old.items ++ plain.filled_at (domain_of domain.now) rule branch place
        (map (option_map ground_of) values.now)) }
{
    match part_at(domain, rule, branch, place) {
        Some(part) => push_filled(out, names_at(domain, rule), values, part),
        None => Ok(()),
    }
}

/// Whether a text is that of a term.
fn is_text_of(term: &Ground, text: &[u8], alloc: Global) -> Result<bool, AllocError>
    ensures { IfOk result (λ b. b ≡ plain.has_text text.now (ground_of term.now)) }
{
    let own = ground_text(alloc, term)?;
    Ok(own.as_slice() == text)
}

/// Whether a text is that of one of some terms.
fn is_protected(alloc: Global, guards: &[Ground], text: &[u8]) -> Result<bool, AllocError>
    ensures { IfOk result (λ b. b ≡ plain.is_protected (map ground_of guards.now) text.now) }
{
    for guard in guards {
        if is_text_of(guard, text, alloc)? {
            return Ok(true);
        }
    }
    Ok(false)
}

/// Puts a text after other bytes and a blank, where it is that of a protected atom.
fn push_if_protected(out: &mut Vec<u8>, guards: &[Ground], text: &[u8]) -> Result<(), AllocError>
    ensures { OnOk result (out.new.items
        ≡ out.old.items ++ plain.if_protected (map ground_of guards.now) text.now) }
{
    if is_protected(*out.allocator(), guards, text)? {
        out.push(b' ')?;
        return out.extend_from_slice(text);
    }
    Ok(())
}

/// Puts an atom that is deleted after other bytes, where it is one of the protected ones.
fn push_deleted(
    out: &mut Vec<u8>,
    names: &[Name],
    guards: &[Ground],
    effect: &Effect,
) -> Result<(), AllocError>
    ensures { OnOk result (out.new.items ≡ out.old.items
        ++ plain.deleted_text names.now (map ground_of guards.now) (effect_of effect.now)) }
{
    match effect {
        Effect::Atom(atom) => {
            let text = atom_pat_text(*out.allocator(), atom, names)?;
            push_if_protected(out, guards, text.as_slice())
        }
        Effect::Protection(_) => Ok(()),
        Effect::Forall(_, _, _) => Ok(()),
    }
}

/// Puts those atoms after other bytes that are deleted and protected.
fn push_all_deleted(
    out: &mut Vec<u8>,
    names: &[Name],
    guards: &[Ground],
    effects: &[Effect],
) -> Result<(), AllocError>
    ensures { OnOk result (out.new.items ≡ out.old.items
        ++ flat_map (plain.deleted_text names.now (map ground_of guards.now)) (map effect_of effects.now)) }
{
    for effect in effects {
        push_deleted(out, names, guards, effect)?;
    }
    Ok(())
}

/// Puts a line of protected atoms after other bytes, where there are any.
fn push_protected_line(out: &mut Vec<u8>, atoms: &[u8]) -> Result<(), AllocError>
    ensures { OnOk result (out.new.items ≡ out.old.items ++ plain.protected_line atoms.now) }
{
    match atoms {
        [] => Ok(()),
        [_, ..] => {
            out.extend_from_slice(PROTECTED_HERE)?;
            out.extend_from_slice(atoms)?;
            out.extend_from_slice(b"\n")
        }
    }
}

/// Puts the protected atoms after other bytes that an operator would delete.
fn push_protected_by(
    out: &mut Vec<u8>,
    operator: &Operator,
    values: &[Option<Ground>],
    guards: &[Ground],
) -> Result<(), AllocError>
    ensures { OnOk result (out.new.items ≡ out.old.items ++ plain.protected_of
        (map (option_map ground_of) values.now) (map ground_of guards.now) (operator_of operator.now)) }
{
    let alloc = *out.allocator();
    let names = filled_names(alloc, operator.vars.as_slice(), values)?;
    let mut atoms = Vec::new(alloc);
    push_all_deleted(
        &mut atoms,
        names.as_slice(),
        guards,
        operator.dels.as_slice(),
    )?;
    push_protected_line(out, atoms.as_slice())
}

/// Puts the protected atoms after other bytes that the operator at a place would delete.
pub fn push_protected(
    out: &mut Vec<u8>,
    domain: &Domain,
    rule: usize,
    values: &[Option<Ground>],
    guards: &[Ground],
) -> Result<(), AllocError>
    ensures { OnOk result (out.new.items ≡ out.old.items ++ plain.protected_text (domain_of domain.now) rule
        (map (option_map ground_of) values.now) (map ground_of guards.now)) }
{
    match domain.rules.get(rule) {
        Some(Rule::Operator(operator)) => push_protected_by(out, operator, values, guards),
        Some(Rule::Method(_)) => Ok(()),
        Some(Rule::Axiom(_)) => Ok(()),
        None => Ok(()),
    }
}
