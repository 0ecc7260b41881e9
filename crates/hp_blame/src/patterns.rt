//! The first pattern of a part of a rule that has a span.
ghost use Rattle.std.specs.Prelude.{◌≡◌, map, option_map};
ghost use Rattle.hp_syntax.specs.Views.{atom_of, effect_of, expression_of, pattern_of, patterns_of, task_list_of, tasks_of};
ghost use Rattle.hp_blame.specs.Patterns as plain;
ghost use Rattle.hp_blame.specs.Patterns.{is_span};

use hp_syntax::{AtomPat, Effect, Expr, ExprKind, NetPat, Pat, PatKind, Span, Tail};

fn is_span(a: Span, b: Span) -> bool
    ensures { result ≡ is_span a b }
{
    a.from == b.from && a.to == b.to
}

/// A pattern itself, or the first within a list or a call.
#[cycle(pattern)]
pub fn pattern_at(pattern: &Pat, span: Span) -> Option<&Pat>
    ensures { option_map (λ p. pattern_of p.now) result ≡ plain.pattern_at span (pattern_of pattern.now) }
{
    if is_span(pattern.span, span) {
        return Some(pattern);
    }
    match &pattern.kind {
        PatKind::List(parts, _) => patterns_at(parts.as_slice(), span),
        PatKind::Call(_, args) => patterns_at(args.as_slice(), span),
        PatKind::Var(_) => None,
        PatKind::Sym(_) => None,
        PatKind::Num(_) => None,
    }
}

#[cycle(pattern)]
fn patterns_at(patterns: &[Pat], span: Span) -> Option<&Pat>
    ensures { option_map (λ p. pattern_of p.now) result ≡ plain.patterns_at span (patterns_of patterns.now) }
{
    for pattern in patterns {
        match pattern_at(pattern, span) {
            Some(found) => return Some(found),
            None => {}
        }
    }
    None
}

/// The first among the arguments of an atom.
fn in_atom(atom: &AtomPat, span: Span) -> Option<&Pat>
    ensures { option_map (λ p. pattern_of p.now) result ≡ plain.in_atom span (atom_of atom.now) }
{
    patterns_at(atom.args.as_slice(), span)
}

/// The first in an atom, in the value of an assignment, or in a call.
fn in_simple(part: &Expr, span: Span) -> Option<&Pat>
    ensures { option_map (λ p. pattern_of p.now) result ≡ plain.in_simple span (expression_of part.now) }
{
    match &part.kind {
        ExprKind::Atom(atom) => in_atom(atom, span),
        ExprKind::And(_) => None,
        ExprKind::Or(_) => None,
        ExprKind::Not(_) => None,
        ExprKind::Forall(_, _, _) => None,
        ExprKind::Assign(_, value) => pattern_at(value, span),
        ExprKind::Call(call) => pattern_at(call, span),
    }
}

/// The first in one of these or in the negation of one.
pub fn in_part(part: &Expr, span: Span) -> Option<&Pat>
    ensures { option_map (λ p. pattern_of p.now) result ≡ plain.in_part span (expression_of part.now) }
{
    match &part.kind {
        ExprKind::Atom(atom) => in_atom(atom, span),
        ExprKind::And(_) => None,
        ExprKind::Or(_) => None,
        ExprKind::Not(part) => in_simple(part, span),
        ExprKind::Forall(_, _, _) => None,
        ExprKind::Assign(_, value) => pattern_at(value, span),
        ExprKind::Call(call) => pattern_at(call, span),
    }
}

/// The first in an atom that an effect deletes, adds, protects or frees.
fn in_effect(effect: &Effect, span: Span) -> Option<&Pat>
    ensures { option_map (λ p. pattern_of p.now) result ≡ plain.in_effect span (effect_of effect.now) }
{
    match effect {
        Effect::Atom(atom) => in_atom(atom, span),
        Effect::Protection(atom) => in_atom(atom, span),
        Effect::Forall(_, _, _) => None,
    }
}

/// The first in effects of an operator.
pub fn in_effects(effects: &[Effect], span: Span) -> Option<&Pat>
    ensures { option_map (λ p. pattern_of p.now) result ≡ plain.in_effects span (map effect_of effects.now) }
{
    for effect in effects {
        match in_effect(effect, span) {
            Some(found) => return Some(found),
            None => {}
        }
    }
    None
}

/// The first in a task among those of a branch.
#[cycle(tasks)]
pub fn in_tasks(tasks: &NetPat, span: Span) -> Option<&Pat>
    ensures { option_map (λ p. pattern_of p.now) result ≡ plain.in_tasks span (tasks_of tasks.now) }
{
    match tasks {
        NetPat::Task(task) => in_atom(&task.atom, span),
        NetPat::Ordered(parts) => in_task_list(parts.as_slice(), span),
        NetPat::Unordered(parts) => in_task_list(parts.as_slice(), span),
    }
}

#[cycle(tasks)]
fn in_task_list(list: &[NetPat], span: Span) -> Option<&Pat>
    ensures { option_map (λ p. pattern_of p.now) result ≡ plain.in_task_list span (task_list_of list.now) }
{
    for tasks in list {
        match in_tasks(tasks, span) {
            Some(found) => return Some(found),
            None => {}
        }
    }
    None
}

fn is_tail(tail: Option<Tail>, variable: usize) -> bool
    ensures { result ≡ plain.is_tail variable tail }
{
    match tail {
        Some(tail) => tail.var as usize == variable,
        None => false,
    }
}

/// Whether a variable stands in a pattern.
#[cycle(mentions)]
pub fn mentions(pattern: &Pat, variable: usize) -> bool
    ensures { result ≡ plain.mentions variable (pattern_of pattern.now) }
{
    match &pattern.kind {
        PatKind::Var(own) => *own as usize == variable,
        PatKind::Sym(_) => false,
        PatKind::Num(_) => false,
        PatKind::List(parts, tail) => {
            any_mentions(parts.as_slice(), variable) || is_tail(*tail, variable)
        }
        PatKind::Call(_, args) => any_mentions(args.as_slice(), variable),
    }
}

#[cycle(mentions)]
fn any_mentions(patterns: &[Pat], variable: usize) -> bool
    ensures { result ≡ plain.any_mentions variable (patterns_of patterns.now) }
{
    for pattern in patterns {
        if mentions(pattern, variable) {
            return true;
        }
    }
    false
}

/// Whether a variable stands in an atom.
pub fn atom_mentions(atom: &AtomPat, variable: usize) -> bool
    ensures { result ≡ plain.atom_mentions variable (atom_of atom.now) }
{
    any_mentions(atom.args.as_slice(), variable) || is_tail(atom.tail, variable)
}
