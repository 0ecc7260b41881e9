//! Task lists.

ghost use Rattle.std.specs.Prelude.{◌≡◌, false};
ghost use Rattle.hp_syntax.specs.declared.pattern.Span.{Span};
ghost use Rattle.hp_syntax.specs.Forest.{Word, Grow};
ghost use Rattle.hp_syntax.specs.Steps.{and_then, pure};
ghost use Rattle.hp_syntax.specs.Syntax.{Ordered};
ghost use Rattle.hp_syntax.specs.Grammar as grammar;
ghost use Rattle.hp_syntax.specs.Views.{tasks_of, task_list_of};
ghost use Rattle.hp_text.specs.Nodes.{node_of, nodes_of};
ghost use Rattle.hp_terms.specs.FormReads.{Reads, setting_of};

use hp_syntax::{Name, NetPat, Span, TaskPat, What};
use hp_terms::FormRefusal;
use hp_terms::names::{is, is_plain};
use hp_terms::nodes::{closing, expected, next};
use hp_terms::scope::Scope;
use hp_terms::terms::{Setting, named_atom};
use hp_text::{Node, NodeKind};

/// A task, by its name and what follows.
#[tactic(auto, unfolding(hp_syntax::specs::Views::tasks_of))]
fn task(
    scope: &mut Scope,
    setting: Setting,
    span: Span,
    immediate: bool,
    name: &Name,
    rest: &[Node],
) -> Result<NetPat, FormRefusal>
    ensures { Reads tasks_of result
        (grammar.task (setting_of setting) span immediate name.now (nodes_of rest.now))
        scope.old.names.keys scope.new.names.keys }
{
    let atom = named_atom(scope, setting, span, name, rest)?;
    Ok(NetPat::Task(TaskPat { atom, immediate }))
}

/// `(:immediate NAME term ..)`
#[tactic(auto, unfolding(hp_syntax::specs::Grammar::immediate, hp_syntax::specs::Views::tasks_of))]
fn immediate(
    scope: &mut Scope,
    setting: Setting,
    span: Span,
    rest: &[Node],
) -> Result<NetPat, FormRefusal>
    ensures { Reads tasks_of result (grammar.immediate (setting_of setting) span (nodes_of rest.now))
        scope.old.names.keys scope.new.names.keys }
{
    let (first, rest) = next(What::Name, closing(span), rest)?;
    match &first.kind {
        NodeKind::Name(name) if is_plain(name) => task(scope, setting, span, true, name, rest),
        _ => expected(What::Name, first.span),
    }
}

/// The tasks that a node is.
#[cycle(tasks)]
#[tactic(auto, unfolding(hp_syntax::specs::Grammar::tasks, hp_syntax::specs::Views::tasks_of))]
pub fn tasks(scope: &mut Scope, setting: Setting, node: &Node) -> Result<NetPat, FormRefusal>
    ensures { Reads tasks_of result (grammar.tasks (setting_of setting) (node_of node.now))
        scope.old.names.keys scope.new.names.keys }
{
    match &node.kind {
        NodeKind::List(nodes) => list_tasks(scope, setting, node.span, nodes.as_slice()),
        NodeKind::Name(name) if is(name, b"nil") => Ok(NetPat::Ordered(Vec::new(scope.alloc))),
        _ => expected(What::Tasks, node.span),
    }
}

/// By what a list begins with: a list or `nil` begins an ordered list.
#[cycle(tasks)]
#[tactic(auto, unfolding(hp_syntax::specs::Grammar::list_tasks, hp_syntax::specs::Views::tasks_of))]
pub fn list_tasks(
    scope: &mut Scope,
    setting: Setting,
    span: Span,
    nodes: &[Node],
) -> Result<NetPat, FormRefusal>
    ensures { Reads tasks_of result (grammar.list_tasks (setting_of setting) span (nodes_of nodes.now))
        scope.old.names.keys scope.new.names.keys }
{
    let Some((first, rest)) = nodes.split_first() else {
        return Ok(NetPat::Ordered(Vec::new(scope.alloc)));
    };
    match &first.kind {
        NodeKind::List(_) => ordered(scope, setting, nodes),
        NodeKind::Num(_) => expected(What::Tasks, span),
        NodeKind::Name(key) if is(key, b"nil") => ordered(scope, setting, nodes),
        NodeKind::Name(key) => keyed(scope, setting, span, key, rest),
    }
}

/// Each node as tasks, in this order.
#[cycle(tasks)]
#[tactic(auto, unfolding(hp_syntax::specs::Views::tasks_of))]
fn ordered(scope: &mut Scope, setting: Setting, nodes: &[Node]) -> Result<NetPat, FormRefusal>
    ensures { Reads tasks_of result
        (λ names. and_then (grammar.task_list (setting_of setting) (nodes_of nodes.now) names)
        (λ all. pure (Ordered all)))
        scope.old.names.keys scope.new.names.keys }
{
    Ok(NetPat::Ordered(task_list(scope, setting, nodes)?))
}

/// A list that begins with a name other than `nil`, by that name.
#[cycle(tasks)]
#[tactic(auto, unfolding(hp_syntax::specs::Grammar::list_tasks, hp_syntax::specs::Views::tasks_of))]
fn keyed(
    scope: &mut Scope,
    setting: Setting,
    span: Span,
    key: &Name,
    rest: &[Node],
) -> Result<NetPat, FormRefusal>
    requires { grammar.is_nil key.now ≡ false }
    ensures { (t : Span) → Reads tasks_of result
        (grammar.list_tasks (setting_of setting) span (Grow (Word t key.now) (nodes_of rest.now)))
        scope.old.names.keys scope.new.names.keys }
{
    if is(key, b":ordered") {
        ordered(scope, setting, rest)
    } else if is(key, b":unordered") {
        Ok(NetPat::Unordered(task_list(scope, setting, rest)?))
    } else if is(key, b":immediate") {
        immediate(scope, setting, span, rest)
    } else if is_plain(key) {
        task(scope, setting, span, false, key, rest)
    } else {
        expected(What::Tasks, span)
    }
}

/// Each node as tasks.
#[cycle(tasks)]
#[tactic(auto, unfolding(hp_syntax::specs::Grammar::task_list))]
fn task_list(
    scope: &mut Scope,
    setting: Setting,
    nodes: &[Node],
) -> Result<Vec<NetPat>, FormRefusal>
    ensures { Reads (λ ts. task_list_of ts.items) result
        (grammar.task_list (setting_of setting) (nodes_of nodes.now)) scope.old.names.keys scope.new.names.keys }
{
    let mut parts = Vec::with_capacity(scope.alloc, nodes.len())?;
    for node in nodes {
        parts.push(tasks(scope, setting, node)?)?;
    }
    Ok(parts)
}
