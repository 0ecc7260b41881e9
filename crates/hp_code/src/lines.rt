//! The listing of a code.
ghost use Rattle.std.specs.Prelude.{◌≡◌, ◌++◌, [], IfOk, OnOk, codes, decimal};
ghost use Rattle.std.specs.Option.{option_copied};
ghost use Rattle.hp_syntax.specs.Views.{atom_of, key_of, pattern_of, tasks_of};
ghost use Rattle.hp_syntax.specs.Written as written;
ghost use Rattle.hp_syntax.specs.Written.{node_text, name_of, order_word};
ghost use Rattle.hp_nodes.specs.NodeViews.{laid_of, operation_of};
ghost use Rattle.hp_code.specs.Codes.{code_of};
ghost use Rattle.hp_code.specs.CodeViews.{vars_at};
ghost use Rattle.hp_code.specs.Listing as plain;
ghost use Rattle.hp_code.specs.Listing.{atom_text, head_line, head_of, indices_text, is_rule, listing_text, name_line, name_lines, names_from, node_line, node_lines, operation_text, pattern_text, table_of, word_of};

use crate::code::Code;
use hp_nodes::{CodeNode, Op};
use hp_print::words::{order_word, push_all, variable_name};
use hp_print::{atom_pat_text, pat_text, tasks_text};
use hp_syntax::{AtomPat, Name, NetPat, Pat, SortKey};
use hp_tables::Kind;
use itoa::Buffer;
use std::alloc::{AllocError, Global};

fn push_index(text: &mut Vec<u8>, index: usize) -> Result<(), AllocError>
    ensures { OnOk result (text.new.items ≡ text.old.items ++ decimal index) }
{
    let mut buffer = Buffer::new();
    text.extend_from_slice(buffer.format(index).as_bytes())
}

// ---- nodes

// A word and an atom.
fn push_atom(
    text: &mut Vec<u8>,
    alloc: Global,
    vars: &[Name],
    word: &[u8],
    atom: &AtomPat,
) -> Result<(), AllocError>
    ensures { OnOk result (text.new.items ≡ text.old.items ++ word.now
        ++ atom_text vars.now (atom_of atom.now)) }
{
    let part = atom_pat_text(alloc, atom, vars)?;
    push_all(text, &[word, part.as_slice()])
}

// A word and a term.
fn push_pattern(
    text: &mut Vec<u8>,
    alloc: Global,
    vars: &[Name],
    word: &[u8],
    pattern: &Pat,
) -> Result<(), AllocError>
    ensures { OnOk result (text.new.items ≡ text.old.items ++ word.now
        ++ pattern_text vars.now (pattern_of pattern.now)) }
{
    let part = pat_text(alloc, pattern, vars)?;
    push_all(text, &[word, part.as_slice()])
}

// A word and tasks.
fn push_tasks(
    text: &mut Vec<u8>,
    alloc: Global,
    vars: &[Name],
    word: &[u8],
    tasks: &NetPat,
) -> Result<(), AllocError>
    ensures { OnOk result (text.new.items ≡ text.old.items ++ word.now
        ++ node_text (written.tasks vars.now (tasks_of tasks.now))) }
{
    let part = tasks_text(alloc, tasks, vars)?;
    push_all(text, &[word, part.as_slice()])
}

// What sorts satisfiers: a variable and an order.
fn push_key(text: &mut Vec<u8>, vars: &[Name], key: &SortKey) -> Result<(), AllocError>
    ensures { OnOk result (text.new.items ≡ text.old.items ++ codes "sort " ++ name_of vars.now key.now.var
        ++ codes " " ++ order_word (key_of key.now).order) }
{
    push_all(
        text,
        &[
            b"sort ",
            variable_name(vars, key.var),
            b" ",
            order_word(&key.order),
        ],
    )
}

// What gives a variable a value.
fn push_assign(
    text: &mut Vec<u8>,
    alloc: Global,
    vars: &[Name],
    v: u32,
    value: &Pat,
) -> Result<(), AllocError>
    ensures { OnOk result (text.new.items ≡ text.old.items ++ codes "assign " ++ name_of vars.now v
        ++ codes " " ++ pattern_text vars.now (pattern_of value.now)) }
{
    push_all(text, &[b"assign ", variable_name(vars, v)])?;
    push_pattern(text, alloc, vars, b" ", value)
}

fn push_branch(text: &mut Vec<u8>, name: &Option<Name>) -> Result<(), AllocError>
    ensures { OnOk result (text.new.items ≡ text.old.items ++ operation_text [] (operation_of (Op.Branch name.now))) }
{
    match name {
        None => text.extend_from_slice(b"branch"),
        Some(name) => push_all(text, &[b"branch ", name.bytes()]),
    }
}

// What a node does.
fn push_operation(
    text: &mut Vec<u8>,
    alloc: Global,
    vars: &[Name],
    op: &Op,
) -> Result<(), AllocError>
    ensures { OnOk result (text.new.items ≡ text.old.items ++ operation_text vars.now (operation_of op.now)) }
{
    match op {
        Op::Operator(head) => push_atom(text, alloc, vars, b"operator ", head),
        Op::Method(head) => push_atom(text, alloc, vars, b"method ", head),
        Op::Axiom(head) => push_atom(text, alloc, vars, b"axiom ", head),
        Op::Branch(name) => push_branch(text, name),
        Op::Plain => text.extend_from_slice(b"plain"),
        Op::First => text.extend_from_slice(b"first"),
        Op::Sort(key) => push_key(text, vars, key),
        Op::And => text.extend_from_slice(b"and"),
        Op::Or => text.extend_from_slice(b"or"),
        Op::Not => text.extend_from_slice(b"not"),
        Op::Forall => text.extend_from_slice(b"forall"),
        Op::Atom(atom) => push_atom(text, alloc, vars, b"atom ", atom),
        Op::Assign(v, value) => push_assign(text, alloc, vars, *v, value),
        Op::Call(call) => push_pattern(text, alloc, vars, b"call ", call),
        Op::Delete(atom) => push_atom(text, alloc, vars, b"delete ", atom),
        Op::Add(atom) => push_atom(text, alloc, vars, b"add ", atom),
        Op::Unguard(atom) => push_atom(text, alloc, vars, b"unguard ", atom),
        Op::Guard(atom) => push_atom(text, alloc, vars, b"guard ", atom),
        Op::Each => text.extend_from_slice(b"each"),
        Op::Cost(cost) => push_pattern(text, alloc, vars, b"cost ", cost),
        Op::Tasks(tasks) => push_tasks(text, alloc, vars, b"tasks ", tasks),
    }
}

// The line of a node that has an index.
fn push_node(
    text: &mut Vec<u8>,
    alloc: Global,
    vars: &[Name],
    index: usize,
    node: &CodeNode,
) -> Result<(), AllocError>
    ensures { OnOk result (text.new.items ≡ text.old.items ++ node_line index vars.now (laid_of node.now)) }
{
    push_index(text, index)?;
    text.push(b' ')?;
    push_index(text, node.to)?;
    text.push(b' ')?;
    push_operation(text, alloc, vars, &node.op)?;
    text.push(b'\n')?;
    Ok(())
}

// Whether a node is a rule's.
fn is_rule(op: &Op) -> bool
    ensures { result ≡ is_rule (operation_of op.now) }
{
    matches!(op, Op::Operator(_) | Op::Method(_) | Op::Axiom(_))
}

// The names of variables at a node that stands behind one with these names.
fn names_from<'a>(code: &'a Code, index: usize, vars: &'a [Name], op: &Op) -> &'a [Name]
    ensures { result.now ≡ names_from (vars_at (code_of code.now)) index vars.now (operation_of op.now) }
{
    if is_rule(op) { code.vars(index) } else { vars }
}

// The lines of all nodes.
fn push_nodes(text: &mut Vec<u8>, alloc: Global, code: &Code) -> Result<(), AllocError>
    ensures { OnOk result (text.new.items ≡ text.old.items
        ++ node_lines (vars_at (code_of code.now)) 0 [] (code_of code.now).nodes) }
{
    let mut vars: &[Name] = &[];
    for (index, node) in code.nodes().iter().enumerate() {
        vars = names_from(code, index, vars, &node.op);
        push_node(text, alloc, vars, index, node)?;
    }
    Ok(())
}

// ---- names

// The name of the head of a rule of a kind, where a node is such a rule's.
fn head_of(kind: Kind, op: &Op) -> Option<&Name>
    ensures { option_copied result ≡ plain.head_of kind (operation_of op.now) }
{
    match (kind, op) {
        (Kind::Task, Op::Operator(head)) => Some(&head.name),
        (Kind::Task, Op::Method(head)) => Some(&head.name),
        (Kind::Axiom, Op::Axiom(head)) => Some(&head.name),
        _ => None,
    }
}

fn rules_of<'a>(kind: Kind, code: &'a Code, name: &Name) -> &'a [usize]
    ensures { result.now ≡ table_of (code_of code.now) kind name.now }
{
    match kind {
        Kind::Task => code.task_rules(name),
        Kind::Axiom => code.axiom_rules(name),
    }
}

fn word_of(kind: Kind) -> &'static [u8]
    ensures { result.now ≡ plain.word_of kind }
{
    match kind {
        Kind::Task => b"tasks ",
        Kind::Axiom => b"axioms ",
    }
}

// Indices, a space before each.
fn push_indices(text: &mut Vec<u8>, indices: &[usize]) -> Result<(), AllocError>
    ensures { OnOk result (text.new.items ≡ text.old.items ++ indices_text indices.now) }
{
    for index in indices {
        text.push(b' ')?;
        push_index(text, *index)?;
    }
    Ok(())
}

// The line of a name with the nodes of its rules, where the first of these has this index.
fn push_name(
    text: &mut Vec<u8>,
    word: &[u8],
    name: &Name,
    rules: &[usize],
    index: usize,
) -> Result<(), AllocError>
    ensures { OnOk result (text.new.items ≡ text.old.items ++ name_line word.now name.now rules.now index) }
{
    if rules.first() != Some(&index) {
        return Ok(());
    }
    push_all(text, &[word, name.bytes()])?;
    push_indices(text, rules)?;
    text.extend_from_slice(b"\n")
}

// The line of the name of a node, where it is that of a rule of a kind and the first of that name.
fn push_head(
    text: &mut Vec<u8>,
    code: &Code,
    kind: Kind,
    index: usize,
    op: &Op,
) -> Result<(), AllocError>
    ensures { OnOk result (text.new.items ≡ text.old.items
        ++ head_line (word_of kind) (table_of (code_of code.now) kind)
        (plain.head_of kind (operation_of op.now)) index) }
{
    match head_of(kind, op) {
        Some(name) => push_name(text, word_of(kind), name, rules_of(kind, code, name), index),
        None => Ok(()),
    }
}

// The lines of the names of a kind.
fn push_names(text: &mut Vec<u8>, code: &Code, kind: Kind) -> Result<(), AllocError>
    ensures { OnOk result (text.new.items ≡ text.old.items
        ++ name_lines kind (table_of (code_of code.now) kind) 0 (code_of code.now).nodes) }
{
    for (index, node) in code.nodes().iter().enumerate() {
        push_head(text, code, kind, index, &node.op)?;
    }
    Ok(())
}

/// The listing of a code: a line for each node, with its index, the index behind the last node below it and what it
/// does; then for each name of a task, and for each that axioms conclude, a line with the nodes of its rules.
pub fn listing(alloc: Global, code: &Code) -> Result<Vec<u8>, AllocError>
    ensures { IfOk result (λ text. text.items ≡ listing_text (code_of code.now)) }
{
    let mut text = Vec::new(alloc);
    push_nodes(&mut text, alloc, code)?;
    push_names(&mut text, code, Kind::Task)?;
    push_names(&mut text, code, Kind::Axiom)?;
    Ok(text)
}
