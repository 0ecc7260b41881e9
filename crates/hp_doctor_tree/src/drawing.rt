//! A plan as it is drawn, task by task.

ghost use Rattle.std.specs.Prelude.{◌≡◌, ◌++◌, OnOk, Some, codes, option_map, slice_get};
ghost use Rattle.hp_doctor.specs.Texts.{file_of};
ghost use Rattle.hp_syntax.specs.GroundViews.{ground_of};
ghost use Rattle.hp_syntax.specs.TermTexts.{term_text};
ghost use Rattle.hp_syntax.specs.Views.{method_of, operator_of, rule_of};
ghost use Rattle.hp_way.specs.Ways.{deed_of};
ghost use Rattle.hp_doctor_tree.specs.Deeds.{branch_words, step_words};
ghost use Rattle.hp_doctor_tree.specs.Drawings.{closing, deed_label, deed_line, done_label, done_line, drawing_of, edge_text, entry_by, entry_text};
ghost use Rattle.hp_doctor_tree.specs.Drawings.{line_text, node_text, opening, rule_label, rule_line};
ghost use Rattle.hp_doctor_tree.specs.Words.{escaped, marked, place_text};

use crate::changes::{push_done_changes, push_margin};
use crate::deeds::{deed_at, push_branch, push_step, push_sum, rule_at};
use crate::grounds::push_ground;
use crate::words::{push_escaped, push_marked, push_number, push_place};
use hp_changes::Changed;
use hp_derivation::Stood;
use hp_doctor::Text;
use hp_syntax::{Domain, Ground, Method, Operator, Rule};
use hp_way::Deed;
use std::alloc::AllocError;

/// A plan that is drawn.
#[derive(Clone, Copy)]
pub(crate) struct Drawing<'a> {
    pub(crate) domain: &'a Domain,
    /// The deeds that lead to it.
    pub(crate) deeds: &'a [Deed],
    /// How many steps there are up to each deed.
    pub(crate) steps: &'a [usize],
    /// What each deed changes, where that is asked for.
    pub(crate) changes: &'a [Changed],
    /// All tasks by their numbers.
    pub(crate) tasks: &'a [Stood],
    /// A graph is drawn, and no lines.
    pub(crate) dot: bool,
}

/// The task of a number, if there is one.
fn task_at(tasks: &[Stood], number: usize) -> Option<Stood>
    ensures { result ≡ slice_get tasks.now number }
{
    if number < tasks.len() {
        Some(tasks[number])
    } else {
        None
    }
}

/// A task as it is drawn, by its number.
pub(crate) fn push_entry(
    out: &mut Vec<u8>,
    file: &Text,
    drawing: &Drawing,
    number: usize,
) -> Result<(), AllocError>
    ensures { OnOk result (out.new.items
        ≡ out.old.items ++ entry_text (file_of file.now) (drawing_of drawing.now) number) }
{
    push_entry_by(out, file, drawing, number, task_at(drawing.tasks, number))
}

fn push_entry_by(
    out: &mut Vec<u8>,
    file: &Text,
    drawing: &Drawing,
    number: usize,
    task: Option<Stood>,
) -> Result<(), AllocError>
    ensures { OnOk result (out.new.items
        ≡ out.old.items ++ entry_by (file_of file.now) (drawing_of drawing.now) number task) }
{
    match task {
        Some(task) => push_task(out, file, drawing, number, task),
        None => Ok(()),
    }
}

fn push_task(
    out: &mut Vec<u8>,
    file: &Text,
    drawing: &Drawing,
    number: usize,
    task: Stood,
) -> Result<(), AllocError>
    ensures { OnOk result (out.new.items
        ≡ out.old.items ++ entry_by (file_of file.now) (drawing_of drawing.now) number (Some task)) }
{
    if drawing.dot {
        push_node_and_edge(out, drawing, number, task)
    } else {
        push_line(out, file, drawing, task)
    }
}

// ---- a line

fn push_line(
    out: &mut Vec<u8>,
    file: &Text,
    drawing: &Drawing,
    task: Stood,
) -> Result<(), AllocError>
    ensures { OnOk result (out.new.items
        ≡ out.old.items ++ line_text (file_of file.now) (drawing_of drawing.now) task) }
{
    push_margin(out, task.level)?;
    push_done_line(out, file, drawing, task.deed)?;
    out.extend_from_slice(b"\n")?;
    push_done_changes(out, drawing.changes, task.level, task.deed)
}

fn push_done_line(
    out: &mut Vec<u8>,
    file: &Text,
    drawing: &Drawing,
    deed: Option<usize>,
) -> Result<(), AllocError>
    ensures { OnOk result (out.new.items
        ≡ out.old.items ++ done_line (file_of file.now) (drawing_of drawing.now) deed) }
{
    match deed {
        Some(number) => push_deed_line(out, file, drawing, number, deed_at(drawing.deeds, number)),
        None => Ok(()),
    }
}

fn push_deed_line(
    out: &mut Vec<u8>,
    file: &Text,
    drawing: &Drawing,
    number: usize,
    deed: Option<&Deed>,
) -> Result<(), AllocError>
    ensures { OnOk result (out.new.items ≡ out.old.items ++ deed_line (file_of file.now)
        (drawing_of drawing.now) number (option_map (λ d. deed_of d.now) deed.entry)) }
{
    match deed {
        Some(deed) => {
            push_ground(out, &deed.task)?;
            let rule = rule_at(drawing.domain, deed.rule);
            push_rule_line(out, file, drawing, number, deed.branch, rule)
        }
        None => Ok(()),
    }
}

fn push_rule_line(
    out: &mut Vec<u8>,
    file: &Text,
    drawing: &Drawing,
    number: usize,
    branch: usize,
    rule: Option<&Rule>,
) -> Result<(), AllocError>
    ensures { OnOk result (out.new.items ≡ out.old.items ++ rule_line (file_of file.now)
        (drawing_of drawing.now) number branch (option_map (λ r. rule_of r.now) rule.entry)) }
{
    match rule {
        Some(rule) => push_own_line(out, file, drawing, number, branch, rule),
        None => Ok(()),
    }
}

fn push_own_line(
    out: &mut Vec<u8>,
    file: &Text,
    drawing: &Drawing,
    number: usize,
    branch: usize,
    rule: &Rule,
) -> Result<(), AllocError>
    ensures { OnOk result (out.new.items ≡ out.old.items
        ++ rule_line (file_of file.now) (drawing_of drawing.now) number branch (Some (rule_of rule.now))) }
{
    match rule {
        Rule::Operator(operator) => push_step_line(out, file, drawing, number, operator),
        Rule::Method(method) => push_branch_line(out, file, method, branch),
        Rule::Axiom(_) => Ok(()),
    }
}

fn push_step_line(
    out: &mut Vec<u8>,
    file: &Text,
    drawing: &Drawing,
    number: usize,
    operator: &Operator,
) -> Result<(), AllocError>
    ensures { OnOk result (out.new.items ≡ out.old.items ++ codes "  "
        ++ step_words (drawing_of drawing.now).steps (drawing_of drawing.now).deeds number ++ codes " "
        ++ place_text (file_of file.now) (operator_of operator.now).head.span.from) }
{
    out.extend_from_slice(b"  ")?;
    push_step(out, drawing.steps, drawing.deeds, number)?;
    out.extend_from_slice(b" ")?;
    push_place(out, file, operator.head.span.from)
}

pub fn push_branch_line(
    out: &mut Vec<u8>,
    file: &Text,
    method: &Method,
    branch: usize,
) -> Result<(), AllocError>
    ensures { OnOk result (out.new.items ≡ out.old.items ++ codes "  "
        ++ place_text (file_of file.now) (method_of method.now).head.span.from
        ++ marked (codes " ") (branch_words (method_of method.now).branches branch)) }
{
    out.extend_from_slice(b"  ")?;
    push_place(out, file, method.head.span.from)?;
    push_branch_behind(out, method, branch)
}

fn push_branch_behind(out: &mut Vec<u8>, method: &Method, branch: usize) -> Result<(), AllocError>
    ensures { OnOk result (out.new.items
        ≡ out.old.items ++ marked (codes " ") (branch_words (method_of method.now).branches branch)) }
{
    let mut words = Vec::new(*out.allocator());
    push_branch(&mut words, method, branch)?;
    push_marked(out, b" ", words.as_slice())
}

// ---- a node of a graph

fn push_node_and_edge(
    out: &mut Vec<u8>,
    drawing: &Drawing,
    number: usize,
    task: Stood,
) -> Result<(), AllocError>
    ensures { OnOk result (out.new.items ≡ out.old.items
        ++ node_text (drawing_of drawing.now) number task ++ edge_text number task.parent) }
{
    push_node(out, drawing, number, task)?;
    push_edge(out, number, task.parent)
}

fn push_node(
    out: &mut Vec<u8>,
    drawing: &Drawing,
    number: usize,
    task: Stood,
) -> Result<(), AllocError>
    ensures { OnOk result (out.new.items
        ≡ out.old.items ++ node_text (drawing_of drawing.now) number task) }
{
    out.extend_from_slice(b"  t")?;
    push_number(out, number)?;
    out.extend_from_slice(b" [label=\"")?;
    push_done_label(out, drawing, task.deed)
}

fn push_done_label(
    out: &mut Vec<u8>,
    drawing: &Drawing,
    deed: Option<usize>,
) -> Result<(), AllocError>
    ensures { OnOk result (out.new.items ≡ out.old.items ++ done_label (drawing_of drawing.now) deed) }
{
    match deed {
        Some(number) => push_deed_label(out, drawing, number, deed_at(drawing.deeds, number)),
        None => out.extend_from_slice(b"\"];\n"),
    }
}

fn push_deed_label(
    out: &mut Vec<u8>,
    drawing: &Drawing,
    number: usize,
    deed: Option<&Deed>,
) -> Result<(), AllocError>
    ensures { OnOk result (out.new.items ≡ out.old.items ++ deed_label (drawing_of drawing.now) number
        (option_map (λ d. deed_of d.now) deed.entry)) }
{
    match deed {
        Some(deed) => {
            push_escaped_ground(out, &deed.task)?;
            let rule = rule_at(drawing.domain, deed.rule);
            push_rule_label(out, drawing, number, deed.branch, rule)
        }
        None => out.extend_from_slice(b"\"];\n"),
    }
}

fn push_rule_label(
    out: &mut Vec<u8>,
    drawing: &Drawing,
    number: usize,
    branch: usize,
    rule: Option<&Rule>,
) -> Result<(), AllocError>
    ensures { OnOk result (out.new.items ≡ out.old.items ++ rule_label (drawing_of drawing.now) number branch
        (option_map (λ r. rule_of r.now) rule.entry)) }
{
    match rule {
        Some(rule) => push_own_label(out, drawing, number, branch, rule),
        None => out.extend_from_slice(b"\"];\n"),
    }
}

fn push_own_label(
    out: &mut Vec<u8>,
    drawing: &Drawing,
    number: usize,
    branch: usize,
    rule: &Rule,
) -> Result<(), AllocError>
    ensures { OnOk result (out.new.items
        ≡ out.old.items ++ rule_label (drawing_of drawing.now) number branch (Some (rule_of rule.now))) }
{
    match rule {
        Rule::Operator(_) => push_step_label(out, drawing, number),
        Rule::Method(method) => push_branch_label(out, method, branch),
        Rule::Axiom(_) => out.extend_from_slice(b"\"];\n"),
    }
}

fn push_step_label(out: &mut Vec<u8>, drawing: &Drawing, number: usize) -> Result<(), AllocError>
    ensures { OnOk result (out.new.items ≡ out.old.items ++ codes "\\n"
        ++ step_words (drawing_of drawing.now).steps (drawing_of drawing.now).deeds number
        ++ codes "\", shape=box];\n") }
{
    out.extend_from_slice(b"\\n")?;
    push_step(out, drawing.steps, drawing.deeds, number)?;
    out.extend_from_slice(b"\", shape=box];\n")
}

fn push_branch_label(out: &mut Vec<u8>, method: &Method, branch: usize) -> Result<(), AllocError>
    ensures { OnOk result (out.new.items ≡ out.old.items
        ++ marked (codes "\\n") (escaped (branch_words (method_of method.now).branches branch))
        ++ codes "\", shape=ellipse];\n") }
{
    push_branch_below(out, method, branch)?;
    out.extend_from_slice(b"\", shape=ellipse];\n")
}

fn push_escaped_ground(out: &mut Vec<u8>, term: &Ground) -> Result<(), AllocError>
    ensures { OnOk result (out.new.items ≡ out.old.items ++ escaped (term_text (ground_of term.now))) }
{
    let mut text = Vec::new(*out.allocator());
    push_ground(&mut text, term)?;
    push_escaped(out, text.as_slice())
}

fn push_branch_below(out: &mut Vec<u8>, method: &Method, branch: usize) -> Result<(), AllocError>
    ensures { OnOk result (out.new.items ≡ out.old.items
        ++ marked (codes "\\n") (escaped (branch_words (method_of method.now).branches branch))) }
{
    let mut words = Vec::new(*out.allocator());
    push_branch(&mut words, method, branch)?;
    let mut label = Vec::new(*out.allocator());
    push_escaped(&mut label, words.as_slice())?;
    push_marked(out, b"\\n", label.as_slice())
}

fn push_edge(out: &mut Vec<u8>, number: usize, parent: Option<usize>) -> Result<(), AllocError>
    ensures { OnOk result (out.new.items ≡ out.old.items ++ edge_text number parent) }
{
    match parent {
        Some(parent) => {
            out.extend_from_slice(b"  t")?;
            push_number(out, parent)?;
            out.extend_from_slice(b" -> t")?;
            push_number(out, number)?;
            out.extend_from_slice(b";\n")
        }
        None => Ok(()),
    }
}

// ---- before and behind

/// What stands before the first task.
pub(crate) fn opening(dot: bool) -> &'static [u8]
    ensures { result.now ≡ opening dot }
{
    if dot { b"digraph plan {\n" } else { b"" }
}

/// What stands behind the last task.
pub(crate) fn push_closing(out: &mut Vec<u8>, drawing: &Drawing) -> Result<(), AllocError>
    ensures { OnOk result (out.new.items ≡ out.old.items ++ closing (drawing_of drawing.now)) }
{
    if drawing.dot {
        return out.extend_from_slice(b"}\n");
    }
    push_sum(out, drawing.steps, drawing.deeds)?;
    out.extend_from_slice(b"\n")
}
