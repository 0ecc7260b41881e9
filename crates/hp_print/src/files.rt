//! Domains and problems.

ghost use Rattle.std.specs.Prelude.{◌≡◌, ◌++◌, OnOk, map};
ghost use Rattle.hp_syntax.specs.Views.{rule_of, domain_of, pair_of, problem_of};
ghost use Rattle.hp_syntax.specs.Written as written;
ghost use Rattle.hp_syntax.specs.Written.{lines};

use crate::rules::push_rule;
use crate::tasks::push_tasks;
use crate::terms::push_atoms;
use crate::words::push_all;
use hp_syntax::{Domain, Name, Pair, Problem, Rule};
use std::alloc::AllocError;

/// A line for each rule.
fn push_rules(text: &mut Vec<u8>, rules: &[Rule]) -> Result<(), AllocError>
    ensures { OnOk result (text.new.items ≡ text.old.items ++ lines (written.rules (map rule_of rules.now))) }
{
    for rule in rules {
        push_rule(text, rule)?;
        text.push(b'\n')?;
    }
    Ok(())
}

/// A domain.
#[tactic(auto, unfolding(hp_syntax::specs::Written::domain_text))]
pub fn push_domain(text: &mut Vec<u8>, domain: &Domain) -> Result<(), AllocError>
    ensures { OnOk result (text.new.items ≡ text.old.items ++ written.domain_text (domain_of domain.now)) }
{
    push_all(text, &[b"(defdomain ", domain.name.bytes(), b" (\n"])?;
    push_rules(text, domain.rules.as_slice())?;
    text.extend_from_slice(b"))\n")
}

/// A line for the atoms of a pair, and one for its tasks.
fn push_pair(text: &mut Vec<u8>, vars: &[Name], pair: &Pair) -> Result<(), AllocError>
    ensures { OnOk result (text.new.items ≡ text.old.items ++ lines (written.pair vars.now (pair_of pair.now))) }
{
    push_atoms(text, vars, pair.state.as_slice())?;
    text.push(b'\n')?;
    push_tasks(text, vars, &pair.tasks)?;
    text.extend_from_slice(b"\n")
}

/// The lines of each pair.
fn push_pairs(text: &mut Vec<u8>, vars: &[Name], pairs: &[Pair]) -> Result<(), AllocError>
    ensures { OnOk result (text.new.items ≡ text.old.items
        ++ lines (written.pairs vars.now (map pair_of pairs.now))) }
{
    for pair in pairs {
        push_pair(text, vars, pair)?;
    }
    Ok(())
}

/// A problem.
#[tactic(auto, unfolding(hp_syntax::specs::Written::problem_text))]
pub fn push_problem(text: &mut Vec<u8>, problem: &Problem) -> Result<(), AllocError>
    ensures { OnOk result (text.new.items ≡ text.old.items ++ written.problem_text (problem_of problem.now)) }
{
    push_all(
        text,
        &[
            b"(defproblem ",
            problem.name.bytes(),
            b" ",
            problem.domain.bytes(),
            b"\n",
        ],
    )?;
    push_pairs(text, problem.vars.as_slice(), problem.pairs.as_slice())?;
    text.extend_from_slice(b")\n")
}
