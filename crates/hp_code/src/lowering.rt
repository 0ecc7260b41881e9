//! From a domain to its code.
ghost use Rattle.std.specs.Prelude.{◌≡◌, ℕ, List, [], ◌∷◌, None, IfOk, OnOk, length, map};
ghost use Rattle.hp_syntax.specs.Checks.{first_of, domain_faults};
ghost use Rattle.hp_syntax.specs.Numbered.{IsNumberedDomain};
ghost use Rattle.hp_syntax.specs.Syntax as plain;
ghost use Rattle.hp_syntax.specs.Views.{domain_of, rule_of};
ghost use Rattle.hp_tables.specs.Tables.{places_in};
ghost use Rattle.hp_nodes.specs.Compiled.{vars_of};
ghost use Rattle.hp_nodes.specs.NodeViews.{laid_of};
ghost use Rattle.hp_code.specs.Codes.{code_of};
ghost use Rattle.hp_code.specs.CodeViews.{IsCodeOf, concluded_in, concludes};
ghost use Rattle.hp_code.specs.Lowerings.{Begins, CanBeCode, Extends, Holds};

use crate::code::Code;
use hp_nodes::{CodeNode, Op, lay_rule};
use hp_syntax::{Domain, Name, Rule};
use hp_tables::{Kind, Table};
use std::alloc::{AllocError, Global};

// The names of the variables of a rule.
fn names_of(rule: &Rule) -> &[Name]
    ensures { result.now ≡ vars_of (rule_of rule.now) }
{
    match rule {
        Rule::Operator(operator) => operator.vars.as_slice(),
        Rule::Method(method) => method.vars.as_slice(),
        Rule::Axiom(axiom) => axiom.vars.as_slice(),
    }
}

fn copy_names(alloc: Global, names: &[Name]) -> Result<Vec<Name>, AllocError>
    ensures { IfOk result (λ copies. copies.items ≡ names.now) }
{
    let mut copies = Vec::with_capacity(alloc, names.len())?;
    for name in names {
        copies.push(name.copy(alloc)?)?;
    }
    Ok(copies)
}

// Whether a node is an atom's whose name axioms conclude.
fn concludes(node: &CodeNode, axiom_rules: &Table) -> bool
    ensures { result ≡ concludes (places_in axiom_rules.now) (laid_of node.now).op }
{
    match &node.op {
        Op::Atom(atom) => !axiom_rules.get(&atom.name).is_empty(),
        _ => false,
    }
}

// Of which nodes that is so.
fn concluded_in(
    alloc: Global,
    axiom_rules: &Table,
    nodes: &[CodeNode],
) -> Result<Vec<bool>, AllocError>
    ensures { IfOk result (λ all. all.items ≡ concluded_in (places_in axiom_rules.now) (map laid_of nodes.now)) }
{
    let mut all = Vec::with_capacity(alloc, nodes.len())?;
    for node in nodes {
        all.push(concludes(node, axiom_rules))?;
    }
    Ok(all)
}

/// A code in the making: rules are compiled one after another. After an out-of-memory error it is of no use.
pub struct Lowering {
    nodes: Vec<CodeNode>,
    /// The indices of the rules' nodes.
    rules: Vec<usize>,
    vars: Vec<Vec<Name>>,
    task_rules: Table,
    axiom_rules: Table,
}

impl Drop for Lowering {
    fn drop(self) {
        let Lowering {
            nodes,
            rules,
            vars,
            task_rules,
            axiom_rules,
        } = self;
        drop(nodes);
        drop(rules);
        drop(vars);
        drop(task_rules);
        drop(axiom_rules);
    }
}

impl Lowering {
    /// Without rules. It takes no memory.
    pub fn new(alloc: Global) -> Lowering
        ensures { Holds [] result }
    {
        Lowering {
            nodes: Vec::new(alloc),
            rules: Vec::new(alloc),
            vars: Vec::new(alloc),
            task_rules: Table::new(alloc),
            axiom_rules: Table::new(alloc),
        }
    }

    /// How many rules it holds.
    pub fn len(&self) -> usize
        ensures { (rules : List plain.Rule) → Holds rules self.now → result ≡ length rules }
    {
        self.rules.len()
    }

    // A rule begins with a node, and has variables of these names.
    fn begin(&mut self, alloc: Global, node: usize, vars: &[Name]) -> Result<(), AllocError>
        ensures { OnOk result (Begins node vars.now self.old self.new) }
    {
        let names = copy_names(alloc, vars)?;
        self.vars.push(names)?;
        self.rules.push(node)?;
        Ok(())
    }

    /// Adds a rule.
    pub fn rule(&mut self, alloc: Global, rule: &Rule) -> Result<(), AllocError>
        ensures { OnOk result (Extends (rule_of rule.now ∷ []) self.old self.new) }
    {
        let node = self.nodes.len();
        self.begin(alloc, node, names_of(rule))?;
        self.task_rules.add_rule(alloc, Kind::Task, rule, node)?;
        self.axiom_rules.add_rule(alloc, Kind::Axiom, rule, node)?;
        lay_rule(&mut self.nodes, alloc, rule)
    }

    /// The code of the rules.
    pub fn code(self, alloc: Global) -> Result<Code, AllocError>
        requires { CanBeCode self }
        ensures { IfOk result (λ code. (rules : List plain.Rule) → Holds rules self → IsCodeOf rules (code_of code)) }
    {
        let concluded = concluded_in(alloc, &self.axiom_rules, self.nodes.as_slice())?;
        let Lowering {
            nodes,
            rules,
            vars,
            task_rules,
            axiom_rules,
        } = self;
        Ok(Code {
            nodes,
            rules,
            vars,
            task_rules,
            axiom_rules,
            concluded,
        })
    }
}

/// Compiles the rules of a domain in which the checks find nothing.
pub fn lower(alloc: Global, domain: &Domain) -> Result<Code, AllocError>
    requires numbered { IsNumberedDomain (domain_of domain.now) }
    requires checked { first_of (domain_faults (domain_of domain.now)) ≡ None }
    ensures { IfOk result (λ code. IsCodeOf (domain_of domain.now).rules (code_of code)) }
{
    let mut lowering = Lowering::new(alloc);
    for rule in &domain.rules {
        lowering.rule(alloc, rule)?;
    }
    lowering.code(alloc)
}
