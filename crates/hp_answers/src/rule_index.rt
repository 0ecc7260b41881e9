//! The rules of a domain by their names.
ghost use Rattle.std.specs.Prelude.{◌≡◌, ◌<◌, length, map, Some, IfOk, option_map, slice_get};
ghost use Rattle.std.specs.Option.{option_copied};
ghost use Rattle.hp_syntax.specs.Events.{axioms_of};
ghost use Rattle.hp_syntax.specs.Views.{axiom_of, domain_of, rule_of};
ghost use Rattle.hp_eval.specs.GoalViews.{term_at};
ghost use Rattle.hp_laws.specs.RulesByName.{concluding, symbol_name, task_name, relevant};
ghost use Rattle.hp_tables.specs.declared.Kind.TheVariants as kinds;
ghost use Rattle.hp_answers.specs.RuleIndexes.{axiom_at, AreFew, IsTableOf};

use hp_cells::{Cell, Cells, View};
use hp_syntax::{Axiom, Domain, Name, Rule};
use hp_tables::{Kind, Table};
use std::alloc::{AllocError, Global};

/// The rules of a domain, found by their names and not by going through the domain.
pub struct RuleIndex<'a> {
    pub domain: &'a Domain,
    tasks: Table,
    axioms: Table,
    ghost few: { AreFew (axioms_of (domain_of domain.now).rules) },
    ghost for_tasks: { IsTableOf kinds.Task (domain_of domain.now).rules tasks },
    ghost listed: { IsTableOf kinds.Axiom (domain_of domain.now).rules axioms },
}

impl Drop for RuleIndex<'_> {
    fn drop(self) {
        let RuleIndex {
            domain: _,
            tasks,
            axioms,
        } = self;
        drop(tasks);
        drop(axioms);
    }
}

// The name of a term, if it is a symbol.
fn symbol_name(cell: Cell, cells: &Cells) -> Option<&Name>
    requires { cell < length cells.now }
    ensures { option_copied result ≡ symbol_name (term_at cells.now cell) }
{
    match cells.get(cell) {
        View::Sym(name) => Some(name),
        View::Nil | View::Num(_) | View::Cons(_, _) => None,
    }
}

// The name in front of a task, if there is one.
fn task_name(task: Cell, cells: &Cells) -> Option<&Name>
    requires { task < length cells.now }
    ensures { option_copied result ≡ task_name (term_at cells.now task) }
{
    match cells.get(task) {
        View::Cons(head, _) => symbol_name(head, cells),
        View::Nil | View::Sym(_) | View::Num(_) => None,
    }
}

// The places of the rules of a kind by their names, which are their numbers.
fn table_of(alloc: Global, kind: Kind, rules: &[Rule]) -> Result<Table, AllocError>
    ensures { IfOk result (IsTableOf kind (map rule_of rules.now)) }
{
    let mut table = Table::new(alloc);
    for (place, rule) in rules.iter().enumerate() {
        table.add_rule(alloc, kind, rule, place)?;
    }
    Ok(table)
}

impl<'a> RuleIndex<'a> {
    /// The rules of a domain, whose axioms have few variables.
    pub fn new(alloc: Global, domain: &'a Domain) -> Result<RuleIndex<'a>, AllocError>
        requires few { AreFew (axioms_of (domain_of domain.now).rules) }
        ensures { IfOk result (λ book. book.domain.now ≡ domain.now) }
    {
        let tasks = table_of(alloc, Kind::Task, domain.rules.as_slice())?;
        let axioms = table_of(alloc, Kind::Axiom, domain.rules.as_slice())?;
        Ok(RuleIndex {
            domain,
            tasks,
            axioms,
        })
    }

    /// The axiom of a place among the rules.
    pub fn axiom(&self, place: usize) -> Option<&Axiom>
        ensures { option_map (λ a. axiom_of a.now) result ≡ axiom_at (domain_of self.now.domain.now).rules place }
    {
        match self.domain.rules.get(place) {
            Some(Rule::Axiom(axiom)) => Some(axiom),
            Some(Rule::Operator(_)) => None,
            Some(Rule::Method(_)) => None,
            None => None,
        }
    }

    /// The places of the axioms whose head has a name, in the order of the domain.
    pub fn axioms(&self, name: &Name) -> &[usize]
        ensures { map (axiom_at (domain_of self.now.domain.now).rules) result.now
            ≡ map Some (concluding name.now (domain_of self.now.domain.now).rules) }
    {
        self.axioms.get(name)
    }

    // The places of the operators and methods whose head has a name, in the order of the domain.
    fn relevant(&self, name: &Name) -> &[usize]
        ensures { map (slice_get (domain_of self.now.domain.now).rules) result.now
            ≡ map Some (relevant (Some name.now) (domain_of self.now.domain.now).rules) }
    {
        self.tasks.get(name)
    }

    /// The place of the rule of a number among those that are relevant to a task, if there are so many.
    pub fn relevant_at(&self, task: Cell, number: usize, cells: &Cells) -> Option<usize>
        requires task { task < length cells.now }
        ensures { option_map (slice_get (domain_of self.now.domain.now).rules) result
            ≡ option_map Some (slice_get (relevant (task_name (term_at cells.now task))
            (domain_of self.now.domain.now).rules) number) }
    {
        let name = task_name(task, cells)?;
        self.relevant(name).get(number).copied()
    }
}
