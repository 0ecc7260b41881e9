//! The compiled code of a domain.
ghost use Rattle.std.specs.Prelude.{◌≡◌, map};
ghost use Rattle.hp_nodes.specs.NodeViews.{laid_of};
ghost use Rattle.hp_tables.specs.Tables.{places_in};
ghost use Rattle.hp_code.specs.CodeValues.{IsKept, value_of};
ghost use Rattle.hp_code.specs.CodeViews.{concluded_in, rule_nodes};
ghost use Rattle.hp_code.specs.CodeProps.{code_prop};

use hp_nodes::CodeNode;
use hp_syntax::Name;
use hp_tables::Table;

/// A domain's rules, compiled: all in one list of nodes, with the names of each rule's variables beside it, and the
/// rules of each name in two tables.
///
/// Whoever has a code knows of it what `IsCode` says: its nodes read back as numbered rules in which the checks find
/// nothing, each node holds where those below it end, and the tables have just the rules of each name.
pub struct Code {
    pub(crate) nodes: Vec<CodeNode>,
    /// The indices of the rules' nodes.
    pub(crate) rules: Vec<usize>,
    pub(crate) vars: Vec<Vec<Name>>,
    pub(crate) task_rules: Table,
    pub(crate) axiom_rules: Table,
    /// For each node whether it is an atom's whose name axioms conclude.
    pub(crate) concluded: Vec<bool>,
    ghost kept: { IsKept nodes.items vars.items task_rules axiom_rules } by { Prim.hlevel code_prop },
    ghost rules_are: { rules.items ≡ rule_nodes (value_of nodes.items vars.items task_rules axiom_rules) },
    ghost concluded_are: { concluded.items ≡ concluded_in (places_in axiom_rules) (map laid_of nodes.items) },
}

impl Drop for Code {
    fn drop(self) {
        let Code {
            nodes,
            rules,
            vars,
            task_rules,
            axiom_rules,
            concluded,
        } = self;
        drop(nodes);
        drop(rules);
        drop(vars);
        drop(task_rules);
        drop(axiom_rules);
        drop(concluded);
    }
}
