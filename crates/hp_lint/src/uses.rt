//! The places where variables stand.

ghost use Rattle.std.specs.Prelude.{◌≡◌, ◌++◌, ◌∷◌, [], OnOk, true, false, map};
ghost use Rattle.std.specs.List.{flat_map};
ghost use Rattle.hp_syntax.specs.Views.{pattern_of, patterns_of, atom_of, expression_of, expressions_of, precondition_of, effect_of, tasks_of, branch_of, clause_of, operator_of, method_of, axiom_of, rule_of};
ghost use Rattle.hp_syntax.specs.Notes.{task_atoms};
ghost use Rattle.hp_syntax.specs.Syntax.{Does, Refines, Concludes};
ghost use Rattle.hp_lint.specs.Variables as plain;
ghost use Rattle.hp_lint.specs.LintViews.{lent_atoms};

use crate::serving::tasks;
use hp_syntax::{
    AtomPat, Axiom, Branch, Clause, Effect, Expr, ExprKind, Method, NetPat, Operator, Pat, PatKind,
    Pre, Rule, Span, Tail,
};
use std::alloc::{AllocError, Global};

/// A place where a variable stands.
#[derive(Clone, Copy)]
pub struct Use {
    pub span: Span,
    pub var: u32,
}

/// The places so far, in the order in which they stand.
pub struct Uses {
    pub list: Vec<Use>,
}

impl Drop for Uses {
    fn drop(self) {
        let Uses { list } = self;
        drop(list);
    }
}

impl Uses {
    pub fn new(alloc: Global) -> Uses
        ensures { result.list.items ≡ [] }
    {
        Uses {
            list: Vec::new(alloc),
        }
    }

    pub fn add(&mut self, span: Span, var: u32) -> Result<(), AllocError>
        ensures { OnOk result (self.new.list.items ≡ self.old.list.items ++ plain.use_at span var ∷ []) }
    {
        self.list.push(Use { span, var })?;
        Ok(())
    }

    fn tail(&mut self, tail: Option<Tail>) -> Result<(), AllocError>
        ensures { OnOk result (self.new.list.items ≡ self.old.list.items ++ plain.tail_uses tail) }
    {
        match tail {
            Some(tail) => self.add(tail.span, tail.var),
            None => Ok(()),
        }
    }

    /// The variables of a pattern, with those of its calls or without.
    #[cycle(pattern)]
    #[tactic(auto, unfolding(hp_syntax::specs::Views::pattern_of, crate::specs::Variables::pattern_uses))]
    #[inline(always)]
    pub fn pattern(&mut self, in_calls: bool, pat: &Pat) -> Result<(), AllocError>
        ensures { OnOk result (self.new.list.items
            ≡ self.old.list.items ++ plain.pattern_uses in_calls (pattern_of pat.now)) }
    {
        match &pat.kind {
            PatKind::Var(v) => self.add(pat.span, *v),
            PatKind::Sym(_) | PatKind::Num(_) => Ok(()),
            PatKind::List(parts, end) => {
                self.patterns(in_calls, parts.as_slice())?;
                self.tail(*end)
            }
            PatKind::Call(_, args) if in_calls => self.patterns(in_calls, args.as_slice()),
            PatKind::Call(_, _) => Ok(()),
        }
    }

    #[cycle(pattern)]
    #[tactic(auto, unfolding(crate::specs::Variables::patterns_uses))]
    #[inline(never)]
    pub fn patterns(&mut self, in_calls: bool, pats: &[Pat]) -> Result<(), AllocError>
        ensures { OnOk result (self.new.list.items
            ≡ self.old.list.items ++ plain.patterns_uses in_calls (patterns_of pats.now)) }
    {
        for pat in pats {
            self.pattern(in_calls, pat)?;
        }
        Ok(())
    }

    /// The variables of an atom, with those of its calls or without.
    pub fn atom(&mut self, in_calls: bool, atom: &AtomPat) -> Result<(), AllocError>
        ensures { OnOk result (self.new.list.items
            ≡ self.old.list.items ++ plain.atom_uses in_calls (atom_of atom.now)) }
    {
        self.patterns(in_calls, atom.args.as_slice())?;
        self.tail(atom.tail)
    }

    /// The variables of each atom.
    pub fn atoms(&mut self, atoms: &[AtomPat]) -> Result<(), AllocError>
        ensures { OnOk result (self.new.list.items
            ≡ self.old.list.items ++ plain.atoms_uses (map atom_of atoms.now)) }
    {
        for atom in atoms {
            self.atom(true, atom)?;
        }
        Ok(())
    }

    fn lent(&mut self, atoms: &[&AtomPat]) -> Result<(), AllocError>
        ensures { OnOk result (self.new.list.items
            ≡ self.old.list.items ++ plain.atoms_uses (lent_atoms atoms.now)) }
    {
        for atom in atoms {
            self.atom(true, atom)?;
        }
        Ok(())
    }

    /// The variables of tasks.
    pub fn tasks(&mut self, alloc: Global, part: &NetPat) -> Result<(), AllocError>
        ensures { OnOk result (self.new.list.items
            ≡ self.old.list.items ++ plain.atoms_uses (task_atoms (tasks_of part.now))) }
    {
        let mut atoms = Vec::new(alloc);
        tasks(&mut atoms, part)?;
        self.lent(atoms.as_slice())
    }

    /// The variables of an expression.
    #[cycle(expression)]
    pub fn expression(&mut self, part: &Expr) -> Result<(), AllocError>
        ensures { OnOk result (self.new.list.items
            ≡ self.old.list.items ++ plain.expression_uses (expression_of part.now)) }
    {
        match &part.kind {
            ExprKind::Atom(held) => self.atom(true, held),
            ExprKind::And(parts) | ExprKind::Or(parts) => self.expressions(parts.as_slice()),
            ExprKind::Not(part) => self.expression(part),
            ExprKind::Forall(_, range, body) => {
                self.expression(range)?;
                self.expression(body)
            }
            ExprKind::Assign(v, value) => {
                self.add(part.span, *v)?;
                self.pattern(true, value)
            }
            ExprKind::Call(call) => self.pattern(true, call),
        }
    }

    #[cycle(expression)]
    #[tactic(auto, unfolding(crate::specs::Variables::expressions_uses))]
    fn expressions(&mut self, parts: &[Expr]) -> Result<(), AllocError>
        ensures { OnOk result (self.new.list.items
            ≡ self.old.list.items ++ plain.expressions_uses (expressions_of parts.now)) }
    {
        for part in parts {
            self.expression(part)?;
        }
        Ok(())
    }

    fn precondition(&mut self, pre: &Pre) -> Result<(), AllocError>
        ensures { OnOk result (self.new.list.items
            ≡ self.old.list.items ++ plain.precondition_uses (precondition_of pre.now)) }
    {
        match pre {
            Pre::Plain(whole) | Pre::First(whole) => self.expression(whole),
            Pre::Sorted(key, whole) => {
                self.add(key.span, key.var)?;
                self.expression(whole)
            }
        }
    }

    fn effect(&mut self, effect: &Effect) -> Result<(), AllocError>
        ensures { OnOk result (self.new.list.items
            ≡ self.old.list.items ++ plain.effect_uses (effect_of effect.now)) }
    {
        match effect {
            Effect::Atom(atom) | Effect::Protection(atom) => self.atom(true, atom),
            Effect::Forall(_, range, atoms) => {
                self.expression(range)?;
                self.atoms(atoms.as_slice())
            }
        }
    }

    pub fn effects(&mut self, effects: &[Effect]) -> Result<(), AllocError>
        ensures { OnOk result (self.new.list.items
            ≡ self.old.list.items ++ flat_map plain.effect_uses (map effect_of effects.now)) }
    {
        for effect in effects {
            self.effect(effect)?;
        }
        Ok(())
    }

    fn branches(&mut self, alloc: Global, branches: &[Branch]) -> Result<(), AllocError>
        ensures { OnOk result (self.new.list.items
            ≡ self.old.list.items ++ flat_map plain.branch_uses (map branch_of branches.now)) }
    {
        for branch in branches {
            self.precondition(&branch.pre)?;
            self.tasks(alloc, &branch.tasks)?;
        }
        Ok(())
    }

    fn clauses(&mut self, clauses: &[Clause]) -> Result<(), AllocError>
        ensures { OnOk result (self.new.list.items
            ≡ self.old.list.items ++ flat_map plain.clause_uses (map clause_of clauses.now)) }
    {
        for clause in clauses {
            self.expression(&clause.body)?;
        }
        Ok(())
    }

    fn operator(&mut self, operator: &Operator) -> Result<(), AllocError>
        ensures { OnOk result (self.new.list.items
            ≡ self.old.list.items ++ plain.rule_uses (Does (operator_of operator.now))) }
    {
        self.atom(true, &operator.head)?;
        self.precondition(&operator.pre)?;
        self.effects(operator.dels.as_slice())?;
        self.effects(operator.adds.as_slice())?;
        self.pattern(true, &operator.cost)
    }

    fn method(&mut self, alloc: Global, method: &Method) -> Result<(), AllocError>
        ensures { OnOk result (self.new.list.items
            ≡ self.old.list.items ++ plain.rule_uses (Refines (method_of method.now))) }
    {
        self.atom(true, &method.head)?;
        self.branches(alloc, method.branches.as_slice())
    }

    fn axiom(&mut self, axiom: &Axiom) -> Result<(), AllocError>
        ensures { OnOk result (self.new.list.items
            ≡ self.old.list.items ++ plain.rule_uses (Concludes (axiom_of axiom.now))) }
    {
        self.atom(true, &axiom.head)?;
        self.clauses(axiom.clauses.as_slice())
    }

    /// The variables of a rule.
    pub fn rule(&mut self, alloc: Global, rule: &Rule) -> Result<(), AllocError>
        ensures { OnOk result (self.new.list.items
            ≡ self.old.list.items ++ plain.rule_uses (rule_of rule.now)) }
    {
        match rule {
            Rule::Operator(operator) => self.operator(operator),
            Rule::Method(method) => self.method(alloc, method),
            Rule::Axiom(axiom) => self.axiom(axiom),
        }
    }

    // ---- what can be bound

    /// What an expression can bind.
    #[cycle(bound)]
    pub fn bound_in(&mut self, part: &Expr) -> Result<(), AllocError>
        ensures { OnOk result (self.new.list.items
            ≡ self.old.list.items ++ plain.bound_in (expression_of part.now)) }
    {
        match &part.kind {
            ExprKind::Atom(held) => self.atom(false, held),
            ExprKind::And(parts) | ExprKind::Or(parts) => self.bound_in_each(parts.as_slice()),
            ExprKind::Assign(v, _) => self.add(part.span, *v),
            ExprKind::Not(_) => Ok(()),
            ExprKind::Forall(_, _, _) => Ok(()),
            ExprKind::Call(_) => Ok(()),
        }
    }

    #[cycle(bound)]
    #[tactic(auto, unfolding(crate::specs::Variables::bound_in_each))]
    fn bound_in_each(&mut self, parts: &[Expr]) -> Result<(), AllocError>
        ensures { OnOk result (self.new.list.items
            ≡ self.old.list.items ++ plain.bound_in_each (expressions_of parts.now)) }
    {
        for part in parts {
            self.bound_in(part)?;
        }
        Ok(())
    }

    /// What a precondition can bind.
    pub fn bound_before(&mut self, pre: &Pre) -> Result<(), AllocError>
        ensures { OnOk result (self.new.list.items
            ≡ self.old.list.items ++ plain.bound_before (precondition_of pre.now)) }
    {
        match pre {
            Pre::Plain(whole) | Pre::First(whole) | Pre::Sorted(_, whole) => self.bound_in(whole),
        }
    }

    /// What the expression of an effect can bind.
    pub fn effect_bound(&mut self, effect: &Effect) -> Result<(), AllocError>
        ensures { OnOk result (self.new.list.items
            ≡ self.old.list.items ++ plain.effect_bound (effect_of effect.now)) }
    {
        match effect {
            Effect::Forall(_, range, _) => self.bound_in(range),
            Effect::Atom(_) | Effect::Protection(_) => Ok(()),
        }
    }

    /// The variables that the atoms of an effect need.
    pub fn effect_needs(&mut self, effect: &Effect) -> Result<(), AllocError>
        ensures { OnOk result (self.new.list.items
            ≡ self.old.list.items ++ plain.effect_needs (effect_of effect.now)) }
    {
        match effect {
            Effect::Atom(atom) | Effect::Protection(atom) => self.atom(true, atom),
            Effect::Forall(_, _, atoms) => self.atoms(atoms.as_slice()),
        }
    }
}
