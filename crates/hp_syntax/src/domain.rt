use crate::expression::{Expr, Pre};
use crate::name::Name;
use crate::pattern::{AtomPat, Pat, Span};
use crate::tasks::NetPat;

/// A branch of a method. The first branch with a satisfier is used, and no other.
pub struct Branch {
    pub name: Option<Name>,
    pub pre: Pre,
    pub tasks: NetPat,
}

impl Drop for Branch {
    fn drop(self) {
        let Branch { name, pre, tasks } = self;
        drop(name);
        drop(pre);
        drop(tasks);
    }
}

/// A branch of an axiom.
pub struct Clause {
    pub name: Option<Name>,
    pub body: Expr,
}

impl Drop for Clause {
    fn drop(self) {
        let Clause { name, body } = self;
        drop(name);
        drop(body);
    }
}

/// An effect of an operator: an atom that it deletes or adds, a protection, or such atoms for each satisfier.
pub enum Effect {
    Atom(AtomPat),
    Protection(AtomPat),
    /// The atoms, for each satisfier of the expression. The variables that are written first
    /// change nothing.
    Forall(Vec<u32>, Expr, Vec<AtomPat>),
}

impl Drop for Effect {
    fn drop(self) {
        match self {
            Effect::Atom(atom) | Effect::Protection(atom) => drop(atom),
            Effect::Forall(variables, range, atoms) => {
                drop(variables);
                drop(range);
                drop(atoms);
            }
        }
    }
}

/// The list of an operator that deletes, or the one that adds.
#[derive(Clone, Copy, Debug, PartialEq, Eq)]
pub enum Side {
    Deletes,
    Adds,
}

/// A way to do a primitive task. `vars` has the names of its variables, by number.
pub struct Operator {
    pub span: Span,
    pub vars: Vec<Name>,
    pub head: AtomPat,
    pub pre: Pre,
    pub dels: Vec<Effect>,
    pub adds: Vec<Effect>,
    /// 1 where none is written, with the operator's span.
    pub cost: Pat,
}

impl Drop for Operator {
    fn drop(self) {
        let Operator {
            span: _,
            vars,
            head,
            pre,
            dels,
            adds,
            cost,
        } = self;
        drop(vars);
        drop(head);
        drop(pre);
        drop(dels);
        drop(adds);
        drop(cost);
    }
}

/// A way to do a compound task by other tasks.
pub struct Method {
    pub span: Span,
    pub vars: Vec<Name>,
    pub head: AtomPat,
    pub branches: Vec<Branch>,
}

impl Drop for Method {
    fn drop(self) {
        let Method {
            span: _,
            vars,
            head,
            branches,
        } = self;
        drop(vars);
        drop(head);
        drop(branches);
    }
}

/// A rule that concludes its head from a state.
pub struct Axiom {
    pub span: Span,
    pub vars: Vec<Name>,
    pub head: AtomPat,
    pub clauses: Vec<Clause>,
}

impl Drop for Axiom {
    fn drop(self) {
        let Axiom {
            span: _,
            vars,
            head,
            clauses,
        } = self;
        drop(vars);
        drop(head);
        drop(clauses);
    }
}

/// A rule of a domain.
pub enum Rule {
    Operator(Operator),
    Method(Method),
    Axiom(Axiom),
}

impl Drop for Rule {
    fn drop(self) {
        match self {
            Rule::Operator(operator) => drop(operator),
            Rule::Method(method) => drop(method),
            Rule::Axiom(axiom) => drop(axiom),
        }
    }
}

/// A planning domain.
pub struct Domain {
    pub name: Name,
    pub rules: Vec<Rule>,
}

impl Drop for Domain {
    fn drop(self) {
        let Domain { name, rules } = self;
        drop(name);
        drop(rules);
    }
}

/// An initial state and what is to be done in it.
pub struct Pair {
    pub state: Vec<AtomPat>,
    pub tasks: NetPat,
}

impl Drop for Pair {
    fn drop(self) {
        let Pair { state, tasks } = self;
        drop(state);
        drop(tasks);
    }
}

/// A planning problem of the domain that it names.
pub struct Problem {
    pub name: Name,
    pub domain: Name,
    pub domain_span: Span,
    pub vars: Vec<Name>,
    pub pairs: Vec<Pair>,
}

impl Drop for Problem {
    fn drop(self) {
        let Problem {
            name,
            domain,
            domain_span: _,
            vars,
            pairs,
        } = self;
        drop(name);
        drop(domain);
        drop(vars);
        drop(pairs);
    }
}
