/// What was wanted at a place of a file where something else stands.
#[derive(Clone, Copy, Debug, PartialEq, Eq)]
pub enum What {
    /// The list of a domain, as a file's only node.
    Domain,
    /// The list of a problem, as a file's only node.
    Problem,
    /// A name.
    Name,
    /// The list of a domain's rules.
    Rules,
    /// An operator, a method or an axiom.
    Rule,
    /// The head of a rule: a list that begins with a fitting name.
    Head,
    /// A precondition.
    Pre,
    /// A logical expression.
    Expr,
    /// A variable.
    Variable,
    /// A term.
    Term,
    /// A tail behind a dot: a variable or a list.
    Tail,
    /// A list that begins with a plain name.
    Atom,
    /// A list of atoms.
    Atoms,
    /// A delete list or an add list.
    Effects,
    /// A task or a list of tasks.
    Tasks,
    /// A term without a call; in a plan file also without a variable.
    Ground,
    /// The end of a list or of the file.
    End,
}
