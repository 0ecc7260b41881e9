use hp_syntax::{AtomPat, Name, NetPat, Pat, SortKey, Span};

/// What a node does. Below it, in this order, are the nodes of its parts.
pub enum Op {
    /// An operator with this head: its precondition, its deletes, its adds and its cost.
    Operator(AtomPat),
    /// A method with this head: its branches.
    Method(AtomPat),
    /// An axiom with this head: its branches.
    Axiom(AtomPat),
    /// A branch: of a method its precondition and its tasks, of an axiom its expression.
    Branch(Option<Name>),
    /// A precondition, all satisfiers of the expression below it.
    Plain,
    /// A precondition, the first satisfier alone.
    First,
    /// A precondition, all satisfiers in the order of a variable.
    Sort(SortKey),
    And,
    Or,
    Not,
    /// The range, and what must hold for each satisfier of it.
    Forall,
    Atom(AtomPat),
    Assign(u32, Pat),
    Call(Pat),
    Delete(AtomPat),
    Add(AtomPat),
    /// A protection is taken away.
    Unguard(AtomPat),
    /// A protection is put.
    Guard(AtomPat),
    /// An expression, and the atoms that are deleted or added for each satisfier of it.
    Each,
    Cost(Pat),
    Tasks(NetPat),
}

impl Drop for Op {
    fn drop(self) {
        match self {
            Op::Operator(atom) | Op::Method(atom) | Op::Axiom(atom) | Op::Atom(atom) => drop(atom),
            Op::Delete(atom) | Op::Add(atom) | Op::Unguard(atom) | Op::Guard(atom) => drop(atom),
            Op::Branch(name) => drop(name),
            Op::Sort(key) => drop(key),
            Op::Assign(_, pattern) | Op::Call(pattern) | Op::Cost(pattern) => drop(pattern),
            Op::Tasks(tasks) => drop(tasks),
            Op::Plain | Op::First | Op::And | Op::Or | Op::Not | Op::Forall | Op::Each => {}
        }
    }
}

/// A node of rules that are laid down in one list, each node before those below it.
pub struct CodeNode {
    pub op: Op,
    /// The index behind the last node below it.
    pub to: usize,
    /// Byte offsets: where the rule, the sort key, the expression, the atom or the cost stands that the node holds. A
    /// `Branch`, a `Plain`, a `First`, an `Each` and a `Tasks` stand where their rule does.
    pub span: Span,
}

impl Drop for CodeNode {
    fn drop(self) {
        let CodeNode { op, to: _, span: _ } = self;
        drop(op);
    }
}
