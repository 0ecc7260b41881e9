use crate::name::Name;

/// A part of a text: the byte offset of its first byte, and that of the first byte past it.
#[derive(Clone, Copy, Debug, PartialEq, Eq)]
pub struct Span {
    pub from: u32,
    pub to: u32,
}

/// The variable behind the dot of a list, which stands for all remaining parts.
#[derive(Clone, Copy, Debug)]
pub struct Tail {
    pub span: Span,
    pub var: u32,
}

/// A term of a rule. Variables are numbers: places in the rule's list of variable names.
#[cycle(pat)]
pub struct Pat {
    pub span: Span,
    pub kind: PatKind,
}

impl Drop for Pat {
    #[cycle(pat)]
    fn drop(self) {
        let Pat { span: _, kind } = self;
        drop(kind);
    }
}

/// The kind of a term, with its parts.
#[cycle(pat)]
pub enum PatKind {
    Var(u32),
    Sym(Name),
    /// A number, in thousandths.
    Num(i64),
    /// The parts, and the tail where there is one.
    List(Vec<Pat>, Option<Tail>),
    /// A call of the call table, by its name.
    Call(Name, Vec<Pat>),
}

impl Drop for PatKind {
    #[cycle(pat)]
    fn drop(self) {
        match self {
            PatKind::Var(_) | PatKind::Num(_) => {}
            PatKind::Sym(name) => drop(name),
            PatKind::List(parts, _) => drop(parts),
            PatKind::Call(name, args) => {
                drop(name);
                drop(args);
            }
        }
    }
}

/// A term without variables and calls.
#[derive(Drop)]
pub enum Ground {
    Sym(Name),
    /// A number, in thousandths.
    Num(i64),
    List(Vec<Ground>),
}

/// An atom of a rule: a name and its arguments.
pub struct AtomPat {
    pub span: Span,
    pub name: Name,
    pub args: Vec<Pat>,
    pub tail: Option<Tail>,
}

impl Drop for AtomPat {
    fn drop(self) {
        let AtomPat {
            span: _,
            name,
            args,
            tail: _,
        } = self;
        drop(name);
        drop(args);
    }
}
