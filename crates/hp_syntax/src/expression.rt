use crate::name::Name;
use crate::pattern::{AtomPat, Pat, Span};

/// A logical expression.
#[cycle(expr)]
pub struct Expr {
    pub span: Span,
    pub kind: ExprKind,
}

impl Drop for Expr {
    #[cycle(expr)]
    fn drop(self) {
        let Expr { span: _, kind } = self;
        drop(kind);
    }
}

/// The kind of a logical expression, with its parts.
#[cycle(expr)]
pub enum ExprKind {
    Atom(AtomPat),
    And(Vec<Expr>),
    Or(Vec<Expr>),
    Not(Box<Expr>),
    /// The variables that are written first change nothing.
    Forall(Vec<u32>, Box<Expr>, Box<Expr>),
    Assign(u32, Pat),
    Call(Pat),
}

impl Drop for ExprKind {
    #[cycle(expr)]
    fn drop(self) {
        match self {
            ExprKind::Atom(atom) => drop(atom),
            ExprKind::And(parts) | ExprKind::Or(parts) => drop(parts),
            ExprKind::Not(part) => drop(part),
            ExprKind::Forall(variables, range, part) => {
                drop(variables);
                drop(range);
                drop(part);
            }
            ExprKind::Assign(_, pattern) | ExprKind::Call(pattern) => drop(pattern),
        }
    }
}

/// By which order satisfiers are sorted.
#[derive(Drop)]
pub enum SortOrder {
    Up,
    Down,
    /// A name that is no order, and where it stands.
    Unknown(Name, Span),
}

/// The variable by whose value satisfiers are sorted. The span is the variable's.
pub struct SortKey {
    pub span: Span,
    pub var: u32,
    pub order: SortOrder,
}

impl Drop for SortKey {
    fn drop(self) {
        let SortKey {
            span: _,
            var: _,
            order,
        } = self;
        drop(order);
    }
}

/// A precondition: all satisfiers, the first alone, or all in the order of a variable.
pub enum Pre {
    Plain(Expr),
    First(Expr),
    Sorted(SortKey, Expr),
}

impl Drop for Pre {
    fn drop(self) {
        match self {
            Pre::Plain(expression) | Pre::First(expression) => drop(expression),
            Pre::Sorted(key, expression) => {
                drop(key);
                drop(expression);
            }
        }
    }
}
