//! Remarks, as they are told.

ghost use Rattle.std.specs.Prelude.{◌≡◌, [], IfOk, OnOk};
ghost use Rattle.std.specs.Option.{option_copied};
ghost use Rattle.hp_lint.specs.Remarked as plain;
ghost use Rattle.hp_lint.specs.LintViews.{Told};

use hp_syntax::{Name, Span};
use std::alloc::{AllocError, Global};

/// What looks wrong. None of them is a fault: a plan may be found all the same.
#[derive(Clone, Copy, Debug, PartialEq, Eq)]
pub enum Concern {
    /// An atom is asked for that nothing gives with so many arguments: no fact of a pair, no effect that adds, no
    /// axiom. It doesn't mean that one that is given would ever match, or that the atom isn't to be false.
    NothingGives,
    /// A task that no head of an operator or a method has the name and the number of arguments of. It doesn't mean that
    /// the arguments of one that has would match, or that the task is ever reached.
    NoRule,
    /// A variable stands once in its rule, so it binds nothing together. It doesn't mean that a value isn't wanted
    /// there, whichever it is.
    StandsOnce,
    /// A variable of an effect, a cost or a task that nothing in front of it can bind. That a variable isn't told of
    /// doesn't mean that it is always bound: one of two alternatives may leave it free.
    Unbound,
    /// An atom has the name of a call, and nothing gives an atom of this name: `call` may be missing in front of it. It
    /// isn't told of as one that nothing gives besides.
    NamedLikeCall,
    /// A branch stands behind one that always gives something. A branch that isn't told of may be hidden as well, by
    /// one that gives something in each state that comes up.
    NeverReached,
    /// An operator with whose name and number of arguments no task stands. That one isn't told of doesn't mean that its
    /// task is ever reached.
    NeverAsked,
}

/// What looks wrong at a place.
pub struct Remark {
    pub concern: Concern,
    /// Whether it stands in the problem, and not in the domain.
    pub in_problem: bool,
    /// The atom's, the variable's, or that of the precondition of a branch.
    pub span: Span,
    /// The name of the atom, the variable or the branch, where it has one.
    pub name: Option<Name>,
}

impl Drop for Remark {
    fn drop(self) {
        let Remark {
            concern: _,
            in_problem: _,
            span: _,
            name,
        } = self;
        drop(name);
    }
}

/// The remarks so far.
pub struct Report {
    pub alloc: Global,
    pub list: Vec<Remark>,
}

impl Drop for Report {
    fn drop(self) {
        let Report { alloc: _, list } = self;
        drop(list);
    }
}

/// An equal name, where there is one.
fn copied(alloc: Global, name: Option<&Name>) -> Result<Option<Name>, AllocError>
    ensures { IfOk result (λ copy. copy ≡ option_copied name.entry) }
{
    match name {
        Some(name) => Ok(Some(name.copy(alloc)?)),
        None => Ok(None),
    }
}

impl Report {
    pub fn new(alloc: Global) -> Report
        ensures { result.list.items ≡ [] }
    {
        Report {
            alloc,
            list: Vec::new(alloc),
        }
    }

    /// Tells one more remark.
    #[inline(never)]
    pub fn tell(
        &mut self,
        concern: Concern,
        in_problem: bool,
        span: Span,
        name: Option<&Name>,
    ) -> Result<(), AllocError>
        ensures { OnOk result (Told (plain.remark concern in_problem span (option_copied name.entry))
            self.old.list.items self.new.list.items) }
    {
        let name = copied(self.alloc, name)?;
        self.list.push(Remark {
            concern,
            in_problem,
            span,
            name,
        })?;
        Ok(())
    }

    /// The remarks alone.
    pub fn into_list(self) -> Vec<Remark>
        ensures { result ≡ self.list }
    {
        let Report { alloc: _, list } = self;
        list
    }
}
