//! Trials, which tell what the first parts of a conjunction come to where a walk stands.
ghost use Rattle.std.specs.Prelude.{◌≡◌, ◌+◌, ◌≤◌, None, true, IfOk, IfSome, length, min};
ghost use Rattle.hp_choice.specs.Asking.{AreConjuncts, finding_of};
ghost use Rattle.hp_choice.specs.FirstSatisfier.{values_of};
ghost use Rattle.hp_code.specs.Codes.{code_of};
ghost use Rattle.hp_syntax.specs.Events.{Satisfied};
ghost use Rattle.hp_unmet.specs.Trials.{CanBeTried, InTrial, IsPrefix, is_satisfied, nodes_tried, tried, values_tried};

use crate::nodes::past;
use crate::parts::Parts;
use hp_choice::{Conjuncts, Finding, Prefix, Start, Test};
use hp_code::Code;
use hp_search::Planner;
use hp_syntax::{Domain, Ground};
use std::alloc::{AllocError, Global};

/// The first parts of a conjunction are looked for from the bindings of a start, by the nodes of the parts in a code of
/// rules whose axioms are the domain's.
#[derive(Clone, Copy)]
pub struct Trial<'a> {
    pub domain: &'a Domain,
    pub asked: Parts<'a>,
    pub code: &'a Code,
    pub nodes: Conjuncts,
    pub start: Start<'a>,
}

impl Trial<'_> {
    /// All parts.
    pub fn all(&self) -> Prefix
        requires can { CanBeTried self.now }
        ensures prefix { IsPrefix self.now result }
        ensures count { result.count ≡ length self.now.asked.parts.now }
    {
        Prefix {
            count: self.asked.parts.len(),
            end: self.nodes.end,
        }
    }

    /// So many more than some of the first parts.
    pub fn more(&self, prefix: Prefix, more: usize) -> Prefix
        requires prefix { IsPrefix self.now prefix }
        requires within { prefix.count + more ≤ length self.now.asked.parts.now }
        ensures prefix { IsPrefix self.now result }
        ensures count { result.count ≡ prefix.count + more }
    {
        let _ = self.asked.parts.len();
        Prefix {
            count: prefix.count + more,
            end: past(self.code, prefix.end, more),
        }
    }

    /// So many of the first parts, and all where there are fewer.
    pub fn first(&self, count: usize) -> Prefix
        requires can { CanBeTried self.now }
        ensures prefix { IsPrefix self.now result }
        ensures count { result.count ≡ min count (length self.now.asked.parts.now) }
    {
        let none = Prefix {
            count: 0,
            end: self.nodes.first,
        };
        self.more(none, count.min(self.asked.parts.len()))
    }

    /// The nodes of so many of the first parts.
    pub fn nodes_of(&self, prefix: Prefix) -> Conjuncts
        requires can { CanBeTried self.now }
        requires prefix { IsPrefix self.now prefix }
        ensures are { AreConjuncts (code_of self.now.code.now) result }
        ensures is { result ≡ nodes_tried self.now prefix }
    {
        Conjuncts {
            rule: self.nodes.rule,
            first: self.nodes.first,
            end: prefix.end,
        }
    }

    /// The values of the variables by the first satisfier of so many of the first parts together, in the state of the
    /// node at which a walk stands. None where there is no satisfier before a fault.
    pub fn values(
        &self,
        alloc: Global,
        walk: &mut Planner<'_>,
        prefix: Prefix,
    ) -> Result<Vec<Option<Ground>>, AllocError>
        requires can { CanBeTried self.now }
        requires live { walk.old.live ≡ true }
        requires prefix { IsPrefix self.now prefix }
        ensures values { IfOk result (λ v. InTrial walk.old self.now
            (λ nest state o. values_of v ≡ values_tried self.now nest state o prefix.count)) }
        ensures same { walk.new ≡ walk.old }
    {
        let asked = self.nodes_of(prefix);
        match walk.first_satisfier(self.code, asked, &self.start, &Test::Any)? {
            Some(values) => Ok(values),
            None => Ok(Vec::new(alloc)),
        }
    }

    /// The first parts that are satisfied one after another; none where there are no bindings to start from.
    pub fn along(&self, walk: &mut Planner<'_>) -> Result<Option<Prefix>, AllocError>
        requires can { CanBeTried self.now }
        requires live { walk.old.live ≡ true }
        ensures prefix { IfOk result (λ p. IfSome p (IsPrefix self.now)) }
        ensures met { IfOk result (λ p. IfSome p (λ x. InTrial walk.old self.now
            (λ nest state o. tried self.now nest state o x.count ≡ Satisfied))) }
        ensures none { IfOk result (λ p. p ≡ None → InTrial walk.old self.now (λ nest state o. o ≡ None)) }
        ensures same { walk.new ≡ walk.old }
    {
        walk.ask_along(self.code, self.nodes, &self.start)
    }

    /// What so many of the first parts come to, by one question to a walk, in the state of the node at which it stands.
    pub fn found(&self, walk: &mut Planner<'_>, prefix: Prefix) -> Result<Finding, AllocError>
        requires can { CanBeTried self.now }
        requires live { walk.old.live ≡ true }
        requires prefix { IsPrefix self.now prefix }
        ensures found { IfOk result (λ f. InTrial walk.old self.now
            (λ nest state o. finding_of f ≡ tried self.now nest state o prefix.count)) }
        ensures same { walk.new ≡ walk.old }
    {
        walk.ask(self.code, self.nodes_of(prefix), &self.start)
    }

    /// Whether so many of the first parts are satisfied.
    pub fn is_met(&self, walk: &mut Planner<'_>, prefix: Prefix) -> Result<bool, AllocError>
        requires can { CanBeTried self.now }
        requires live { walk.old.live ≡ true }
        requires prefix { IsPrefix self.now prefix }
        ensures met { IfOk result (λ b. InTrial walk.old self.now
            (λ nest state o. b ≡ is_satisfied (tried self.now nest state o prefix.count))) }
        ensures same { walk.new ≡ walk.old }
    {
        match self.found(walk, prefix)? {
            Finding::Satisfied => Ok(true),
            Finding::Faulty(_) => Ok(false),
            Finding::Undecided => Ok(false),
            Finding::Nothing => Ok(false),
        }
    }
}
