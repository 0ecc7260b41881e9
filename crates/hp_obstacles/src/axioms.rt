//! What keeps axioms from concluding an atom.
ghost use Rattle.std.specs.Prelude.{◌≡◌, ◌++◌, ◌<◌, Some, true, IfOk, OnOk, length, map, option_map};
ghost use Rattle.std.specs.Option.{option_and_then};
ghost use Rattle.hp_code.specs.Codes.{code_of};
ghost use Rattle.hp_code.specs.CodeViews.{IsCodeOf};
ghost use Rattle.hp_choice.specs.FirstSatisfier.{values_of};
ghost use Rattle.hp_syntax.specs.Views.{domain_of, rule_of};
ghost use Rattle.hp_unmet.specs.Clauses.{clause_unmet, clause_values};
ghost use Rattle.hp_unmet.specs.Conjunctions as conjunctions;
ghost use Rattle.hp_unmet.specs.PartNodes.{IsSpot};
ghost use Rattle.hp_unmet.specs.States.{InStateOf};
ghost use Rattle.hp_obstacles.specs.Obstacles as plain;
ghost use Rattle.hp_obstacles.specs.Obstacles.{unconcluded_of};
ghost use Rattle.hp_obstacles.specs.Questions.{atom_wanted, rules_wanted, task_wanted};

use crate::facts::Facts;
use crate::obstacles::{atom_name, facts_unmet, node_of};
use hp_code::Code;
use hp_search::Planner;
use hp_syntax::{Domain, Ground, Name, Rule};
use hp_unmet::{Answer, Spot, Unmet, branch_after, first_branch, first_unmet_clause, part_at};
use std::alloc::{AllocError, Global};

/// What keeps a branch of an axiom from concluding an atom.
pub struct Unconcluded {
    /// The place of the axiom among the rules of the domain.
    pub rule: usize,
    /// The place of the branch among those of the axiom, 0 where its head doesn't start from the atom.
    pub branch: usize,
    pub unmet: Unmet,
    /// The values of the variables of the axiom by the first satisfier of the parts before the unmet one, or of all parts
    /// where none is unmet. Where the head doesn't start or the answer is unknown, there are none.
    pub values: Vec<Option<Ground>>,
    /// The facts of the name for which the unmet part asks, where it asks for an atom or for the negation of one.
    pub facts: Option<Facts>,
}

// A derived drop would do the same, but be proved anew wherever one is let go.
impl Drop for Unconcluded {
    fn drop(self) {
        let Unconcluded {
            rule: _,
            branch: _,
            unmet: _,
            values,
            facts,
        } = self;
        drop(values);
        drop(facts);
    }
}

/// Whether a part is unmet.
fn is_part(unmet: Unmet) -> bool
    ensures { result ≡ plain.is_part unmet }
{
    match unmet {
        Unmet::Part(_) => true,
        Unmet::None => false,
        Unmet::Head => false,
        Unmet::Unknown => false,
    }
}

/// How many branches of a rule conclude atoms of a name.
fn clauses_for(name: &Name, rule: &Rule) -> usize
    ensures { result ≡ plain.clauses_for name.now (rule_of rule.now) }
{
    match rule {
        Rule::Operator(_) => 0,
        Rule::Method(_) => 0,
        Rule::Axiom(own) if own.head.name == *name => own.clauses.len(),
        Rule::Axiom(_) => 0,
    }
}

/// The question of what keeps axioms from concluding the atom at a place of a precondition, for a task, by the rules of a
/// domain and their code.
#[derive(Clone, Copy)]
pub(crate) struct AtomQuestion<'a> {
    pub domain: &'a Domain,
    pub code: &'a Code,
    pub task: &'a Ground,
    pub asking: Spot,
    pub place: usize,
}

impl AtomQuestion<'_> {
    /// What keeps a branch from concluding the atom, by an answer for it at the node where a walk stands.
    fn unconcluded_by(
        &self,
        alloc: Global,
        walk: &Planner<'_>,
        spot: Spot,
        answer: Answer,
    ) -> Result<Unconcluded, AllocError>
        requires live { walk.now.live ≡ true }
        requires unmet { InStateOf walk.now (λ nest s. answer.unmet
            ≡ clause_unmet (rules_wanted self.now) nest s (task_wanted self.now) self.now.asking.rule
            self.now.asking.branch self.now.place spot.rule spot.branch) }
        requires values { InStateOf walk.now (λ nest s. values_of answer.values
            ≡ clause_values (rules_wanted self.now) nest s (task_wanted self.now) self.now.asking.rule
            self.now.asking.branch self.now.place spot.rule spot.branch answer.unmet) }
        ensures { IfOk result (λ x. InStateOf walk.now (λ nest s. unconcluded_of x
            ≡ plain.unconcluded (rules_wanted self.now) nest s (task_wanted self.now) (atom_wanted self.now)
            spot.rule spot.branch)) }
    {
        let unmet = answer.unmet;
        let facts = facts_unmet(alloc, self.domain, walk, spot, unmet)?;
        Ok(Unconcluded {
            rule: spot.rule,
            branch: spot.branch,
            unmet,
            values: answer.into_values(),
            facts,
        })
    }

    /// What keeps a branch from concluding the atom at the node where a walk stands.
    fn unconcluded_at(
        &self,
        alloc: Global,
        walk: &mut Planner<'_>,
        spot: Spot,
    ) -> Result<Unconcluded, AllocError>
        requires asking { IsSpot (rules_wanted self.now) (code_of self.now.code.now) self.now.asking }
        requires spot { IsSpot (rules_wanted self.now) (code_of self.now.code.now) spot }
        requires live { walk.old.live ≡ true }
        ensures is { IfOk result (λ x. InStateOf walk.old (λ nest s. unconcluded_of x
            ≡ plain.unconcluded (rules_wanted self.now) nest s (task_wanted self.now) (atom_wanted self.now)
            spot.rule spot.branch)) }
        ensures same { walk.new ≡ walk.old }
    {
        let answer = first_unmet_clause(
            alloc,
            self.domain,
            self.code,
            spot,
            self.asking,
            self.place,
            walk,
            self.task,
        )?;
        self.unconcluded_by(alloc, walk, spot, answer)
    }

    /// Adds what keeps so many branches of an axiom from concluding the atom, up to the first of which no part is unmet.
    fn add_clauses(
        &self,
        alloc: Global,
        walk: &mut Planner<'_>,
        rule: usize,
        count: usize,
        axioms: &mut Vec<Unconcluded>,
    ) -> Result<(), AllocError>
        requires code { IsCodeOf (rules_wanted self.now) (code_of self.now.code.now) }
        requires asking { IsSpot (rules_wanted self.now) (code_of self.now.code.now) self.now.asking }
        requires there { rule < length (rules_wanted self.now) }
        requires live { walk.old.live ≡ true }
        ensures added { OnOk result (InStateOf walk.old (λ nest s. map unconcluded_of axioms.new.items
            ≡ map unconcluded_of axioms.old.items
            ++ plain.at_clauses (rules_wanted self.now) nest s (task_wanted self.now) (atom_wanted self.now)
            rule 0 count)) }
        ensures same { walk.new ≡ walk.old }
    {
        let node = node_of(self.domain, self.code, rule);
        let mut branch_node = first_branch(self.code, node);
        let mut branch = 0;
        let mut more = true;
        while more && branch < count {
            let spot = Spot {
                rule,
                branch,
                node,
                branch_node,
            };
            let found = self.unconcluded_at(alloc, walk, spot)?;
            more = is_part(found.unmet);
            axioms.push(found)?;
            branch_node = branch_after(self.code, branch_node);
            branch += 1;
        }
        Ok(())
    }

    /// What keeps the axioms of a name from concluding the atom.
    fn axioms_named(
        &self,
        alloc: Global,
        walk: &mut Planner<'_>,
        name: &Name,
    ) -> Result<Vec<Unconcluded>, AllocError>
        requires code { IsCodeOf (rules_wanted self.now) (code_of self.now.code.now) }
        requires asking { IsSpot (rules_wanted self.now) (code_of self.now.code.now) self.now.asking }
        requires live { walk.old.live ≡ true }
        ensures are { IfOk result (λ v. InStateOf walk.old (λ nest s. map unconcluded_of v.items
            ≡ plain.axioms_named (rules_wanted self.now) nest s (task_wanted self.now) (atom_wanted self.now)
            (Some name.now))) }
        ensures same { walk.new ≡ walk.old }
    {
        let mut axioms = Vec::new(alloc);
        for (place, rule) in self.domain.rules.as_slice().iter().enumerate() {
            let count = clauses_for(name, rule);
            self.add_clauses(alloc, walk, place, count, &mut axioms)?;
        }
        Ok(axioms)
    }

    /// The name of the part at the place, where it is an atom.
    fn name(&self) -> Option<&Name>
        ensures { option_map (λ n. n.now) result ≡ option_and_then plain.atom_name
            (conjunctions.part_at (rules_wanted self.now) self.now.asking.rule self.now.asking.branch self.now.place) }
    {
        match part_at(
            self.domain,
            self.asking.rule,
            self.asking.branch,
            self.place,
        ) {
            Some(part) => atom_name(part),
            None => None,
        }
    }

    /// What keeps the axioms from concluding the atom at the node where a walk stands; nothing where no atom stands there.
    pub fn answer(
        &self,
        alloc: Global,
        walk: &mut Planner<'_>,
    ) -> Result<Vec<Unconcluded>, AllocError>
        requires code { IsCodeOf (rules_wanted self.now) (code_of self.now.code.now) }
        requires asking { IsSpot (rules_wanted self.now) (code_of self.now.code.now) self.now.asking }
        requires live { walk.old.live ≡ true }
        ensures are { IfOk result (λ v. InStateOf walk.old (λ nest s. map unconcluded_of v.items
            ≡ plain.axioms_named (rules_wanted self.now) nest s (task_wanted self.now) (atom_wanted self.now)
            (option_and_then plain.atom_name (conjunctions.part_at (rules_wanted self.now) self.now.asking.rule
            self.now.asking.branch self.now.place)))) }
        ensures same { walk.new ≡ walk.old }
    {
        match self.name() {
            Some(name) => self.axioms_named(alloc, walk, name),
            None => Ok(Vec::new(alloc)),
        }
    }
}
