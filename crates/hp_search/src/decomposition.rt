//! The decompositions that led to the node reached.
ghost use Rattle.std.specs.Prelude.{◌≡◌, ◌<◌, Bool, is_some, length, slice_get, true};
ghost use Rattle.hp_code.specs.Codes.{code_of};
ghost use Rattle.hp_code.specs.CodeViews.{rules_in};
ghost use Rattle.hp_agenda.specs.Queues.{rule_of};
ghost use Rattle.hp_search.specs.Led.{IsLedAt, TellsDecomposition};
ghost use Rattle.hp_search.specs.Planned.{planned};
ghost use Rattle.hp_search.specs.Searches.{IsSearch};

use crate::search::Search;
use hp_cells::Cell;
use hp_choice::Choice;
use hp_code::Code;

/// The decomposition that led to the node reached: the place of its task among the candidates of the parent, the task,
/// the place of the operator or method among the rules of the domain, and that of the branch among the branches of the
/// method, 0 for an operator.
#[derive(Clone, Copy, Debug)]
pub struct Decomposition {
    pub candidate: usize,
    pub task: Cell,
    pub rule: usize,
    pub branch: usize,
}

// The place among the rules of the one whose node has an index.
fn place_of_rule(code: &Code, node: usize) -> usize
    requires { is_some (rule_of (code_of code.now) node) ≡ true }
    ensures { slice_get (rules_in (code_of code.now)) result ≡ rule_of (code_of code.now) node }
{
    match code.place_of(node) {
        Some(place) => place,
        // The node is a rule's.
        None => unreachable!(),
    }
}

impl Search<'_> {
    /// The decomposition that led to the node reached, as the choice that is still open at its parent tells it.
    pub(crate) fn decomposition(&self) -> Option<Decomposition>
        requires { IsSearch self.now }
        ensures { (live : Bool) → TellsDecomposition (planned self.now live) result }
    {
        match self.above.as_slice().last() {
            Some(parent) => match &parent.agenda.open {
                Some(choice) => {
                    let choice: &Choice = choice;
                    Some(Decomposition {
                        candidate: parent.agenda.queue.at,
                        task: choice.task,
                        rule: place_of_rule(self.site.scene.code, choice.rule),
                        branch: choice.branch,
                    })
                }
                None => None,
            },
            None => None,
        }
    }

    /// The decomposition that led to the next node on the path, as the choice that is still open at a node tells it.
    pub(crate) fn decomposition_at(&self, level: usize) -> Decomposition
        requires search { IsSearch self.now }
        requires level { level < length self.now.above.items }
        ensures { (live : Bool) → IsLedAt (planned self.now live) level result }
    {
        let above = self.frame_at(level);
        match &above.agenda.open {
            Some(choice) => {
                let choice: &Choice = choice;
                Decomposition {
                    candidate: above.agenda.queue.at,
                    task: choice.task,
                    rule: place_of_rule(self.site.scene.code, choice.rule),
                    branch: choice.branch,
                }
            }
            None => unreachable!(),
        }
    }
}
