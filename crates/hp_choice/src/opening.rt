//! How the choice of a rule begins.
ghost use Rattle.std.specs.Prelude.{◌≡◌, ◌<◌, ◌+◌, ◌^◌, ◌≤◌, IfOk, IfSome, OnOk, Some, is_some, length, slice_get, true};
ghost use Rattle.hp_syntax.specs.declared.limits.TheConstants.{MOST_VARIABLES};
ghost use Rattle.hp_syntax.specs.Matching.{match_atom};
ghost use Rattle.hp_syntax.specs.Networks.{Place};
ghost use Rattle.hp_syntax.specs.Syntax.{Does, Method, Operator, Refines, Rule};
ghost use Rattle.hp_syntax.specs.Values.{unbound};
ghost use Rattle.hp_syntax.specs.Views.{atom_of};
ghost use Rattle.hp_syntax.specs.Walk.{Node, method_children, operator_children, rule_children};
ghost use Rattle.hp_answers.specs.AnswerViews.{MeetsHead};
ghost use Rattle.hp_nodes.specs.NodeViews.{laid_of};
ghost use Rattle.hp_code.specs.CodeViews.{beside, rule_nodes, rules_in};
ghost use Rattle.hp_eval.specs.GoalViews.{term_at};
ghost use Rattle.hp_eval.specs.Growth.{Grows};
ghost use Rattle.hp_eval.specs.Slotted.{bindings_of};
ghost use Rattle.hp_world.specs.Recorded.{Knows};
ghost use Rattle.hp_world.specs.Stages.{AllBelow, live_atoms};
ghost use Rattle.hp_suspended.specs.SceneViews.{IsReady, code_in, setting_of};
ghost use Rattle.hp_suspended.specs.Settings.{state_in};
ghost use Rattle.hp_precondition.specs.Picks.{picked_kept};
ghost use Rattle.hp_method.specs.Branches.{IsChosenAt};
ghost use Rattle.hp_choice.specs.Choices.{IsChoice, choice_children, children_if};
ghost use Rattle.hp_choice.specs.Served.{ServesBy};

use crate::choice::{Choice, Deed};
use crate::rooms::Rooms;
use hp_cells::{Cell, Cells};
use hp_code::{CodeNode, Op};
use hp_eval::{Slots, match_atom};
use hp_gen::Scene;
use hp_method::{Chosen, chosen_branch};
use hp_net::TaskId;
use hp_operator::laws::operators_come_to_what_their_bodies_do;
use hp_precondition::satisfiers;
use hp_syntax::AtomPat;
use std::alloc::{AllocError, Global};

// The node of an index.
pub(crate) fn node_at<'s>(node: usize, scene: &'s Scene<'_>) -> &'s CodeNode
    requires { node < length (code_in scene.now).nodes }
    ensures is { slice_get (code_in scene.now).nodes node ≡ Some (laid_of result.now) }
    ensures small { node + 1 < 2 ^ 64 }
{
    let nodes = scene.code.nodes();
    let _ = nodes.len();
    &nodes[node]
}

// The bindings of a rule's variables under which its head matches a task.
pub(crate) fn matched(
    alloc: Global,
    head: &AtomPat,
    vars: usize,
    task: Cell,
    cells: &Cells,
) -> Result<Option<Slots>, AllocError>
    requires task { task < length cells.now }
    requires few { vars ≤ MOST_VARIABLES }
    ensures { IfOk result (λ slots. MeetsHead cells.now vars slots
        (match_atom (atom_of head.now) (term_at cells.now task) (unbound vars))) }
{
    let mut slots = Slots::new(alloc, vars)?;
    if match_atom(head, task, cells, &mut slots) {
        Ok(Some(slots))
    } else {
        Ok(None)
    }
}

// A task, and where rules for it are looked at.
#[derive(Drop)]
struct Opening<'s, 'a> {
    alloc: Global,
    scene: &'s Scene<'a>,
    nest: u32,
    id: TaskId,
    task: Cell,
}

impl Opening<'_, '_> {
    // The choice of an operator under the bindings with which its head matches.
    fn by_operator(
        &self,
        rule: usize,
        slots: Slots,
        rooms: &mut Rooms,
        cells: &Cells,
    ) -> Result<Box<Choice>, AllocError>
        requires rule { let c = code_in self.now.scene.now in
            (o : Operator) × (beside rule (rule_nodes c) (rules_in c) ≡ Some (Does o)) }
        requires ready { IsReady self.now.scene.now cells.now slots }
        requires task { self.now.task < length cells.now }
        requires levels { self.now.nest ≤ 128 }
        ensures children { let s = self.now.scene.now in let c = code_in s in
            IfOk result (λ x. (o : Operator) (n : Node) (p : Place)
            → beside rule (rule_nodes c) (rules_in c) ≡ Some (Does o) → n.state ≡ state_in (setting_of s cells.now)
            → choice_children s self.now.nest cells.now s.world.now n p x.value
            ≡ operator_children (rules_in c) self.now.nest n p (term_at cells.now self.now.task) o
            (Some (bindings_of cells.now slots))) }
        ensures choice { let s = self.now.scene.now in
            IfOk result (λ x. IsChoice s cells.now (length cells.now) s.world.now x.value) }
        ensures names { IfOk result (λ x. (x.value.id ≡ self.now.id) × (x.value.task ≡ self.now.task)) }
        ensures served { IfOk result (λ x. (x.value.rule ≡ rule) × (x.value.branch ≡ 0)) }
        ensures kept { IfOk result (λ x. length cells.now ≤ picked_kept x.value.sats) }
    {
        // Nothing runs here: the law makes known that an operator comes to what its nodes do.
        operators_come_to_what_their_bodies_do();
        let end = node_at(rule, self.scene).to;
        let pre = rule + 1;
        let sats = satisfiers(self.alloc, self.scene, cells, pre, self.nest, &slots)?;
        let start = node_at(pre, self.scene).to;
        let choice = Choice {
            id: self.id,
            task: self.task,
            rule,
            branch: 0,
            deed: Deed::Operate { start, end },
            slots,
            sats,
            first: None,
        };
        let open = rooms.boxed(choice)?;
        Ok(open)
    }

    // The choice of a method under the bindings with which its head matches: that of its first branch whose
    // precondition has events.
    fn by_method(
        &self,
        rule: usize,
        slots: Slots,
        rooms: &mut Rooms,
        cells: &mut Cells,
    ) -> Result<Option<Box<Choice>>, AllocError>
        requires rule { let c = code_in self.now.scene.now in
            (m : Method) × (beside rule (rule_nodes c) (rules_in c) ≡ Some (Refines m)) }
        requires ready { IsReady self.now.scene.now cells.old slots }
        requires task { self.now.task < length cells.old }
        requires levels { self.now.nest ≤ 128 }
        ensures children { let s = self.now.scene.now in let c = code_in s in
            IfOk result (λ x. (m : Method) (n : Node) (p : Place)
            → beside rule (rule_nodes c) (rules_in c) ≡ Some (Refines m) → n.state ≡ state_in (setting_of s cells.old)
            → children_if s self.now.nest cells.new s.world.now n p x
            ≡ method_children (rules_in c) self.now.nest n p m (Some (bindings_of cells.old slots))) }
        ensures choice { let s = self.now.scene.now in
            IfOk result (λ x. IfSome x (λ c. IsChoice s cells.new (length cells.new) s.world.now c.value)) }
        ensures names { IfOk result (λ x. IfSome x (λ c. (c.value.id ≡ self.now.id) × (c.value.task ≡ self.now.task))) }
        ensures rule { IfOk result (λ x. IfSome x (λ c. c.value.rule ≡ rule)) }
        ensures branch { let s = self.now.scene.now in let c = code_in s in
            IfOk result (λ x. IfSome x (λ d. (m : Method) (n : Node)
            → beside rule (rule_nodes c) (rules_in c) ≡ Some (Refines m) → n.state ≡ state_in (setting_of s cells.old)
            → IsChosenAt (rules_in c) self.now.nest n.state (bindings_of cells.old slots) m.branches d.value.branch)) }
        ensures kept { IfOk result (λ x. IfSome x (λ c. length cells.old ≤ picked_kept c.value.sats)) }
        ensures cells { Grows cells.old cells.new }
    {
        let mut slots = slots;
        let end = node_at(rule, self.scene).to;
        let chosen = chosen_branch(
            self.alloc,
            self.scene,
            self.nest,
            rule + 1,
            end,
            &mut slots,
            cells,
        )?;
        match chosen {
            Some(
                Chosen {
                    number,
                    tasks,
                    sats,
                    first,
                },
            ) => {
                let choice = Choice {
                    id: self.id,
                    task: self.task,
                    rule,
                    branch: number,
                    deed: Deed::Decompose { tasks },
                    slots,
                    sats,
                    first: Some(first),
                };
                let open = rooms.boxed(choice)?;
                Ok(Some(open))
            }
            None => Ok(None),
        }
    }
}

/// The choice of a rule at a task, by the rule's node, with so many axiom levels: at most 128. There is none where the
/// head doesn't match, or where no branch of a method has any events. It stays where it is while what holds it is
/// moved.
pub fn open<'a>(
    rooms: &mut Rooms,
    scene: &Scene<'a>,
    nest: u32,
    rule: usize,
    id: TaskId,
    task: Cell,
    cells: &mut Cells,
) -> Result<Option<Box<Choice>>, AllocError>
    requires rule { is_some (beside rule (rule_nodes (code_in scene.now)) (rules_in (code_in scene.now))) ≡ true }
    requires atoms { AllBelow (length cells.old) (live_atoms scene.now.world.now.places) }
    requires knows { Knows cells.old scene.now.world }
    requires task { task < length cells.old }
    requires levels { nest ≤ 128 }
    ensures children { IfOk result (λ o. (r : Rule) (n : Node) (p : Place)
        → beside rule (rule_nodes (code_in scene.now)) (rules_in (code_in scene.now)) ≡ Some r
        → n.state ≡ state_in (setting_of scene.now cells.old)
        → children_if scene.now nest cells.new scene.now.world.now n p o
        ≡ rule_children (rules_in (code_in scene.now)) nest n p (term_at cells.old task) r) }
    ensures choice { IfOk result (λ o. IfSome o (λ c. IsChoice scene.now cells.new (length cells.new)
        scene.now.world.now c.value)) }
    ensures names { IfOk result (λ o. IfSome o (λ c. (c.value.id ≡ id) × (c.value.task ≡ task))) }
    ensures rule { IfOk result (λ o. IfSome o (λ c. c.value.rule ≡ rule)) }
    ensures branch { IfOk result (λ o. IfSome o (λ c. (r : Rule) (n : Node)
        → beside rule (rule_nodes (code_in scene.now)) (rules_in (code_in scene.now)) ≡ Some r
        → n.state ≡ state_in (setting_of scene.now cells.old)
        → ServesBy (rules_in (code_in scene.now)) nest n.state (term_at cells.old task) r c.value.branch)) }
    ensures kept { IfOk result (λ o. IfSome o (λ c. length cells.old ≤ picked_kept c.value.sats)) }
    ensures cells { Grows cells.old cells.new }
{
    let alloc = rooms.alloc;
    let opening = Opening {
        alloc,
        scene,
        nest,
        id,
        task,
    };
    let vars = scene.code.vars(rule).len();
    match &node_at(rule, scene).op {
        Op::Operator(head) => match matched(alloc, head, vars, task, cells)? {
            Some(slots) => Ok(Some(opening.by_operator(rule, slots, rooms, cells)?)),
            None => Ok(None),
        },
        Op::Method(head) => match matched(alloc, head, vars, task, cells)? {
            Some(slots) => opening.by_method(rule, slots, rooms, cells),
            None => Ok(None),
        },
        _ => Ok(None),
    }
}
