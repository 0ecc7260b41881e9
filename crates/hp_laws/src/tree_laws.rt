//! Laws of networks, trees and walks.
//!
//! Each function does nothing, and its contract is the law.

ghost use Rattle.std.specs.List.{All, AllPairs, flat_map};
ghost use Rattle.std.specs.Prelude.{◌≡◌, ◌≢◌, ◌≤◌, ◌+◌, ℕ, List, [], map, length, Some, None};
ghost use Rattle.hp_syntax.specs.Networks.{Network, Empty, Place, normal, part_at};
ghost use Rattle.hp_syntax.specs.Report.{nothing_seen, plan_texts, end_of, answer_at, report};
ghost use Rattle.hp_syntax.specs.Syntax.{Rule, Pair};
ghost use Rattle.hp_syntax.specs.Terms.{Term};
ghost use Rattle.hp_laws.specs.RulesByName.{relevant, task_name};
ghost use Rattle.hp_laws.specs.TreeLaws.{HasNext, IsNormal, IsFaultless, IsReached, ComesBefore, without_depth, IsPrefix, first_plans, numbered_texts};
ghost use Rattle.hp_syntax.specs.Walk.{Node, Visit, Plan, root, rule_children, visits, walk, node_at};

/// What may be done next is always a task, and in a network that is normal and not empty there is one. The same
/// holds below a focus on a part that isn't empty.
pub fn candidates_are_tasks()
    ensures whole { (net : Network) → normal net ≡ net → net ≢ Empty → HasNext net None }
    ensures focus { (net : Network) (p : Place) (part : Network) → part_at net p ≡ Some part
        → normal net ≡ net → part ≢ Empty → HasNext net (Some p) }
{}

/// The networks of a walk are in normal form, and their focus is a place in them.
pub fn networks_stay_normal()
    ensures { (rules : List Rule) (nest : ℕ) (pair : Pair) (depth : ℕ)
        → All (λ v. IsNormal v.node.network v.node.focus) (walk rules nest pair depth) }
{}

/// The rules that are relevant to a task, operators and methods whose head has its name, give a node all its children
/// by the task.
pub fn relevant_rules_give_the_children()
    ensures { (rules : List Rule) (nest : ℕ) (n : Node) (p : Place) (t : Term)
        → flat_map (rule_children rules nest n p t) (relevant (task_name t) rules)
        ≡ flat_map (rule_children rules nest n p t) rules }
{}

/// The path of each visit leads from the root to the visit's node.
pub fn visits_are_in_the_tree()
    ensures { (rules : List Rule) (nest : ℕ) (root : Node)
        → All (λ v. node_at rules nest root v.path ≡ Some v.node) (visits rules nest root []) }
{}

/// Nodes are reached in the order of their paths: a node before what is below it, a smaller number before a greater;
/// and a plan is met behind the decomposition that reached it. So no decomposition and no plan is met twice.
pub fn visits_come_in_order()
    ensures { (rules : List Rule) (nest : ℕ) (root : Node)
        → AllPairs (λ v w. IsReached v.sight → IsReached w.sight → ComesBefore v w) (visits rules nest root []) }
{}

/// A walk without a cut and a fault is the walk at every greater depth, apart from the depth that is left. So where
/// it holds no plan either, there is no plan at any greater depth.
pub fn whole_walks_stay()
    ensures walk { (rules : List Rule) (nest : ℕ) (pair : Pair) (depth more : ℕ) → depth ≤ more
        → All (λ v. IsReached v.sight) (walk rules nest pair depth)
        → map without_depth (walk rules nest pair depth) ≡ map without_depth (walk rules nest pair more) }
    ensures plans { (rules : List Rule) (nest : ℕ) (pair : Pair) (depth more : ℕ) → depth ≤ more
        → All (λ v. IsReached v.sight) (walk rules nest pair depth)
        → All (λ v. v.sight ≢ Plan) (walk rules nest pair depth)
        → All (λ v. v.sight ≢ Plan) (walk rules nest pair more) }
{}

/// A walk without a fault is the whole tree.
pub fn walks_without_faults_are_the_tree()
    ensures { (rules : List Rule) (nest : ℕ) (pair : Pair) (depth : ℕ)
        → All (λ v. IsFaultless v.sight) (walk rules nest pair depth)
        → walk rules nest pair depth ≡ visits rules nest (root pair depth) [] }
{}

/// The texts of the first k plans begin those of the first k + 1, whatever is told of a plan.
pub fn texts_grow_by_plans()
    ensures { (walk : List Visit) (tell : ℕ → Visit → List ℕ) (k : ℕ)
        → IsPrefix (plan_texts tell k 0 walk) (plan_texts tell (k + 1) 0 walk) }
{}

/// A report for k plans, where at least one is asked, tells the first k plans that are heard, in their order and by
/// numbers from 1 on, whatever is told of a plan; and its ending tells how many they are.
pub fn reports_tell_the_first_plans()
    ensures texts { (walk : List Visit) (tell : ℕ → Visit → List ℕ) (k : ℕ) → 1 ≤ k
        → report tell k nothing_seen walk
        ≡ answer_at (numbered_texts tell 1 (first_plans k walk)) (end_of k nothing_seen walk) }
    ensures count { (walk : List Visit) (k : ℕ) → 1 ≤ k
        → (end_of k nothing_seen walk).tally.plans ≡ length (first_plans k walk) }
{}
