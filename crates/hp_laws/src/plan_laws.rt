//! Laws of plans: that they are sound, and that none is missing or doubled.
//!
//! Each function does nothing, and its contract is the law.

ghost use Rattle.std.specs.List.{All, AllPairs, Any};
ghost use Rattle.std.specs.Prelude.{◌≡◌, ◌↔◌, ◌≤◌, ℕ, ℤ, ◌+◌, List, length, map, Contains};
ghost use Rattle.hp_laws.specs.Derivations.{Situation, Choosing, Derives, Executes, Leads, IsEarlier, situation_at, first_situation};
ghost use Rattle.hp_syntax.specs.Networks.{Empty};
ghost use Rattle.hp_syntax.specs.Syntax.{Rule, Pair};
ghost use Rattle.hp_syntax.specs.Terms.{Term};
ghost use Rattle.hp_laws.specs.TreeLaws.{IsFaultless};
ghost use Rattle.hp_syntax.specs.Walk.{Node, Child, DidChild, Plan, children, walk};

/// What is reached by a visit, and so each plan, is derived from the tasks of the problem: choices lead there from
/// its first situation, by the steps and the cost that the visit's node tells. They are as many as the path is long,
/// and no more than the depth. At a plan nothing is left to do.
pub fn plans_are_sound()
    ensures derived { (rules : List Rule) (nest : ℕ) (pair : Pair) (depth : ℕ)
        → All (λ v. (cs : List Choosing) × Derives rules nest cs (first_situation pair) v.node.steps v.node.cost
        (situation_at v.node) × (length cs ≡ length v.path)) (walk rules nest pair depth) }
    ensures depth { (rules : List Rule) (nest : ℕ) (pair : Pair) (depth : ℕ)
        → All (λ v. length v.path + v.node.depth ≡ depth) (walk rules nest pair depth) }
    ensures finished { (rules : List Rule) (nest : ℕ) (pair : Pair) (depth : ℕ)
        → All (λ v. v.sight ≡ Plan → v.node.network ≡ Empty) (walk rules nest pair depth) }
    ensures executed { (rules : List Rule) (nest : ℕ) (cs : List Choosing) (before after : Situation)
        (steps : List Term) (cost : ℤ) → Derives rules nest cs before steps cost after
        → Executes rules nest (before.state, before.guards) steps cost (after.state, after.guards) }
{}

/// The children of a node are, in their order, its choices: of candidate, then of rule, then of event, each once. So
/// none is missing, and none stands twice.
pub fn choices_are_the_children()
    ensures { (rules : List Rule) (nest : ℕ) (n : Node)
        → (list : List (Choosing × Child)) × (map (λ x. x.1) list ≡ children rules nest n)
        × AllPairs (λ x y. IsEarlier x.0 y.0) list
        × ((c : Choosing) (m : Node) → Contains list (c, DidChild m) ↔ Leads rules nest c n m) }
{}

/// No plan is missing: where a walk meets no fault, choices that lead from the problem's first situation to one in
/// which nothing is left to do, and are no more than the depth, are a plan of the walk, with these steps, this cost
/// and this situation.
pub fn solutions_are_plans()
    ensures { (rules : List Rule) (nest : ℕ) (pair : Pair) (depth : ℕ) (cs : List Choosing) (steps : List Term)
        (cost : ℤ) (after : Situation)
        → All (λ v. IsFaultless v.sight) (walk rules nest pair depth)
        → Derives rules nest cs (first_situation pair) steps cost after → after.network ≡ Empty → length cs ≤ depth
        → Any (λ v. (v.sight ≡ Plan) × (length v.path ≡ length cs) × (v.node.steps ≡ steps)
        × (v.node.cost ≡ cost) × (situation_at v.node ≡ after)) (walk rules nest pair depth) }
{}
