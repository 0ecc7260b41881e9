//! Laws of rules as they are compiled.
//!
//! Each function does nothing, and its contract is the law.
ghost use Rattle.std.specs.Prelude.{◌≡◌, ◌≤◌, ℕ, suc, List, None, Some, map, slice_get};
ghost use Rattle.std.specs.List.{All, flat_map};
ghost use Rattle.hp_syntax.specs.Syntax.{Axiom, Concludes, Expression, Operator, Pair, Precondition, Rule};
ghost use Rattle.hp_syntax.specs.Changes.{effects};
ghost use Rattle.hp_syntax.specs.Checks.{first_of, rule_faults};
ghost use Rattle.hp_syntax.specs.Events.{State, sat};
ghost use Rattle.hp_syntax.specs.Numbered.{IsNumberedRule};
ghost use Rattle.hp_syntax.specs.Preconditions.{precondition_events};
ghost use Rattle.hp_syntax.specs.Values.{Bindings};
ghost use Rattle.hp_syntax.specs.Walk.{Node, children, node_at, visits, walk};
ghost use Rattle.hp_laws.specs.RulesByName.{concluding, relevant};
ghost use Rattle.hp_nodes.specs.Compiled.{rule_trees, vars_of};
ghost use Rattle.hp_nodes.specs.Trees as trees;
ghost use Rattle.hp_nodes.specs.Trees.{Laid, Tree, Trees, all_laid, tree_at, trees_between};
ghost use Rattle.hp_code.specs.CodeViews.{CodeView, IsCode, IsCodeOf, beside, compiled, rule_nodes, rules_in, rules_of, vars_at};
ghost use Rattle.hp_code.specs.Listing.{listing_text};
ghost use Rattle.hp_code.specs.Lowered.{lowered, lowered_axiom, lowered_operator, lowered_precondition, lowered_rules};
ghost use Rattle.hp_code.specs.Sources.{rules_read};

/// Looking for the satisfiers of a lowered expression or precondition under lowered axioms meets what it meets for the
/// expression or precondition itself, and a lowered operator changes and costs what the operator does.
pub fn lowered_parts_mean_the_parts()
    ensures expressions { (axioms : List Axiom) (n : ℕ) (s : State) (E : Expression) (e : Bindings)
        → sat (map lowered_axiom axioms) n s (lowered E) e ≡ sat axioms n s E e }
    ensures preconditions { (axioms : List Axiom) (n : ℕ) (s : State) (p : Precondition) (e : Bindings)
        → precondition_events (map lowered_axiom axioms) n s (lowered_precondition p) e
        ≡ precondition_events axioms n s p e }
    ensures operators { (axioms : List Axiom) (n : ℕ) (s : State) (o : Operator) (e : Bindings)
        → effects (map lowered_axiom axioms) n s (lowered_operator o) e ≡ effects axioms n s o e }
{}

/// The tree of lowered rules is the tree of the rules: the children of each node, its visits, the nodes that paths
/// reach, and the walk of each pair.
pub fn lowered_rules_have_the_tree()
    ensures children { (rules : List Rule) (nest : ℕ) (n : Node)
        → children (lowered_rules rules) nest n ≡ children rules nest n }
    ensures visits { (rules : List Rule) (nest : ℕ) (n : Node) (p : List ℕ)
        → visits (lowered_rules rules) nest n p ≡ visits rules nest n p }
    ensures nodes { (rules : List Rule) (nest : ℕ) (n : Node) (p : List ℕ)
        → node_at (lowered_rules rules) nest n p ≡ node_at rules nest n p }
    ensures walks { (rules : List Rule) (nest : ℕ) (pair : Pair) (d : ℕ)
        → walk (lowered_rules rules) nest pair d ≡ walk rules nest pair d }
{}

/// Trees that are laid down in one list of nodes read back from it as themselves, and the trees of rules read back as
/// the lowered rules.
pub fn compiled_rules_read_back()
    ensures nodes { (i : ℕ) (ts : Trees) → trees.trees i (all_laid i ts) ≡ ts }
    ensures rules { (rules : List Rule) → rules_read (map vars_of rules) (rule_trees rules)
        ≡ Some (lowered_rules rules) }
{}

/// Lowered rules are numbered where the rules are, and the checks find in them what they find in the rules.
pub fn lowered_rules_are_checked_alike()
    ensures faults { (rules : List Rule)
        → flat_map rule_faults (lowered_rules rules) ≡ flat_map rule_faults rules }
    ensures numbered { (rules : List Rule) → All IsNumberedRule rules → All IsNumberedRule (lowered_rules rules) }
{}

/// What numbered rules are compiled to, in which the checks find nothing, is a code, which reads back as the lowered
/// rules.
pub fn compiled_rules_are_a_code()
    ensures reads { (rules : List Rule) (c : CodeView) → IsCodeOf rules c
        → rules_of c ≡ Some (lowered_rules rules) }
    ensures keeps { (rules : List Rule) (c : CodeView) → IsCodeOf rules c → All IsNumberedRule rules
        → first_of (flat_map rule_faults rules) ≡ None → IsCode c }
{}

/// A code reads back as the rules in it, and its nodes are their trees laid down. A node reads back as what it does,
/// over the trees that stand between it and the index that it holds; and trees between two indices are that of the
/// first node, and those from the index that it holds on. So what a node means is said by what the nodes below it mean.
pub fn nodes_read_back_over_those_below()
    ensures rules { (c : CodeView) → IsCode c → rules_of c ≡ Some (rules_in c) }
    ensures laid { (c : CodeView) → IsCode c → c.nodes ≡ all_laid 0 (trees.trees 0 c.nodes) }
    ensures node { (c : CodeView) → IsCode c → (i : ℕ) (n : Laid) → slice_get c.nodes i ≡ Some n
        → tree_at c.nodes i ≡ Some (trees.Node n.op n.span (trees_between c.nodes (suc i) n.to)) }
    ensures none { (c : CodeView) → IsCode c → (i : ℕ) → trees_between c.nodes i i ≡ trees.NoTree }
    ensures first { (c : CodeView) → IsCode c → (i to : ℕ) (n : Laid) → slice_get c.nodes i ≡ Some n → n.to ≤ to
        → (t : Tree) → tree_at c.nodes i ≡ Some t
        → trees_between c.nodes i to ≡ trees.More t (trees_between c.nodes n.to to) }
{}

/// By the name of a task a code's table finds the rules that are relevant to it, and by that of a goal the axioms that
/// conclude it. A rule's node finds the names of its variables.
pub fn codes_find_their_rules()
    ensures tasks { (c : CodeView) → IsCode c → (name : List ℕ)
        → map (λ i. beside i (rule_nodes c) (rules_in c)) (c.task_rules name)
        ≡ map Some (relevant (Some name) (rules_in c)) }
    ensures axioms { (c : CodeView) → IsCode c → (name : List ℕ)
        → map (λ i. beside i (rule_nodes c) (rules_in c)) (c.axiom_rules name)
        ≡ map Some (map Concludes (concluding name (rules_in c))) }
    ensures vars { (c : CodeView) → IsCode c → (i : ℕ) (r : Rule)
        → beside i (rule_nodes c) (rules_in c) ≡ Some r → vars_at c i ≡ vars_of r }
{}

/// Codes of the same rules have the same listing, that of what the rules are compiled to.
pub fn codes_have_one_listing()
    ensures { (rules : List Rule) (c : CodeView) → IsCodeOf rules c → listing_text c ≡ listing_text (compiled rules) }
{}
