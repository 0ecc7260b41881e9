//! A file's only node. The forest is needed no more: the nodes of a rule or an atom are let go once it is formed, so
//! that many of them are never there whole beside what is formed of them. The task list of a problem is one node, which
//! is let go when it is formed whole.

ghost use Rattle.std.specs.Prelude.{◌≡◌, ◌<◌, codes, map, true, IfOk};
ghost use Rattle.std.specs.Vec.Iter.{into_iter_items, into_iter_len};
ghost use Rattle.hp_syntax.specs.declared.form.What.TheVariants as wants;
ghost use Rattle.hp_syntax.specs.Steps as steps;
ghost use Rattle.hp_syntax.specs.Steps.{Names, pure};
ghost use Rattle.hp_syntax.specs.Grammar as grammar;
ghost use Rattle.hp_syntax.specs.Views.{atom_of, domain_of, pair_of, problem_of, rule_of};
ghost use Rattle.hp_text.specs.Nodes.{node_of, nodes_of, forest_of};
ghost use Rattle.hp_terms.specs.FormReads.{Reads, Gives};
ghost use Rattle.hp_forms.specs.Pairs as pairs;

use hp_rules::rules::rule;
use hp_rules::tasks::tasks;
use hp_syntax::{AtomPat, Domain, Name, Pair, Problem, Rule, Span, What};
use hp_terms::FormRefusal;
use hp_terms::nodes::{closing, ended, expected, is_word, list, name};
use hp_terms::scope::Scope;
use hp_terms::terms::{Setting, atom};
use hp_text::{Forest, Node};
use std::alloc::{AllocError, Global};
use std::vec::IntoIter;

/// The empty span at the end of a file.
fn end_of(forest: &Forest) -> Span
    ensures { result ≡ grammar.end_of_file forest.now.len }
{
    Span {
        from: forest.len,
        to: forest.len,
    }
}

/// The next item, taken from those that are left; where the list ends, this is wanted there.
fn take_next(what: What, end: Span, nodes: &mut Vec<Node>) -> Result<Node, FormRefusal>
    ensures { (names : Names) → Reads (λ first. (node_of first, nodes_of nodes.new.items)) result
        (steps.next what end (nodes_of nodes.old.items)) names names }
{
    if nodes.is_empty() {
        return expected(what, end);
    }
    Ok(nodes.remove(0))
}

/// The items of a list, taken out of it; `nil` has none.
fn into_list(alloc: Global, what: What, node: Node) -> Result<Vec<Node>, FormRefusal>
    ensures { (names : Names) → Reads (λ nodes. nodes_of nodes.items) result (grammar.list what (node_of node))
        names names }
{
    list(what, &node)?;
    match node.into_parts() {
        Some(parts) => Ok(parts),
        None => Ok(Vec::new(alloc)),
    }
}

/// The nodes behind the word in a list that begins with it; else this is wanted.
fn behind_word(what: What, word: &[u8], node: Node) -> Result<Vec<Node>, FormRefusal>
    ensures { (names : Names) → Reads (λ rest. nodes_of rest.items) result
        (grammar.file_list what word.now (λ span rest. pure rest) (node_of node)) names names }
{
    let span = node.span;
    let Some(mut parts) = node.into_parts() else {
        return expected(what, span);
    };
    let first = take_next(what, span, &mut parts)?;
    if !is_word(&first, word) {
        return expected(what, span);
    }
    Ok(parts)
}

/// The domain of this name and these rules.
fn named_domain(alloc: Global, name: &Name, rules: Vec<Rule>) -> Result<Domain, AllocError>
    ensures { IfOk result (λ d. domain_of d ≡ record { name = name.now; rules = map rule_of rules.items }) }
{
    Ok(Domain {
        name: name.copy(alloc)?,
        rules,
    })
}

/// The rules that nodes are.
fn rules(alloc: Global, nodes: Vec<Node>) -> Result<Vec<Rule>, FormRefusal>
    ensures { (names : Names) → Reads (λ v. map rule_of v.items) result
        (steps.each grammar.rule (nodes_of nodes.items)) names names }
{
    let mut rules = Vec::with_capacity(alloc, nodes.len())?;
    let mut scope = Scope::new(alloc);
    for node in nodes {
        rules.push(rule(&mut scope, &node)?)?;
    }
    Ok(rules)
}

/// `(defdomain NAME (rule ..))`, by what follows the word.
#[tactic(auto, unfolding(hp_syntax::specs::Grammar::domain_list))]
fn domain_list(alloc: Global, span: Span, mut rest: Vec<Node>) -> Result<Domain, FormRefusal>
    ensures { (names : Names) → Reads domain_of result (grammar.domain_list span (nodes_of rest.items)) names names }
{
    let first = take_next(What::Name, closing(span), &mut rest)?;
    let name = name(&first)?;
    let second = take_next(What::Rules, closing(span), &mut rest)?;
    let rules = rules(alloc, into_list(alloc, What::Rules, second)?)?;
    ended(rest.as_slice())?;
    Ok(named_domain(alloc, name, rules)?)
}

/// The domain that a node is.
fn domain_of_node(alloc: Global, node: Node) -> Result<Domain, FormRefusal>
    ensures { (names : Names) → Reads domain_of result
        (grammar.file_list wants.Domain (codes "defdomain") grammar.domain_list (node_of node)) names names }
{
    let span = node.span;
    let rest = behind_word(What::Domain, b"defdomain", node)?;
    domain_list(alloc, span, rest)
}

/// The domain that a forest is the form of. The nodes of a rule are let go once the rule is formed.
#[tactic(auto, unfolding(hp_syntax::specs::Grammar::file))]
pub fn domain(alloc: Global, forest: Forest) -> Result<Domain, FormRefusal>
    ensures { Gives domain_of result (grammar.domain_form forest.len (forest_of forest)) }
{
    let end = end_of(&forest);
    let mut nodes = forest.nodes;
    let only = take_next(What::Domain, end, &mut nodes)?;
    let domain = domain_of_node(alloc, only)?;
    ended(nodes.as_slice())?;
    Ok(domain)
}

/// The atoms that nodes are.
fn atoms(scope: &mut Scope, nodes: Vec<Node>) -> Result<Vec<AtomPat>, FormRefusal>
    ensures { Reads (λ v. map atom_of v.items) result
        (steps.each (grammar.atom grammar.InProblem) (nodes_of nodes.items))
        scope.old.names.keys scope.new.names.keys }
{
    let mut atoms = Vec::with_capacity(scope.alloc, nodes.len())?;
    for node in nodes {
        atoms.push(atom(scope, Setting::Problem, &node)?)?;
    }
    Ok(atoms)
}

/// The atoms of a state.
#[tactic(auto, unfolding(hp_syntax::specs::Grammar::atoms))]
fn state(scope: &mut Scope, node: Node) -> Result<Vec<AtomPat>, FormRefusal>
    ensures { Reads (λ v. map atom_of v.items) result (grammar.atoms grammar.InProblem (node_of node))
        scope.old.names.keys scope.new.names.keys }
{
    let nodes = into_list(scope.alloc, What::Atoms, node)?;
    atoms(scope, nodes)
}

/// The next of the nodes that are left; where there is none, this is wanted there.
fn next_left(what: What, end: Span, left: &mut IntoIter<Node>) -> Result<Node, FormRefusal>
    ensures reads { (names : Names) → Reads (λ first. (node_of first, nodes_of (into_iter_items left.new))) result
        (steps.next what end (nodes_of (into_iter_items left.old))) names names }
    ensures fewer { IfOk result (λ _. into_iter_len left.new < into_iter_len left.old) }
{
    match left.next() {
        Some(node) => Ok(node),
        None => expected(what, end),
    }
}

/// A pair of a problem, of the nodes that are left.
#[tactic(auto, unfolding(crate::specs::Pairs::pair))]
fn pair(scope: &mut Scope, end: Span, left: &mut IntoIter<Node>) -> Result<Pair, FormRefusal>
    ensures reads { Reads (λ p. (pair_of p, nodes_of (into_iter_items left.new))) result
        (pairs.pair end (nodes_of (into_iter_items left.old))) scope.old.names.keys scope.new.names.keys }
    ensures fewer { IfOk result (λ _. into_iter_len left.new < into_iter_len left.old) }
{
    let first = next_left(What::Atoms, end, left)?;
    let state = state(scope, first)?;
    let second = next_left(What::Tasks, end, left)?;
    let tasks = tasks(scope, Setting::Problem, &second)?;
    Ok(Pair { state, tasks })
}

/// The pairs of a problem, one or more, of the nodes behind its names.
fn pairs(scope: &mut Scope, end: Span, nodes: Vec<Node>) -> Result<Vec<Pair>, FormRefusal>
    ensures { Reads (λ v. map pair_of v.items) result (grammar.pairs end true (nodes_of nodes.items))
        scope.old.names.keys scope.new.names.keys }
{
    let mut pairs = Vec::with_capacity(scope.alloc, nodes.len() / 2)?;
    let mut left = nodes.into_iter();
    loop {
        let next = pair(scope, end, &mut left)?;
        pairs.push(next)?;
        if left.len() == 0 {
            return Ok(pairs);
        }
    }
}

/// The problem of these names and pairs, whose variables have the names of the scope.
fn named_problem(
    scope: &Scope,
    own: &Name,
    domain: &Name,
    domain_span: Span,
    pairs: Vec<Pair>,
) -> Result<Problem, AllocError>
    ensures { IfOk result (λ p. problem_of p ≡ record {
      name = own.now;
      domain = domain.now;
      domain_span = domain_span;
      vars = scope.now.names.keys;
      pairs = map pair_of pairs.items;
    }) }
{
    let vars = scope.all_names()?;
    let name = own.copy(scope.alloc)?;
    let domain = domain.copy(scope.alloc)?;
    Ok(Problem {
        name,
        domain,
        domain_span,
        vars,
        pairs,
    })
}

/// `(defproblem NAME NAME atoms tasks ..)`, by what follows the word.
#[tactic(auto, unfolding(hp_syntax::specs::Grammar::problem_list))]
fn problem_list(alloc: Global, span: Span, mut rest: Vec<Node>) -> Result<Problem, FormRefusal>
    ensures { Gives problem_of result (steps.from_no_names (grammar.problem_list span (nodes_of rest.items))) }
{
    let first = take_next(What::Name, closing(span), &mut rest)?;
    let own = name(&first)?;
    let second = take_next(What::Name, closing(span), &mut rest)?;
    let domain = name(&second)?;
    let mut scope = Scope::new(alloc);
    let pairs = pairs(&mut scope, closing(span), rest)?;
    Ok(named_problem(&scope, own, domain, second.span, pairs)?)
}

/// The problem that a node is.
fn problem_of_node(alloc: Global, node: Node) -> Result<Problem, FormRefusal>
    ensures { Gives problem_of result (steps.from_no_names
        (grammar.file_list wants.Problem (codes "defproblem") grammar.problem_list (node_of node))) }
{
    let span = node.span;
    let rest = behind_word(What::Problem, b"defproblem", node)?;
    problem_list(alloc, span, rest)
}

/// The problem that a forest is the form of. The nodes of an atom are let go once it is formed, and those of the tasks
/// once all are.
#[tactic(auto, unfolding(hp_syntax::specs::Grammar::file))]
pub fn problem(alloc: Global, forest: Forest) -> Result<Problem, FormRefusal>
    ensures { Gives problem_of result (grammar.problem_form forest.len (forest_of forest)) }
{
    let end = end_of(&forest);
    let mut nodes = forest.nodes;
    let only = take_next(What::Problem, end, &mut nodes)?;
    let problem = problem_of_node(alloc, only)?;
    ended(nodes.as_slice())?;
    Ok(problem)
}
