//! A file by its text, node by node: the nodes of a rule or an atom are let go before the next are read, so that they
//! are never there for the whole text. What isn't plainly a domain or a problem is no answer here, since a refusal is
//! told by the forest of the whole.

ghost use Rattle.std.specs.Prelude.{◌≡◌, ℕ, [], Ok, IfOk, IfSome, IsTrue, codes, map, true};
ghost use Rattle.hp_syntax.specs.declared.pattern.Span.{Span};
ghost use Rattle.hp_syntax.specs.Forest as plain;
ghost use Rattle.hp_syntax.specs.Forest.{span_of};
ghost use Rattle.hp_syntax.specs.Grammar as grammar;
ghost use Rattle.hp_syntax.specs.Steps as steps;
ghost use Rattle.hp_syntax.specs.Text.{Closing};
ghost use Rattle.hp_syntax.specs.TextForms.{IsRead};
ghost use Rattle.hp_syntax.specs.Views.{atom_of, domain_of, pair_of, problem_of, rule_of};
ghost use Rattle.hp_text.specs.Stepping.{IsPlaced, PassesBracket, PassesNode, place_of, text_of};
ghost use Rattle.hp_forms.specs.Stepwise.{HasForm, PassesAs, PassesPair};

use hp_rules::rules::rule;
use hp_rules::tasks::tasks;
use hp_syntax::{AtomPat, Domain, Name, Pair, Problem, Rule, Span};
use hp_terms::FormRefusal;
use hp_terms::nodes::{is_word, name};
use hp_terms::scope::Scope;
use hp_terms::terms::{Setting, atom};
use hp_text::NodeReader;
use std::alloc::{AllocError, Global};

/// What was formed, unless something else is wanted.
fn formed<T: Drop>(read: Result<T, FormRefusal>) -> Result<Option<T>, AllocError>
    ensures { IfOk result (λ found. IfSome found (λ x. read ≡ Ok x)) }
{
    match read {
        Ok(value) => Ok(Some(value)),
        Err(FormRefusal::NoMemory) => Err(AllocError),
        Err(FormRefusal::Expected { .. }) => Ok(None),
    }
}

/// Whether the next node is this word.
fn passes_word(reader: &mut NodeReader<'_>, word: &[u8]) -> Result<bool, AllocError>
    requires { IsPlaced reader.old }
    ensures placed { IsPlaced reader.new }
    ensures text { text_of reader.new ≡ text_of reader.old }
    ensures passes { IfOk result (λ found. IsTrue found → (n : plain.Node)
        × PassesNode (text_of reader.old) (place_of reader.old) (place_of reader.new) n
        × (steps.is_word word.now n ≡ true)) }
{
    match reader.next()? {
        Some(node) => Ok(is_word(&node, word)),
        None => Ok(false),
    }
}

/// The name that the next node is, with its span.
fn next_name(alloc: Global, reader: &mut NodeReader<'_>) -> Result<Option<(Name, Span)>, AllocError>
    requires { IsPlaced reader.old }
    ensures placed { IsPlaced reader.new }
    ensures text { text_of reader.new ≡ text_of reader.old }
    ensures name { IfOk result (λ found. IfSome found (λ x.
        (p : PassesAs grammar.name (text_of reader.old) (place_of reader.old) (place_of reader.new) [] [] x.0)
        × (span_of p.node ≡ x.1))) }
{
    let Some(node) = reader.next()? else {
        return Ok(None);
    };
    match name(&node) {
        Ok(own) => Ok(Some((own.copy(alloc)?, node.span))),
        Err(_) => Ok(None),
    }
}

/// The rules up to a closing bracket.
fn rules(alloc: Global, reader: &mut NodeReader<'_>) -> Result<Option<Vec<Rule>>, AllocError>
    requires { IsPlaced reader.old }
    ensures placed { IsPlaced reader.new }
    ensures text { text_of reader.new ≡ text_of reader.old }
    ensures rules { IfOk result (λ found. IfSome found (λ v.
        HasForm (steps.each grammar.rule) (text_of reader.old) (place_of reader.old) (place_of reader.new) [] []
        (map rule_of v.items))) }
{
    let mut rules = Vec::new(alloc);
    let mut scope = Scope::new(alloc);
    loop {
        let Some(node) = reader.next()? else {
            return Ok(Some(rules));
        };
        let Some(next) = formed(rule(&mut scope, &node))? else {
            return Ok(None);
        };
        rules.push(next)?;
    }
}

/// The domain that a text is, unless it is none.
pub fn domain(alloc: Global, bytes: &[u8]) -> Result<Option<Domain>, AllocError>
    ensures { IfOk result (λ found. IfSome found (λ d. IsRead grammar.domain_form bytes.now (domain_of d))) }
{
    let Some(mut reader) = NodeReader::new(alloc, bytes) else {
        return Ok(None);
    };
    if !reader.enter() || !passes_word(&mut reader, b"defdomain")? {
        return Ok(None);
    }
    let Some((name, _)) = next_name(alloc, &mut reader)? else {
        return Ok(None);
    };
    if !reader.enter() {
        return Ok(None);
    }
    let Some(rules) = rules(alloc, &mut reader)? else {
        return Ok(None);
    };
    if reader.leave() && reader.leave() && reader.is_at_end() {
        return Ok(Some(Domain { name, rules }));
    }
    Ok(None)
}

/// The atoms up to a closing bracket.
fn atoms(scope: &mut Scope, reader: &mut NodeReader<'_>) -> Result<Option<Vec<AtomPat>>, AllocError>
    requires { IsPlaced reader.old }
    ensures placed { IsPlaced reader.new }
    ensures text { text_of reader.new ≡ text_of reader.old }
    ensures atoms { IfOk result (λ found. IfSome found (λ v.
        HasForm (steps.each (grammar.atom grammar.InProblem)) (text_of reader.old) (place_of reader.old)
        (place_of reader.new) scope.old.names.keys scope.new.names.keys (map atom_of v.items))) }
{
    let mut atoms = Vec::new(scope.alloc);
    loop {
        let Some(node) = reader.next()? else {
            return Ok(Some(atoms));
        };
        let Some(next) = formed(atom(scope, Setting::Problem, &node))? else {
            return Ok(None);
        };
        atoms.push(next)?;
    }
}

/// The atoms of the state that the next node is.
fn state(scope: &mut Scope, reader: &mut NodeReader<'_>) -> Result<Option<Vec<AtomPat>>, AllocError>
    requires { IsPlaced reader.old }
    ensures placed { IsPlaced reader.new }
    ensures text { text_of reader.new ≡ text_of reader.old }
    ensures state { IfOk result (λ found. IfSome found (λ v.
        PassesAs (grammar.atoms grammar.InProblem) (text_of reader.old) (place_of reader.old) (place_of reader.new)
        scope.old.names.keys scope.new.names.keys (map atom_of v.items))) }
{
    if !reader.enter() {
        return Ok(None);
    }
    let Some(atoms) = atoms(scope, reader)? else {
        return Ok(None);
    };
    if reader.leave() {
        Ok(Some(atoms))
    } else {
        Ok(None)
    }
}

/// The pair that the next two nodes are.
fn pair(scope: &mut Scope, reader: &mut NodeReader<'_>) -> Result<Option<Pair>, AllocError>
    requires { IsPlaced reader.old }
    ensures placed { IsPlaced reader.new }
    ensures text { text_of reader.new ≡ text_of reader.old }
    ensures pair { IfOk result (λ found. IfSome found (λ p.
        PassesPair (text_of reader.old) (place_of reader.old) (place_of reader.new)
        scope.old.names.keys scope.new.names.keys (pair_of p))) }
{
    let Some(state) = state(scope, reader)? else {
        return Ok(None);
    };
    let Some(node) = reader.next()? else {
        return Ok(None);
    };
    match formed(tasks(scope, Setting::Problem, &node))? {
        Some(tasks) => Ok(Some(Pair { state, tasks })),
        None => Ok(None),
    }
}

/// The pairs of a problem up to its closing bracket, which is passed.
fn pairs(scope: &mut Scope, reader: &mut NodeReader<'_>) -> Result<Option<Vec<Pair>>, AllocError>
    requires { IsPlaced reader.old }
    ensures placed { IsPlaced reader.new }
    ensures text { text_of reader.new ≡ text_of reader.old }
    ensures pairs { IfOk result (λ found. IfSome found (λ v. (behind : ℕ)
        × ((end : Span) → HasForm (grammar.pairs end true) (text_of reader.old) (place_of reader.old) behind
        scope.old.names.keys scope.new.names.keys (map pair_of v.items))
        × PassesBracket Closing (text_of reader.old) behind (place_of reader.new))) }
{
    let mut pairs = Vec::new(scope.alloc);
    loop {
        let Some(next) = pair(scope, reader)? else {
            return Ok(None);
        };
        pairs.push(next)?;
        if reader.leave() {
            return Ok(Some(pairs));
        }
    }
}

/// The problem that a text is, unless it is none.
pub fn problem(alloc: Global, bytes: &[u8]) -> Result<Option<Problem>, AllocError>
    ensures { IfOk result (λ found. IfSome found (λ p. IsRead grammar.problem_form bytes.now (problem_of p))) }
{
    let Some(mut reader) = NodeReader::new(alloc, bytes) else {
        return Ok(None);
    };
    if !reader.enter() || !passes_word(&mut reader, b"defproblem")? {
        return Ok(None);
    }
    let Some((name, _)) = next_name(alloc, &mut reader)? else {
        return Ok(None);
    };
    let Some((domain, domain_span)) = next_name(alloc, &mut reader)? else {
        return Ok(None);
    };
    let mut scope = Scope::new(alloc);
    let Some(pairs) = pairs(&mut scope, &mut reader)? else {
        return Ok(None);
    };
    if !reader.is_at_end() {
        return Ok(None);
    }
    Ok(Some(Problem {
        name,
        domain,
        domain_span,
        vars: scope.all_names()?,
        pairs,
    }))
}
