//! Domains whose costs are written as numbers.
ghost use Rattle.std.specs.Prelude.{◌≡◌};
ghost use Rattle.hp_syntax.specs.Views.{pattern_of, rule_of, domain_of};
ghost use Rattle.hp_best.specs.Bounded.{is_price, is_priced_rule, is_priced};

use hp_syntax::{Domain, Pat, PatKind, Rule};

/// Whether a cost is a number that isn't negative.
fn is_price(cost: &Pat) -> bool
    ensures { result ≡ is_price (pattern_of cost.now) }
{
    match &cost.kind {
        PatKind::Num(n) => *n >= 0,
        PatKind::Var(_) | PatKind::Sym(_) | PatKind::List(_, _) | PatKind::Call(_, _) => false,
    }
}

fn is_priced_rule(rule: &Rule) -> bool
    ensures { result ≡ is_priced_rule (rule_of rule.now) }
{
    match rule {
        Rule::Operator(operator) => is_price(&operator.cost),
        Rule::Method(_) | Rule::Axiom(_) => true,
    }
}

/// Whether each operator of a domain costs a number that isn't negative, as it is written or where no cost is. A cost
/// that is another pattern may turn out to be a negative number. It takes no memory.
pub fn priced(domain: &Domain) -> bool
    ensures { result ≡ is_priced (domain_of domain.now).rules }
{
    for rule in &domain.rules {
        if !is_priced_rule(rule) {
            return false;
        }
    }
    true
}
