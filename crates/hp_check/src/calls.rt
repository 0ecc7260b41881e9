//! The names of the call table.

ghost use Rattle.std.specs.List.{list_any};
ghost use Rattle.std.specs.Prelude.{◌≡◌, bytes_eq, map, option_map};
ghost use Rattle.hp_syntax.specs.Calls as calls;
ghost use Rattle.hp_check.specs.Calls.{arity_seen};

use hp_syntax::Name;

/// How many arguments a call takes.
#[derive(Clone, Copy)]
pub enum Arity {
    One,
    Two,
    TwoOrMore,
}

impl Arity {
    /// Whether it takes so many.
    pub fn takes(self, count: usize) -> bool
        ensures { result ≡ calls.takes (arity_seen self) count }
    {
        match self {
            Arity::One => count == 1,
            Arity::Two => count == 2,
            Arity::TwoOrMore => count >= 2,
        }
    }
}

fn is_one_of(name: &Name, names: &[&[u8]]) -> bool
    ensures { result ≡ list_any (bytes_eq name.now) (map (λ n. n.now) names.now) }
{
    names.iter().any(|known| name.bytes() == *known)
}

/// How many arguments a name of the call table takes.
pub fn arity_of(name: &Name) -> Option<Arity>
    ensures { option_map arity_seen result ≡ calls.arity_of name.now }
{
    if is_one_of(name, &[b"+", b"*"]) {
        Some(Arity::TwoOrMore)
    } else if is_one_of(name, &[b"-", b"/", b"mod", b"^", b"min", b"max"]) {
        Some(Arity::Two)
    } else if name.bytes() == b"abs".as_slice() {
        Some(Arity::One)
    } else if is_one_of(name, &[b"<", b"<=", b">=", b">", b"=", b"!=", b"member"]) {
        Some(Arity::Two)
    } else {
        None
    }
}
