//! Rules that begin inside others, where a bracket may be missing.

ghost use Rattle.std.specs.Prelude.{◌≡◌, ◌≤◌, ◌<◌, ◌+◌, ℕ, IfSome, length};
ghost use Rattle.hp_doctor.specs.Nesting.{begins_rule, behind_byte, closed, inside, nested_at, nested_rule, opened};
ghost use Rattle.hp_doctor.specs.Nesting.{rule_behind, rule_left, starts};

use hp_syntax::limits::LARGEST_TEXT;

/// A rule that is open: the offset of its bracket, and how many brackets are open before it.
#[derive(Clone, Copy)]
struct Begun {
    offset: usize,
    depth: usize,
}

/// What is open behind a byte: how many brackets, the outermost rule among them, and whether a comment is.
#[derive(Clone, Copy)]
struct Open {
    depth: usize,
    rule: Option<Begun>,
    in_comment: bool,
}

/// A rule that begins inside another one: the offsets of both.
#[derive(Clone, Copy)]
pub struct Nested {
    pub inner: usize,
    pub outer: usize,
}

/// The first rule of a text that begins where another one is open.
pub fn nested_rule(text: &[u8]) -> Option<Nested>
    ensures nested { result ≡ nested_rule text.now }
    ensures within { IfSome result (λ n. n.inner < LARGEST_TEXT) }
{
    if text.len() > LARGEST_TEXT {
        return None;
    }
    let mut open = Open {
        depth: 0,
        rule: None,
        in_comment: false,
    };
    for (i, byte) in text.iter().enumerate() {
        let begins = begins_rule(*byte, &text[i + 1..]);
        if let Some(nested) = open.nested_at(i, begins) {
            return Some(nested);
        }
        open = open.behind(i, *byte, begins);
    }
    None
}

/// Whether the byte is an opening bracket, and behind it stands the word of a rule.
fn begins_rule(byte: u8, behind: &[u8]) -> bool
    ensures { result ≡ begins_rule byte behind.now }
{
    byte == b'('
        && (starts(b":operator", behind) || starts(b":method", behind) || starts(b":-", behind))
}

fn starts(word: &[u8], bytes: &[u8]) -> bool
    ensures { result ≡ starts word.now bytes.now }
{
    word.len() <= bytes.len() && &bytes[..word.len()] == word
}

impl Open {
    /// The rule that begins at an offset, if it does so inside another one.
    fn nested_at(self, offset: usize, begins: bool) -> Option<Nested>
        ensures nested { result ≡ nested_at self offset begins }
        ensures offset { IfSome result (λ n. n.inner ≡ offset) }
    {
        if self.in_comment || !begins {
            return None;
        }
        match self.rule {
            None => None,
            Some(rule) => Some(Nested {
                inner: offset,
                outer: rule.offset,
            }),
        }
    }

    /// What is open behind a byte at an offset, at which a rule may begin.
    fn behind(self, offset: usize, byte: u8, begins: bool) -> Open
        requires depth { self.depth ≤ offset }
        requires small { offset < LARGEST_TEXT }
        ensures open { result ≡ behind_byte self offset byte begins }
        ensures depth { result.depth ≤ offset + 1 }
    {
        if self.in_comment {
            return Open {
                in_comment: byte != b'\n',
                ..self
            };
        }
        match byte {
            b';' => Open {
                in_comment: true,
                ..self
            },
            b'(' => self.opened(offset, begins),
            b')' => self.closed(),
            _ => self,
        }
    }

    fn opened(self, offset: usize, begins: bool) -> Open
        requires { self.depth < LARGEST_TEXT }
        ensures { result ≡ opened self offset begins }
    {
        let rule = match self.rule {
            Some(rule) => Some(rule),
            None if begins => Some(Begun {
                offset,
                depth: self.depth,
            }),
            None => None,
        };
        Open {
            depth: self.depth + 1,
            rule,
            in_comment: false,
        }
    }

    fn closed(self) -> Open
        ensures { result ≡ closed self }
    {
        let depth = self.depth.saturating_sub(1);
        let rule = match self.rule {
            Some(rule) if depth > rule.depth => Some(rule),
            _ => None,
        };
        Open {
            depth,
            rule,
            in_comment: false,
        }
    }
}
