//! A folder of one's own.
ghost use Rattle.std.specs.Prelude.{◌≡◌, ◌≢◌, ℕ, List, true, false, Some, None, IfSome, IfNone};
ghost use Rattle.hp_io.specs.declared.folder.Input.{Input};
ghost use Rattle.hp_embedding.specs.Shelves.{texts, text_named, left_of, is_begun};

use hp_io::{BeginError, Failed, Folder, Input};

/// Two texts that are borrowed, by the names `domain` and `problem`. No call takes memory, and none fails but where
/// another name is asked for.
#[derive(Drop)]
pub struct Shelf<'a> {
    domain: &'a [u8],
    problem: &'a [u8],
    /// The bytes of each input that are left to read, once it was begun.
    domain_left: Option<&'a [u8]>,
    problem_left: Option<&'a [u8]>,
    plan_left: Option<&'a [u8]>,
}

impl<'a> Shelf<'a> {
    /// The texts of the names `domain` and `problem`, of which none is begun.
    pub fn new(domain: &'a str, problem: &'a str) -> Shelf<'a>
        ensures named { (n : List ℕ) → text_named result n ≡ texts domain.now problem.now n }
        ensures begun { (w : Input) → is_begun result w ≡ false }
    {
        Shelf {
            domain: domain.as_bytes(),
            problem: problem.as_bytes(),
            domain_left: None,
            problem_left: None,
            plan_left: None,
        }
    }

    /// The text of that name.
    fn text(&self, name: &str) -> Option<&'a [u8]>
        ensures named { IfSome result (λ text. text_named self.now name.now ≡ Some text.now) }
        ensures none { IfNone result (text_named self.now name.now ≡ None) }
    {
        match name {
            "domain" => Some(self.domain),
            "problem" => Some(self.problem),
            _ => None,
        }
    }

    /// The bytes of a begun input that are left to read.
    fn left(&self, which: Input) -> &'a [u8]
        requires { is_begun self.now which ≡ true }
        ensures { left_of self.now which ≡ Some result.now }
    {
        match which {
            Input::Domain => self.domain_left.unwrap(),
            Input::Problem => self.problem_left.unwrap(),
            Input::Plan => self.plan_left.unwrap(),
        }
    }

    fn leave(&mut self, which: Input, left: &'a [u8])
        ensures left { left_of self.new which ≡ Some left.now }
        ensures begun { is_begun self.new which ≡ true }
        ensures others { (w : Input) → w ≢ which
            → (left_of self.new w ≡ left_of self.old w) × (is_begun self.new w ≡ is_begun self.old w) }
        ensures files { (n : List ℕ) → text_named self.new n ≡ text_named self.old n }
    {
        match which {
            Input::Domain => self.domain_left = Some(left),
            Input::Problem => self.problem_left = Some(left),
            Input::Plan => self.plan_left = Some(left),
        }
    }
}

impl Folder for Shelf<'_> {
    ghost file = { λ s n. Some (text_named s n) };

    ghost rest = { left_of };

    ghost begun = { is_begun };

    ghost faults = { λ s w. 0 };

    fn begin(&mut self, which: Input, name: &str) -> Result<(), BeginError> {
        match self.text(name) {
            Some(text) => {
                self.leave(which, text);
                Ok(())
            }
            None => Err(BeginError::Failed),
        }
    }

    fn read(&mut self, which: Input, buf: &mut [u8]) -> Result<usize, Failed> {
        let left = self.left(which);
        let count = left.len().min(buf.len());
        buf[..count].copy_from_slice(&left[..count]);
        self.leave(which, &left[count..]);
        Ok(count)
    }
}
