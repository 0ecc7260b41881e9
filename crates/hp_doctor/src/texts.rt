//! The files that findings are about.

ghost use Rattle.std.specs.Prelude.{◌≡◌, option_map};
ghost use Rattle.hp_doctor.specs.Texts.{chosen, file_of, texts_of};

use crate::mending::Mended;
use hp_io::Input;
use hp_places::Lines;

/// A file: its name as it is told, the lines of its text, where it could be read, and what would be said of it if its
/// brackets were in pairs, where they aren't.
#[derive(Drop)]
pub struct Text<'a> {
    pub name: &'a [u8],
    pub lines: Option<Lines>,
    pub mended: Option<Mended>,
}

/// The files of a run, of which a plan's may not be named.
#[derive(Drop)]
pub struct Texts<'a> {
    pub domain: Text<'a>,
    pub problem: Text<'a>,
    pub plan: Option<Text<'a>>,
}

impl<'a> Texts<'a> {
    /// The file of an input.
    pub fn of(&self, which: Input) -> Option<&Text<'a>>
        ensures { option_map (λ t. file_of t.now) result ≡ chosen (texts_of self.now) which }
    {
        match which {
            Input::Domain => Some(&self.domain),
            Input::Problem => Some(&self.problem),
            Input::Plan => self.plan.as_ref(),
        }
    }
}
