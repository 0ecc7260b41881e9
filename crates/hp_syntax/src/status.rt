ghost use Rattle.std.specs.Prelude.{◌≡◌};
ghost use Rattle.hp_syntax.specs.Codes.{code_of};

/// How a run ended.
#[derive(Clone, Copy, Debug, PartialEq, Eq)]
pub enum Status {
    /// What was asked for was written; of plans, at least one for each pair.
    Done = 0,
    /// Memory ran out. What was written is a part of the text.
    NoMemory = 1,
    /// The words are no command.
    Usage = 2,
    /// A file couldn't be read, or isn't there.
    ReadFault = 3,
    /// The domain's text is no domain of the language.
    DomainRefused = 4,
    /// The problem's text is no problem of the language, or one of another domain.
    ProblemRefused = 5,
    /// A value that was wanted couldn't be had: a fault was met in some pair, before its last plan.
    RunFault = 6,
    /// What was to be written couldn't be written whole.
    WriteFault = 7,
    /// The plan file's text is no plan of the language.
    PlanRefused = 8,
    /// There is no plan at the path.
    NoSuchPath = 9,
    /// For some pair there is no plan, at any depth, and no pair was cut short without one.
    NoPlan = 10,
    /// For some pair there is no plan down to the depth that was asked.
    CutShort = 11,
}

impl Status {
    /// The number by which a program ends.
    pub fn code(self) -> u8
        ensures { result ≡ code_of self }
    {
        self as u8
    }
}
