//! The phrases of which the texts are made.

pub const DERIVED: &[u8] = b"derived at path ";

pub const AT_NO_DEPTH: &[u8] = b"the plan isn't derived at any depth: ";

pub const NOT_WITHIN: &[u8] = b"the plan isn't derived within depth ";

pub const OF_ITS: &[u8] = b" of its ";

pub const ARE_DONE: &[u8] = b" steps are done at path ";

pub const LEFT: &[u8] = b", but tasks are left there:";

pub const NOT_NEXT: &[u8] = b"this step can't be done next";

pub const NEXT: &[u8] = b"may be done next there:";

pub const NO_TASK: &[u8] = b"no task is left there\n";

pub const TO_DO: &[u8] = b"to do ";

pub const NO_RULE: &[u8] = b"no operator and no method has this name\n";

pub const GOES_ON: &[u8] =
    b"the precondition is satisfied here, but the plan goes on in another way";

pub const TOO_WIDE: &[u8] = b"its path is too wide to be followed\n";
