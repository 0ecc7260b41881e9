//! The phrases of which the texts are made.

/// What is said of the first part of a precondition that nothing satisfies, and of a later one.
pub const FIRST_UNMET: &[u8] = b"nothing satisfies this part of the precondition";

pub const LATER_UNMET: &[u8] = b"nothing satisfies this part together with those before it";

pub const NO_MATCH: &[u8] = b"this head doesn't match the task";

pub const PROTECTED: &[u8] =
    b"the precondition is satisfied, but a protected atom would be deleted";

pub const PROTECTED_HERE: &[u8] = b"protected here:";

pub const OTHER_VALUE: &[u8] = b"this head doesn't match the task, which has another value here";

pub const OTHER_COUNT: &[u8] =
    b"this head doesn't match the task, which has another number of arguments";

pub const OTHER_BOUND: &[u8] =
    b"this head doesn't match the task, since this variable has another value already";

pub const OTHER_PART: &[u8] = b"this head doesn't match the task, which has something else here";

pub const FILLED: &[u8] = b"filled in here: ";

pub const UNKNOWN: &[u8] = b"the levels of axioms, or a fault, hide which part nothing satisfies";

pub const NOTHING_DOES: &[u8] = b"nothing does ";

pub const NO_RULE: &[u8] = b"no operator and no method has this name\n";

pub const NO_FACT: &[u8] = b"no fact has this name here\n";

pub const FACTS: &[u8] = b"facts with this name here:";

pub const NOT_CONCLUDED: &[u8] = b"the head of this axiom doesn't fit";

pub const AXIOM_UNMET: &[u8] = b"nothing satisfies this part of an axiom with this name";

pub const OTHER_CONCLUDED: &[u8] =
    b"this branch of an axiom with this name is taken, and concludes none that fits";

pub const AGAINST: &[u8] = b"it is false for";

pub const CONCLUDES: &[u8] = b"this axiom concludes atoms of this name";

pub const LEFT: &[u8] = b"left to do there:";

pub const NO_STEP: &[u8] = b"no step was done before\n";

pub const LAST_STEPS: &[u8] = b"the last steps before:";

pub const TOO_WIDE: &[u8] = b"its path is too wide to be followed\n";

pub const DEAD_END: &[u8] = b"dead end at path ";

pub const DECOMPOSITIONS: &[u8] = b", decompositions ";

pub const RECUR: &[u8] = b"done several times on the way there:";

/// How a search ended, before the numbers that belong to it.
pub const PLAN: &[u8] = b"there is a plan: gudsjilp plan ";

pub const NO_PLAN: &[u8] = b"there is no plan at any depth";

pub const NO_PLAN_WITHIN: &[u8] = b"there is no plan within depth ";

pub const FAULT_WITHIN: &[u8] = b"a fault ended the search within depth ";

/// What was at fault: the task, the rule, and the variables of the pattern.
pub const TASK_AT_FAULT: &[u8] = b"met while doing ";

pub const RULE_AT_FAULT: &[u8] = b"by this rule or branch, whose precondition is here";

pub const NO_VALUE: &[u8] = b" has no value\n";

pub const FROM: &[u8] = b", from ";

pub const FROM_TASK: &[u8] = b", from the task";

/// What cut the tree, before its path and after it.
pub const DEPTH_CUT: &[u8] = b" cut the tree first at path ";

pub const DEEPER: &[u8] = b": a greater depth may have a plan\n";

pub const LEVEL_CUT: &[u8] = b" levels of axioms cut the tree first at path ";

pub const MORE_LEVELS: &[u8] = b": a greater --nest may have a plan\n";
