//! The limits of the language and of a run, each in one place.

/// The most bytes that a text may have.
pub const LARGEST_TEXT: usize = 4_194_304;

/// The most bytes that a token may have.
pub const LONGEST_TOKEN: usize = 256;

/// How many brackets may be open at once.
pub const DEEPEST_NESTING: usize = 64;

/// The most variables that a rule may have.
pub const MOST_VARIABLES: usize = 256;

/// How deep logical expressions may nest: the whole expression of a rule's part is at level 1.
pub const DEEPEST_EXPRESSION: usize = 24;

/// How deep the terms of a run may nest: a list is one deeper than its deepest part.
pub const DEEPEST_TERM: usize = 64;

/// The most plans that may be asked for.
pub const MOST_PLANS: u64 = 1_000_000_000;

/// The greatest depth of plans that may be asked for, and to which a tree may be walked in place.
pub const GREATEST_DEPTH: u32 = 20_000;

/// The same by the engine of copies.
pub const GREATEST_PLAIN_DEPTH: u32 = 1_000;

/// The depth to which a problem that is made is walked.
pub const MADE_DEPTH: u32 = 1_000;

/// How deep axioms may call one another, as it may be asked at most.
pub const MOST_LEVELS: u32 = 128;

/// The same where nothing is asked.
pub const USUAL_LEVELS: u32 = 64;
