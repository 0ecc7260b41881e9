//! The words of `trace`.

use crate::tree_words::{nest_option, pair_option};
use clap::{Arg, ArgMatches, Command, value_parser};
use hp_doctor::Names;
use hp_syntax::limits::{GREATEST_DEPTH, USUAL_LEVELS};
use std::alloc::{AllocError, Global};

/// How many visits are told where the words have no number.
const USUAL_VISITS: u32 = 1000;

/// What the words of `trace` ask for.
#[derive(Clone, Copy)]
pub struct TraceWords<'a> {
    pub names: Names<'a>,
    pub depth: u32,
    /// How deep axioms may call one another.
    pub nest: u32,
    /// The number of the pair, from 1 on.
    pub pair: u64,
    /// The word of the path from which on visits are shown, where there is one.
    pub from: Option<&'a str>,
    /// How many visits are shown at most.
    pub most: usize,
}

pub fn trace_command<'a>(alloc: Global) -> Result<Command<'a>, AllocError> {
    let domain = Arg::new(alloc, "DOMAIN")
        .required(true)
        .help("The file of the domain");
    let problem = Arg::new(alloc, "PROBLEM")
        .required(true)
        .help("The file of the problem");
    let depth = Arg::new(alloc, "DEPTH")
        .required(true)
        .value_parser(value_parser!(u32).range(0..=i64::from(GREATEST_DEPTH)))
        .help("How many decompositions a plan may have at most");
    let from = Arg::new(alloc, "from").long("from").value_name("PATH").help(
        "Shows only the decomposition at this path and what lies below it",
    );
    let visits = Arg::new(alloc, "visits")
        .long("visits")
        .value_name("V")
        .value_parser(value_parser!(u32).range(1..))
        .help("How many visits are shown at most, 1000 where it isn't given");
    Command::new(alloc, "trace")
        .about("Tells the planner's search, visit by visit")
        .arg(domain)?
        .arg(problem)?
        .arg(depth)?
        .arg(nest_option(alloc))?
        .arg(pair_option(alloc))?
        .arg(from)?
        .arg(visits)
}

/// What the words of `trace` ask for, after the names of the files.
pub fn asked_trace<'a>(words: &ArgMatches<'a>, names: Names<'a>) -> Option<TraceWords<'a>> {
    let depth = words.get_one::<u32>("DEPTH")?;
    let nest = words.get_one::<u32>("nest").unwrap_or(USUAL_LEVELS);
    let pair = words.get_one::<u64>("pair").unwrap_or(1);
    let most = words.get_one::<u32>("visits").unwrap_or(USUAL_VISITS) as usize;
    Some(TraceWords {
        names,
        depth,
        nest,
        pair,
        from: words.get_str("from"),
        most,
    })
}
