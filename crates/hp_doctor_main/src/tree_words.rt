//! The words of `tree`.

use clap::{Arg, ArgAction, ArgMatches, Command, value_parser};
use hp_doctor::Names;
use hp_syntax::limits::{GREATEST_DEPTH, MOST_LEVELS, USUAL_LEVELS};
use std::alloc::{AllocError, Global};

/// Which plan the words of `tree` ask for.
#[derive(Clone, Copy)]
pub enum PlanWords<'a> {
    /// The one at a path, by its word.
    Path(&'a str),
    /// The one of a number, from 1 on.
    Number(u64),
}

/// What the words of `tree` ask for.
#[derive(Clone, Copy)]
pub struct TreeWords<'a> {
    pub names: Names<'a>,
    pub depth: u32,
    /// How deep axioms may call one another.
    pub nest: u32,
    /// The number of the pair, from 1 on.
    pub pair: u64,
    /// Which of its plans.
    pub plan: PlanWords<'a>,
    /// A graph is wanted in place of lines.
    pub dot: bool,
    /// What each step changes is wanted behind its line.
    pub changes: bool,
}

pub fn tree_command<'a>(alloc: Global) -> Result<Command<'a>, AllocError> {
    let domain = Arg::new(alloc, "DOMAIN")
        .required(true)
        .help("The file of the domain");
    let problem = Arg::new(alloc, "PROBLEM")
        .required(true)
        .help("The file of the problem");
    let depth = Arg::new(alloc, "DEPTH")
        .required(true)
        .value_parser(value_parser!(u32).range(0..=i64::from(GREATEST_DEPTH)))
        .help("How many decompositions a plan may have at most");
    let path = Arg::new(alloc, "PATH").help(
        "The plan's path, as `gudsjilp plan --paths` tells it; without it the first plan is taken",
    );
    Command::new(alloc, "tree")
        .about("Tells how a plan came about: each task below the one that it came from")
        .arg(domain)?
        .arg(problem)?
        .arg(depth)?
        .arg(path)?
        .arg(plan_option(alloc)?)?
        .arg(nest_option(alloc))?
        .arg(pair_option(alloc))?
        .arg(dot_option(alloc))?
        .arg(changes_option(alloc)?)
}

fn plan_option<'a>(alloc: Global) -> Result<Arg<'a>, AllocError> {
    Arg::new(alloc, "plan")
        .long("plan")
        .value_name("I")
        .value_parser(value_parser!(u64).range(1..))
        .help("The plan that `gudsjilp plan` writes as the I-th, in place of PATH")
        .conflicts_with("PATH")
}

pub fn nest_option<'a>(alloc: Global) -> Arg<'a> {
    Arg::new(alloc, "nest")
        .long("nest")
        .value_name("N")
        .value_parser(value_parser!(u32).range(0..=i64::from(MOST_LEVELS)))
        .help("How deep axioms may call one another, 64 where it isn't given")
}

pub fn pair_option<'a>(alloc: Global) -> Arg<'a> {
    Arg::new(alloc, "pair")
        .long("pair")
        .value_name("I")
        .value_parser(value_parser!(u64).range(1..))
        .help("The pair of a problem set, 1 where it isn't given")
}

fn dot_option<'a>(alloc: Global) -> Arg<'a> {
    Arg::new(alloc, "dot")
        .long("dot")
        .action(ArgAction::SetTrue)
        .help("Writes a graph for Graphviz")
}

fn changes_option<'a>(alloc: Global) -> Result<Arg<'a>, AllocError> {
    Arg::new(alloc, "changes")
        .long("changes")
        .action(ArgAction::SetTrue)
        .help("Tells what each step takes from the state, adds, protects and frees")
        .conflicts_with("dot")
}

/// What the words of `tree` ask for, behind the names of the files.
pub fn asked_tree<'a>(words: &ArgMatches<'a>, names: Names<'a>) -> Option<TreeWords<'a>> {
    let depth = words.get_one::<u32>("DEPTH")?;
    let number = words.get_one::<u64>("plan").unwrap_or(1);
    let plan = match words.get_str("PATH") {
        Some(path) => PlanWords::Path(path),
        None => PlanWords::Number(number),
    };
    let nest = words.get_one::<u32>("nest").unwrap_or(USUAL_LEVELS);
    let pair = words.get_one::<u64>("pair").unwrap_or(1);
    Some(TreeWords {
        names,
        depth,
        nest,
        pair,
        plan,
        dot: words.get_flag("dot"),
        changes: words.get_flag("changes"),
    })
}
