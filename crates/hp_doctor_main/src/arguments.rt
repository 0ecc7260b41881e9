//! The command line.

use crate::derive_words::{DeriveWords, asked_derive, derive_command};
use crate::trace_words::{TraceWords, asked_trace, trace_command};
use crate::tree_words::{TreeWords, asked_tree, tree_command};
use clap::{Arg, ArgMatches, Command, value_parser};
use hp_doctor::Names;
use hp_doctor_why::Limits;
use hp_syntax::limits::{GREATEST_DEPTH, MOST_LEVELS, USUAL_LEVELS};
use std::alloc::{AllocError, Global};

/// What the words ask for.
#[derive(Clone, Copy)]
pub enum Asked<'a> {
    /// What the planner wrote is to be explained, by these files.
    Where(Names<'a>),
    /// What looks wrong in these files is to be told.
    Lint(Names<'a>),
    /// How a plan of these files came about is to be told.
    Tree(TreeWords<'a>),
    /// The search for the plans of these files is to be told.
    Trace(TraceWords<'a>),
    /// Why there is no plan of these files is to be told.
    Why { names: Names<'a>, limits: Limits },
    /// How far a plan of these files can be derived is to be told.
    Derive(DeriveWords<'a>),
}

/// The command line: a subcommand for each thing that the doctor does.
pub fn command<'a>(alloc: Global) -> Result<Command<'a>, AllocError> {
    Command::new(alloc, "gudsjilp-doctor")
        .version("1.0")
        .about("Helps to write domains and problems for gudsjilp")
        .subcommand_required(true)
        .arg_required_else_help(true)
        .subcommand(where_command(alloc)?)?
        .subcommand(lint_command(alloc)?)?
        .subcommand(tree_command(alloc)?)?
        .subcommand(trace_command(alloc)?)?
        .subcommand(why_command(alloc)?)?
        .subcommand(derive_command(alloc)?)
}

fn lint_command<'a>(alloc: Global) -> Result<Command<'a>, AllocError> {
    let domain = Arg::new(alloc, "DOMAIN")
        .required(true)
        .help("The file of the domain");
    let problem = Arg::new(alloc, "PROBLEM")
        .required(true)
        .help("The file of the problem");
    Command::new(alloc, "lint")
        .about("Says what looks wrong in a domain and a problem, though gudsjilp accepts them")
        .arg(domain)?
        .arg(problem)
}

fn where_command<'a>(alloc: Global) -> Result<Command<'a>, AllocError> {
    let domain = Arg::new(alloc, "DOMAIN")
        .required(true)
        .help("The file of the domain");
    let problem = Arg::new(alloc, "PROBLEM")
        .required(true)
        .help("The file of the problem");
    let plan = Arg::new(alloc, "PLAN").help("The file of the plan, where one was verified");
    Command::new(alloc, "where")
        .about(
            "Passes on what gudsjilp wrote, from standard input, and explains its refusals, notes and faults",
        )
        .arg(domain)?
        .arg(problem)?
        .arg(plan)
}

fn why_command<'a>(alloc: Global) -> Result<Command<'a>, AllocError> {
    let domain = Arg::new(alloc, "DOMAIN")
        .required(true)
        .help("The file of the domain");
    let problem = Arg::new(alloc, "PROBLEM")
        .required(true)
        .help("The file of the problem");
    let depth = Arg::new(alloc, "DEPTH")
        .required(true)
        .value_parser(value_parser!(u32).range(0..=i64::from(GREATEST_DEPTH)))
        .help("How many decompositions a plan may have at most");
    let nest = Arg::new(alloc, "nest")
        .long("nest")
        .value_name("N")
        .value_parser(value_parser!(u32).range(0..=i64::from(MOST_LEVELS)))
        .help("How deep axioms may call one another, 64 where it isn't given");
    let ends = Arg::new(alloc, "ends")
        .long("ends")
        .value_name("M")
        .value_parser(value_parser!(u32).range(1..))
        .help("How many of the furthest dead ends are shown at most, 1 where it isn't given");
    Command::new(alloc, "why")
        .about(
            "Says why a problem has no plan: how far the search came, and what keeps the tasks there from being done",
        )
        .arg(domain)?
        .arg(problem)?
        .arg(depth)?
        .arg(nest)?
        .arg(ends)
}

/// What the words ask for, where they ask why there is no plan.
fn why_asked<'a>(words: &ArgMatches<'a>, names: Names<'a>) -> Option<Asked<'a>> {
    let depth = words.get_one::<u32>("DEPTH")?;
    let nest = words.get_one::<u32>("nest").unwrap_or(USUAL_LEVELS);
    let ends = words.get_one::<u32>("ends").unwrap_or(1) as usize;
    let limits = Limits { depth, nest, ends };
    Some(Asked::Why { names, limits })
}

/// What the words ask for.
pub fn request<'a>(matches: &ArgMatches<'a>) -> Option<Asked<'a>> {
    let (name, words) = matches.subcommand()?;
    let domain = words.get_str("DOMAIN")?;
    let problem = words.get_str("PROBLEM")?;
    if name == "lint" {
        return Some(Asked::Lint(Names {
            domain,
            problem,
            plan: None,
        }));
    }
    if name == "tree" {
        let names = Names {
            domain,
            problem,
            plan: None,
        };
        return Some(Asked::Tree(asked_tree(words, names)?));
    }
    if name == "trace" {
        let names = Names {
            domain,
            problem,
            plan: None,
        };
        return Some(Asked::Trace(asked_trace(words, names)?));
    }
    if name == "why" {
        let names = Names {
            domain,
            problem,
            plan: None,
        };
        return why_asked(words, names);
    }
    if name == "derive" {
        let names = Names {
            domain,
            problem,
            plan: None,
        };
        return Some(Asked::Derive(asked_derive(words, names)?));
    }
    if name != "where" {
        return None;
    }
    let plan = words.get_str("PLAN");
    Some(Asked::Where(Names {
        domain,
        problem,
        plan,
    }))
}
