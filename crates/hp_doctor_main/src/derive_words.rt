//! The words of `derive`.

use clap::{Arg, ArgMatches, Command, value_parser};
use hp_doctor::Names;
use hp_doctor_derive::Asked;
use hp_syntax::limits::{GREATEST_DEPTH, MOST_LEVELS, USUAL_LEVELS};
use std::alloc::{AllocError, Global};

/// What the words of `derive` ask for.
#[derive(Clone, Copy)]
pub struct DeriveWords<'a> {
    pub names: Names<'a>,
    pub asked: Asked,
}

fn file_word<'a>(alloc: Global, name: &'a str, help: &'a str) -> Arg<'a> {
    Arg::new(alloc, name).required(true).help(help)
}

pub fn derive_command<'a>(alloc: Global) -> Result<Command<'a>, AllocError> {
    let depth = Arg::new(alloc, "DEPTH")
        .required(true)
        .value_parser(value_parser!(u32).range(0..=i64::from(GREATEST_DEPTH)))
        .help("How many decompositions a plan may have at most");
    let nest = Arg::new(alloc, "nest")
        .long("nest")
        .value_name("N")
        .value_parser(value_parser!(u32).range(0..=i64::from(MOST_LEVELS)))
        .help("How deep axioms may call one another, 64 where it isn't given");
    let pair = Arg::new(alloc, "pair")
        .long("pair")
        .value_name("I")
        .value_parser(value_parser!(u64).range(1..))
        .help("The pair of a problem set, 1 where it isn't given");
    Command::new(alloc, "derive")
        .about("Says how far a plan can be derived, and what may be done next there")
        .arg(file_word(alloc, "DOMAIN", "The file of the domain"))?
        .arg(file_word(alloc, "PROBLEM", "The file of the problem"))?
        .arg(file_word(alloc, "PLAN", "The file of the plan"))?
        .arg(depth)?
        .arg(nest)?
        .arg(pair)
}

/// What the words of `derive` ask for, behind the names of the domain and the problem.
pub fn asked_derive<'a>(words: &ArgMatches<'a>, names: Names<'a>) -> Option<DeriveWords<'a>> {
    let plan = words.get_str("PLAN")?;
    let depth = words.get_one::<u32>("DEPTH")?;
    let nest = words.get_one::<u32>("nest").unwrap_or(USUAL_LEVELS);
    let pair = words.get_one::<u64>("pair").unwrap_or(1);
    Some(DeriveWords {
        names: Names {
            domain: names.domain,
            problem: names.problem,
            plan: Some(plan),
        },
        asked: Asked { depth, nest, pair },
    })
}
