//! The requests of words.

ghost use Rattle.std.specs.Prelude.{◌≡◌, ◌≢◌, IfSome, length, map, string_bytes, true, [], ◌∷◌, option_map};
ghost use Rattle.hp_words.specs.Command.{accepts, after_options, asked_by_more, asked_by_three, best_levels, choosing, choosing_asked, continuing, continuing_asked, deepening, deepening_asked, greatest_depth, job_by_more, job_by_word, making, plan_options, planning, planning_asked, shallow_options, verification, verify_options, verifying_asked};
ghost use Rattle.hp_words.specs.Numbers.{number_within};
ghost use Rattle.hp_words.specs.PathWords.{is_path, path_of};
ghost use Rattle.hp_words.specs.Words.{IsPlanned, IsAsked, IsRequested, IsVerifiable, job_of, options_of, request_of, verification_of};

use crate::numbers::number_within;
use crate::options::{
    Options, after_options, best_levels, plan_options, shallow_options, verify_options,
};
use crate::paths::is_path;
use hp_syntax::limits::{GREATEST_DEPTH, GREATEST_PLAIN_DEPTH, MOST_PLANS};

/// The largest seed of which a problem can be made.
pub const LARGEST_SEED: u32 = 2_147_483_647;

/// The most packages that a problem can be made with.
pub const MOST_PACKAGES: u32 = 100;

/// The greatest number of a pair that may be asked for.
pub const MOST_PAIRS: u64 = 1_000_000_000;

/// A request for plans: how many, down to which depth, and how.
#[derive(Clone, Copy)]
pub struct Asked {
    pub plans: u64,
    pub depth: u32,
    pub options: Options,
}

/// The job of a command with its two files.
#[derive(Clone, Copy)]
pub enum Job<'a> {
    /// Plans, in the order in which they are found.
    Plan(Asked),
    /// The plans behind the one at the path that a word tells, of the pair with this number.
    After {
        asked: Asked,
        path: &'a str,
        pair: u64,
    },
    /// The cheapest plan down to a depth, where axioms may call one another over so many levels.
    Best {
        depth: u32,
        levels: u32,
    },
    /// The first plan of the least depth, up to a limit, that has one, where axioms may call one another over so many
    /// levels; told with its state or without.
    Shallow {
        limit: u32,
        levels: u32,
        states: bool,
    },
    /// The checks of both files.
    Check,
    /// What both files were read as.
    Show,
    /// A summary of the first plan of two files that were made from a seed with so many packages.
    Sum {
        seed: u32,
        packages: u32,
    },
}

/// A request to verify a plan: the names of its three files, how deep the tree of a pair is looked at, over how many
/// levels axioms may call one another, and the number of the pair, from 1 on.
#[derive(Clone, Copy)]
pub struct Verification<'a> {
    pub domain: &'a str,
    pub problem: &'a str,
    pub plan: &'a str,
    pub depth: u32,
    pub levels: u32,
    pub pair: u64,
}

/// The request of a command's words.
#[derive(Clone, Copy)]
pub enum Request<'a> {
    /// A job with two files, by their names.
    Files {
        domain: &'a str,
        problem: &'a str,
        job: Job<'a>,
    },
    /// The verification of a plan.
    Verify(Verification<'a>),
    /// The listing of the code of a domain, by its name.
    Code {
        domain: &'a str,
    },
    /// The problem of a seed with so many packages.
    Make {
        seed: u32,
        packages: u32,
    },
}

/// The greatest depth that may be asked for with these options.
fn greatest_depth(options: Options) -> u64
    ensures { result ≡ greatest_depth (options_of options) }
{
    if options.plain {
        u64::from(GREATEST_PLAIN_DEPTH)
    } else {
        u64::from(GREATEST_DEPTH)
    }
}

/// How many plans, which depth and which options words ask for.
fn planned(plans: &[u8], depth: &[u8], more: &[String]) -> Option<Asked>
    ensures spelled { option_map job_of (option_map Job.Plan result) ≡ planning (number_within 1 MOST_PLANS plans.now)
        depth.now (plan_options (map string_bytes more.now)) }
    ensures some { IfSome result IsPlanned }
{
    let plans = number_within(plans, 1, MOST_PLANS)?;
    let options = plan_options(more)?;
    let depth = number_within(depth, 0, greatest_depth(options))?;
    Some(Asked {
        plans,
        depth: depth as u32,
        options,
    })
}

/// How deep and with how many axiom levels words ask for the cheapest plan.
fn chosen<'a>(depth: &[u8], more: &[String]) -> Option<Job<'a>>
    ensures spelled { option_map job_of result
        ≡ choosing (number_within 0 GREATEST_DEPTH depth.now) (best_levels (map string_bytes more.now)) }
    ensures some { IfSome result IsAsked }
{
    let depth = number_within(depth, 0, u64::from(GREATEST_DEPTH))?;
    let levels = best_levels(more)?;
    Some(Job::Best {
        depth: depth as u32,
        levels,
    })
}

/// The job of `plan` with these words behind its files.
fn planning_asked<'a>(words: &[String]) -> Option<Job<'a>>
    ensures spelled { option_map job_of result ≡ planning_asked (map string_bytes words.now) }
    ensures some { IfSome result IsAsked }
{
    let [plans, depth, more @ ..] = words else {
        return None;
    };
    match planned(plans.as_bytes(), depth.as_bytes(), more) {
        Some(asked) => Some(Job::Plan(asked)),
        None => None,
    }
}

/// The job that words ask for behind the plan at a path: how many plans, which depth, which options and which pair.
fn continued<'a>(plans: &[u8], depth: &[u8], path: &'a str, more: &[String]) -> Option<Job<'a>>
    requires { is_path path.now ≡ true }
    ensures spelled { option_map job_of result
        ≡ continuing (number_within 1 MOST_PLANS plans.now) (number_within 0 GREATEST_DEPTH depth.now)
        (path_of path.now) (after_options (map string_bytes more.now)) }
    ensures some { IfSome result IsAsked }
{
    let plans = number_within(plans, 1, MOST_PLANS)?;
    let depth = number_within(depth, 0, u64::from(GREATEST_DEPTH))?;
    let (options, pair) = after_options(more)?;
    let asked = Asked {
        plans,
        depth: depth as u32,
        options,
    };
    Some(Job::After { asked, path, pair })
}

/// The job of `after` with these words behind its files.
fn continuing_asked(words: &[String]) -> Option<Job<'_>>
    ensures spelled { option_map job_of result ≡ continuing_asked (map string_bytes words.now) }
    ensures some { IfSome result IsAsked }
{
    let [plans, depth, path, more @ ..] = words else {
        return None;
    };
    if !is_path(path.as_str()) {
        return None;
    }
    continued(plans.as_bytes(), depth.as_bytes(), path.as_str(), more)
}

/// The job of `best` with these words behind its files.
fn choosing_asked<'a>(words: &[String]) -> Option<Job<'a>>
    ensures spelled { option_map job_of result ≡ choosing_asked (map string_bytes words.now) }
    ensures some { IfSome result IsAsked }
{
    let (depth, more) = words.split_first()?;
    chosen(depth.as_bytes(), more)
}

/// Up to which depth and with how many axiom levels words ask for the shallowest plan, and whether with its state.
fn deepened<'a>(limit: &[u8], more: &[String]) -> Option<Job<'a>>
    ensures spelled { option_map job_of result
        ≡ deepening (number_within 0 GREATEST_DEPTH limit.now) (shallow_options (map string_bytes more.now)) }
    ensures some { IfSome result IsAsked }
{
    let limit = number_within(limit, 0, u64::from(GREATEST_DEPTH))?;
    let (levels, states) = shallow_options(more)?;
    Some(Job::Shallow {
        limit: limit as u32,
        levels,
        states,
    })
}

/// The job of `shallow` with these words behind its files.
fn deepening_asked<'a>(words: &[String]) -> Option<Job<'a>>
    ensures spelled { option_map job_of result ≡ deepening_asked (map string_bytes words.now) }
    ensures some { IfSome result IsAsked }
{
    let (limit, more) = words.split_first()?;
    deepened(limit.as_bytes(), more)
}

/// The job of a word that has two files and more words behind it.
fn job_by_more<'a>(word: &str, more: &'a [String]) -> Option<Job<'a>>
    ensures spelled { option_map job_of result ≡ job_by_more word.now (map string_bytes more.now) }
    ensures some { IfSome result IsAsked }
{
    match word {
        "plan" => planning_asked(more),
        "best" => choosing_asked(more),
        "after" => continuing_asked(more),
        "shallow" => deepening_asked(more),
        _ => None,
    }
}

/// The verification that words ask for behind the names of three files: how deep, with how many axiom levels and of
/// which pair.
fn verified<'a>(
    domain: &'a str,
    problem: &'a str,
    plan: &'a str,
    depth: &[u8],
    more: &[String],
) -> Option<Verification<'a>>
    ensures spelled { option_map verification_of result ≡ verification domain.now problem.now plan.now
        (number_within 0 GREATEST_DEPTH depth.now) (verify_options (map string_bytes more.now)) }
    ensures some { IfSome result IsVerifiable }
{
    let depth = number_within(depth, 0, u64::from(GREATEST_DEPTH))?;
    let (levels, pair) = verify_options(more)?;
    Some(Verification {
        domain,
        problem,
        plan,
        depth: depth as u32,
        levels,
        pair,
    })
}

/// The verification of two files with these words behind them: the plan's file comes before any option.
fn verifying_asked<'a>(
    domain: &'a str,
    problem: &'a str,
    words: &'a [String],
) -> Option<Verification<'a>>
    ensures spelled { option_map verification_of result
        ≡ verifying_asked domain.now problem.now (map string_bytes words.now) }
    ensures some { IfSome result IsVerifiable }
{
    let [plan, depth, more @ ..] = words else {
        return None;
    };
    verified(domain, problem, plan.as_str(), depth.as_bytes(), more)
}

/// The request of a word with two files behind it, and then these words.
fn asked_by_more<'a>(
    word: &str,
    domain: &'a str,
    problem: &'a str,
    more: &'a [String],
) -> Option<Request<'a>>
    ensures spelled { option_map request_of result
        ≡ asked_by_more word.now domain.now problem.now (map string_bytes more.now) }
    ensures some { IfSome result IsRequested }
{
    if word == "verify" {
        return match verifying_asked(domain, problem, more) {
            Some(verification) => Some(Request::Verify(verification)),
            None => None,
        };
    }
    match job_by_more(word, more) {
        Some(job) => Some(Request::Files {
            domain,
            problem,
            job,
        }),
        None => None,
    }
}

/// The request of a command of four words and more.
fn asked_by_many(words: &[String]) -> Option<Request<'_>>
    requires two { length words.now ≢ 2 }
    requires three { length words.now ≢ 3 }
    ensures asks { option_map request_of result ≡ accepts (map string_bytes words.now) }
    ensures some { IfSome result IsRequested }
{
    let [word, domain, problem, more @ ..] = words else {
        return None;
    };
    asked_by_more(word.as_str(), domain.as_str(), problem.as_str(), more)
}

/// The job of a word with two files behind it.
fn job_by_word<'a>(word: &str) -> Option<Job<'a>>
    ensures spelled { option_map job_of result ≡ job_by_word word.now }
    ensures some { IfSome result IsAsked }
{
    match word {
        "check" => Some(Job::Check),
        "show" => Some(Job::Show),
        _ => None,
    }
}

/// The request of a seed and a number of packages.
fn make_asked<'a>(seed: &[u8], packages: &[u8]) -> Option<Request<'a>>
    ensures spelled { option_map request_of result
        ≡ making (number_within 0 LARGEST_SEED seed.now) (number_within 1 MOST_PACKAGES packages.now) }
    ensures some { IfSome result IsRequested }
{
    let seed = number_within(seed, 0, u64::from(LARGEST_SEED))?;
    let packages = number_within(packages, 1, u64::from(MOST_PACKAGES))?;
    Some(Request::Make {
        seed: seed as u32,
        packages: packages as u32,
    })
}

/// The request of a word with two words behind it.
fn asked_by_three<'a>(word: &str, first: &'a str, second: &'a str) -> Option<Request<'a>>
    ensures spelled { option_map request_of result ≡ asked_by_three word.now first.now second.now }
    ensures some { IfSome result IsRequested }
{
    if word == "make" {
        return make_asked(first.as_bytes(), second.as_bytes());
    }
    match job_by_word(word) {
        Some(job) => Some(Request::Files {
            domain: first,
            problem: second,
            job,
        }),
        None => None,
    }
}

/// The request of a word with one word behind it.
fn asked_by_two<'a>(word: &str, name: &'a str) -> Option<Request<'a>>
    ensures spelled { option_map request_of result ≡ accepts (word.now ∷ name.now ∷ []) }
    ensures some { IfSome result IsRequested }
{
    if word == "code" {
        Some(Request::Code { domain: name })
    } else {
        None
    }
}

/// The request of words, where they are a command.
pub fn request_asked(words: &[String]) -> Option<Request<'_>>
    ensures asks { option_map request_of result ≡ accepts (map string_bytes words.now) }
    ensures some { IfSome result IsRequested }
{
    if let [word, name] = words {
        return asked_by_two(word.as_str(), name.as_str());
    }
    if let [word, first, second] = words {
        return asked_by_three(word.as_str(), first.as_str(), second.as_str());
    }
    asked_by_many(words)
}
