//! The options of commands.

ghost use Rattle.std.specs.Prelude.{◌≡◌, ◌≢◌, ◌<◌, ◌≤◌, IfSome, MatchOption, None, false, length, map, string_bytes, [], ◌∷◌, option_map};
ghost use Rattle.hp_words.specs.Command.{Nest, Pair, after_options, best_levels, flag_of, given_by, given_with, levels_of, numbered_option, options_given, options_spelled, pair_of, plan_options, shallow_options, verify_options};
ghost use Rattle.hp_words.specs.Numbers.{number_within};
ghost use Rattle.hp_words.specs.Words.{IsOption, IsGiven, given_of, option_of, options_of};

use crate::numbers::number_within;
use crate::words::MOST_PAIRS;
use hp_syntax::limits::{MOST_LEVELS, USUAL_LEVELS};

/// An option of a command.
#[derive(Clone, Copy)]
enum CommandOption {
    /// How deep axioms may call one another.
    Nest(u32),
    /// Which pair of a problem, by its number from one.
    Pair(u64),
    /// Each plan is told with its state.
    States,
    /// Each plan is told with its path.
    Paths,
    /// The engine of copies looks for plans.
    Plain,
}

/// What was given by options.
#[derive(Clone, Copy)]
struct Given {
    levels: Option<u32>,
    states: bool,
    paths: bool,
    plain: bool,
    pair: Option<u64>,
}

/// How deep axioms may call one another, whether each plan is told with its state and with its path, and by which
/// engine.
#[derive(Clone, Copy)]
pub struct Options {
    pub levels: u32,
    pub states: bool,
    pub paths: bool,
    /// Whether the engine of copies is asked for.
    pub plain: bool,
}

/// The option of one word, where it is one.
fn flag_of(word: &str) -> Option<CommandOption>
    ensures { option_map option_of result ≡ flag_of word.now }
{
    match word {
        "--states" => Some(CommandOption::States),
        "--paths" => Some(CommandOption::Paths),
        "--plain" => Some(CommandOption::Plain),
        _ => None,
    }
}

/// The option of a number behind `--nest`.
fn levels_option(number: &[u8]) -> Option<CommandOption>
    ensures spelled { option_map option_of result ≡ option_map Nest (number_within 0 MOST_LEVELS number.now) }
    ensures within { IfSome result IsOption }
{
    let levels = number_within(number, 0, u64::from(MOST_LEVELS))?;
    Some(CommandOption::Nest(levels as u32))
}

/// The option of a number behind `--pair`.
fn pair_option(number: &[u8]) -> Option<CommandOption>
    ensures spelled { option_map option_of result ≡ option_map Pair (number_within 1 MOST_PAIRS number.now) }
    ensures within { IfSome result IsOption }
{
    let pair = number_within(number, 1, MOST_PAIRS)?;
    Some(CommandOption::Pair(pair))
}

/// The option of a word with a number behind it, where it is one.
fn numbered_option(word: &str, number: &[u8]) -> Option<CommandOption>
    ensures spelled { option_map option_of result ≡ numbered_option word.now number.now }
    ensures within { IfSome result IsOption }
{
    match word {
        "--nest" => levels_option(number),
        "--pair" => pair_option(number),
        _ => None,
    }
}

/// The option that words begin with, and the words behind it.
fn first_option(words: &[String]) -> Option<(CommandOption, &[String])>
    requires { words.now ≢ [] }
    ensures spelled { MatchOption result (options_spelled (map string_bytes words.now) ≡ None)
        (λ x. options_spelled (map string_bytes words.now)
        ≡ option_map (λ os. option_of x.0 ∷ os) (options_spelled (map string_bytes x.1.now))) }
    ensures within { IfSome result (λ x. IsOption x.0) }
    ensures shorter { IfSome result (λ x. length x.1.now < length words.now) }
{
    let (word, behind) = words.split_first()?;
    if let Some(flag) = flag_of(word.as_str()) {
        return Some((flag, behind));
    }
    let (number, others) = behind.split_first()?;
    let option = numbered_option(word.as_str(), number.as_bytes())?;
    Some((option, others))
}

/// What was given and one more option, where it wasn't given yet.
fn given_with(given: Given, option: CommandOption) -> Option<Given>
    requires given { IsGiven given }
    requires option { IsOption option }
    ensures given { option_map given_of result ≡ given_with (given_of given) (option_of option) }
    ensures within { IfSome result IsGiven }
{
    match option {
        CommandOption::Nest(levels) if given.levels.is_none() => Some(Given {
            levels: Some(levels),
            ..given
        }),
        CommandOption::Pair(number) if given.pair.is_none() => Some(Given {
            pair: Some(number),
            ..given
        }),
        CommandOption::States if !given.states => Some(Given {
            states: true,
            ..given
        }),
        CommandOption::Paths if !given.paths => Some(Given {
            paths: true,
            ..given
        }),
        CommandOption::Plain if !given.plain => Some(Given {
            plain: true,
            ..given
        }),
        _ => None,
    }
}

/// What words give by the options that they spell, in any order, each at most once.
fn given_by(words: &[String]) -> Option<Given>
    ensures spelled { option_map given_of result ≡ given_by (map string_bytes words.now) }
    ensures within { IfSome result IsGiven }
{
    let mut given = Given {
        levels: None,
        states: false,
        paths: false,
        plain: false,
        pair: None,
    };
    let mut rest = words;
    while !rest.is_empty() {
        let (option, behind) = first_option(rest)?;
        given = given_with(given, option)?;
        rest = behind;
    }
    Some(given)
}

/// How deep axioms may call one another, by what was given.
fn levels_of(given: Given) -> u32
    requires { IsGiven given }
    ensures levels { result ≡ levels_of (given_of given) }
    ensures most { result ≤ MOST_LEVELS }
{
    given.levels.unwrap_or(USUAL_LEVELS)
}

/// The options that were given, but for the pair.
fn options_given(given: Given) -> Options
    requires { IsGiven given }
    ensures options { options_of result ≡ options_given (given_of given) }
    ensures levels { result.levels ≤ MOST_LEVELS }
{
    Options {
        levels: levels_of(given),
        states: given.states,
        paths: given.paths,
        plain: given.plain,
    }
}

/// The options of `plan` that words spell. It has none for a pair.
pub fn plan_options(words: &[String]) -> Option<Options>
    ensures spelled { option_map options_of result ≡ plan_options (map string_bytes words.now) }
    ensures levels { IfSome result (λ o. o.levels ≤ MOST_LEVELS) }
{
    let given = given_by(words)?;
    if given.pair.is_some() {
        return None;
    }
    Some(options_given(given))
}

/// The pair of a problem, by what was given.
fn pair_of(given: Given) -> u64
    requires { IsGiven given }
    ensures pair { result ≡ pair_of (given_of given) }
    ensures some { 1 ≤ result }
{
    given.pair.unwrap_or(1)
}

/// The options of `after` that words spell, and the number of the pair. It has none for the engine of copies.
pub fn after_options(words: &[String]) -> Option<(Options, u64)>
    ensures spelled { option_map (λ x. (options_of x.0, x.1)) result ≡ after_options (map string_bytes words.now) }
    ensures levels { IfSome result (λ x. x.0.levels ≤ MOST_LEVELS) }
    ensures quick { IfSome result (λ x. x.0.plain ≡ false) }
    ensures pair { IfSome result (λ x. 1 ≤ x.1) }
{
    let given = given_by(words)?;
    if given.plain {
        return None;
    }
    Some((options_given(given), pair_of(given)))
}

/// How deep axioms may call one another, by the options of `best` that words spell.
pub fn best_levels(words: &[String]) -> Option<u32>
    ensures spelled { result ≡ best_levels (map string_bytes words.now) }
    ensures levels { IfSome result (λ levels. levels ≤ MOST_LEVELS) }
{
    let given = given_by(words)?;
    if given.states || given.paths || given.plain || given.pair.is_some() {
        return None;
    }
    Some(levels_of(given))
}

/// How deep axioms may call one another, and the number of the pair, by the options of `verify` that words spell.
pub fn verify_options(words: &[String]) -> Option<(u32, u64)>
    ensures spelled { result ≡ verify_options (map string_bytes words.now) }
    ensures levels { IfSome result (λ x. x.0 ≤ MOST_LEVELS) }
    ensures pair { IfSome result (λ x. 1 ≤ x.1) }
{
    let given = given_by(words)?;
    if given.states || given.paths || given.plain {
        return None;
    }
    Some((levels_of(given), pair_of(given)))
}

/// How deep axioms may call one another, and whether states are told, by the options of `shallow` that words spell.
pub fn shallow_options(words: &[String]) -> Option<(u32, bool)>
    ensures spelled { result ≡ shallow_options (map string_bytes words.now) }
    ensures levels { IfSome result (λ x. x.0 ≤ MOST_LEVELS) }
{
    let given = given_by(words)?;
    if given.paths || given.plain || given.pair.is_some() {
        return None;
    }
    Some((levels_of(given), given.states))
}
