//! A domain and a problem that are read, served: the checks first, and then the job.

ghost use Rattle.std.specs.Prelude.{◌≡◌, ◌≤◌, ◌-◌, ℕ, List, IfOk, MatchOption, None, false, true, map, slice_get};
ghost use Rattle.hp_code.specs.CodeViews.{IsCodeOf};
ghost use Rattle.hp_code.specs.Codes.{code_of};
ghost use Rattle.hp_out.specs.Writing.{Wrote, sink_run};
ghost use Rattle.hp_syntax.specs.GroundViews.{ground_of};
ghost use Rattle.hp_syntax.specs.Grammar.{problem_form};
ghost use Rattle.hp_syntax.specs.Numbered.{IsNumberedDomain};
ghost use Rattle.hp_syntax.specs.Views.{domain_of, pair_of, problem_of};
ghost use Rattle.hp_words.specs.Command.{Choosing, Continuing, Deepening, Summing, make_command};
ghost use Rattle.hp_top.specs.Loading.{HasText};
ghost use Rattle.hp_top.specs.Outcome.{answer_of_plan, answer_of_read, first_fault, job_answer, pair_answer, verify_answer};
ghost use Rattle.hp_top.specs.Telling.{Tells, status_told};
ghost use Rattle.hp_top.specs.Engines.{IsOnePair, IsWantedInPlace, told_pair, wanted_plans};
ghost use Rattle.hp_words.specs.PathWords.{path_of};
ghost use Rattle.hp_words.specs.Words.{IsAsked, IsContinued, IsPlanned, IsSearchable, IsVerifiable, job_of, options_of, verification_of};

use crate::checking::tell_accepted;
use crate::loading::{Loaded, LoadedPlan};
use crate::paging::tell_in_pages;
use crate::pairs::{Engine, Sought, Wanted};
use crate::refusing::refuse;
use crate::showing::show;
use crate::summing::sum_up;
use hp_best::priced;
use hp_check::{first_fault, unserved_tasks};
use hp_code::{Code, lower};
use hp_io::Sink;
use hp_laws::pair_laws::{accepted_domains_are_checked, accepted_pairs_are_ground};
use hp_out::Refusal;
use hp_syntax::{Ground, Pair, Status};
use hp_telling::{Detail, Halt};
use hp_words::{Asked, Job, Options, Verification, path};
use std::alloc::{AllocError, Global};

/// The status of a run whose text was told, or whose telling stopped.
fn status_told(told: Result<Status, Halt>) -> Status
    ensures { result ≡ status_told told }
{
    match told {
        Ok(status) => status,
        Err(Halt::NoMemory) => Status::NoMemory,
        Err(Halt::Failed) => Status::WriteFault,
    }
}

/// The code of the domain of an accepted pair of files.
fn code_in(alloc: Global, loaded: &Loaded) -> Result<Code, AllocError>
    requires numbered { IsNumberedDomain (domain_of loaded.now.domain) }
    requires checked { first_fault (domain_of loaded.now.domain) (problem_of loaded.now.problem) ≡ None }
    ensures { IfOk result (λ code. IsCodeOf (domain_of loaded.now.domain).rules (code_of code)) }
{
    // Nothing runs here: the law makes known that the checks find nothing in the domain.
    accepted_domains_are_checked();
    lower(alloc, &loaded.domain)
}

/// The detail in which plans are told that are asked for so.
fn detail_of(options: Options) -> Detail
    ensures { result ≡ Detail.Steps options.states options.paths }
{
    Detail::Steps {
        states: options.states,
        paths: options.paths,
    }
}

/// What a request for plans wants.
fn wanted_by<'a>(asked: Asked) -> Wanted<'a>
    ensures { result ≡ wanted_plans asked }
{
    let sought = Sought::Plans {
        plans: asked.plans,
        detail: detail_of(asked.options),
    };
    Wanted {
        sought,
        depth: asked.depth,
        levels: asked.options.levels,
    }
}

/// Looks for the plans of an accepted domain and problem by the engine of copies.
fn serve_plan_by_copies<K: Sink>(
    alloc: Global,
    loaded: &Loaded,
    asked: Asked,
    out: &mut K,
) -> Status
    requires asked { IsPlanned asked }
    requires plain { asked.options.plain ≡ true }
    requires text { HasText problem_form (problem_of loaded.now.problem) }
    requires checked { first_fault (domain_of loaded.now.domain) (problem_of loaded.now.problem) ≡ None }
    ensures tells { Tells (job_answer (job_of (Job.Plan asked)) (domain_of loaded.now.domain)
        (problem_of loaded.now.problem)) result
        (sink_run (K.faults out.old) (K.faults out.new) (K.bytes out.old) (K.bytes out.new)) }
    ensures later { K.faults out.old ≤ K.faults out.new }
{
    // Nothing runs here: the laws make known that what is accepted can be walked.
    accepted_domains_are_checked();
    accepted_pairs_are_ground();
    let engine = Engine::Copies(&loaded.domain);
    let pairs = loaded.problem.pairs.as_slice();
    tell_in_pages(alloc, engine, pairs, wanted_by(asked), out)
}

/// Looks for the plans of an accepted domain and problem in place.
fn serve_plan_in_place<K: Sink>(alloc: Global, loaded: &Loaded, asked: Asked, out: &mut K) -> Status
    requires asked { IsPlanned asked }
    requires in_place { asked.options.plain ≡ false }
    requires numbered { IsNumberedDomain (domain_of loaded.now.domain) }
    requires text { HasText problem_form (problem_of loaded.now.problem) }
    requires checked { first_fault (domain_of loaded.now.domain) (problem_of loaded.now.problem) ≡ None }
    ensures tells { Tells (job_answer (job_of (Job.Plan asked)) (domain_of loaded.now.domain)
        (problem_of loaded.now.problem)) result
        (sink_run (K.faults out.old) (K.faults out.new) (K.bytes out.old) (K.bytes out.new)) }
    ensures later { K.faults out.old ≤ K.faults out.new }
{
    // Nothing runs here: the law makes known that what is accepted can be walked.
    accepted_pairs_are_ground();
    let Ok(code) = code_in(alloc, loaded) else {
        return Status::NoMemory;
    };
    let engine = Engine::InPlace(&code);
    let pairs = loaded.problem.pairs.as_slice();
    tell_in_pages(alloc, engine, pairs, wanted_by(asked), out)
}

/// Looks for the plans of an accepted domain and problem, by the engine that is asked for.
fn serve_plan<K: Sink>(alloc: Global, loaded: &Loaded, asked: Asked, out: &mut K) -> Status
    requires asked { IsPlanned asked }
    requires numbered { IsNumberedDomain (domain_of loaded.now.domain) }
    requires text { HasText problem_form (problem_of loaded.now.problem) }
    requires checked { first_fault (domain_of loaded.now.domain) (problem_of loaded.now.problem) ≡ None }
    ensures tells { Tells (job_answer (job_of (Job.Plan asked)) (domain_of loaded.now.domain)
        (problem_of loaded.now.problem)) result
        (sink_run (K.faults out.old) (K.faults out.new) (K.bytes out.old) (K.bytes out.new)) }
    ensures later { K.faults out.old ≤ K.faults out.new }
{
    if asked.options.plain {
        serve_plan_by_copies(alloc, loaded, asked, out)
    } else {
        serve_plan_in_place(alloc, loaded, asked, out)
    }
}

/// Looks for the cheapest plan of each pair of an accepted domain and problem.
fn serve_best<K: Sink>(
    alloc: Global,
    loaded: &Loaded,
    depth: u32,
    levels: u32,
    out: &mut K,
) -> Status
    requires asked { IsSearchable depth levels }
    requires numbered { IsNumberedDomain (domain_of loaded.now.domain) }
    requires text { HasText problem_form (problem_of loaded.now.problem) }
    requires checked { first_fault (domain_of loaded.now.domain) (problem_of loaded.now.problem) ≡ None }
    ensures tells { Tells (job_answer (Choosing depth levels) (domain_of loaded.now.domain)
        (problem_of loaded.now.problem)) result
        (sink_run (K.faults out.old) (K.faults out.new) (K.bytes out.old) (K.bytes out.new)) }
    ensures later { K.faults out.old ≤ K.faults out.new }
{
    // Nothing runs here: the law makes known that what is accepted can be walked.
    accepted_pairs_are_ground();
    let Ok(code) = code_in(alloc, loaded) else {
        return Status::NoMemory;
    };
    let wanted = Wanted {
        sought: Sought::Cheapest {
            priced: priced(&loaded.domain),
        },
        depth,
        levels,
    };
    let engine = Engine::InPlace(&code);
    tell_in_pages(alloc, engine, loaded.problem.pairs.as_slice(), wanted, out)
}

/// The pair of this number, from 1 on, where there is one.
fn pair_at(pairs: &[Pair], number: u64) -> Option<&[Pair]>
    requires { 1 ≤ number }
    ensures { MatchOption result (slice_get (map pair_of pairs.now) (number - 1) ≡ None)
        (λ one. IsOnePair (slice_get (map pair_of pairs.now) (number - 1)) (map pair_of one.now)) }
{
    let count = pairs.len() as u64;
    if number > count {
        return None;
    }
    let at = number as usize - 1;
    Some(&pairs[at..at + 1])
}

/// Tells what is wanted of the pair of a number, in place, or that there is no such pair.
fn serve_one<K: Sink>(
    alloc: Global,
    loaded: &Loaded,
    number: u64,
    wanted: Wanted,
    out: &mut K,
) -> Status
    requires number { 1 ≤ number }
    requires wanted { IsWantedInPlace wanted }
    requires numbered { IsNumberedDomain (domain_of loaded.now.domain) }
    requires text { HasText problem_form (problem_of loaded.now.problem) }
    requires checked { first_fault (domain_of loaded.now.domain) (problem_of loaded.now.problem) ≡ None }
    ensures tells { Tells (pair_answer (told_pair wanted.entry (domain_of loaded.now.domain).rules) number
        (problem_of loaded.now.problem).pairs) result
        (sink_run (K.faults out.old) (K.faults out.new) (K.bytes out.old) (K.bytes out.new)) }
    ensures later { K.faults out.old ≤ K.faults out.new }
{
    // Nothing runs here: the law makes known that what is accepted can be walked.
    accepted_pairs_are_ground();
    let pairs = loaded.problem.pairs.as_slice();
    let Some(pair) = pair_at(pairs, number) else {
        return refuse(out, &Refusal::NoPair(number, pairs.len() as u64));
    };
    let Ok(code) = code_in(alloc, loaded) else {
        return Status::NoMemory;
    };
    tell_in_pages(alloc, Engine::InPlace(&code), pair, wanted, out)
}

/// Tells the plans of the pair of a number behind the plan at the path of a word, or that there is no such pair.
fn serve_after<K: Sink>(
    alloc: Global,
    loaded: &Loaded,
    asked: Asked,
    word: &str,
    number: u64,
    out: &mut K,
) -> Status
    requires asked { IsContinued asked word.now number }
    requires numbered { IsNumberedDomain (domain_of loaded.now.domain) }
    requires text { HasText problem_form (problem_of loaded.now.problem) }
    requires checked { first_fault (domain_of loaded.now.domain) (problem_of loaded.now.problem) ≡ None }
    ensures tells { Tells (job_answer (Continuing asked.plans asked.depth (path_of word.now) (options_of asked.options)
        number) (domain_of loaded.now.domain) (problem_of loaded.now.problem)) result
        (sink_run (K.faults out.old) (K.faults out.new) (K.bytes out.old) (K.bytes out.new)) }
    ensures later { K.faults out.old ≤ K.faults out.new }
{
    let Ok(target) = path(alloc, word) else {
        return Status::NoMemory;
    };
    let sought = Sought::After {
        plans: asked.plans,
        detail: detail_of(asked.options),
        path: target.as_slice(),
    };
    let wanted = Wanted {
        sought,
        depth: asked.depth,
        levels: asked.options.levels,
    };
    serve_one(alloc, loaded, number, wanted, out)
}

/// Looks for the first plan of the least depth, up to a limit, in each pair of an accepted domain and problem.
fn serve_shallow<K: Sink>(
    alloc: Global,
    loaded: &Loaded,
    limit: u32,
    levels: u32,
    states: bool,
    out: &mut K,
) -> Status
    requires asked { IsSearchable limit levels }
    requires numbered { IsNumberedDomain (domain_of loaded.now.domain) }
    requires text { HasText problem_form (problem_of loaded.now.problem) }
    requires checked { first_fault (domain_of loaded.now.domain) (problem_of loaded.now.problem) ≡ None }
    ensures tells { Tells (job_answer (Deepening limit levels states) (domain_of loaded.now.domain)
        (problem_of loaded.now.problem)) result
        (sink_run (K.faults out.old) (K.faults out.new) (K.bytes out.old) (K.bytes out.new)) }
    ensures later { K.faults out.old ≤ K.faults out.new }
{
    // Nothing runs here: the law makes known that what is accepted can be walked.
    accepted_pairs_are_ground();
    let Ok(code) = code_in(alloc, loaded) else {
        return Status::NoMemory;
    };
    let wanted = Wanted {
        sought: Sought::Shallowest { states },
        depth: limit,
        levels,
    };
    let engine = Engine::InPlace(&code);
    tell_in_pages(alloc, engine, loaded.problem.pairs.as_slice(), wanted, out)
}

/// Sums up the first plan of an accepted domain and problem that were made.
fn serve_sum<K: Sink>(
    alloc: Global,
    loaded: &Loaded,
    seed: u32,
    packages: u32,
    out: &mut K,
) -> Status
    requires numbered { IsNumberedDomain (domain_of loaded.now.domain) }
    requires text { HasText problem_form (problem_of loaded.now.problem) }
    requires checked { first_fault (domain_of loaded.now.domain) (problem_of loaded.now.problem) ≡ None }
    ensures tells { Tells (job_answer (Summing seed packages) (domain_of loaded.now.domain)
        (problem_of loaded.now.problem)) result
        (sink_run (K.faults out.old) (K.faults out.new) (K.bytes out.old) (K.bytes out.new)) }
    ensures later { K.faults out.old ≤ K.faults out.new }
{
    // Nothing runs here: the law makes known that what is accepted can be walked.
    accepted_pairs_are_ground();
    let Ok(code) = code_in(alloc, loaded) else {
        return Status::NoMemory;
    };
    status_told(sum_up(alloc, seed, packages, &loaded.problem, &code, out))
}

/// Notes the tasks that no rule serves, and writes what is known of an accepted domain and problem.
fn serve_check<K: Sink>(alloc: Global, loaded: &Loaded, out: &mut K) -> Status
    ensures tells { Tells (job_answer (job_of Job.Check) (domain_of loaded.now.domain)
        (problem_of loaded.now.problem)) result
        (sink_run (K.faults out.old) (K.faults out.new) (K.bytes out.old) (K.bytes out.new)) }
    ensures later { K.faults out.old ≤ K.faults out.new }
{
    let Ok(notes) = unserved_tasks(alloc, &loaded.domain, &loaded.problem) else {
        return Status::NoMemory;
    };
    match tell_accepted(
        alloc,
        &loaded.domain,
        &loaded.problem,
        notes.list.as_slice(),
        out,
    ) {
        Ok(()) => Status::Done,
        Err(Halt::NoMemory) => Status::NoMemory,
        Err(Halt::Failed) => Status::WriteFault,
    }
}

/// Writes the canonical texts of an accepted domain and problem.
fn serve_show<K: Sink>(alloc: Global, loaded: &Loaded, out: &mut K) -> Status
    ensures tells { Tells (job_answer (job_of Job.Show) (domain_of loaded.now.domain)
        (problem_of loaded.now.problem)) result
        (sink_run (K.faults out.old) (K.faults out.new) (K.bytes out.old) (K.bytes out.new)) }
    ensures later { K.faults out.old ≤ K.faults out.new }
{
    match show(alloc, &loaded.domain, &loaded.problem, out) {
        Ok(()) => Status::Done,
        Err(Halt::NoMemory) => Status::NoMemory,
        Err(Halt::Failed) => Status::WriteFault,
    }
}

/// Walks along the steps of a plan in the pair of a number, or tells that there is no such pair.
fn serve_steps<K: Sink>(
    alloc: Global,
    loaded: &Loaded,
    steps: &[Ground],
    asked: Verification,
    out: &mut K,
) -> Status
    requires asked { IsVerifiable asked }
    requires numbered { IsNumberedDomain (domain_of loaded.now.domain) }
    requires text { HasText problem_form (problem_of loaded.now.problem) }
    requires checked { first_fault (domain_of loaded.now.domain) (problem_of loaded.now.problem) ≡ None }
    ensures tells { Tells (verify_answer (verification_of asked.entry) (map ground_of steps.now)
        (domain_of loaded.now.domain) (problem_of loaded.now.problem)) result
        (sink_run (K.faults out.old) (K.faults out.new) (K.bytes out.old) (K.bytes out.new)) }
    ensures later { K.faults out.old ≤ K.faults out.new }
{
    let wanted = Wanted {
        sought: Sought::Derivation { steps },
        depth: asked.depth,
        levels: asked.levels,
    };
    serve_one(alloc, loaded, asked.pair, wanted, out)
}

/// Checks a domain and a problem that are read, and verifies the plan that is read.
pub fn verify_loaded<K: Sink>(
    alloc: Global,
    loaded: LoadedPlan,
    asked: Verification,
    out: &mut K,
) -> Status
    requires asked { IsVerifiable asked }
    requires numbered { IsNumberedDomain (domain_of loaded.files.domain) }
    requires text { HasText problem_form (problem_of loaded.files.problem) }
    ensures tells { Tells (answer_of_plan (verification_of asked.entry)
        ((domain_of loaded.files.domain, problem_of loaded.files.problem), map ground_of loaded.steps.items)) result
        (sink_run (K.faults out.old) (K.faults out.new) (K.bytes out.old) (K.bytes out.new)) }
    ensures later { K.faults out.old ≤ K.faults out.new }
{
    let LoadedPlan { files, steps } = &loaded;
    match first_fault(&files.domain, &files.problem) {
        Some(fault) => refuse(out, &Refusal::Check(fault)),
        None => serve_steps(alloc, files, steps.as_slice(), asked, out),
    }
}

/// Checks a domain and a problem that are read, and does the job with them.
pub fn serve_job<K: Sink>(alloc: Global, loaded: Loaded, job: Job, out: &mut K) -> Status
    requires asked { IsAsked job }
    requires numbered { IsNumberedDomain (domain_of loaded.domain) }
    requires text { HasText problem_form (problem_of loaded.problem) }
    ensures tells { (domain problem : List ℕ) → Tells (answer_of_read (make_command domain problem (job_of job.entry))
        (domain_of loaded.domain) (problem_of loaded.problem)) result
        (sink_run (K.faults out.old) (K.faults out.new) (K.bytes out.old) (K.bytes out.new)) }
    ensures later { K.faults out.old ≤ K.faults out.new }
{
    if let Some(fault) = first_fault(&loaded.domain, &loaded.problem) {
        return refuse(out, &Refusal::Check(fault));
    }
    match job {
        Job::Plan(asked) => serve_plan(alloc, &loaded, asked, out),
        Job::After { asked, path, pair } => serve_after(alloc, &loaded, asked, path, pair, out),
        Job::Best { depth, levels } => serve_best(alloc, &loaded, depth, levels, out),
        Job::Shallow {
            limit,
            levels,
            states,
        } => serve_shallow(alloc, &loaded, limit, levels, states, out),
        Job::Check => serve_check(alloc, &loaded, out),
        Job::Show => serve_show(alloc, &loaded, out),
        Job::Sum { seed, packages } => serve_sum(alloc, &loaded, seed, packages, out),
    }
}
