//! A problem that is made, from its seed to what is told of its first plan.

ghost use Rattle.std.specs.Prelude.{◌≤◌, IfOk, codes};
ghost use Rattle.hp_out.specs.Writing.{sink_run};
ghost use Rattle.hp_syntax.specs.Grammar.{problem_form};
ghost use Rattle.hp_syntax.specs.Numbered.{IsNumberedDomain};
ghost use Rattle.hp_syntax.specs.Views.{domain_of, problem_of};
ghost use Rattle.hp_top.specs.Loading.{HasText, LoadsBoth, plain_of};
ghost use Rattle.hp_top.specs.Making.{made_command};
ghost use Rattle.hp_top.specs.Serving.{ServesCommand, made_run};
ghost use Rattle.hp_words.specs.Words.{IsMakeable};

use crate::loading::{LoadError, Loaded, domain_in, problem_in};
use crate::refusing::refuse_files;
use crate::serving::serve_job;
use hp_io::Sink;
use hp_make::make;
use hp_syntax::Status;
use hp_words::Job;
use std::alloc::Global;

/// Makes a domain and a problem of it, and reads them.
fn load_made(alloc: Global, seed: u32, packages: u32) -> Result<Loaded, LoadError>
    requires { IsMakeable seed packages }
    ensures loads { LoadsBoth (made_run seed packages) (codes "domain") (codes "problem") (plain_of result) }
    ensures numbered { IfOk result (λ l. IsNumberedDomain (domain_of l.domain)) }
    ensures text { IfOk result (λ l. HasText problem_form (problem_of l.problem)) }
{
    let Ok(made) = make(alloc, seed, packages) else {
        return Err(LoadError::NoMemory);
    };
    let domain = match domain_in(alloc, made.domain) {
        Ok(domain) => domain,
        Err(cause) => return Err(cause),
    };
    match problem_in(alloc, made.problem) {
        Ok(problem) => Ok(Loaded { domain, problem }),
        Err(cause) => Err(cause),
    }
}

/// Makes the problem of a seed with so many packages, and sums up its first plan.
pub fn serve_made<K: Sink>(alloc: Global, seed: u32, packages: u32, out: &mut K) -> Status
    requires { IsMakeable seed packages }
    ensures serves { ServesCommand (made_command seed packages) (made_run seed packages) result
        (sink_run (K.faults out.old) (K.faults out.new) (K.bytes out.old) (K.bytes out.new)) }
    ensures later { K.faults out.old ≤ K.faults out.new }
{
    match load_made(alloc, seed, packages) {
        Ok(loaded) => serve_job(alloc, loaded, Job::Sum { seed, packages }, out),
        Err(error) => refuse_files(out, error),
    }
}
