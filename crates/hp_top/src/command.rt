//! The top call.

ghost use Rattle.std.specs.Prelude.{◌≡◌, ◌≢◌, ◌≤◌, ◌<◌, ℕ, List, Some, None, map, string_bytes};
ghost use Rattle.hp_io.specs.Rules.{Rose};
ghost use Rattle.hp_io.specs.Inputs.{by_input};
ghost use Rattle.hp_io.specs.declared.folder.Input.{Input};
ghost use Rattle.hp_words.specs.Command.{accepts, make_command};
ghost use Rattle.hp_top.specs.Loading.{folder_run};
ghost use Rattle.hp_top.specs.Outcome.{Files};
ghost use Rattle.hp_top.specs.Run.{TellsFiles, IsOutcome, RefusesWords, ReadFails, WritesPrefix, WritesProperPrefix};
ghost use Rattle.hp_top.specs.Serving.{ServesCommand, ServesVerification, Ends};
ghost use Rattle.hp_top.specs.Touching.{TouchesBy, TouchesNamed, input_run};
ghost use Rattle.hp_words.specs.Words.{IsAsked, IsVerifiable, job_of, verification_of};
ghost use Rattle.hp_out.specs.Writing.{sink_run};

use crate::coding::serve_code;
use crate::laws::every_run_has_an_outcome;
use crate::loading::{load, load_with_plan};
use crate::making::serve_made;
use crate::refusing::{refuse, refuse_files};
use crate::serving::{serve_job, verify_loaded};
use hp_io::{Folder, Input, Sink};
use hp_out::Refusal;
use hp_syntax::Status;
use hp_words::{Job, Request, Verification, request_asked};
use std::alloc::Global;

/// Reads two files, and does the job with them.
fn serve_command<F: Folder, K: Sink>(
    alloc: Global,
    domain: &str,
    problem: &str,
    job: Job,
    folder: &mut F,
    out: &mut K,
) -> Status
    requires { IsAsked job }
    ensures serves { ServesCommand (make_command domain.now problem.now (job_of job.entry))
        (folder_run (F.file folder.old) (F.faults folder.old) (F.faults folder.new)) result
        (sink_run (K.faults out.old) (K.faults out.new) (K.bytes out.old) (K.bytes out.new)) }
    ensures files { (n : List ℕ) → F.file folder.new n ≡ F.file folder.old n }
    ensures later { (w : Input) → F.faults folder.old w ≤ F.faults folder.new w }
    ensures out_later { K.faults out.old ≤ K.faults out.new }
    ensures touched { (w : Input) →
        TouchesBy (F.file folder.old) (by_input w (Some domain.now) (Some problem.now) None)
        (input_run (F.begun folder.old w) (F.begun folder.new w) (F.rest folder.old w) (F.rest folder.new w)) }
{
    match load(alloc, folder, domain, problem) {
        Ok(loaded) => serve_job(alloc, loaded, job, out),
        Err(error) => refuse_files(out, error),
    }
}

/// Reads three files, and verifies the plan.
fn serve_verification<F: Folder, K: Sink>(
    alloc: Global,
    asked: Verification,
    folder: &mut F,
    out: &mut K,
) -> Status
    requires asked { IsVerifiable asked }
    ensures serves { ServesVerification (verification_of asked.entry)
        (folder_run (F.file folder.old) (F.faults folder.old) (F.faults folder.new)) result
        (sink_run (K.faults out.old) (K.faults out.new) (K.bytes out.old) (K.bytes out.new)) }
    ensures files { (n : List ℕ) → F.file folder.new n ≡ F.file folder.old n }
    ensures later { (w : Input) → F.faults folder.old w ≤ F.faults folder.new w }
    ensures out_later { K.faults out.old ≤ K.faults out.new }
    ensures touched { (w : Input) →
        TouchesBy (F.file folder.old) (by_input w (Some asked.entry.domain.now) (Some asked.entry.problem.now) (Some asked.entry.plan.now))
        (input_run (F.begun folder.old w) (F.begun folder.new w) (F.rest folder.old w) (F.rest folder.new w)) }
{
    match load_with_plan(alloc, folder, asked) {
        Ok(loaded) => verify_loaded(alloc, loaded, asked, out),
        Err(error) => refuse_files(out, error),
    }
}

/// Serves the command that the words are.
fn serve<F: Folder, K: Sink>(alloc: Global, words: &[String], folder: &mut F, out: &mut K) -> Status
    ensures ends { Ends (map string_bytes words.now)
        (folder_run (F.file folder.old) (F.faults folder.old) (F.faults folder.new)) result
        (sink_run (K.faults out.old) (K.faults out.new) (K.bytes out.old) (K.bytes out.new)) }
    ensures files { (n : List ℕ) → F.file folder.new n ≡ F.file folder.old n }
    ensures later { (w : Input) → F.faults folder.old w ≤ F.faults folder.new w }
    ensures out_later { K.faults out.old ≤ K.faults out.new }
    ensures touched { (w : Input) → TouchesNamed (map string_bytes words.now) (F.file folder.old) w
        (input_run (F.begun folder.old w) (F.begun folder.new w) (F.rest folder.old w) (F.rest folder.new w)) }
    ensures untouched { accepts (map string_bytes words.now) ≡ None
        → (folder.new ≡ folder.old)
        × RefusesWords result
        (sink_run (K.faults out.old) (K.faults out.new) (K.bytes out.old) (K.bytes out.new)) }
{
    match request_asked(words) {
        None => refuse(out, &Refusal::Usage),
        Some(Request::Verify(asked)) => serve_verification(alloc, asked, folder, out),
        Some(Request::Code { domain }) => serve_code(alloc, domain, folder, out),
        Some(Request::Make { seed, packages }) => serve_made(alloc, seed, packages, out),
        Some(
            Request::Files {
                domain,
                problem,
                job,
            },
        ) => serve_command(alloc, domain, problem, job, folder, out),
    }
}

/// Runs a command. `plan DOMAIN PROBLEM K DEPTH` writes the first K plans down to that depth, the
/// first thousands as soon as they are found and later ones by pages, and one ending line. Behind these
/// words `--nest N` says how deep axioms may call one another (else 64), `--states` has each plan told
/// with the state that it leads to, `--paths` with its path, and `--plain` has the plans looked for by
/// the engine of copies. `after DOMAIN PROBLEM K DEPTH PATH` goes on behind the plan at a path, in the
/// pair that `--pair I` names, else the first. `best DOMAIN PROBLEM DEPTH` writes the cheapest plan, and
/// `shallow DOMAIN PROBLEM LIMIT` the first one of the least depth that has one. `verify DOMAIN PROBLEM
/// PLAN DEPTH` writes whether the steps of a third file are a plan. `check DOMAIN PROBLEM` writes how
/// many rules and atoms there are, a note for each task that no rule serves, and `accepted`. `show DOMAIN
/// PROBLEM` writes both in canonical text. `code DOMAIN` writes the listing of the code that the domain
/// is compiled to. `make SEED N` reads no file: it makes a problem with N packages, plans it, and writes
/// how many atoms its state has, the first line of its first plan, and the ending line.
///
/// The words don't hold the program's own name. Nothing is written before its files are read and
/// accepted, but the one line of a refusal; after want of memory or a fault of the sink nothing
/// more is written.
pub fn run<F: Folder, K: Sink>(
    alloc: Global,
    words: &[String],
    folder: &mut F,
    out: &mut K,
) -> Status
    // Where folder and sink tell their bytes, a status other than want of memory and the faults of
    // reading and writing is that of the outcome, and its whole text was written.
    ensures exact { (files : Files) (before : List ℕ) → TellsFiles (F.file folder.old) files →
        K.bytes out.old ≡ Some before →
        result ≢ Status.NoMemory → result ≢ Status.ReadFault → result ≢ Status.WriteFault →
        IsOutcome (map string_bytes words.now) files result before (K.bytes out.new) }

    // Where folder and sink tell their bytes and no count of faults rises, every status but want of
    // memory is the outcome's.
    ensures complete { (files : Files) (before : List ℕ) → TellsFiles (F.file folder.old) files →
        K.bytes out.old ≡ Some before →
        ((w : Input) → ¬ Rose (F.faults folder.old w) (F.faults folder.new w)) →
        ¬ Rose (K.faults out.old) (K.faults out.new) → result ≢ Status.NoMemory →
        IsOutcome (map string_bytes words.now) files result before (K.bytes out.new) }

    // Words that are no command touch nothing but the sink, and no other words are refused.
    ensures refused { accepts (map string_bytes words.now) ≡ None
        → (folder.new ≡ folder.old)
        × RefusesWords result
        (sink_run (K.faults out.old) (K.faults out.new) (K.bytes out.old) (K.bytes out.new)) }
    ensures usage { result ≡ Status.Usage → accepts (map string_bytes words.now) ≡ None }

    // After want of memory a prefix of a text was written that the run could write, maybe all of it,
    // and after a fault of writing a proper prefix.
    ensures prefix { (files : Files) → TellsFiles (F.file folder.old) files → result ≡ Status.NoMemory →
        WritesPrefix (map string_bytes words.now) files
        (folder_run (F.file folder.old) (F.faults folder.old) (F.faults folder.new))
        (sink_run (K.faults out.old) (K.faults out.new) (K.bytes out.old) (K.bytes out.new)) }
    ensures proper_prefix { (files : Files) → TellsFiles (F.file folder.old) files →
        result ≡ Status.WriteFault →
        WritesProperPrefix (map string_bytes words.now) files
        (folder_run (F.file folder.old) (F.faults folder.old) (F.faults folder.new))
        (sink_run (K.faults out.old) (K.faults out.new) (K.bytes out.old) (K.bytes out.new)) }

    // A fault of reading has its cause in an input that the words name, and of writing in the sink. Its
    // line is known to be written where the sink tells its bytes.
    ensures read { result ≡ Status.ReadFault → ReadFails (map string_bytes words.now)
        (folder_run (F.file folder.old) (F.faults folder.old) (F.faults folder.new))
        (sink_run (K.faults out.old) (K.faults out.new) (K.bytes out.old) (K.bytes out.new)) }
    ensures write { result ≡ Status.WriteFault → Rose (K.faults out.old) (K.faults out.new) }

    // The folder goes on telling the same files, and no count of faults falls.
    ensures tells { (n : List ℕ) → F.file folder.new n ≡ F.file folder.old n }
    ensures counts { (w : Input) → F.faults folder.old w ≤ F.faults folder.new w }
    ensures sink_count { K.faults out.old ≤ K.faults out.new }

    // No input is begun but by the name that the words have for it, and at most one byte more than the
    // longest text is read of it, as far as the folder tells them.
    ensures touched { (w : Input) → TouchesNamed (map string_bytes words.now) (F.file folder.old) w
        (input_run (F.begun folder.old w) (F.begun folder.new w) (F.rest folder.old w) (F.rest folder.new w)) }
{
    // Nothing runs here: the law makes known that there is a text of which nothing may be written.
    every_run_has_an_outcome();
    serve(alloc, words, folder, out)
}
