//! The summary of a problem that was made, and of the first plan of each of its pairs.

ghost use Rattle.std.specs.List.{All};
ghost use Rattle.std.specs.Prelude.{◌≡◌, ◌≤◌, ◌++◌, List, IfErr, OnOk, codes, decimal};
ghost use Rattle.hp_code.specs.CodeViews.{IsCodeOf};
ghost use Rattle.hp_code.specs.Codes.{code_of};
ghost use Rattle.hp_out.specs.Writing.{Wrote, sink_run};
ghost use Rattle.hp_syntax.specs.GroundPatterns.{IsGroundPair};
ghost use Rattle.hp_syntax.specs.Report.{behind};
ghost use Rattle.hp_syntax.specs.Syntax.{Rule};
ghost use Rattle.hp_syntax.specs.Views.{problem_of};
ghost use Rattle.hp_top.specs.Making.{made_lines};
ghost use Rattle.hp_top.specs.Outcome.{line_heard, pairs_answer};
ghost use Rattle.hp_telling.specs.Telling.{Halts, IsTold};

use crate::checking::{atoms_written, push_count};
use crate::pairs::{Engine, Sought, Wanted, tell_pairs};
use crate::writing::write;
use hp_code::Code;
use hp_io::Sink;
use hp_syntax::limits::{MADE_DEPTH, USUAL_LEVELS};
use hp_syntax::{Problem, Status};
use hp_telling::{Detail, Halt};
use std::alloc::{AllocError, Global};

/// The line of a made problem: its seed, and how many packages it has.
fn push_making(text: &mut Vec<u8>, seed: u32, packages: u32) -> Result<(), AllocError>
    ensures { OnOk result (text.new.items ≡ text.old.items
        ++ codes "made seed " ++ decimal seed ++ codes " packages " ++ decimal packages) }
{
    push_count(text, b"made seed ", u128::from(seed))?;
    push_count(text, b" packages ", u128::from(packages))
}

/// The lines of a made problem, with how many atoms its state has.
#[tactic(auto, unfolding(crate::specs::Making::made_lines))]
fn push_made(
    text: &mut Vec<u8>,
    seed: u32,
    packages: u32,
    problem: &Problem,
) -> Result<(), AllocError>
    ensures { OnOk result (text.new.items ≡ text.old.items ++ made_lines seed packages (problem_of problem.now)) }
{
    push_making(text, seed, packages)?;
    push_count(
        text,
        b"\nstate atoms ",
        atoms_written(problem.pairs.as_slice()),
    )?;
    text.extend_from_slice(b"\n")
}

/// Writes what was made, and how many atoms its state has.
fn tell_made<K: Sink>(
    alloc: Global,
    seed: u32,
    packages: u32,
    problem: &Problem,
    out: &mut K,
) -> Result<(), Halt>
    ensures written { OnOk result (Wrote (made_lines seed packages (problem_of problem.now))
        (K.bytes out.old) (K.bytes out.new)) }
    ensures err { IfErr result (λ h. Halts h (made_lines seed packages (problem_of problem.now))
        (sink_run (K.faults out.old) (K.faults out.new) (K.bytes out.old) (K.bytes out.new))) }
    ensures later { K.faults out.old ≤ K.faults out.new }
{
    let mut text = Vec::new(alloc);
    match push_made(&mut text, seed, packages, problem) {
        Ok(()) => write(out, text.as_slice()),
        Err(_) => Err(Halt::NoMemory),
    }
}

/// Writes what was made, and of the walk of each pair, by the code of the domain, the line of its first plan and the
/// ending line.
pub fn sum_up<K: Sink>(
    alloc: Global,
    seed: u32,
    packages: u32,
    problem: &Problem,
    code: &Code,
    out: &mut K,
) -> Result<Status, Halt>
    requires { All IsGroundPair (problem_of problem.now).pairs }
    ensures told { (rules : List Rule) → IsCodeOf rules (code_of code.now)
        → IsTold (behind (made_lines seed packages (problem_of problem.now))
        (pairs_answer line_heard rules USUAL_LEVELS MADE_DEPTH (problem_of problem.now).pairs)) result
        (sink_run (K.faults out.old) (K.faults out.new) (K.bytes out.old) (K.bytes out.new)) }
    ensures later { K.faults out.old ≤ K.faults out.new }
{
    let sought = Sought::Plans {
        plans: 1,
        detail: Detail::Line,
    };
    let wanted = Wanted {
        sought,
        depth: MADE_DEPTH,
        levels: USUAL_LEVELS,
    };
    match tell_made(alloc, seed, packages, problem, out) {
        Ok(()) => tell_pairs(
            alloc,
            Engine::InPlace(code),
            problem.pairs.as_slice(),
            wanted,
            out,
        ),
        Err(halt) => Err(halt),
    }
}
