//! The top call over a folder and a sink of one's own.
ghost use Rattle.std.specs.Prelude.{◌≢◌, [], Some, map, string_bytes};
ghost use Rattle.hp_top.specs.Run.{IsOutcome};
ghost use Rattle.hp_embedding.specs.Shelves.{texts};

use hp_embedding::shelf::Shelf;
use hp_embedding::tray::Tray;
use hp_top::{Status, run};
use std::alloc::Global;

/// Runs the words of a command over two texts, which they name `domain` and `problem`.
pub fn plan(alloc: Global, words: &[String], domain: &str, problem: &str) -> (Status, Vec<u8>)
    ensures exact { result.0 ≢ Status.NoMemory → result.0 ≢ Status.ReadFault → result.0 ≢ Status.WriteFault
        → IsOutcome (map string_bytes words.now) (texts domain.now problem.now) result.0 [] (Some result.1.items) }
{
    let mut shelf = Shelf::new(domain, problem);
    let mut tray = Tray::new(alloc);
    let status = run(alloc, words, &mut shelf, &mut tray);
    (status, tray.bytes)
}
