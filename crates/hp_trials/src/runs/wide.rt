//! Plans whose own text is too long to stand in a file: nothing that the program does may need more of the stack, or
//! far more time, where a text is wide.

use crate::runs::trial::{folder_of, tell, tell_status, words_of};
use hp_fixtures::repeats::with_repeats;
use hp_io::MemSink;
use hp_top::run;
use std::alloc::{AllocError, Global};

/// Room enough for a step of a hundred thousand parts.
const ROOM: usize = 400_000;

// What is shown, a domain, a problem, a command and what it writes.
type Row = (
    &'static str,
    &'static str,
    &'static str,
    &'static str,
    &'static str,
);

// A list of a hundred thousand parts in a step; nine hundred tasks in any order, of which the first order is asked; and
// a million million satisfiers of one precondition, which the engine of copies would list before it took one.
const ROWS: [Row; 3] = [
    (
        "# a step with a list of 100000 parts",
        "(defdomain d ((:operator (!do ?x) () () ()) (:method (m ?x) () ((!do ?x)))))",
        "(defproblem p d () ((m (a{99999  ()}))))",
        "$ plan d p 5 5",
        "plan 1 cost 1 steps 1\n(!do (a{99999  ()}))\nend plans 1 expansions 2\n",
    ),
    (
        "# 900 tasks in any order",
        "(defdomain d ((:operator (!do ?x) () () ())))",
        "(defproblem p d () (:unordered {900 (!do a)}))",
        "$ plan d p 1 1000",
        "plan 1 cost 900 steps 900\n{900 (!do a)\n}stopped plans 1 expansions 900\n",
    ),
    (
        "# a precondition with 2^40 satisfiers, of which two are asked",
        "(defdomain d ((:operator (!do ?x) () () ()) \
         (:method (m) ({39 (or (w ?x 1) (w ?x 1)) }(or (w ?x 1) (w ?x 1))) ((!do ?x)))))",
        "(defproblem p d ((w a 3) (w b 1) (w c 3)) ((m)))",
        "$ plan d p 2 5",
        "plan 1 cost 1 steps 1\n(!do b)\nplan 2 cost 1 steps 1\n(!do b)\nstopped plans 2 expansions 4\n",
    ),
];

/// Tries each row.
pub fn try_all(alloc: Global, out: &mut Vec<u8>) -> Result<(), AllocError> {
    for row in &ROWS {
        try_row(alloc, out, row)?;
    }
    Ok(())
}

fn try_row(
    alloc: Global,
    out: &mut Vec<u8>,
    (shows, domain, problem, line, wanted): &Row,
) -> Result<(), AllocError> {
    tell(out, shows)?;
    let domain = with_repeats(alloc, domain)?;
    let problem = with_repeats(alloc, problem)?;
    let wanted = with_repeats(alloc, wanted)?;
    compare(
        alloc,
        out,
        (domain.as_str(), problem.as_str()),
        line,
        wanted.as_str(),
    )
}

/// Runs a line over two files, `d` and `p`, and tells whether this text was written, and the status.
fn compare(
    alloc: Global,
    out: &mut Vec<u8>,
    (domain, problem): (&str, &str),
    line: &str,
    wanted: &str,
) -> Result<(), AllocError> {
    let words = words_of(alloc, line)?;
    let mut folder = folder_of(alloc, domain.as_bytes(), problem.as_bytes())?;
    let mut sink = MemSink::new(alloc, ROOM)?;
    let status = run(alloc, words.as_slice(), &mut folder, &mut sink);
    let is_wanted = sink.bytes() == wanted.as_bytes();
    tell(out, line)?;
    tell(
        out,
        if is_wanted {
            "# as is wanted"
        } else {
            "# another text"
        },
    )?;
    tell_status(alloc, out, status)
}
