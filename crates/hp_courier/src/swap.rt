//! A walk that is gone through call by call.
ghost use Rattle.std.specs.Prelude.{◌≡◌, true, OnOk};

use crate::steps::{leave, next_alone};
use hp_net::Walk;
use std::fmt::Debug;
use std::io;

/// One thing is dropped and another picked up: a plan of three decompositions.
pub const DOMAIN: &str = "(defdomain basic (
  (:operator (!pickup ?a) () () ((have ?a)))
  (:operator (!drop ?a) ((have ?a)) ((have ?a)) ())
  (:method (swap ?x ?y)
    ((have ?x)) ((!drop ?x) (!pickup ?y))
    ((have ?y)) ((!drop ?y) (!pickup ?x)))
))";

pub const PROBLEM: &str = "(defproblem p1 basic ((have kiwi)) ((swap banjo kiwi)))";

/// A call, and what it answered.
fn print_answer<A: Debug>(rt: &impl Print, call: &str, answer: &A) -> io::Result<()> {
    println!(rt; "{call} {answer:?}")
}

/// Five visits, each as it comes.
pub fn print_visits<W: Walk>(rt: &impl Print, walk: &mut W) -> io::Result<()>
    requires { W.is_live walk.old ≡ true }
{
    for _ in 0..5 {
        print_answer(rt, "next", &walk.next()?)?;
    }
    Ok(())
}

/// Two visits, with nothing visited below them.
pub fn print_pruned<W: Walk>(rt: &impl Print, walk: &mut W) -> io::Result<()>
    requires { W.is_live walk.old ≡ true }
{
    for _ in 0..2 {
        print_answer(rt, "next alone", &next_alone(walk)?)?;
    }
    Ok(())
}

/// Four visits downward.
fn print_way_down<W: Walk>(rt: &impl Print, walk: &mut W) -> io::Result<()>
    requires { W.is_live walk.old ≡ true }
    ensures { OnOk result (W.is_live walk.new ≡ true) }
{
    for _ in 0..4 {
        print_answer(rt, "step", &walk.step()?)?;
    }
    Ok(())
}

/// Four visits downward, and the way back from the last one.
pub fn print_way_back<W: Walk>(rt: &impl Print, walk: &mut W) -> io::Result<()>
    requires { W.is_live walk.old ≡ true }
{
    print_way_down(rt, walk)?;
    let has_left = leave(walk)?;
    println!(rt; "back {has_left}, at path {:?}", walk.path())
}
