//! A courier's ways through a town.
use crate::planning::plan;
use std::alloc::{AllocError, Global};

/// The cost of a way is its minutes.
pub const DOMAIN: &str = "(defdomain courier (
  (:operator (!ride ?from ?to)
    ((at ?from) (street ?from ?to ?minutes)) ((at ?from)) ((at ?to) (seen ?to)) ?minutes)
  (:method (go ?to) there ((at ?to)) ())
  (:method (go ?to) onward ((at ?from) (street ?from ?next ?minutes) (not ((seen ?next))))
    ((!ride ?from ?next) (go ?to)))
))";

pub const PROBLEM: &str = "(defproblem parcel courier
  ((at depot) (seen depot)
   (street depot mill 9) (street mill station 8) (street depot bridge 4) (street bridge mill 1)
   (street bridge station 5) (street station harbour 2) (street mill harbour 20))
  ((go harbour)))";

/// A quarter of an hour, in thousandths of a minute.
pub const BUDGET: i128 = 15_000;

/// The words of a line, with one space between each two.
fn words_of(alloc: Global, line: &str) -> Result<Vec<String>, AllocError> {
    let mut words = Vec::new(alloc);
    for word in line.split(' ') {
        words.push(String::from_str(alloc, word)?)?;
    }
    Ok(words)
}

/// The first three ways, as the command `plan` writes them.
pub fn plans(alloc: Global) -> Result<Vec<u8>, AllocError> {
    let words = words_of(alloc, "plan domain problem 3 20")?;
    let (_, text) = plan(alloc, words.as_slice(), DOMAIN, PROBLEM);
    Ok(text)
}
