//! Texts that are too long to stand in a file.
use std::alloc::{AllocError, Global};

/// A text, in which each `{N PART}` is the part so many times, with the number of each time for a number sign.
pub fn with_repeats(alloc: Global, text: &str) -> Result<String, AllocError> {
    let mut all = String::new(alloc);
    for piece in text.split('{') {
        push_piece(&mut all, piece)?;
    }
    Ok(all)
}

/// A repeated part and what stands behind it, or the text before the first one.
fn push_piece(all: &mut String, piece: &str) -> Result<(), AllocError> {
    let Some((repeated, behind)) = piece.split_once('}') else {
        return all.push_str(piece);
    };
    if let Some((count, part)) = repeated.split_once(' ')
        && let Ok(count) = count.parse::<u32>()
    {
        push_repeated(all, part, count)?;
    }
    all.push_str(behind)
}

fn push_repeated(all: &mut String, part: &str, count: u32) -> Result<(), AllocError> {
    for i in 0..count {
        match part.split_once('#') {
            Some((before, behind)) => write!(all, "{before}{i}{behind}")?,
            None => all.push_str(part)?,
        }
    }
    Ok(())
}
