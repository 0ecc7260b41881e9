//! The lines of a text.

ghost use Rattle.std.specs.Prelude.{◌≡◌, ◌-◌, ◌≤◌, ◌<◌, IfOk, drop, length, slice_index};
ghost use Rattle.hp_places.specs.Places.{column_of, line_of};
ghost use Rattle.hp_places.specs.Shown.{line_at, until_feed, without_return};
ghost use Rattle.hp_places.specs.Starts.{IsFound, IsLast, IsLine, line_starts, next_start};

use std::alloc::{AllocError, Global};

/// A place in a text, in lines and bytes of a line, both counted from 1.
#[derive(Clone, Copy, Debug, PartialEq, Eq)]
pub struct Place {
    pub line: usize,
    pub column: usize,
}

/// A text, with the offsets at which its lines begin, so that places are found by halving.
#[derive(Drop)]
pub struct Lines {
    text: Vec<u8>,
    starts: Vec<usize>,
    ghost begin: { starts.items ≡ line_starts text.items },
}

impl Lines {
    /// Goes through the text once. The error is that memory ran out.
    pub fn new(alloc: Global, text: Vec<u8>) -> Result<Lines, AllocError>
        ensures { IfOk result (λ lines. lines.text.items ≡ text.items) }
    {
        let starts = line_starts(alloc, text.as_slice())?;
        Ok(Lines { text, starts })
    }

    /// The whole text.
    pub fn text(&self) -> &[u8]
        ensures { result.now ≡ self.now.text.items }
    {
        self.text.as_slice()
    }

    /// The place of an offset. One past the end of the text has the place of that end.
    pub fn place(&self, offset: usize) -> Place
        ensures line { result.line ≡ line_of self.now.text.items offset }
        ensures column { result.column ≡ column_of self.now.text.items offset }
    {
        let index = self.index(offset);
        Place {
            line: index + 1,
            column: offset.min(self.text().len()) - self.starts[index] + 1,
        }
    }

    /// The line of an offset, without what ends it.
    pub fn line_at(&self, offset: usize) -> &[u8]
        ensures { result.now ≡ line_at self.now.text.items offset }
    {
        let index = self.index(offset);
        without_return(self.line(index))
    }

    /// The line of an index, without the line feed that ends it.
    fn line(&self, index: usize) -> &[u8]
        requires { index < length self.now.starts.items }
        ensures { result.now ≡ until_feed (drop (slice_index self.now.starts.items index) self.now.text.items) }
    {
        let from = self.starts[index];
        let to = self.line_end(index);
        &self.text()[from..to]
    }

    /// Where the line of an index ends, before its line feed.
    fn line_end(&self, index: usize) -> usize
        requires { index < length self.now.starts.items }
        ensures { IsLine self.now.text.items (slice_index self.now.starts.items index) result }
    {
        end_before(self.starts.as_slice(), self.text().len(), index)
    }

    /// The index of the start of an offset's line.
    fn index(&self, offset: usize) -> usize
        ensures { IsFound self.now.text.items offset result }
    {
        let offset = offset.min(self.text().len());
        last_start(self.starts.as_slice(), offset)
    }
}

/// The offsets at which the lines of a text begin.
fn line_starts(alloc: Global, text: &[u8]) -> Result<Vec<usize>, AllocError>
    ensures { IfOk result (λ starts. starts.items ≡ line_starts text.now) }
{
    let mut starts = Vec::new(alloc);
    starts.push(0)?;
    for (i, byte) in text.iter().enumerate() {
        if *byte == b'\n' {
            starts.push(i + 1)?;
        }
    }
    Ok(starts)
}

/// The index of the last start that isn't behind an offset, found by halving.
fn last_start(starts: &[usize], offset: usize) -> usize
    requires some { 0 < length starts.now }
    requires first { slice_index starts.now 0 ≤ offset }
    ensures { IsLast starts.now offset result }
{
    let mut low = 0;
    let mut high = starts.len();
    while high - low > 1 {
        let middle = low + (high - low) / 2;
        if starts[middle] <= offset {
            low = middle;
        } else {
            high = middle;
        }
    }
    low
}

/// Where the line of an index ends in a text of this size, by the start of the next one.
fn end_before(starts: &[usize], size: usize, index: usize) -> usize
    requires { index < length starts.now }
    ensures { result ≡ next_start starts.now size index - 1 }
{
    if index + 1 < starts.len() {
        starts[index + 1].saturating_sub(1)
    } else {
        size
    }
}

/// A line without the carriage return at its end.
fn without_return(line: &[u8]) -> &[u8]
    ensures { result.now ≡ without_return line.now }
{
    if !line.is_empty() && line[line.len() - 1] == b'\r' {
        &line[..line.len() - 1]
    } else {
        line
    }
}
