//! What is printed.
use std::alloc::{AllocError, Global};
use std::fmt::{Debug, Write};

/// Lines, as long as there is memory for them.
pub struct Page {
    text: String,
    is_whole: bool,
}

impl Drop for Page {
    fn drop(self) {
        let Page { text, is_whole: _ } = self;
        drop(text);
    }
}

impl Page {
    pub fn new(alloc: Global) -> Page {
        Page {
            text: String::new(alloc),
            is_whole: true,
        }
    }

    /// What is tried next.
    pub fn title(&mut self, what: &str) {
        if writeln!(self.text, "{what}").is_err() {
            self.is_whole = false;
        }
    }

    /// What was given for the title before it.
    pub fn given<T: Debug>(&mut self, given: &T) {
        if writeln!(self.text, "{given:?}").is_err() {
            self.is_whole = false;
        }
    }

    /// What was asked, and what was given.
    pub fn line<T: Debug>(&mut self, asked: &str, given: &T) {
        if writeln!(self.text, "  {asked}: {given:?}").is_err() {
            self.is_whole = false;
        }
    }

    /// What was asked, and what was given if there was memory for it.
    pub fn told<T: Debug>(&mut self, asked: &str, given: &Result<T, AllocError>) {
        match given {
            Ok(given) => self.line(asked, given),
            Err(_) => self.is_whole = false,
        }
    }

    /// Bytes, as a literal has them, and what was given with them.
    pub fn row<T: Debug>(&mut self, bytes: &[u8], given: &T) {
        if writeln!(self.text, "  \"{}\": {given:?}", bytes.escape_ascii()).is_err() {
            self.is_whole = false;
        }
    }

    /// What a call of two numbers gave, each by its thousandths.
    pub fn call<T: Debug>(&mut self, name: &str, m: i64, n: i64, given: &T) {
        if writeln!(self.text, "  ({name} {m} {n}): {given:?}").is_err() {
            self.is_whole = false;
        }
    }

    /// A text that was written, and how many bytes it has.
    pub fn text(&mut self, written: Result<Vec<u8>, AllocError>) {
        match written {
            Ok(text) => self.row(text.as_slice(), &text.len()),
            Err(_) => self.is_whole = false,
        }
    }

    /// All lines, if there was memory for them.
    pub fn lines(&self) -> Result<&str, AllocError> {
        if self.is_whole {
            Ok(self.text.as_str())
        } else {
            Err(AllocError)
        }
    }
}
