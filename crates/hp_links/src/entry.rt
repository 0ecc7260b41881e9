//! The parts of a network in reading order.
use hp_cells::Cell;

/// The order of a list's parts.
#[derive(Clone, Copy, Debug, PartialEq, Eq)]
pub enum Order {
    Ordered,
    Unordered,
}

/// A task by its cell, immediate or not, or a list with so many parts, which are the networks behind it.
#[derive(Clone, Copy, Debug)]
pub(crate) enum Entry {
    Task(Cell, bool),
    List(Order, usize),
}
