//! The pen of a run.

ghost use Rattle.std.specs.Prelude.{◌≡◌, ◌≤◌, ◌++◌, OnErr, MatchOption, codes, length, map, true};
ghost use Rattle.std.specs.List.{flat_map};
ghost use Rattle.hp_check.specs.NoteViews.{note_of};
ghost use Rattle.hp_io.specs.Rules.{Rose};
ghost use Rattle.hp_net.specs.Standings.{node_reached};
ghost use Rattle.hp_out.specs.Endings.{ending_of};
ghost use Rattle.hp_out.specs.Lines.{absent_text, depth_text, derived_text, kind_word, no_pair_line, refused_line};
ghost use Rattle.hp_out.specs.Lines.{refused_read, note_place, note_text, underived_text};
ghost use Rattle.hp_out.specs.RefusalTexts.{refusal_text};
ghost use Rattle.hp_out.specs.Writing.{Writes};
ghost use Rattle.hp_syntax.specs.GroundViews.{ground_of};
ghost use Rattle.hp_syntax.specs.PlaceTexts.{at_offset, at_span, span_text};
ghost use Rattle.hp_syntax.specs.Report.{best_text, ending_text, pair_line, path_line, path_text, plan_line, shown};
ghost use Rattle.hp_syntax.specs.Report.{told_plan};

use crate::derived::push_derived;
use crate::ending::Ending;
use crate::endings::push_ending;
use crate::page::Page;
use crate::paths::{push_path, push_path_line};
use crate::plans::{push_best, push_told, push_told_line};
use crate::refusal::Refusal;
use crate::words::{check_word, input_word, kind_word, text_of, underived_word, what_word};
use crate::writing::{write_all, write_pieces};
use hp_check::Note;
use hp_io::{Failed, Input, Sink};
use hp_net::Walk;
use hp_syntax::{Ground, Span, TextKind};
use itoa::Buffer;

/// Writes lines to a sink. It takes no memory. After Failed the sink holds a proper prefix of the text that was being
/// written, behind what it held before.
#[derive(Drop)]
pub struct Pen<'a, K: Sink> {
    sink: &'a mut K,
}

impl<'a, K: Sink> Pen<'a, K> {
    /// A pen that writes to this sink.
    pub fn new(sink: &'a mut K) -> Pen<'a, K>
        ensures same_reference { result.sink.ghost_name ≡ sink.entry.ghost_name }
        ensures same { result.sink.now ≡ sink.old }
    {
        Pen { sink }
    }

    /// Writes a text.
    pub fn text(&mut self, bytes: &[u8]) -> Result<(), Failed>
        ensures same_reference { self.new.sink.ghost_name ≡ self.old.sink.ghost_name }
        ensures writes { Writes result bytes.now (K.bytes self.old.sink.now) (K.bytes self.new.sink.now) }
        ensures later { K.faults self.old.sink.now ≤ K.faults self.new.sink.now }
        ensures cause { OnErr result (Rose (K.faults self.old.sink.now) (K.faults self.new.sink.now)) }
    {
        write_all(self.sink, bytes)
    }

    fn pieces(&mut self, pieces: &[&[u8]]) -> Result<(), Failed>
        ensures same_reference { self.new.sink.ghost_name ≡ self.old.sink.ghost_name }
        ensures writes { Writes result (flat_map (λ p. p.now) pieces.now)
            (K.bytes self.old.sink.now) (K.bytes self.new.sink.now) }
        ensures later { K.faults self.old.sink.now ≤ K.faults self.new.sink.now }
        ensures cause { OnErr result (Rose (K.faults self.old.sink.now) (K.faults self.new.sink.now)) }
    {
        write_pieces(self.sink, pieces)
    }

    /// The line of a text that is refused at an offset.
    fn offset_line(&mut self, which: Input, kind: TextKind, offset: u32) -> Result<(), Failed>
        ensures same_reference { self.new.sink.ghost_name ≡ self.old.sink.ghost_name }
        ensures writes { Writes result (refused_line which (at_offset (kind_word kind) offset))
            (K.bytes self.old.sink.now) (K.bytes self.new.sink.now) }
        ensures later { K.faults self.old.sink.now ≤ K.faults self.new.sink.now }
        ensures cause { OnErr result (Rose (K.faults self.old.sink.now) (K.faults self.new.sink.now)) }
    {
        let mut number = Buffer::new();
        self.pieces(&[
            b"refused ",
            input_word(which),
            b" ",
            kind_word(kind),
            b" at ",
            number.format(offset).as_bytes(),
            b"\n",
        ])
    }

    /// A span, and the end of its line.
    fn span_end(&mut self, span: Span) -> Result<(), Failed>
        ensures same_reference { self.new.sink.ghost_name ≡ self.old.sink.ghost_name }
        ensures writes { Writes result (span_text span ++ codes "\n")
            (K.bytes self.old.sink.now) (K.bytes self.new.sink.now) }
        ensures later { K.faults self.old.sink.now ≤ K.faults self.new.sink.now }
        ensures cause { OnErr result (Rose (K.faults self.old.sink.now) (K.faults self.new.sink.now)) }
    {
        let mut number = Buffer::new();
        self.pieces(&[number.format(span.from).as_bytes(), b"-"])?;
        self.pieces(&[number.format(span.to).as_bytes(), b"\n"])
    }

    /// The line of a text that is refused at a span, by the words that say why.
    fn span_line(
        &mut self,
        which: Input,
        first: &'static [u8],
        word: &'static [u8],
        span: Span,
    ) -> Result<(), Failed>
        ensures same_reference { self.new.sink.ghost_name ≡ self.old.sink.ghost_name }
        ensures writes { Writes result (refused_line which (first.now ++ at_span word.now span))
            (K.bytes self.old.sink.now) (K.bytes self.new.sink.now) }
        ensures later { K.faults self.old.sink.now ≤ K.faults self.new.sink.now }
        ensures cause { OnErr result (Rose (K.faults self.old.sink.now) (K.faults self.new.sink.now)) }
    {
        self.pieces(&[b"refused ", input_word(which), b" ", first, word, b" at "])?;
        self.span_end(span)
    }

    /// The line of a file that isn't there or couldn't be read.
    fn read_line(&mut self, which: Input) -> Result<(), Failed>
        ensures same_reference { self.new.sink.ghost_name ≡ self.old.sink.ghost_name }
        ensures writes { Writes result (refused_read which)
            (K.bytes self.old.sink.now) (K.bytes self.new.sink.now) }
        ensures later { K.faults self.old.sink.now ≤ K.faults self.new.sink.now }
        ensures cause { OnErr result (Rose (K.faults self.old.sink.now) (K.faults self.new.sink.now)) }
    {
        match which {
            Input::Domain => self.text(b"refused read domain\n"),
            Input::Problem => self.text(b"refused read problem\n"),
            Input::Plan => self.text(b"refused read plan\n"),
        }
    }

    /// Writes the line of one of several pairs: its number, from 1 on, and how many there are.
    #[tactic(auto, unfolding(hp_syntax::specs::Report::pair_line))]
    pub fn pair_line(&mut self, number: u64, count: u64) -> Result<(), Failed>
        ensures same_reference { self.new.sink.ghost_name ≡ self.old.sink.ghost_name }
        ensures writes { Writes result (pair_line number count)
            (K.bytes self.old.sink.now) (K.bytes self.new.sink.now) }
        ensures later { K.faults self.old.sink.now ≤ K.faults self.new.sink.now }
        ensures cause { OnErr result (Rose (K.faults self.old.sink.now) (K.faults self.new.sink.now)) }
    {
        let mut first = Buffer::new();
        let mut second = Buffer::new();
        self.pieces(&[
            b"problem ",
            first.format(number).as_bytes(),
            b" of ",
            second.format(count).as_bytes(),
            b"\n",
        ])
    }

    /// Writes the one line of a refusal.
    pub fn refusal_line(&mut self, refusal: &Refusal) -> Result<(), Failed>
        ensures same_reference { self.new.sink.ghost_name ≡ self.old.sink.ghost_name }
        ensures writes { Writes result (refusal_text refusal.now)
            (K.bytes self.old.sink.now) (K.bytes self.new.sink.now) }
        ensures later { K.faults self.old.sink.now ≤ K.faults self.new.sink.now }
        ensures cause { OnErr result (Rose (K.faults self.old.sink.now) (K.faults self.new.sink.now)) }
    {
        match *refusal {
            Refusal::Usage => self.text(b"refused usage\n"),
            Refusal::Read(which) => self.read_line(which),
            Refusal::Text(which, kind, offset) => self.offset_line(which, kind, offset),
            Refusal::Form(which, what, span) => self.span_line(
                which,
                b"Expected ",
                what_word(what),
                span,
            ),
            Refusal::Check(fault) => self.span_line(
                text_of(fault.in_problem),
                b"",
                check_word(fault.kind),
                fault.span,
            ),
            Refusal::NoPair(number, count) => self.no_pair_line(number, count),
        }
    }

    /// Writes that there is no pair of this number, by how many there are.
    fn no_pair_line(&mut self, number: u64, count: u64) -> Result<(), Failed>
        ensures same_reference { self.new.sink.ghost_name ≡ self.old.sink.ghost_name }
        ensures writes { Writes result (no_pair_line number count)
            (K.bytes self.old.sink.now) (K.bytes self.new.sink.now) }
        ensures later { K.faults self.old.sink.now ≤ K.faults self.new.sink.now }
        ensures cause { OnErr result (Rose (K.faults self.old.sink.now) (K.faults self.new.sink.now)) }
    {
        let mut first = Buffer::new();
        let mut second = Buffer::new();
        self.pieces(&[
            b"refused problem NoPair ",
            first.format(number).as_bytes(),
            b" of ",
            second.format(count).as_bytes(),
            b"\n",
        ])
    }

    /// Writes that there is no plan at a path, with the decompositions on the way.
    pub fn absent_line(&mut self, expansions: u64) -> Result<(), Failed>
        ensures same_reference { self.new.sink.ghost_name ≡ self.old.sink.ghost_name }
        ensures writes { Writes result (absent_text expansions)
            (K.bytes self.old.sink.now) (K.bytes self.new.sink.now) }
        ensures later { K.faults self.old.sink.now ≤ K.faults self.new.sink.now }
        ensures cause { OnErr result (Rose (K.faults self.old.sink.now) (K.faults self.new.sink.now)) }
    {
        let mut number = Buffer::new();
        self.pieces(&[
            b"no plan at path expansions ",
            number.format(expansions).as_bytes(),
            b"\n",
        ])
    }

    /// Writes that a plan was derived: its cost, which is a count of thousandths, its path, and the decompositions on
    /// the way. It goes out in one piece, or in pieces of a page.
    pub fn derived_line(&mut self, cost: i128, path: &[u64], expansions: u64) -> Result<(), Failed>
        ensures same_reference { self.new.sink.ghost_name ≡ self.old.sink.ghost_name }
        ensures writes { Writes result (derived_text cost path.now expansions)
            (K.bytes self.old.sink.now) (K.bytes self.new.sink.now) }
        ensures later { K.faults self.old.sink.now ≤ K.faults self.new.sink.now }
        ensures cause { OnErr result (Rose (K.faults self.old.sink.now) (K.faults self.new.sink.now)) }
    {
        let mut line = Page::new();
        push_derived(&mut line, self.sink, cost, path, expansions)?;
        line.flush(self.sink)
    }

    /// Writes that a plan wasn't derived, with the decompositions on the way: all of the tree was seen, or a limit cut
    /// it.
    pub fn underived_line(&mut self, is_cut: bool, expansions: u64) -> Result<(), Failed>
        ensures same_reference { self.new.sink.ghost_name ≡ self.old.sink.ghost_name }
        ensures writes { Writes result (underived_text is_cut expansions)
            (K.bytes self.old.sink.now) (K.bytes self.new.sink.now) }
        ensures later { K.faults self.old.sink.now ≤ K.faults self.new.sink.now }
        ensures cause { OnErr result (Rose (K.faults self.old.sink.now) (K.faults self.new.sink.now)) }
    {
        let mut number = Buffer::new();
        self.pieces(&[
            b"not derived ",
            underived_word(is_cut),
            b" expansions ",
            number.format(expansions).as_bytes(),
            b"\n",
        ])
    }

    /// Writes the depth that decides.
    #[tactic(auto, unfolding(crate::specs::Lines::depth_text))]
    pub fn depth_line(&mut self, depth: u32) -> Result<(), Failed>
        ensures same_reference { self.new.sink.ghost_name ≡ self.old.sink.ghost_name }
        ensures writes { Writes result (depth_text depth)
            (K.bytes self.old.sink.now) (K.bytes self.new.sink.now) }
        ensures later { K.faults self.old.sink.now ≤ K.faults self.new.sink.now }
        ensures cause { OnErr result (Rose (K.faults self.old.sink.now) (K.faults self.new.sink.now)) }
    {
        let mut number = Buffer::new();
        self.pieces(&[b"depth ", number.format(depth).as_bytes(), b"\n"])
    }

    /// Where the task of a note stands, and the end of its line.
    fn note_place(&mut self, in_problem: bool, span: Span) -> Result<(), Failed>
        ensures same_reference { self.new.sink.ghost_name ≡ self.old.sink.ghost_name }
        ensures writes { Writes result (note_place in_problem span)
            (K.bytes self.old.sink.now) (K.bytes self.new.sink.now) }
        ensures later { K.faults self.old.sink.now ≤ K.faults self.new.sink.now }
        ensures cause { OnErr result (Rose (K.faults self.old.sink.now) (K.faults self.new.sink.now)) }
    {
        self.pieces(&[b" in ", input_word(text_of(in_problem)), b" at "])?;
        self.span_end(span)
    }

    /// Writes the one line of a note.
    pub fn note_line(&mut self, note: &Note) -> Result<(), Failed>
        ensures same_reference { self.new.sink.ghost_name ≡ self.old.sink.ghost_name }
        ensures writes { Writes result (note_text (note_of note.now))
            (K.bytes self.old.sink.now) (K.bytes self.new.sink.now) }
        ensures later { K.faults self.old.sink.now ≤ K.faults self.new.sink.now }
        ensures cause { OnErr result (Rose (K.faults self.old.sink.now) (K.faults self.new.sink.now)) }
    {
        self.text(b"note NoRule ")?;
        self.text(note.name.bytes())?;
        self.note_place(note.in_problem, note.span)
    }

    /// Writes the plan that a walk stands at, by its number: its line, a line for each step, where paths are asked for
    /// the line of its path and, where states are, what holds and what is protected at its end. A plan goes out in one
    /// piece, or in pieces of a page.
    pub fn plan_lines<W: Walk>(
        &mut self,
        number: u64,
        walk: &W,
        states: bool,
        paths: bool,
    ) -> Result<(), Failed>
        requires live { W.is_live walk.now ≡ true }
        ensures same_reference { self.new.sink.ghost_name ≡ self.old.sink.ghost_name }
        ensures writes { MatchOption (node_reached (W.tree walk.now) (W.stands walk.now)) ⊥
            (λ n. Writes result (told_plan (shown states paths) number (W.stands walk.now).path n)
            (K.bytes self.old.sink.now) (K.bytes self.new.sink.now)) }
        ensures later { K.faults self.old.sink.now ≤ K.faults self.new.sink.now }
        ensures cause { OnErr result (Rose (K.faults self.old.sink.now) (K.faults self.new.sink.now)) }
    {
        let mut page = Page::new();
        push_told(&mut page, self.sink, number, walk, states, paths)?;
        page.flush(self.sink)
    }

    /// Writes the line of the plan that a walk stands at, by its number, without its steps.
    pub fn plan_line<W: Walk>(&mut self, number: u64, walk: &W) -> Result<(), Failed>
        requires live { W.is_live walk.now ≡ true }
        ensures same_reference { self.new.sink.ghost_name ≡ self.old.sink.ghost_name }
        ensures writes { MatchOption (node_reached (W.tree walk.now) (W.stands walk.now)) ⊥
            (λ n. Writes result (plan_line number n.cost (length n.steps))
            (K.bytes self.old.sink.now) (K.bytes self.new.sink.now)) }
        ensures later { K.faults self.old.sink.now ≤ K.faults self.new.sink.now }
        ensures cause { OnErr result (Rose (K.faults self.old.sink.now) (K.faults self.new.sink.now)) }
    {
        let mut line = Page::new();
        push_told_line(&mut line, self.sink, number, walk)?;
        line.flush(self.sink)
    }

    /// Writes the numbers of a path, joined by points, and a dash for the empty one. It goes out in one piece, or in
    /// pieces of a page.
    pub fn path_text(&mut self, path: &[u64]) -> Result<(), Failed>
        ensures same_reference { self.new.sink.ghost_name ≡ self.old.sink.ghost_name }
        ensures writes { Writes result (path_text path.now)
            (K.bytes self.old.sink.now) (K.bytes self.new.sink.now) }
        ensures later { K.faults self.old.sink.now ≤ K.faults self.new.sink.now }
        ensures cause { OnErr result (Rose (K.faults self.old.sink.now) (K.faults self.new.sink.now)) }
    {
        let mut numbers = Page::new();
        push_path(&mut numbers, self.sink, path)?;
        numbers.flush(self.sink)
    }

    /// Writes the line of a path.
    pub fn path_line(&mut self, path: &[u64]) -> Result<(), Failed>
        ensures same_reference { self.new.sink.ghost_name ≡ self.old.sink.ghost_name }
        ensures writes { Writes result (path_line path.now)
            (K.bytes self.old.sink.now) (K.bytes self.new.sink.now) }
        ensures later { K.faults self.old.sink.now ≤ K.faults self.new.sink.now }
        ensures cause { OnErr result (Rose (K.faults self.old.sink.now) (K.faults self.new.sink.now)) }
    {
        let mut line = Page::new();
        push_path_line(&mut line, self.sink, path)?;
        line.flush(self.sink)
    }

    /// Writes a cheapest plan by its steps: a line with its cost, which is a count of thousandths, and a line for each
    /// step. It goes out in one piece, or in pieces of a page.
    pub fn best_lines(&mut self, cost: i128, steps: &[Ground]) -> Result<(), Failed>
        ensures same_reference { self.new.sink.ghost_name ≡ self.old.sink.ghost_name }
        ensures writes { Writes result (best_text cost (map ground_of steps.now))
            (K.bytes self.old.sink.now) (K.bytes self.new.sink.now) }
        ensures later { K.faults self.old.sink.now ≤ K.faults self.new.sink.now }
        ensures cause { OnErr result (Rose (K.faults self.old.sink.now) (K.faults self.new.sink.now)) }
    {
        let mut plan = Page::new();
        push_best(&mut plan, self.sink, cost, steps)?;
        plan.flush(self.sink)
    }

    /// Writes the one line of an ending, with how many plans were found, and by how many expansions.
    pub fn ending_line(
        &mut self,
        ending: &Ending,
        plans: u64,
        expansions: u64,
    ) -> Result<(), Failed>
        ensures same_reference { self.new.sink.ghost_name ≡ self.old.sink.ghost_name }
        ensures writes { Writes result (ending_text (ending_of ending.now) plans expansions)
            (K.bytes self.old.sink.now) (K.bytes self.new.sink.now) }
        ensures later { K.faults self.old.sink.now ≤ K.faults self.new.sink.now }
        ensures cause { OnErr result (Rose (K.faults self.old.sink.now) (K.faults self.new.sink.now)) }
    {
        let mut line = Page::new();
        push_ending(&mut line, self.sink, ending, plans, expansions)?;
        line.flush(self.sink)
    }
}
