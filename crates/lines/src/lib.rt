// The lines of a script: numbers and steps as text. The text is defined in specs/Line.antt, what reading it finds in specs/Read.antt.
#![tactic(auto)]

ghost use Rattle.lines.specs.Found.{NewPromise, NextPromise};

mod kind;
pub mod reading;

// A line's five words, as a list of steps has them: the kind of a step and its four arguments. The sizes N, L and P of a first line are a
// step of kind 0.
// One type for both lines: `NextPromise` says of both the same five words.
pub type Line = [u32; 5];

// A text, and the place that has been reached in it.
#[derive(Clone, Copy)]
pub struct Reader<'a> {
    pub text: &'a [u8],
    pub at: usize,
}

impl<'a> Reader<'a> {
    // A reader at a place of a text.
    pub fn new(text: &'a [u8], at: usize) -> Self
        ensures { NewPromise text.entry at result }
    {
        Reader { text, at }
    }

    // The line where the reader stands, if it is a good one. The reader moves on behind it; where the line is bad it stays.
    // No `Iterator`: `None` is a bad line, and not the end.
    pub fn next(&mut self) -> Option<Line>
        ensures { NextPromise self.old result self.new }
    {
        let (line, rest) = reading::line_at(self.text, self.at)?;
        self.at = self.text.len() - rest.len();
        Some(line)
    }
}
