// What is printed of a case: numbers, and what became of the words that a call was lent.
ghost use Rattle.std.specs.Prelude.{true, false, ◌≡◌};

use std::convert::AsSlice;
use std::{fmt, io};

// Words as they are printed: each after a space.
#[derive(Clone, Copy)]
pub struct Words<'a>(pub &'a [u32]);

impl fmt::Display for Words<'_> {
    fn fmt<W: fmt::Write>(&self, f: &mut fmt::Formatter<W>) -> fmt::Result {
        for word in self.0 {
            write!(f, " {word}")?;
        }
        Ok(())
    }
}

// Answers of five words, each on a line of its own.
pub fn answers(rt: &impl Print, name: impl AsSlice<u8> + Copy, all: &[u32]) -> io::Result<()> {
    for words in all.chunks_exact(5) {
        rt.write_all(name.as_slice())?;
        println!(rt; ", answer:{}", Words(words))?;
    }
    Ok(())
}

// The same words? Whether a table was altered is told by this, so it is promised.
fn same(a: &[u32], b: &[u32]) -> bool
    ensures yes { result ≡ true → a.now ≡ b.now }
    ensures no { result ≡ false → a.now ≡ b.now → ⊥ }
{
    a == b
}

// What a refusal did: was every word kept? This ends the line.
pub fn kept(rt: &impl Print, before: &[u32], after: &[u32]) -> io::Result<()> {
    if same(before, after) {
        println!(rt; " kept")
    } else {
        println!(rt; " ALTERED")
    }
}

// A word and its place, as PLACE=WORD.
pub fn word_at(rt: &impl Print, i: usize, word: u32) -> io::Result<()> {
    print!(rt; " {i}={word}")
}

// What an accepted call did: it kept every word, or it left these. This ends the line.
pub fn left(rt: &impl Print, before: &[u32], after: &[u32]) -> io::Result<()> {
    if same(before, after) {
        return println!(rt; " kept");
    }
    for (i, (old, new)) in before.iter().zip(after).enumerate() {
        if old != new {
            word_at(rt, i, *new)?;
        }
    }
    println!(rt; "")
}
