// The desk program: reads a script from standard input and writes the reply to standard output. What it replies is the promise of
// `script::reply`; this adds the reading and the writing. specs/Served.antt says what can be promised of these.
#![tactic(auto)]

ghost use Rattle.std.specs.Prelude.{◌≡◌, IfSome, OnOk, length, take};
ghost use Rattle.std.specs.Io.KnownBytes.{Appends};
ghost use Rattle.script.specs.Promised.{code_of, count_of};
ghost use Rattle.desk.specs.Served.{ServePromise, WorkPromise, Answered};

use script::NoRoom;
use std::io::{self, Read, Write};

mod reading;

// How many bytes were read, what `reply` answered to them, whether a read failed, and whether all bytes of the reply were taken.
#[derive(Drop)]
struct Served {
    read: usize,
    replied: Result<usize, NoRoom>,
    ended: io::Result<()>,
    written: io::Result<()>,
}

// Reads until the text is full or the input ends, and writes the reply. A read that fails ends the input.
// The buffers are lent one by one, as `reply` takes them, whose signature stays.
fn serve<R: Read, W: Write>(
    input: &mut R,
    output: &mut W,
    text: &mut [u8],
    table: &mut [u32],
    steps: &mut [u32],
    answers: &mut [u32],
    out: &mut [u8],
) -> Served
    ensures served { ServePromise table.old steps.old answers.old out.old result.read (code_of result.replied) (count_of result.replied) text.new table.new steps.new answers.new out.new }
    ensures input { OnOk result.ended (IfSome (R.remaining input.old) (λ xs. take result.read text.new ≡ take (length text.new) xs)) }
    ensures output { OnOk result.written (Appends (W.contents output.old) (W.contents output.new) (take (count_of result.replied) out.new)) }
{
    let (read, ended) = reading::fill(input, text);
    let replied = script::reply(&text[..read], table, steps, answers, out);
    let count = replied.unwrap_or(0);
    let written = output.write_all(&out[..count]);
    Served {
        read,
        replied,
        ended,
        written,
    }
}

// Serves in arrays that have room for every script. One byte of text more than the limit is enough to see that a text is too long.
fn work<R: Read, W: Write>(input: &mut R, output: &mut W) -> Served
    ensures worked { WorkPromise result.read (code_of result.replied) (count_of result.replied) }
    ensures answered { OnOk result.ended (OnOk result.written (IfSome (R.remaining input.old) (λ xs. Answered xs (W.contents output.old) (W.contents output.new)))) }
{
    let mut text = [0u8; script::MOST_BYTES + 1];
    let mut table = [0u32; script::TABLE_WORDS];
    let mut steps = [0u32; script::STEP_WORDS];
    let mut answers = [0u32; script::STEP_WORDS];
    let mut out = [0u8; script::OUT_BYTES];
    serve(
        input,
        output,
        &mut text,
        &mut table,
        &mut steps,
        &mut answers,
        &mut out,
    )
}

// A reply that can't be written is told on standard error. A read that failed ends the program as an error, behind the reply to what was read.
fn main(rt: HostRuntime) -> io::Result<()> {
    let Served { ended, written, .. } = work(&mut rt.stdin(), &mut rt.stdout());
    if written.is_err() {
        eprintln!(rt; "desk: the reply could not be written")?;
    }
    ended
}
