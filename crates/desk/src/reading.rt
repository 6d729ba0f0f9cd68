// Reading into a buffer until it is full, of which std's `read` does a part.
ghost use Rattle.std.specs.Prelude.{◌≡◌, ◌<◌, ◌≤◌, ◌+◌, IfOk, OnOk, length, take, drop};
ghost use Rattle.std.specs.Io.KnownBytes.{Consumes, IsAtEnd};

use std::io::{self, Read};

// One read, put into the text from a place on.
fn read_at<R: Read>(input: &mut R, text: &mut [u8], at: usize) -> io::Result<usize>
    requires { at < length text.old }
    ensures front { take at text.new ≡ take at text.old }
    ensures fits { IfOk result (λ n. at + n ≤ length text.new) }
    ensures bytes { IfOk result (λ n. Consumes (R.remaining input.old) (R.remaining input.new) (take n (drop at text.new))) }
    ensures end { IfOk result (λ n. n ≡ 0 → IsAtEnd (R.remaining input.new)) }
{
    input.read(&mut text[at..])
}

// Reads until the text is full, the input ends or a read fails. Answers how many bytes now stand at the text's front, and the failure.
// The count is there beside a failure too, so it is in no `Result`.
pub fn fill<R: Read>(input: &mut R, text: &mut [u8]) -> (usize, io::Result<()>)
    ensures within { result.0 ≤ length text.new }
    ensures bytes { OnOk result.1 (Consumes (R.remaining input.old) (R.remaining input.new) (take result.0 text.new)) }
    ensures end { OnOk result.1 (result.0 < length text.new → IsAtEnd (R.remaining input.new)) }
{
    // Each read says how far the place moves on, so no `for` goes over it.
    let mut at = 0;
    while at < text.len() {
        match read_at(input, text, at) {
            Ok(0) => return (at, Ok(())),
            Ok(n) => at += n,
            Err(e) => return (at, Err(e)),
        }
    }
    (at, Ok(()))
}
