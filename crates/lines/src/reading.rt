// Reading what a text begins with. Each function answers what it has read, and the text behind it.
ghost use Rattle.std.specs.Prelude.{◌≡◌, length, IfNone, IfSome};
ghost use Rattle.lines.specs.DigitLaws.{NoDigit, DigitAhead};
ghost use Rattle.lines.specs.Read.{more, read_number, read_field, read_fields, read_step, read_sizes, read_line};
ghost use Rattle.lines.specs.Found.{got, fields_got, line_words};

use crate::Line;
use crate::kind::Kind;

// The digit that a text begins with.
fn first_digit(text: &[u8]) -> Option<(u32, &[u8])>
    ensures none { IfNone result (NoDigit text.now) }
    ensures some { IfSome result (λ r. DigitAhead text.now r.0 r.1.now) }
{
    let (first, rest) = text.split_first()?;
    if first.is_ascii_digit() {
        Some((u32::from(*first - b'0'), rest))
    } else {
        None
    }
}

// A number whose first digits say `sofar`, and whose other digits a text begins with.
#[tactic(auto, using(crate::proofs::DigitLaws::digits))]
fn more_digits(sofar: u32, text: &[u8]) -> Option<(u32, &[u8])>
    ensures { got result ≡ more sofar text.now }
{
    let mut value = sofar;
    let mut rest = text;
    while let Some((digit, behind)) = first_digit(rest) {
        value = value.checked_mul(10)?.checked_add(digit)?;
        rest = behind;
    }
    Some((value, rest))
}

// A number. A leading 0 is all of it.
#[tactic(auto, using(crate::proofs::DigitLaws::digits))]
fn number(text: &[u8]) -> Option<(u32, &[u8])>
    ensures { got result ≡ read_number text.now }
{
    let (digit, rest) = first_digit(text)?;
    if digit == 0 {
        return Some((0, rest));
    }
    more_digits(digit, rest)
}

// A number behind a space.
fn field(text: &[u8]) -> Option<(u32, &[u8])>
    ensures { got result ≡ read_field text.now }
{
    number(text.strip_prefix(b" ")?)
}

// Numbers for all these words, each behind a space, and a line feed. Answers the text behind them.
fn fields<'a>(text: &'a [u8], words: &mut [u32]) -> Option<&'a [u8]>
    ensures { fields_got words.new result ≡ read_fields (length words.old) text.now }
{
    let mut rest = text;
    for word in words {
        let (value, behind) = field(rest)?;
        *word = value;
        rest = behind;
    }
    rest.strip_prefix(b"\n")
}

// A step.
fn step(text: &[u8]) -> Option<(Line, &[u8])>
    ensures { got result ≡ line_words (read_step text.now) }
{
    let (letter, rest) = text.split_first()?;
    let kind = Kind::from_letter(*letter)?;
    let mut words = [u32::from(kind), 0, 0, 0, 0];
    let rest = fields(rest, &mut words[1..1 + kind.count()])?;
    Some((words, rest))
}

// The sizes.
fn sizes(text: &[u8]) -> Option<(Line, &[u8])>
    ensures { got result ≡ line_words (read_sizes text.now) }
{
    let (n, rest) = number(text)?;
    let mut words = [0, n, 0, 0, 0];
    let rest = fields(rest, &mut words[2..4])?;
    Some((words, rest))
}

// The line at a place: at the start of a text the sizes, elsewhere a step. Behind the end of the text there is none. A place says what the rest
// of a text does not: whether it is the start.
pub fn line_at(text: &[u8], at: usize) -> Option<(Line, &[u8])>
    ensures { got result ≡ line_words (read_line text.now at) }
{
    if at == 0 {
        return sizes(text);
    }
    step(text.get(at..)?)
}
