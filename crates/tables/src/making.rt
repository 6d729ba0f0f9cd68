// Making a table in a lent buffer.
ghost use Rattle.tables.specs.Make.{MakePromise};
ghost use Rattle.tables.specs.Refused.{code_in};

use crate::Table;
use crate::refusal::Refusal;

// Makes a fresh table of n servers, l places in each log and p slots. Refused as `OutOfRange` if a number is out of its limits, or as
// `Length` if the buffer does not have exactly the table's length, and then the buffer keeps every word.
pub fn make(n: u32, l: u32, p: u32, buffer: &mut [u32]) -> Result<(), Refusal>
    ensures { MakePromise (record { n = n; l = l; p = p }) buffer.old (code_in result) buffer.new }
{
    let z = Table::new(n, l, p);
    if !z.is_within() {
        return Err(Refusal::OutOfRange);
    }
    if buffer.len() != z.words() {
        return Err(Refusal::Length);
    }
    words::clear(buffer);
    words::copy(&[n, l, p], buffer);
    Ok(())
}
