// The sizes and steps of a text, the steps as words.
ghost use Rattle.std.specs.Prelude.{◌≤◌, length};
ghost use Rattle.script.specs.Listed.{ListedPromise};

use crate::answering;
use lines::Reader;
use tables::Table;

// The sizes of a script, and how many steps it has.
#[derive(Clone, Copy)]
pub struct Listed {
    pub sizes: Table,
    pub count: usize,
}

// What is wrong with a text: the line of this number, or that there are more lines than there is room for.
#[derive(Clone, Copy, Debug, PartialEq, Eq)]
pub enum Fault {
    BadLine(u32),
    TooLong,
}

// The sizes of a text, and its steps, put one after another into the list, which has room for 512 of them. One reader walks the whole
// text, line by line.
// The list is a slice of words, as `reply` is lent it.
pub fn collect(text: &[u8], steps: &mut [u32]) -> Result<Listed, Fault>
    requires { 2560 ≤ length steps.old }
    ensures { ListedPromise text.now result steps.new }
{
    let mut reader = Reader::new(text, 0);
    let [_, n, l, p, _] = reader.next().ok_or(Fault::BadLine(1))?;
    let sizes = Table::new(n, l, p);
    if !answering::is_admissible(sizes) {
        return Err(Fault::BadLine(1));
    }
    let mut count = 0;
    // No `for`: the reader's `None` is a bad line, and not the end.
    while reader.at < text.len() {
        if count == crate::MOST_STEPS {
            return Err(Fault::TooLong);
        }
        // The first step stands on line 2.
        let number = count as u32 + 2;
        let Some(step) = reader.next() else {
            return Err(Fault::BadLine(number));
        };
        words::put(steps, count, &step);
        count += 1;
    }
    Ok(Listed { sizes, count })
}
