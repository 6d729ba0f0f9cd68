// The desk program on slices: a text in, its reply out. The reply is defined in specs/Reply.antt.
#![tactic(auto)]

ghost use Rattle.std.specs.Prelude.{◌≡◌, ◌≤◌, length};
ghost use Rattle.script.specs.Collect.{reply_to};
ghost use Rattle.script.specs.Promised.{roomy, code_of, count_of, ReplyPromise};
ghost use Rattle.printing.specs.Printed.{Adds};

use answering::Workspace;
use collecting::Fault;
use printing::Page;

mod answering;
mod collecting;
mod messages;

// 01, "The desk program": the most bytes and steps of a script, and the most places that it may ask for in a log.
pub const MOST_BYTES: usize = 16384;

pub const MOST_STEPS: usize = 512;

pub const MOST_PLACES: usize = 128;

// Room for the largest table that a script can ask for, for the words of 512 steps and of their answers, and for 512 lines of at most
// 55 bytes.
pub const TABLE_WORDS: usize = 9012;

pub const STEP_WORDS: usize = 2560;

pub const OUT_BYTES: usize = 28160;

// A buffer is shorter than the lengths above: 01's code 8.
#[derive(Clone, Copy, Debug, PartialEq, Eq)]
pub struct NoRoom;

// Are the buffers long enough for any script?
// No constructor of `Workspace` tests it: a call that takes the buffers into its `Ok` leaves open what they hold behind its `Err`.
#[tactic(auto, unfolding(crate::specs::Promised::roomy))]
fn has_room(table: &[u32], steps: &[u32], answers: &[u32], out: &[u8]) -> bool
    ensures { result ≡ roomy table.now steps.now answers.now out.now }
{
    table.len() >= TABLE_WORDS
        && steps.len() >= STEP_WORDS
        && answers.len() >= STEP_WORDS
        && out.len() >= OUT_BYTES
}

// The reply to a text, put on an empty page.
fn put_reply(text: &[u8], room: &mut Workspace, page: &mut Page)
    requires room { 28160 ≤ length page.old.bytes.now }
    requires empty { page.old.len ≡ 0 }
    ensures { Adds page.old (reply_to text.now) page.new }
{
    if MOST_BYTES < text.len() {
        return messages::too_long(page);
    }
    match collecting::collect(text, room.steps) {
        Ok(listed) => page.put_answers(room.answer(listed)),
        Err(Fault::BadLine(k)) => messages::bad_line(page, k),
        Err(Fault::TooLong) => messages::too_long(page),
    }
}

// Puts the reply to a text at the front of `out`, and answers how many bytes it has. Any text will do. The other buffers are room to
// work in; what they hold before does not matter. If a buffer is shorter than the lengths above, answers `NoRoom`, and alters nothing.
// The buffers are lent one by one: README.md and docs/ name this call, and any buffers will do.
pub fn reply(
    text: &[u8],
    table: &mut [u32],
    steps: &mut [u32],
    answers: &mut [u32],
    out: &mut [u8],
) -> Result<usize, NoRoom>
    ensures { ReplyPromise text.now table.old steps.old answers.old out.old (code_of result) (count_of result) table.new steps.new answers.new out.new }
{
    if !has_room(table, steps, answers, out) {
        return Err(NoRoom);
    }
    let mut room = Workspace {
        table,
        steps,
        answers,
    };
    let mut page = Page::new(out);
    put_reply(text, &mut room, &mut page);
    Ok(page.len)
}
