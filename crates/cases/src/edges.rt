// The edges that 01 names, and the ends of each range.
use std::io;
use telling::{play, rows};

// L is 1: a second write at the same server finds the log full, and so does an exchange, which is accepted.
const ONE_PLACE: [[u32; 5]; 6] = [
    [1, 0, 0, 0, 0],
    [4, 0, 7, 50, 1],
    [4, 0, 7, 60, 1], // full
    [4, 0, 7, 70, 2],
    [5, 1, 0, 9, 0], // accepted, and nothing goes over
    [3, 0, 7, 1, 0],
];

// Slot 0, with WFR, has read what no server holds together; slot 1, with RYW, has written it. Both logs are full.
const APART: [[u32; 5]; 12] = [
    [1, 0, 4, 0, 0],
    [1, 1, 1, 0, 0],
    [4, 1, 7, 50, 1],
    [4, 1, 7, 60, 2],
    [3, 0, 7, 1, 0],
    [3, 0, 7, 2, 0],
    [3, 1, 7, 0, 0], // no reach, and nobody up to date
    [3, 1, 7, 3, 0], // nobody up to date
    [4, 0, 7, 70, 0], // no reach, behind and full
    [4, 1, 7, 70, 0], // no reach, and full
    [4, 0, 7, 70, 3], // behind and full together
    [4, 1, 7, 70, 3], // all up to date, all full
];

// Server 0 is up to date and full, server 1 is behind and has room. Slot 0 has MW, slot 1 has nothing.
const FULL_OR_BEHIND: [[u32; 5]; 6] = [
    [1, 0, 8, 0, 0],
    [1, 1, 0, 0, 0],
    [4, 0, 7, 50, 1],
    [4, 0, 7, 60, 3], // full where up to date
    [4, 0, 7, 60, 2], // room where behind
    [4, 1, 7, 60, 3], // room, and no guarantee
];

// A slot that is closed and opened again has no past.
const REOPENED: [[u32; 5]; 10] = [
    [1, 0, 15, 0, 0],
    [4, 0, 7, 50, 1],
    [3, 0, 7, 1, 0],
    [3, 0, 7, 2, 0], // behind
    [4, 0, 7, 60, 2], // behind
    [2, 0, 0, 0, 0],
    [3, 0, 7, 2, 0], // closed
    [1, 0, 15, 0, 0],
    [3, 0, 7, 2, 0],
    [4, 0, 7, 60, 2],
];

// The ends of the ranges of a step's words, with two servers and two slots.
const ENDS: [[u32; 5]; 18] = [
    [1, 0, 15, 0, 0],
    [1, 1, 16, 0, 0], // guarantees out of range
    [1, 1, 4294967295, 0, 0],
    [1, 1, 0, 0, 0],
    [1, 2, 0, 0, 0], // slot out of range
    [4, 1, 255, 4294967295, 2],
    [4, 1, 256, 1, 2], // item out of range
    [4, 1, 0, 0, 2],
    [3, 1, 255, 2, 0],
    [3, 1, 256, 2, 0], // item out of range
    [3, 1, 0, 2, 0],
    [3, 1, 7, 2, 0], // no write on the item
    [3, 1, 7, 4, 0], // reach out of range
    [4, 1, 7, 1, 4],
    [3, 1, 7, 7, 0],
    [4, 1, 7, 1, 4294967295],
    [5, 1, 0, 4294967295, 0],
    [5, 0, 0, 9, 0], // to itself
];

// A table is made again over the words that the steps before left, and none of them may be seen behind it.
fn one_place_each(rt: &impl Print) -> io::Result<()> {
    let mut t: [u32; 30] = rows::fresh(2, 1, 2);
    play::play(rt, "one place", &mut t, &ONE_PLACE)?;
    // The lengths fit, so no making is refused.
    let _ = tables::making::make(2, 1, 2, &mut t);
    play::play(rt, "behind and full", &mut t, &APART)?;
    let _ = tables::making::make(2, 1, 2, &mut t);
    play::play(rt, "full or behind", &mut t, &FULL_OR_BEHIND)
}

fn four_places_each(rt: &impl Print) -> io::Result<()> {
    let mut t: [u32; 54] = rows::fresh(2, 4, 2);
    play::play(rt, "reopened slot", &mut t, &REOPENED)?;
    let _ = tables::making::make(2, 4, 2, &mut t);
    play::play(rt, "ends of ranges", &mut t, &ENDS)
}

pub fn all(rt: &impl Print) -> io::Result<()> {
    one_place_each(rt)?;
    four_places_each(rt)
}
