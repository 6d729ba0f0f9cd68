// Who is up to date, by the guarantees chosen, and the order of the search.
use std::io;
use telling::{play, rows};

// A session has written at server 0; it reads, and then writes, at server 1, which lacks the write.
const AFTER_A_WRITE: [[u32; 5]; 3] = [[4, 0, 7, 50, 1], [3, 0, 7, 2, 0], [4, 0, 7, 60, 2]];

// A session has read at server 0 what another wrote there; then the same.
const AFTER_A_READ: [[u32; 5]; 5] = [
    [1, 1, 0, 0, 0],
    [4, 1, 7, 50, 1],
    [3, 0, 7, 1, 0],
    [3, 0, 7, 2, 0],
    [4, 0, 7, 60, 2],
];

// The codes for a session with these guarantees, of steps on a table that is made anew over whatever words it had.
fn codes_with(
    rt: &impl Print,
    guarantees: u32,
    t: &mut [u32; 54],
    list: &[[u32; 5]],
) -> io::Result<()> {
    // The length fits, so the making is not refused; the slot is closed, so the open isn't either.
    let _ = tables::making::make(2, 4, 2, t);
    let _ = steps::step(t, 1, 0, guarantees, 0, 0);
    play::codes(rt, t, list)
}

fn all_guarantees(rt: &impl Print) -> io::Result<()> {
    for guarantees in 0..16 {
        let mut t = [0; 54];
        print!(rt; "guarantees {guarantees}, after a write:")?;
        codes_with(rt, guarantees, &mut t, &AFTER_A_WRITE)?;
        print!(rt; ", after a read:")?;
        codes_with(rt, guarantees, &mut t, &AFTER_A_READ)?;
        println!(rt; "")?;
    }
    Ok(())
}

// Three servers, two places each, and a session with RYW.
const SEARCH: [[u32; 5]; 17] = [
    [1, 0, 1, 0, 0],
    [3, 0, 7, 7, 0], // none used: starts at 0
    [3, 0, 7, 6, 0], // from 0: goes up
    [3, 0, 7, 7, 0], // from 1: starts there
    [3, 0, 7, 5, 0], // from 1: goes up and not down
    [3, 0, 7, 3, 0], // from 2: passes to 0
    [4, 0, 7, 50, 4],
    [3, 0, 7, 7, 0], // from 2: starts there
    [3, 0, 7, 3, 0], // from 2: 0 and 1 are behind
    [5, 2, 1, 9, 0],
    [3, 0, 7, 3, 0], // from 2: 0 is behind, 1 is not
    [4, 0, 7, 60, 1],
    [3, 0, 7, 7, 0], // from 0: all are behind, the last-used too
    [5, 0, 1, 9, 0],
    [3, 0, 7, 7, 0], // from 0: the last-used is behind
    [4, 0, 7, 80, 7], // from 1: its log is full
    [4, 0, 7, 90, 7], // from 2: its log is full
];

fn search(rt: &impl Print) -> io::Result<()> {
    let mut t: [u32; 56] = rows::fresh(3, 2, 2);
    play::play(rt, "search", &mut t, &SEARCH)?;
    play::play(rt, "search, all full", &mut t, &[[4, 0, 7, 99, 7]])
}

pub fn all(rt: &impl Print) -> io::Result<()> {
    all_guarantees(rt)?;
    search(rt)
}
