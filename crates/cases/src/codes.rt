// Of several faults the smallest code wins: each refusal of each kind of step, with faults of greater codes beside it. In the table
// slot 0 is open, with RYW, and slot 1 is closed; server 1 is behind, and server 0 has one free place.
use std::io;
use telling::{play, rows};

const OPEN: [[u32; 5]; 7] = [
    [1, 2, 0, 0, 0], // slot
    [1, 4294967295, 0, 0, 0],
    [1, 0, 16, 0, 0], // guarantees; and the slot is open
    [1, 0, 0, 1, 0], // unused word; and the slot is open
    [1, 0, 0, 0, 1],
    [1, 0, 0, 0, 0], // the slot is open
    [1, 1, 9, 0, 0],
];

const CLOSE: [[u32; 5]; 7] = [
    [2, 1, 0, 0, 0],
    [2, 2, 0, 0, 0], // slot
    [2, 4294967295, 0, 0, 0],
    [2, 1, 1, 0, 0], // unused word; and the slot is closed
    [2, 1, 0, 1, 0],
    [2, 1, 0, 0, 1],
    [2, 1, 0, 0, 0], // the slot is closed
];

const READ: [[u32; 5]; 13] = [
    [3, 2, 7, 0, 0], // slot; and no reach
    [3, 4294967295, 7, 0, 0],
    [3, 1, 256, 0, 0], // item; and the slot is closed, no reach
    [3, 0, 256, 2, 0], // item; and behind
    [3, 1, 7, 4, 0], // reach; and the slot is closed
    [3, 1, 7, 0, 1], // unused word; and the slot is closed, no reach
    [3, 0, 7, 0, 1], // unused word; and no reach
    [3, 0, 7, 2, 1], // unused word; and behind
    [3, 1, 7, 0, 0], // the slot is closed; and no reach
    [3, 1, 7, 2, 0], // the slot is closed
    [3, 0, 7, 0, 0], // no reach
    [3, 0, 7, 2, 0], // behind
    [3, 0, 7, 3, 0],
];

const WRITE: [[u32; 5]; 14] = [
    [4, 2, 7, 80, 0], // slot; and no reach
    [4, 4294967295, 7, 80, 0],
    [4, 1, 256, 80, 0], // item; and the slot is closed, no reach
    [4, 1, 7, 80, 4], // reach; and the slot is closed
    [4, 1, 7, 80, 0], // the slot is closed; and no reach
    [4, 1, 7, 80, 3], // the slot is closed
    [4, 0, 7, 80, 0], // no reach
    [4, 0, 7, 80, 1], // fills server 0's log
    [4, 2, 7, 90, 1], // slot; and full
    [4, 0, 256, 90, 1], // item; and full
    [4, 0, 7, 90, 5], // reach; and full
    [4, 1, 7, 90, 1], // the slot is closed; and full
    [4, 0, 7, 90, 0], // no reach; and full
    [4, 0, 7, 90, 1], // full
];

const EXCHANGE: [[u32; 5]; 10] = [
    [5, 2, 1, 9, 0], // from
    [5, 4294967295, 1, 9, 0],
    [5, 1, 2, 9, 0], // to
    [5, 1, 4294967295, 9, 0],
    [5, 2, 2, 9, 0], // from and to; and to itself
    [5, 1, 1, 9, 1], // unused word; and to itself
    [5, 0, 1, 9, 1], // unused word
    [5, 1, 1, 9, 0], // to itself
    [5, 0, 0, 0, 0],
    [5, 0, 1, 9, 0],
];

const NO_KIND: [[u32; 5]; 4] = [
    [0, 0, 0, 0, 0],
    [6, 0, 0, 0, 0],
    [4294967295, 0, 0, 0, 0],
    [0, 1, 1, 1, 1],
];

const UNSOUND: [[u32; 5]; 16] = [
    [1, 0, 0, 0, 0], // and the slot is open
    [1, 2, 16, 1, 1], // and all out of range
    [2, 1, 0, 0, 0], // and the slot is closed
    [2, 2, 1, 1, 1], // and all out of range
    [3, 2, 256, 4, 1],
    [3, 1, 7, 0, 0], // and the slot is closed, no reach
    [3, 0, 7, 0, 0], // and no reach
    [3, 0, 7, 2, 0], // and behind
    [4, 2, 256, 80, 4], // and all out of range
    [4, 1, 7, 80, 0], // and the slot is closed, no reach
    [4, 0, 7, 80, 0], // and no reach
    [4, 0, 7, 80, 1], // and full
    [5, 2, 2, 9, 1], // and all out of range, to itself
    [5, 0, 0, 9, 0], // and to itself
    [0, 0, 0, 0, 0], // and no kind
    [6, 0, 0, 0, 0],
];

fn open_and_close(rt: &impl Print) -> io::Result<()> {
    let mut t = rows::after_ten_rows();
    play::play(rt, "open", &mut t, &OPEN)?;
    play::play(rt, "close", &mut t, &CLOSE)
}

fn read(rt: &impl Print) -> io::Result<()> {
    let mut t = rows::after_ten_rows();
    play::play(rt, "read", &mut t, &READ)
}

fn write(rt: &impl Print) -> io::Result<()> {
    let mut t = rows::after_ten_rows();
    play::play(rt, "write", &mut t, &WRITE)
}

fn exchange(rt: &impl Print) -> io::Result<()> {
    let mut t = rows::after_ten_rows();
    play::play(rt, "exchange", &mut t, &EXCHANGE)?;
    play::play(rt, "no kind", &mut t, &NO_KIND)
}

// Server 0's log is full, and word 3 of the header is not 0.
fn unsound(rt: &impl Print) -> io::Result<()> {
    let mut t = rows::after_ten_rows();
    play::play(rt, "unsound, before", &mut t, &[[4, 0, 7, 80, 1]])?;
    t[3] = 1;
    play::play(rt, "unsound", &mut t, &UNSOUND)
}

pub fn all(rt: &impl Print) -> io::Result<()> {
    open_and_close(rt)?;
    read(rt)?;
    write(rt)?;
    exchange(rt)?;
    unsound(rt)
}
