// Exchanges: which writes go over, how many, and where they go.
use std::io;
use telling::{play, rows};

// Server 0 has written twice and server 1 once, apart.
const APART: [[u32; 5]; 4] = [
    [1, 0, 0, 0, 0],
    [4, 0, 7, 50, 1],
    [4, 0, 7, 60, 1],
    [4, 0, 7, 70, 2],
];

// Four places a log.
const ROOM: [[u32; 5]; 9] = [
    [5, 1, 0, 9, 0], // 70 goes between 50 and 60
    [3, 0, 7, 1, 0], // 60: last in write order, not last made
    [5, 0, 1, 0, 0], // most is 0
    [5, 0, 1, 1, 0], // most is 1: the first in write order
    [5, 0, 1, 1, 0], // and then the next
    [5, 0, 1, 1, 0], // nothing lacks
    [5, 0, 1, 4294967295, 0],
    [4, 0, 9, 80, 2], // the clock passes all that is held
    [3, 0, 7, 2, 0], // 80 is on another item
];

// Two places a log: one is free at server 1, and two writes lack.
const NO_ROOM: [[u32; 5]; 3] = [[5, 0, 1, 9, 0], [5, 0, 1, 9, 0], [5, 1, 0, 9, 0]];

// Server 0 holds three writes, and all places are free at server 1.
const MOST_2: [[u32; 5]; 6] = [
    [1, 0, 0, 0, 0],
    [4, 0, 7, 50, 1],
    [4, 0, 7, 60, 1],
    [4, 0, 7, 70, 1],
    [5, 0, 1, 2, 0], // most is the least of the three
    [5, 0, 1, 2, 0], // one lacks
];

fn room(rt: &impl Print) -> io::Result<()> {
    let mut t: [u32; 54] = rows::fresh(2, 4, 2);
    play::play(rt, "exchange, before", &mut t, &APART)?;
    play::play(rt, "exchange, room", &mut t, &ROOM)
}

fn no_room(rt: &impl Print) -> io::Result<()> {
    let mut t: [u32; 38] = rows::fresh(2, 2, 2);
    play::play(rt, "exchange, before", &mut t, &APART)?;
    play::play(rt, "exchange, no room", &mut t, &NO_ROOM)
}

fn most_2(rt: &impl Print) -> io::Result<()> {
    let mut t: [u32; 54] = rows::fresh(2, 4, 2);
    play::play(rt, "exchange, most 2", &mut t, &MOST_2)
}

pub fn all(rt: &impl Print) -> io::Result<()> {
    room(rt)?;
    no_room(rt)?;
    most_2(rt)
}
