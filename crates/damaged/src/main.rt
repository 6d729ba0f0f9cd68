// Tables that aren't sound: each rule broken, by itself where that can be. Each kind of step answers 1, and the table keeps every
// word. Beside them stand tables with words at the ends of what is sound. `stdout` has the lines that 01 asks for.
#![tactic(auto)]

use std::io;
use telling::{play, rows, show};

mod changes;

// A step of each kind. All five are accepted on the table as it is.
const EACH_KIND: [[u32; 5]; 5] = [
    [1, 1, 0, 0, 0],
    [2, 1, 0, 0, 0],
    [3, 0, 7, 3, 0],
    [4, 0, 7, 80, 3],
    [5, 0, 1, 9, 0],
];

// Puts each word at its place, and tells it.
fn put_all(rt: &impl Print, t: &mut [u32], pairs: &[[u32; 2]]) -> io::Result<()> {
    for &[i, word] in pairs {
        let i = i as usize;
        show::word_at(rt, i, word)?;
        if let Some(place) = t.get_mut(i) {
            *place = word;
        }
    }
    Ok(())
}

// The codes of each kind of step on the table with some words changed, and what became of it.
fn damaged(rt: &impl Print, name: &str, pairs: &[[u32; 2]]) -> io::Result<()> {
    let mut t = rows::after_ten_rows();
    print!(rt; "{name}:")?;
    put_all(rt, &mut t, pairs)?;
    let before = t;
    print!(rt; " ->")?;
    play::codes(rt, &mut t, &EACH_KIND)?;
    show::left(rt, &before, &t)
}

// The same, of each change by itself.
fn each(rt: &impl Print, name: &str, pairs: &[[u32; 2]]) -> io::Result<()> {
    for pair in pairs {
        damaged(rt, name, &[*pair])?;
    }
    Ok(())
}

// The codes of each kind of step on the first n words, and what became of the table.
fn cut(rt: &impl Print, name: &str, t: &mut [u32], before: &[u32], n: usize) -> io::Result<()> {
    print!(rt; "{name}:")?;
    if let Some(front) = t.get_mut(..n) {
        play::codes(rt, front, &EACH_KIND)?;
    }
    show::left(rt, before, t)
}

// The first n words of the table, or one word more.
fn of_length(rt: &impl Print, name: &str, n: usize) -> io::Result<()> {
    let mut t = [0u32; 55];
    words::copy(&rows::after_ten_rows(), &mut t);
    let before = t;
    cut(rt, name, &mut t, &before, n)
}

// A header and zeros, of just the length that the header asks for.
fn fresh(rt: &impl Print, name: &str, n: u32, l: u32, p: u32, length: usize) -> io::Result<()> {
    let mut t = [0u32; 4110];
    words::copy(&[n, l, p], &mut t);
    let before = t;
    cut(rt, name, &mut t, &before, length)
}

fn sound(rt: &impl Print) -> io::Result<()> {
    damaged(rt, "sound", &[])?;
    each(rt, "sound", &changes::SOUND)
}

fn header(rt: &impl Print) -> io::Result<()> {
    each(rt, "a", &changes::HEADER)
}

fn lengths(rt: &impl Print) -> io::Result<()> {
    of_length(rt, "a, no words", 0)?;
    of_length(rt, "a, 1 word", 1)?;
    of_length(rt, "a, 3 words", 3)?;
    of_length(rt, "a, 4 words", 4)?;
    of_length(rt, "a, one word less", 53)?;
    of_length(rt, "a, one word more", 55)
}

fn limits(rt: &impl Print) -> io::Result<()> {
    fresh(rt, "a, N 0, length as it asks", 0, 1, 1, 6)?;
    fresh(rt, "a, N 17, length as it asks", 17, 1, 1, 414)?;
    fresh(rt, "a, L 0, length as it asks", 1, 0, 1, 10)?;
    fresh(rt, "a, L 1025, length as it asks", 1, 1025, 1, 4110)?;
    fresh(rt, "a, P 0, length as it asks", 1, 1, 0, 10)?;
    fresh(rt, "a, P 17, length as it asks", 1, 1, 17, 78)
}

fn counts(rt: &impl Print) -> io::Result<()> {
    each(rt, "b", &changes::COUNTS)?;
    damaged(rt, "b, count below the writes", &[[6, 2], [5, 0]])?;
    damaged(rt, "b, count above L", &changes::COUNT_ABOVE_L)
}

fn entries(rt: &impl Print) -> io::Result<()> {
    damaged(rt, "c, item 256", &[[16, 256]])?;
    damaged(rt, "c, origin out of range", &[[5, 0], [18, 2]])?;
    damaged(rt, "c, greatest origin", &[[5, 0], [18, 4294967295]])?;
    damaged(rt, "c, count above the writes", &[[6, 4]])
}

fn clocks(rt: &impl Print) -> io::Result<()> {
    damaged(rt, "c, clock gap", &changes::CLOCK_GAP)?;
    damaged(rt, "c, first clock 2", &changes::FIRST_CLOCK_2)?;
    damaged(rt, "c, first clock 0", &changes::FIRST_CLOCK_0)
}

fn order(rt: &impl Print) -> io::Result<()> {
    damaged(rt, "c, origins down", &changes::ORIGINS_DOWN)?;
    damaged(rt, "c, clocks down", &changes::CLOCKS_DOWN)?;
    damaged(rt, "c, a write twice", &changes::A_WRITE_TWICE)?;
    damaged(rt, "c, origin and clock twice", &changes::A_KEY_TWICE)
}

fn vectors(rt: &impl Print) -> io::Result<()> {
    each(rt, "d", &changes::VECTORS)?;
    damaged(rt, "d, below the log at home", &[[4, 1], [44, 1], [46, 1]])
}

fn agreement(rt: &impl Print) -> io::Result<()> {
    each(rt, "e", &changes::AGREEMENT)?;
    damaged(rt, "e, another write than at home", &changes::ANOTHER_WRITE)?;
    damaged(rt, "e, a write that home lacks", &changes::HOME_LACKS)?;
    damaged(
        rt,
        "e, an earlier write is missing",
        &changes::EARLIER_MISSING,
    )
}

fn slots(rt: &impl Print) -> io::Result<()> {
    each(rt, "f", &changes::SLOTS)
}

fn main(rt: HostRuntime) -> io::Result<()> {
    sound(&rt)?;
    header(&rt)?;
    lengths(&rt)?;
    limits(&rt)?;
    counts(&rt)?;
    entries(&rt)?;
    clocks(&rt)?;
    order(&rt)?;
    vectors(&rt)?;
    agreement(&rt)?;
    slots(&rt)
}
