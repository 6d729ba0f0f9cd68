// Making a table, in buffers that hold nines.
use std::io;
use tables::refusal;
use telling::show::{self, Words};

// N, L, P and the length of the buffer.
const SIZES: [[u32; 4]; 30] = [
    [1, 1, 1, 14], // at each end of N, L and P and one past it, with the length that the formula gives
    [0, 1, 1, 6],
    [16, 1, 1, 374],
    [17, 1, 1, 414],
    [1, 0, 1, 10],
    [1, 1024, 1, 4106],
    [1, 1025, 1, 4110],
    [1, 1, 0, 10],
    [1, 1, 16, 74],
    [1, 1, 17, 78],
    [0, 0, 0, 4],
    [0, 1, 1, 5], // 2 is tested before 8
    [17, 1, 1, 413],
    [1, 0, 1, 11],
    [1, 1025, 1, 4109],
    [1, 1, 0, 9],
    [1, 1, 17, 79],
    [4294967295, 1, 1, 14],
    [1, 4294967295, 1, 14],
    [1, 1, 4294967295, 14],
    [0, 0, 0, 0],
    [2, 4, 1, 48], // lengths
    [2, 4, 1, 47],
    [2, 4, 1, 49],
    [2, 4, 1, 0],
    [2, 4, 1, 1],
    [2, 4, 1, 3],
    [1, 1, 1, 13],
    [1, 1, 1, 15],
    [16, 1024, 16, 4110],
];

// A table that was made: its header, and whether zeros follow it.
pub fn made(rt: &impl Print, t: &[u32]) -> io::Result<()> {
    let Some((header, rest)) = t.split_at_checked(4) else {
        return Ok(());
    };
    print!(rt; "{}", Words(header))?;
    if words::all_zero(rest) {
        println!(rt; " and zeros")
    } else {
        println!(rt; " NOT ZEROS")
    }
}

// Makes a table in a buffer that holds the same words as another.
fn make_in(rt: &impl Print, size: [u32; 4], buffer: &mut [u32], before: &[u32]) -> io::Result<()> {
    let [n, l, p, _] = size;
    let outcome = tables::making::make(n, l, p, buffer);
    print!(rt;
        "make, and length:{} -> {}",
        Words(&size),
        refusal::code(outcome)
    )?;
    match outcome {
        Ok(()) => made(rt, buffer),
        Err(_) => show::kept(rt, before, buffer),
    }
}

// The same in a buffer of nines, at most 4,110 of them. No row of `SIZES` has more.
fn make(rt: &impl Print, size: [u32; 4]) -> io::Result<()> {
    let mut buffer = [9u32; 4110];
    let before = [9u32; 4110];
    let length = size[3] as usize;
    match (buffer.get_mut(..length), before.get(..length)) {
        (Some(buffer), Some(before)) => make_in(rt, size, buffer, before),
        _ => Ok(()),
    }
}

pub fn all(rt: &impl Print) -> io::Result<()> {
    for size in &SIZES {
        make(rt, *size)?;
    }
    Ok(())
}
