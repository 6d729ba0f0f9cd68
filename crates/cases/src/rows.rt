// The ten rows of 01's table, and its case `2 4 2`.
use std::io;
use telling::{play, rows, show};

const ONE_MORE: [[u32; 5]; 7] = [
    [1, 0, 0, 0, 0], // o 0 0
    [1, 1, 2, 0, 0], // o 1 2
    [4, 0, 1, 5, 1], // w 0 1 5 1
    [5, 0, 1, 9, 0], // x 0 1 9
    [4, 0, 2, 6, 1], // w 0 2 6 1
    [3, 1, 1, 1, 0], // r 1 1 1
    [3, 1, 1, 2, 0], // r 1 1 2
];

// A list as a run on one table, and one step after another on a second; both leave the same. The buffers are lent as `steps::run` takes them.
fn both_ways(
    rt: &impl Print,
    name: &str,
    list: &[[u32; 5]],
    t: &mut [u32],
    answers: &mut [u32],
    u: &mut [u32],
) -> io::Result<()> {
    play::run(rt, name, t, list.as_flattened(), answers)?;
    play::play(rt, name, u, list)?;
    print!(rt; "{name}, the steps leave the run's table:")?;
    show::kept(rt, t, u)
}

fn ten_rows(rt: &impl Print) -> io::Result<()> {
    let mut t: [u32; 48] = rows::fresh(2, 4, 1);
    let mut u: [u32; 48] = rows::fresh(2, 4, 1);
    both_ways(
        rt,
        "ten rows",
        &rows::TEN_ROWS,
        &mut t,
        &mut [0; 50],
        &mut u,
    )
}

fn one_more(rt: &impl Print) -> io::Result<()> {
    let mut t: [u32; 54] = rows::fresh(2, 4, 2);
    let mut u: [u32; 54] = rows::fresh(2, 4, 2);
    both_ways(rt, "2 4 2", &ONE_MORE, &mut t, &mut [0; 35], &mut u)
}

pub fn all(rt: &impl Print) -> io::Result<()> {
    ten_rows(rt)?;
    one_more(rt)
}
