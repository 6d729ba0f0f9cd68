// The largest table, 16 1024 16, of 66,356 words: made, and used at its last server, slot and item.
use crate::making;
use std::io;
use tables::refusal;
use telling::show;

const STEPS: [[u32; 5]; 9] = [
    [1, 15, 15, 0, 0],
    [1, 16, 15, 0, 0], // slot out of range
    [4, 15, 255, 4294967295, 32768],
    [4, 15, 255, 4294967295, 65536], // reach out of range
    [3, 15, 255, 65535, 0],
    [3, 15, 255, 32767, 0], // all but server 15 are behind
    [5, 15, 0, 4294967295, 0],
    [5, 15, 16, 4294967295, 0], // server out of range
    [3, 15, 255, 1, 0],
];

pub fn all(rt: &impl Print) -> io::Result<()> {
    let mut t = [9u32; 66356];
    let code = refusal::code(tables::making::make(16, 1024, 16, &mut t));
    let fresh = t;
    print!(rt; "largest table, made: {code}")?;
    making::made(rt, &fresh)?;
    let mut answers = [0u32; 45];
    let code = refusal::code(steps::run(&mut t, STEPS.as_flattened(), &mut answers));
    println!(rt; "largest table, run: {code}")?;
    show::answers(rt, "largest table", &answers)?;
    print!(rt; "largest table, what changed:")?;
    show::left(rt, &fresh, &t)
}
