// Runs: lengths that fit and lengths that don't, and tables that aren't sound.
use std::io;
use tables::refusal;
use telling::rows;
use telling::show::{self, Words};

// Word 3 of the table, the length of the script and the length of the answer buffer.
const LENGTHS: [[u32; 3]; 15] = [
    [0, 4, 4],
    [0, 6, 6],
    [0, 11, 11],
    [0, 10, 5],
    [0, 5, 10],
    [0, 5, 4],
    [0, 5, 6],
    [0, 5, 0],
    [0, 0, 5],
    [1, 6, 6],
    [1, 5, 0],
    [0, 0, 0],
    [1, 0, 0],
    [0, 15, 15],
    [1, 15, 15],
];

// The second is refused, and the third is done all the same.
const SCRIPT: [[u32; 5]; 3] = [[3, 0, 7, 3, 0], [3, 0, 7, 2, 0], [5, 0, 1, 9, 0]];

// A run on the table after the ten rows, with nines in the answer buffer.
fn run(rt: &impl Print, lengths: [u32; 3]) -> io::Result<()> {
    let mut t = rows::after_ten_rows();
    let [word_3, m, n] = lengths;
    t[3] = word_3;
    let before = t;
    let mut answers = [9u32; 15];
    let script = SCRIPT.as_flattened().get(..m as usize);
    let code = match (script, answers.get_mut(..n as usize)) {
        (Some(script), Some(answers)) => refusal::code(steps::run(&mut t, script, answers)),
        _ => return println!(rt; "no room"),
    };
    print!(rt;
        "run, with word 3 and lengths:{} -> {code}",
        Words(&lengths)
    )?;
    print!(rt; ", answers{}, table", Words(&answers))?;
    show::left(rt, &before, &t)
}

// A table of no words: no steps, and then one.
fn no_words(rt: &impl Print) -> io::Result<()> {
    let mut answers = [9u32; 5];
    let none = refusal::code(steps::run(&mut [], &[], &mut []));
    let one = refusal::code(steps::run(&mut [], &[1, 0, 0, 0, 0], &mut answers));
    println!(rt;
        "run, a table of no words, no steps and one: {none} {one}, answers{}",
        Words(&answers)
    )
}

pub fn all(rt: &impl Print) -> io::Result<()> {
    for lengths in &LENGTHS {
        run(rt, *lengths)?;
    }
    no_words(rt)
}
