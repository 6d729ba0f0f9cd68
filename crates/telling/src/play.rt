// Playing a list of steps on a table: one after another, with what each one changed, or as a run.
// A case's name, table and list are lent one by one: each call would make a struct of them, and each function take it apart.
// A name is any bytes, lent as bytes or as text; it is written as it is.
use crate::show::{self, Words};
use std::convert::AsSlice;
use std::io;
use tables::refusal;

// One step: its words, its answer, and what became of the table, which has at most 64 words: there is no heap for a copy of any length.
fn step(rt: &impl Print, name: &[u8], t: &mut [u32], x: [u32; 5]) -> io::Result<()> {
    let n = t.len();
    if 64 < n {
        return println!(rt; "no room");
    }
    let mut before = [0u32; 64];
    words::copy(t, &mut before);
    let [kind, a, b, c, d] = x;
    let outcome = steps::step(t, kind, a, b, c, d);
    rt.write_all(name)?;
    print!(rt; ":{} ->{}", Words(&x), Words(&kinds::words(outcome)))?;
    match outcome {
        Ok(_) => show::left(rt, &before[..n], t),
        Err(_) => show::kept(rt, &before[..n], t),
    }
}

// The steps of a list, one after another.
pub fn play(
    rt: &impl Print,
    name: impl AsSlice<u8> + Copy,
    t: &mut [u32],
    list: &[[u32; 5]],
) -> io::Result<()> {
    for x in list {
        step(rt, name.as_slice(), t, *x)?;
    }
    Ok(())
}

// The codes of the steps of a list.
pub fn codes(rt: &impl Print, t: &mut [u32], list: &[[u32; 5]]) -> io::Result<()> {
    for &[kind, a, b, c, d] in list {
        let [code, ..] = kinds::words(steps::step(t, kind, a, b, c, d));
        print!(rt; " {code}")?;
    }
    Ok(())
}

// A script as one run: its code, its answers and every word of the table. Script and answers are lent as `steps::run` takes them, so they may
// be of any lengths.
pub fn run(
    rt: &impl Print,
    name: impl AsSlice<u8> + Copy,
    t: &mut [u32],
    script: &[u32],
    answers: &mut [u32],
) -> io::Result<()> {
    let code = refusal::code(steps::run(t, script, answers));
    rt.write_all(name.as_slice())?;
    println!(rt; ", run: {code}")?;
    show::answers(rt, name, answers)?;
    rt.write_all(name.as_slice())?;
    println!(rt; ", table:{}", Words(t))
}
