// The ten rows of 01's table, and the table that they leave.
ghost use Rattle.std.specs.Prelude.{◌≡◌, length, replicate};
ghost use Rattle.tables.specs.Make.{making};

pub const TEN_ROWS: [[u32; 5]; 10] = [
    [1, 0, 1, 0, 0], // o 0 1
    [4, 0, 7, 50, 1], // w 0 7 50 1
    [3, 0, 7, 2, 0], // r 0 7 2
    [5, 0, 1, 9, 0], // x 0 1 9
    [3, 0, 7, 2, 0], // r 0 7 2
    [4, 0, 7, 60, 2], // w 0 7 60 2
    [4, 0, 7, 70, 1], // w 0 7 70 1
    [3, 0, 7, 1, 0], // r 0 7 1
    [5, 1, 0, 9, 0], // x 1 0 9
    [3, 0, 7, 3, 0], // r 0 7 3
];

// The table after the ten rows, with a second slot, closed:
//   header, from 0: 2 4 2 0
//   heads, from 4: 2 2 3, from 7: 1 2 2
//   log 0, from 10: 0 1 7 50, 0 2 7 70, 1 2 7 60, 0 0 0 0
//   log 1, from 26: 0 1 7 50, 1 2 7 60, 0 0 0 0, 0 0 0 0
//   slot 0, from 42: 2 1 2 2 2 2, slot 1, from 48: 0 0 0 0 0 0
pub fn after_ten_rows() -> [u32; 54]
    ensures { 54 ≡ length result }
{
    let mut t = fresh(2, 4, 2);
    let mut answers = [0u32; 50];
    // As many answers as words of steps, so no length is refused.
    let _ = steps::run(&mut t, TEN_ROWS.as_flattened(), &mut answers);
    t
}

// A fresh table of these sizes where they ask for just so many words, else zeros.
pub fn fresh<const WORDS: usize>(n: u32, l: u32, p: u32) -> [u32; WORDS]
    ensures { result ≡ (making (record { n = n; l = l; p = p }) (replicate WORDS 0)).buffer }
{
    let mut t = [0u32; WORDS];
    let _ = tables::making::make(n, l, p, &mut t);
    t
}
