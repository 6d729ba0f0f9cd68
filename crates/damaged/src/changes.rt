// Changes of the table that `telling::rows::after_ten_rows` leaves: a place, and the word that is put there.

pub const SOUND: [[u32; 2]; 5] = [
    [16, 255], // an item, held at home only
    [17, 4294967295], // a value, held at home only
    [42, 16], // guarantees 15
    [43, 0], // no last-used server
    [43, 2], // last-used is server 1
];

pub const HEADER: [[u32; 2]; 14] = [
    [0, 0], // N
    [0, 1],
    [0, 3],
    [0, 4294967295],
    [1, 0], // L
    [1, 3],
    [1, 5],
    [1, 4294967295],
    [2, 0], // P
    [2, 1],
    [2, 3],
    [2, 4294967295],
    [3, 1],
    [3, 4294967295],
];

pub const COUNTS: [[u32; 2]; 7] = [
    [9, 4294967295],
    [22, 1], // origin, clock, item, value past the count
    [23, 1],
    [24, 1],
    [25, 1],
    [34, 1],
    [41, 1],
];

pub const VECTORS: [[u32; 2]; 6] = [
    [4, 3], // above the log
    [5, 3],
    [8, 4294967295],
    [5, 1], // below the log
    [7, 0],
    [7, 2], // covers a write that the log lacks
];

pub const AGREEMENT: [[u32; 2]; 4] = [
    [28, 8], // another item than at home
    [20, 8],
    [29, 51], // another value than at home
    [21, 61],
];

pub const SLOTS: [[u32; 2]; 11] = [
    [49, 1], // a closed slot's words
    [50, 1],
    [53, 1],
    [42, 17], // guarantees
    [42, 4294967295],
    [43, 3], // last-used
    [43, 4294967295],
    [44, 3], // read-vector above home's own
    [45, 3],
    [46, 3], // write-vector above home's own
    [47, 3],
];

// A log of four writes.
pub const COUNT_ABOVE_L: [[u32; 2]; 5] = [[4, 3], [6, 5], [23, 3], [24, 7], [25, 90]];

// Clock 3 for clock 2 everywhere: the least gap there is.
pub const CLOCK_GAP: [[u32; 2]; 6] = [[4, 3], [5, 3], [8, 3], [15, 3], [19, 3], [31, 3]];

// Every clock one more.
pub const FIRST_CLOCK_2: [[u32; 2]; 9] = [
    [4, 3],
    [5, 3],
    [7, 2],
    [8, 3],
    [11, 2],
    [15, 3],
    [19, 3],
    [27, 2],
    [31, 3],
];

// Every clock one less, and a session that has seen nothing.
pub const FIRST_CLOCK_0: [[u32; 2]; 13] = [
    [4, 1],
    [5, 1],
    [7, 0],
    [8, 1],
    [11, 0],
    [15, 1],
    [19, 1],
    [27, 0],
    [31, 1],
    [44, 0],
    [45, 0],
    [46, 0],
    [47, 0],
];

// The two writes with clock 2 change places.
pub const ORIGINS_DOWN: [[u32; 2]; 4] = [[14, 1], [17, 60], [18, 0], [21, 70]];

// Server 1 has made one write, with clock 1, and it is last in log 0.
pub const CLOCKS_DOWN: [[u32; 2]; 13] = [
    [5, 1],
    [7, 0],
    [8, 1],
    [9, 1],
    [19, 1],
    [26, 1],
    [29, 60],
    [30, 0],
    [31, 0],
    [32, 0],
    [33, 0],
    [45, 1],
    [47, 1],
];

// The last write of both logs again, at home too.
pub const A_WRITE_TWICE: [[u32; 2]; 10] = [
    [6, 4],
    [9, 3],
    [22, 1],
    [23, 2],
    [24, 7],
    [25, 60],
    [34, 1],
    [35, 2],
    [36, 7],
    [37, 60],
];

// The same with another item and value.
pub const A_KEY_TWICE: [[u32; 2]; 10] = [
    [6, 4],
    [9, 3],
    [22, 1],
    [23, 2],
    [24, 8],
    [25, 61],
    [34, 1],
    [35, 2],
    [36, 8],
    [37, 61],
];

// Log 1 has another second write of server 0 than home.
pub const ANOTHER_WRITE: [[u32; 2]; 5] = [[7, 3], [9, 3], [35, 3], [36, 7], [37, 90]];

// Log 1 has all of server 0's writes, and one more with clock 3.
pub const HOME_LACKS: [[u32; 2]; 11] = [
    [7, 3],
    [9, 4],
    [30, 0],
    [33, 70],
    [34, 1],
    [35, 2],
    [36, 7],
    [37, 60],
    [39, 3],
    [40, 7],
    [41, 90],
];

// Log 1 is 1 1 7 60, 0 2 7 70: it lacks server 0's first write, and its vector covers the second.
pub const EARLIER_MISSING: [[u32; 2]; 14] = [
    [5, 0],
    [6, 2],
    [7, 2],
    [8, 1],
    [18, 0],
    [19, 0],
    [20, 0],
    [21, 0],
    [26, 1],
    [29, 60],
    [30, 0],
    [33, 70],
    [45, 1],
    [47, 1],
];
