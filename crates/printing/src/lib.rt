// Bytes, numbers and answers, put one behind another at the front of a lent buffer.
#![tactic(auto)]

ghost use Rattle.std.specs.Prelude.{◌+◌, ◌*◌, ◌≤◌, length, ◌∷◌, ◌≡◌};
ghost use Rattle.lines.specs.Decimal.{decimal};

// A lent buffer, and how many bytes have been put at its front.
#[derive(Drop)]
pub struct Page<'a> {
    pub bytes: &'a mut [u8],
    pub len: usize,
    ghost within: { len ≤ length bytes.now },
}

impl<'a> Page<'a> {
    ghost use Rattle.printing.specs.Printed.{Empty, Adds, word_line, word_lines};

    // An empty one.
    pub fn new(bytes: &'a mut [u8]) -> Self
        ensures { Empty bytes.entry result }
    {
        Page { bytes, len: 0 }
    }

    // These bytes.
    pub fn put(&mut self, piece: &[u8])
        requires { self.old.len + length piece.now ≤ length self.old.bytes.now }
        ensures { Adds self.old piece.now self.new }
    {
        let end = self.len + piece.len();
        self.bytes[self.len..end].copy_from_slice(piece);
        self.len = end;
    }

    // A number's digits: those of its tenth, and the last.
    // No `write!`: it answers a `Result`, and its promise speaks of std's own decimals.
    pub fn put_number(&mut self, x: u32)
        requires { self.old.len + length (decimal x) ≤ length self.old.bytes.now }
        ensures { Adds self.old (decimal x) self.new }
    {
        if x < 10 {
            self.put(&[b'0' + x as u8]);
        } else {
            self.put_number(x / 10);
            self.put(&[b'0' + (x % 10) as u8]);
        }
    }

    // A space and a number: at most 11 bytes.
    fn put_field(&mut self, x: u32)
        requires { self.old.len + 11 ≤ length self.old.bytes.now }
        ensures adds { Adds self.old (32 ∷ decimal x) self.new }
        ensures within { self.new.len ≤ self.old.len + 11 }
    {
        self.put(b" ");
        self.put_number(x);
    }

    // The line of an answer's five words: at most 55 bytes.
    #[tactic(auto, using(crate::proofs::PrintedLaws::short))]
    fn put_answer(&mut self, answer: &[u32; 5])
        requires { self.old.len + 55 ≤ length self.old.bytes.now }
        ensures adds { Adds self.old (word_line answer.now) self.new }
        ensures within { self.new.len ≤ self.old.len + 55 }
    {
        let [code, server, origin, clock, value] = *answer;
        self.put_number(code);
        self.put_field(server);
        self.put_field(origin);
        self.put_field(clock);
        self.put_field(value);
        self.put(b"\n");
    }

    // The lines of answers, five words each.
    pub fn put_answers(&mut self, words: &[u32])
        requires { self.old.len + length words.now * 11 ≤ length self.old.bytes.now }
        ensures { Adds self.old (word_lines words.now) self.new }
    {
        let mut rest = words;
        while let Some(answer) = rest.first_chunk::<5>() {
            self.put_answer(answer);
            rest = &rest[5..];
        }
    }
}
