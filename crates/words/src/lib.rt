// Words in lent slices, whatever they mean: set to zero, tested for zero, copied, put at a place.
#![tactic(auto)]

ghost use Rattle.std.specs.Prelude.{◌≡◌, ◌++◌, ◌+◌, ◌*◌, ◌≤◌, length, replicate, drop};
ghost use Rattle.words.specs.Lists.{splice};
ghost use Rattle.words.specs.Tests.{zeros};

// Sets every word to 0.
pub fn clear(a: &mut [u32])
    ensures { a.new ≡ replicate (length a.old) 0 }
{
    a.fill(0);
}

// Is every word 0?
pub fn all_zero(a: &[u32]) -> bool
    ensures { result ≡ zeros a.now }
{
    // By blocks, so that the first one with a bit is the last one read.
    let (blocks, rest) = a.as_chunks::<64>();
    blocks.iter().all(|block| no_bits(block)) && no_bits(rest)
}

// Has none of these words a bit? All of them are read.
fn no_bits(a: &[u32]) -> bool
    ensures { result ≡ zeros a.now }
{
    // `all` would take the words one by one: the check of an empty table then takes almost four times as long.
    a.iter().fold(0, |bits, word| bits | word) == 0
}

// Copies all words of b to the front of a.
pub fn copy(b: &[u32], a: &mut [u32])
    requires { length b.now ≤ length a.old }
    ensures { a.new ≡ b.now ++ drop (length b.now) a.old }
{
    a[..b.len()].copy_from_slice(b);
}

// Puts a block of N words at place i of a list of such blocks.
pub fn put<const N: usize>(a: &mut [u32], i: usize, block: &[u32; N])
    requires { i * N + N ≤ length a.old }
    ensures { a.new ≡ splice (i * N) N a.old block.now }
{
    let at = i * N;
    a[at..at + N].copy_from_slice(block);
}
