// Version vectors in words: one word for each server, component j at place j of a slice.
// No array type: how many servers there are is known at run time.
// Two vectors of one call have the same length. Vectors themselves are defined in specs/Vector.antt.
#![tactic(auto)]

ghost use Rattle.std.specs.Prelude.{◌≡◌, length};
ghost use Rattle.words.specs.Lists.{row};
ghost use Rattle.vectors.specs.Vector.{vector_of, dominates, join, greatest};

// Does the vector a dominate the vector b: is each component of a at least that of b?
pub fn dominates(a: &[u32], b: &[u32]) -> bool
    requires { length a.now ≡ length b.now }
    ensures { result ≡ dominates (length a.now) (vector_of a.now) (vector_of b.now) }
{
    a.iter().zip(b).all(|(x, y)| x >= y)
}

// Raises the vector a to the join of a and b: each component becomes the larger of the two.
pub fn raise(a: &mut [u32], b: &[u32])
    requires { length a.old ≡ length b.now }
    ensures { a.new ≡ row (length a.old) (join (vector_of a.old) (vector_of b.now)) }
{
    // Of the words that a zip over `iter_mut` writes, a proof learns nothing.
    for (j, x) in a.iter_mut().enumerate() {
        *x = (*x).max(b[j]);
    }
}

// The greatest component of the vector a, and 0 where it has none.
pub fn greatest(a: &[u32]) -> u32
    ensures { result ≡ greatest (length a.now) (vector_of a.now) }
{
    a.iter().fold(0, |most, x| (*x).max(most))
}
