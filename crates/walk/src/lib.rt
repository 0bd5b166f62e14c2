//! What expanding and numbering share: the order of part lengths, sums over them, what a number stands for, and how many frames are open.

#![tactic(auto)]

ghost use Rattle.std.specs.Prelude.{◌≡◌, if◌then◌else◌, nat_le, slice_index};
ghost use Rattle.theory.specs.Order.{LengthOrder, ListsLengths, ascending};
ghost use Rattle.theory.proofs.Ascending.{ascending_lists};

/// Which length of a part comes first: for each m, the lengths 0 to m in some order.
pub trait LengthPolicy {
    /// The order of the lengths.
    ghost order: { Self → LengthOrder };

    /// The length at place `i` of the lengths 0 to `m`; 0 past the end.
    // No `Option`: each caller goes through the places up to `m`, and would unwrap.
    fn length_at(&self, m: usize, i: usize) -> usize
        ensures { result ≡ slice_index (order self.now m) i };

    /// Each of the lengths 0 to m comes once.
    ghost lists: { (s : Self) → ListsLengths (order s) };
}

/// The shorter part first.
#[derive(Clone, Copy)]
pub struct ShortestFirst;

// `i` itself up to `m`, and 0 past it.
fn ascending_length(m: usize, i: usize) -> usize
    ensures { result ≡ (if nat_le i m then i else 0) }
{
    if i <= m { i } else { 0 }
}

impl LengthPolicy for ShortestFirst {
    ghost order = { λ s. ascending };

    ghost lists = { λ s. ascending_lists };

    fn length_at(&self, m: usize, i: usize) -> usize {
        ascending_length(m, i)
    }
}
