//! Where the rows of a table stand, found once per call.

ghost use Rattle.std.specs.Prelude.{◌≡◌, ◌+◌, ◌*◌, ◌^◌, ◌<◌, ◌≤◌};
ghost use Rattle.table.specs.Rows.{place};
ghost use Rattle.table.specs.Layouts.{Laid, NoOffsetsPast};

use grammar::Grammar;

/// The bound of a table, its number of rows, and for each slot the row of its first suffix.
// An array for the most slots that a grammar has: the library uses no heap.
#[derive(Drop)]
pub(crate) struct Layout {
    pub(crate) bound: usize,
    pub(crate) rows: usize,
    pub(crate) offsets: [u16; 64],
}

impl Layout {
    /// How many cells the table needs.
    pub(crate) fn needed(&self) -> usize
        requires low { self.now.bound ≤ 48 }
        requires few { self.now.rows ≤ 400 }
        ensures { result ≡ self.now.rows * (self.now.bound + 1) }
    {
        self.rows * (self.bound + 1)
    }

    /// Which cell is that of a row for the length `m`.
    pub(crate) fn place(&self, row: usize, m: usize) -> usize
        requires low { self.now.bound ≤ 48 }
        requires fits { place self.now.bound row m < 2 ^ 64 }
        ensures { result ≡ place self.now.bound row m }
    {
        row * (self.bound + 1) + m
    }
}

/// The layout of the table of `g` for `bound`.
pub(crate) fn lay_out<G: Grammar>(g: &G, bound: usize) -> Layout
    ensures laid { Laid (G.meaning g.now) bound result }
    ensures past { NoOffsetsPast (G.meaning g.now) result }
{
    let mut offsets = [0; 64];
    let mut rows = g.nonterminals() as u16;
    // By index: while a `zip` over `offsets.iter_mut()` lends them, no invariant can say what they hold (tried).
    for s in 0..g.slots() {
        offsets[s as usize] = rows;
        rows += g.length(s) as u16;
    }
    Layout {
        bound,
        rows: rows as usize,
        offsets,
    }
}
