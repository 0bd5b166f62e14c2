//! The guard that holds the cells while they are counted.

ghost use Rattle.std.specs.Prelude.{◌≡◌, ℕ, ◌<◌, ◌≤◌, length, MatchResult};
ghost use Rattle.table.specs.Layouts.{Ready};
ghost use Rattle.table.specs.Calls.{Zeroed, Released, Filled, Stopped};

use crate::filling::{TooLarge, fill_length};
use crate::layout::Layout;
use grammar::Grammar;

// Writes 0 into the first `n` cells.
fn zero(cells: &mut [u64], n: usize)
    requires { n ≤ length cells.old }
    ensures { Zeroed n cells.old cells.new }
{
    cells[..n].fill(0);
}

/// Holds the cells of a table while it is counted. Dropped before the count is accepted, it writes 0 into the needed cells.
// A lent slice, how many of its cells are needed, and a flag: what its end reads, and no type of state, since every way out ends it.
pub(crate) struct Counting<'a> {
    pub(crate) cells: &'a mut [u64],
    pub(crate) needed: usize,
    pub(crate) accepted: bool,
}

impl Drop for Counting<'_> {
    fn drop(self)
        requires { self.needed ≤ length self.cells.now }
        ensures { Released self.entry.accepted self.entry.needed self.entry.cells.now self.exit.0.now }
    {
        if !self.accepted {
            let needed = self.needed;
            zero(self.cells, needed);
        }
        let Counting {
            cells: _,
            needed: _,
            accepted: _,
        } = self;
    }
}

/// Fills the needed cells with the counts up to the layout's bound, or zeroes them and says the smallest length where a count passes the limit.
pub(crate) fn count_cells<G: Grammar>(
    g: &G,
    layout: &Layout,
    cells: &mut [u64],
) -> Result<(), TooLarge>
    requires ready { Ready (G.meaning g.now) layout.now cells.old }
    ensures { MatchResult result (λ _. Filled (G.meaning g.now) layout.now.bound cells.old cells.new) (λ e. Stopped (G.meaning g.now) layout.now.bound cells.old cells.new e.length) }
{
    let mut counting = Counting {
        cells,
        needed: layout.needed(),
        accepted: false,
    };
    for m in 0..=layout.bound {
        fill_length(g, layout, counting.cells, m)?;
    }
    counting.accepted = true;
    Ok(())
}
