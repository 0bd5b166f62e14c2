//! What the console holds between two lines.

use restriction::Restriction;
use start_change::StartChange;

/// A pile is a grammar with the layers that stand over it; here a start change over a restriction over a base.
pub(crate) type Pile<B> = StartChange<Restriction<B>>;

/// The console's state over a base: the pile, the memory that is lent to calls, and the bound that they take.
#[derive(Drop)]
pub struct Session<B> {
    pub(crate) pile: Pile<B>,
    pub(crate) cells: Vec<u64>,
    pub(crate) stack: usize,
    pub(crate) output: usize,
    pub(crate) bound: usize,
}
