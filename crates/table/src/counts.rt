//! The counts of a table that has been checked.

ghost use Rattle.std.specs.Prelude.{◌≤◌};

use crate::layout::Layout;

/// The cells of a table that has been checked, its bound, and for each slot the row of its first suffix: what the calls read that come after the check.
///
/// The grammar is not held: it may change while the counts are read, and `slot_ways` takes any.
#[derive(Drop)]
pub struct Counts<'a> {
    pub(crate) layout: Layout,
    pub(crate) cells: &'a [u64],
    ghost low: { layout.bound ≤ 48 },
}
