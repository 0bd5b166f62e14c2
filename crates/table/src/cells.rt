//! The cells of a table, as they are read.

ghost use Rattle.table.specs.Layouts.{Ready};

use crate::layout::Layout;
use grammar::Grammar;

/// The cells of a table that has room for its layout, which is that of its grammar.
#[derive(Drop)]
pub(crate) struct Cells<'a, G: Grammar> {
    pub(crate) grammar: &'a G,
    pub(crate) layout: &'a Layout,
    pub(crate) cells: &'a [u64],
    ghost ready: { Ready (G.meaning grammar.now) layout.now cells.now },
}
