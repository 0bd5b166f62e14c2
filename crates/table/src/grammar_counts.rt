//! The counts of a checked table with the grammar that they are of.

ghost use Rattle.std.specs.Prelude.{◌≡◌};
ghost use Rattle.table.specs.Rows.{rows};
ghost use Rattle.table.specs.Reading.{SoundCells};

use crate::counts::Counts;
use grammar::Grammar;

/// The counts of a checked table with the grammar that they are of: the type says that each needed cell is its count.
#[derive(Drop)]
pub struct GrammarCounts<'a, G: Grammar> {
    pub grammar: &'a G,
    pub(crate) counts: Counts<'a>,
    ghost laid: { counts.layout.rows ≡ rows (G.meaning grammar.now) },
    ghost sound: { SoundCells (G.meaning grammar.now) counts.layout.bound counts.cells.now counts.layout.offsets },
}
