//! Reading the counts of a table that has been checked.

ghost use Rattle.std.specs.Prelude.{◌≡◌, ℕ, ◌+◌, ◌*◌, ◌<◌, ◌≤◌, take, drop, slice_index};
ghost use Rattle.theory.specs.Count.{left_of, right_of, if_left};
ghost use Rattle.table.specs.Reading.{numbered_row, side_ways};
ghost use Rattle.table.specs.CountsOf.{counted_row};
ghost use Rattle.table.specs.GrammarCountsOf.{grammar_of, Shows};

use crate::Row;
use crate::cells::Cells;
use crate::counts::Counts;
use crate::grammar_counts::GrammarCounts;
use grammar::Grammar;

// The first `count` of the cells from `from` on, or as many as there are.
fn part(cells: &[u64], from: usize, count: usize) -> &[u64]
    ensures { result.now ≡ take count (drop from cells.now) }
{
    let rest = &cells[from.min(cells.len())..];
    &rest[..count.min(rest.len())]
}

impl Counts<'_> {
    // The row of the first suffix of a slot, 0 where there is no such slot.
    fn offset(&self, slot: u8) -> u16
        ensures { result ≡ slice_index self.now.layout.offsets slot }
    {
        self.layout
            .offsets
            .get(usize::from(slot))
            .copied()
            .unwrap_or(0)
    }

    // Which row counts a nonterminal or a suffix.
    fn row_number(&self, row: Row) -> usize
        ensures is { result ≡ numbered_row self.now.layout.offsets row }
        ensures small { result ≤ 65790 }
    {
        match row {
            Row::Nonterminal(a) => usize::from(a),
            Row::Suffix { slot, position } => usize::from(self.offset(slot))
                + usize::from(position),
        }
    }

    /// The cells of a row, one for each of the lengths 0 to the bound; none where the table has no such row.
    pub fn row(&self, row: Row) -> &[u64]
        ensures { result.now ≡ counted_row self.now row }
    {
        let width = self.layout.bound + 1;
        part(self.cells, self.row_number(row) * width, width)
    }

    /// How many ways the right-hand side of `slot` has at `m`, if `slot` is one of a's, else 0. Left-hand and right-hand side are those of `g`, whose counts these need not be.
    // So it reads the row itself: `slot_count` is of cells whose layout is that of their grammar.
    pub fn slot_ways<G: Grammar>(&self, g: &G, a: u8, slot: u8, m: usize) -> u64
        ensures { result ≡ if_left (left_of ((G.meaning g.now).slot slot)) a (side_ways (right_of ((G.meaning g.now).slot slot)) (counted_row self.now (Row.Suffix slot 0)) m) }
    {
        if g.left(slot) != Some(a) {
            0
        } else if g.length(slot) == 0 {
            if m == 0 { 1 } else { 0 }
        } else {
            let row = self.row(Row::Suffix { slot, position: 0 });
            row.get(m).copied().unwrap_or(0)
        }
    }
}

impl<G: Grammar> GrammarCounts<'_, G> {
    /// The cells of a row, one for each of the lengths 0 to the bound; none where the table has no such row.
    pub fn row(&self, row: Row) -> &[u64]
        ensures { result.now ≡ counted_row self.now.counts row }
    {
        self.counts.row(row)
    }

    // The cells, to be read by row and length.
    fn view(&self) -> Cells<'_, G>
        ensures { Shows self.now result }
    {
        Cells {
            grammar: self.grammar,
            layout: &self.counts.layout,
            cells: self.counts.cells,
        }
    }

    /// How many ways the right-hand side of `slot` has at `m`, if `slot` is one of a's, else 0.
    pub fn slot_ways(&self, a: u8, slot: u8, m: usize) -> u64
        ensures { result ≡ if_left (left_of ((grammar_of self.now).slot slot)) a (side_ways (right_of ((grammar_of self.now).slot slot)) (counted_row self.now.counts (Row.Suffix slot 0)) m) }
    {
        if slot < self.grammar.slots() && m <= self.counts.layout.bound {
            self.view().slot_count(a, slot, m)
        } else {
            0
        }
    }
}
