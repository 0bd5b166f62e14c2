//! The two counting equations: what the cells of a table say that a cell should hold.

ghost use Rattle.std.specs.Prelude.{◌≡◌, ℕ, ◌+◌, ◌*◌, ◌^◌, ◌<◌, ◌≤◌, length, IfSome};
ghost use Rattle.theory.specs.Count.{left_of, right_of, if_left, one_at, sum_splits};
ghost use Rattle.table.specs.Rows.{first_row, rows, cell_at};
ghost use Rattle.table.specs.Equations.{suffix_cell, equation};
ghost use Rattle.table.specs.Terms.{from_cell, rest_cell, symbol_sum};
ghost use Rattle.table.specs.Layouts.{AtRow, ReadOf, read_sum, SymbolRow, TermsRow};
ghost use Rattle.table.specs.Filling.{Within};
ghost use Rattle.table.specs.CellsOf.{grammar_of, bound_of};

use crate::Row;
use crate::cells::Cells;
use grammar::{Grammar, Symbol};

/// The greatest count that a cell may hold, 2^63 - 1.
const LIMIT: u64 = 0x7fff_ffff_ffff_ffff;

// `value` itself, unless it passes the limit.
fn within_limit(value: u64) -> Option<u64>
    ensures { Within value result }
{
    (value <= LIMIT).then_some(value)
}

// `sum` and the product of `a` and `b`, unless that passes the limit.
fn add_product(sum: u64, a: u64, b: u64) -> Option<u64>
    ensures { Within (sum + a * b) result }
{
    let product = a.checked_mul(b)?;
    sum.checked_add(product).filter(|total| *total <= LIMIT)
}

// The sum over j from 0 to `m` of the cell j places from `first` times the cell `m` - j places from `rest`.
fn convolve(cells: &[u64], first: usize, rest: usize, m: usize) -> Option<u64>
    requires first_inside { first + m < length cells.now }
    requires rest_inside { rest + m < length cells.now }
    ensures { Within (sum_splits (from_cell cells.now first) (from_cell cells.now rest) m) result }
{
    // By index: a chain of iterators over the two slices makes the whole check slower by a quarter.
    let mut sum = 0;
    for j in 0..=m {
        sum = add_product(sum, cells[first + j], cells[rest + (m - j)])?;
    }
    Some(sum)
}

/// What is read of a row's equation before its cells are looked at: the slots of a nonterminal, or the first symbol of a suffix and the row of the rest, none if that is empty.
#[derive(Clone, Copy)]
pub(crate) enum Terms {
    Slots(u8),
    Split { symbol: Symbol, rest: Option<usize> },
}

/// What is read of `row`, which stands at `at`.
pub(crate) fn terms_of<G: Grammar>(g: &G, row: Row, at: usize) -> Terms
    requires { AtRow (G.meaning g.now) row at }
    ensures { ReadOf (G.meaning g.now) row at result }
{
    match row {
        Row::Nonterminal(a) => Terms::Slots(a),
        Row::Suffix { slot, position } => {
            let symbol = g.symbol_at(slot, position).unwrap();
            let rest = (position + 1 < g.length(slot)).then_some(at + 1);
            Terms::Split { symbol, rest }
        }
    }
}

// The clauses on a row, a slot or a length speak of an argument of the one call, not of the cells: they stay clauses.
impl<G: Grammar> Cells<'_, G> {
    /// The cell of a row for the length `m`.
    pub(crate) fn cell(&self, row: usize, m: usize) -> u64
        requires row { row < rows (grammar_of self.now) }
        requires short { m ≤ bound_of self.now }
        ensures { result ≡ cell_at (bound_of self.now) self.now.cells.now row m }
    {
        self.cells[self.layout.place(row, m)]
    }

    // The sum for a suffix that begins with a terminal: its rest at one less.
    fn terminal_sum(&self, rest: Option<usize>, m: usize) -> Option<u64>
        requires rest { IfSome rest (λ r. r < rows (grammar_of self.now)) }
        requires short { m ≤ bound_of self.now }
        ensures { Within (sum_splits (one_at 1) (rest_cell (bound_of self.now) self.now.cells.now rest) m) result }
    {
        let Some(before) = m.checked_sub(1) else {
            return Some(0);
        };
        match rest {
            None => Some(if before == 0 { 1 } else { 0 }),
            Some(rest) => within_limit(self.cell(rest, before)),
        }
    }

    // The sum over the splits of `m` between a symbol and the rest behind it.
    fn split_sum(&self, symbol: Symbol, rest: Option<usize>, m: usize) -> Option<u64>
        requires first { SymbolRow (grammar_of self.now) symbol }
        requires second { IfSome rest (λ r. r < rows (grammar_of self.now)) }
        requires short { m ≤ bound_of self.now }
        ensures { Within (symbol_sum (bound_of self.now) self.now.cells.now symbol rest m) result }
    {
        match (symbol, rest) {
            (Symbol::Terminal(_), _) => self.terminal_sum(rest, m),
            (Symbol::Nonterminal(a), None) => within_limit(self.cell(a as usize, m)),
            (Symbol::Nonterminal(a), Some(rest)) => {
                let width = self.layout.bound + 1;
                convolve(self.cells, a as usize * width, rest * width, m)
            }
        }
    }

    /// What the cells say of the right-hand side of slot `s` at `m`, if it is one of a's, else 0.
    pub(crate) fn slot_count(&self, a: u8, s: u8, m: usize) -> u64
        requires inside { s < (grammar_of self.now).slots }
        requires short { m ≤ bound_of self.now }
        ensures { result ≡ if_left (left_of ((grammar_of self.now).slot s)) a (suffix_cell (bound_of self.now) self.now.cells.now (right_of ((grammar_of self.now).slot s)) (first_row (grammar_of self.now) s) m) }
    {
        if self.grammar.left(s) != Some(a) {
            0
        } else if self.grammar.length(s) == 0 {
            if m == 0 { 1 } else { 0 }
        } else {
            self.cell(self.layout.offsets[s as usize] as usize, m)
        }
    }

    // The sum at `m` over the slots of `a`.
    fn slots_sum(&self, a: u8, m: usize) -> Option<u64>
        requires { m ≤ bound_of self.now }
        ensures { Within (equation (grammar_of self.now) (bound_of self.now) self.now.cells.now (Row.Nonterminal a) m) result }
    {
        let mut sum = 0;
        for s in 0..self.grammar.slots() {
            sum = add_product(sum, 1, self.slot_count(a, s, m))?;
        }
        Some(sum)
    }

    /// What the equation of the row of which `terms` was read says of its cell at `m`, unless that passes the limit.
    // Inlined, and so is `fill`: at a call the terms and the view would go through memory, and counting would be slower by a quarter.
    #[inline(always)]
    pub(crate) fn sum_of(&self, terms: Terms, m: usize) -> Option<u64>
        requires rows { TermsRow (grammar_of self.now) terms }
        requires short { m ≤ bound_of self.now }
        ensures { Within (read_sum (grammar_of self.now) (bound_of self.now) self.now.cells.now terms m) result }
    {
        match terms {
            Terms::Slots(a) => self.slots_sum(a, m),
            Terms::Split { symbol, rest } => self.split_sum(symbol, rest, m),
        }
    }
}
