//! How far the nullable symbols reach that a right-hand side begins with.

ghost use Rattle.std.specs.Prelude.{◌≡◌, ◌<◌, length, nat_lt, take};
ghost use Rattle.theory.specs.Sets.{Nullable};
ghost use Rattle.theory.specs.Count.{right_of};
ghost use Rattle.table.specs.Terms.{symbol_cell};
ghost use Rattle.table.specs.Layouts.{SymbolRow};
ghost use Rattle.table.specs.Filling.{NeedsNoRest, LeadingCorrect};
ghost use Rattle.table.specs.CellsOf.{grammar_of, bound_of};

use crate::cells::Cells;
use grammar::{Grammar, Symbol};

impl<G: Grammar> Cells<'_, G> {
    // Whether a symbol counts something at length 0.
    fn is_nullable(&self, symbol: Symbol) -> bool
        requires { SymbolRow (grammar_of self.now) symbol }
        ensures { result ≡ nat_lt 0 (symbol_cell (bound_of self.now) self.now.cells.now symbol 0) }
    {
        match symbol {
            Symbol::Terminal(_) => false,
            Symbol::Nonterminal(a) => self.cell(a as usize, 0) > 0,
        }
    }

    /// The position in slot `s` of the first symbol that is not nullable, or else the last position.
    pub(crate) fn prefix_end(&self, s: u8) -> u8
        requires inside { s < (grammar_of self.now).slots }
        requires some { 0 < length (right_of ((grammar_of self.now).slot s)) }
        requires leaders { LeadingCorrect (grammar_of self.now) (bound_of self.now) self.now.cells.now (right_of ((grammar_of self.now).slot s)) 0 }
        ensures far { result < length (right_of ((grammar_of self.now).slot s)) }
        ensures before { Nullable (grammar_of self.now) (take result (right_of ((grammar_of self.now).slot s))) }
        ensures last { NeedsNoRest (grammar_of self.now) (right_of ((grammar_of self.now).slot s)) result }
    {
        let end = self.grammar.length(s) - 1;
        // A `for` that ends early: the closure of a `find` would need clauses of its own.
        for p in 0..end {
            if !self.is_nullable(self.grammar.symbol_at(s, p).unwrap()) {
                return p;
            }
        }
        end
    }
}
