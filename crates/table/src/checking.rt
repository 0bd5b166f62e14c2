//! The check of every needed cell against its equation.

ghost use Rattle.std.specs.Prelude.{◌≡◌, ◌+◌, ◌<◌, MatchResult};
ghost use Rattle.fault.specs.declared.Fault.TheVariants as fault;
ghost use Rattle.table.specs.Rows.{first_row, place};
ghost use Rattle.table.specs.Equations.{AllObey};
ghost use Rattle.table.specs.Layouts.{AtRow};
ghost use Rattle.table.specs.CellsOf.{grammar_of, bound_of, ObeyTo, Names};

use crate::Row;
use crate::cells::Cells;
use crate::sums::terms_of;
use fault::Fault;
use grammar::Grammar;

/// The lowest needed cell that breaks its equation.
#[derive(Clone, Copy)]
pub(crate) struct BrokenCell(pub(crate) usize);

impl From<BrokenCell> for Fault {
    ghost from_gives = { λ e f. f ≡ fault.BrokenCell e.0 };

    fn from(e: BrokenCell) -> Fault {
        Fault::BrokenCell(e.0 as u64)
    }
}

impl<G: Grammar> Cells<'_, G> {
    // Whether the cells of a row obey their equations, where those below the row do.
    // Its number comes with the row here and where it is filled: it is found once, and not looked up for each cell.
    fn check_row(&self, row: Row, at: usize) -> Result<(), BrokenCell>
        requires stands { AtRow (grammar_of self.now) row at }
        requires below { ObeyTo self.now (place (bound_of self.now) at 0) }
        ensures { MatchResult result (λ _. ObeyTo self.now (place (bound_of self.now) (at + 1) 0)) (Names self.now) }
    {
        let terms = terms_of(self.grammar, row, at);
        for m in 0..=self.layout.bound {
            if self.sum_of(terms, m) != Some(self.cell(at, m)) {
                return Err(BrokenCell(self.layout.place(at, m)));
            }
        }
        Ok(())
    }

    // Whether the cells of a slot's rows obey their equations, where those below them do.
    fn check_slot(&self, s: u8) -> Result<(), BrokenCell>
        requires inside { s < (grammar_of self.now).slots }
        requires below { ObeyTo self.now (place (bound_of self.now) (first_row (grammar_of self.now) s) 0) }
        ensures { MatchResult result (λ _. ObeyTo self.now (place (bound_of self.now) (first_row (grammar_of self.now) (s + 1)) 0)) (Names self.now) }
    {
        let offset = self.layout.offsets[s as usize] as usize;
        for position in 0..self.grammar.length(s) {
            let row = Row::Suffix { slot: s, position };
            self.check_row(row, offset + position as usize)?;
        }
        Ok(())
    }

    /// Whether every needed cell obeys its equation.
    pub(crate) fn check_all(&self) -> Result<(), BrokenCell>
        ensures { MatchResult result (λ _. AllObey (grammar_of self.now) (bound_of self.now) self.now.cells.now) (Names self.now) }
    {
        for a in 0..self.grammar.nonterminals() {
            self.check_row(Row::Nonterminal(a), a as usize)?;
        }
        for s in 0..self.grammar.slots() {
            self.check_slot(s)?;
        }
        Ok(())
    }
}
