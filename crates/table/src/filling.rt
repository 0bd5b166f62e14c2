//! The filling of a table, cell by cell, each with its count.
//!
//! Length by length: first the nonterminals by ascending level, each after those suffixes of its right-hand sides that it needs at that length, which are
//! the ones behind nullable symbols only; then the other suffixes. So no cell is read before it is written, unless it is multiplied by 0.

ghost use Rattle.std.specs.Prelude.{◌≡◌, ◌+◌};
ghost use Rattle.fault.specs.declared.Fault.TheVariants.{CountTooLarge};
ghost use Rattle.table.specs.Filling.{ReadyAt, CorrectBelow, Keeps, UnlessOver};

use crate::Row;
use crate::cells::Cells;
use crate::layout::Layout;
use crate::sums::terms_of;
use fault::Fault;
use grammar::Grammar;

/// Some count of this length passes 2^63 - 1.
#[derive(Clone, Copy)]
pub(crate) struct TooLarge {
    pub(crate) length: usize,
}

impl From<TooLarge> for Fault {
    ghost from_gives = { λ e f. f ≡ CountTooLarge e.length };

    fn from(e: TooLarge) -> Fault {
        Fault::CountTooLarge(e.length as u64)
    }
}

/// A table whose cells are filled for one length, where all cells of shorter lengths hold their counts.
#[derive(Drop)]
pub(crate) struct Filling<'a, G: Grammar> {
    pub(crate) cells: &'a mut [u64],
    pub(crate) grammar: &'a G,
    pub(crate) layout: &'a Layout,
    pub(crate) length: usize,
    ghost ready: { ReadyAt (G.meaning grammar.now) layout.now cells.now length },
}

// Each method that writes answers `TooLarge` where a count passes the limit.
// The clauses on a row, a slot or a nonterminal speak of an argument of the one call: they stay clauses.
impl<G: Grammar> Filling<'_, G> {
    ghost use Rattle.std.specs.Prelude.{◌≡◌, ℕ, ◌+◌, ◌<◌, ◌≤◌, length};
    ghost use Rattle.theory.specs.Count.{right_of};
    ghost use Rattle.table.specs.Rows.{RowOf};
    ghost use Rattle.table.specs.Equations.{equation};
    ghost use Rattle.table.specs.Counts.{count_of};
    ghost use Rattle.table.specs.Layouts.{AtRow};
    ghost use Rattle.table.specs.Filling.{Within, NeedsNoRest, CorrectBelow};
    ghost use Rattle.table.specs.FillingOf.{grammar_of, bound_of, Right, FirstsRight, CornersRight, PrefixRight, DoneRight, AllDoneRight, UnlessTooLarge, Stays, Shows};

    // The cells, to be read.
    fn view(&self) -> Cells<'_, G>
        ensures { Shows self.now result }
    {
        Cells {
            grammar: self.grammar,
            layout: self.layout,
            cells: &*self.cells,
        }
    }

    // What the equation of `row`, which stands at `at`, says of its cell, unless that passes the limit.
    fn sum(&self, row: Row, at: usize) -> Option<u64>
        requires { AtRow (grammar_of self.now) row at }
        ensures { Within (equation (grammar_of self.now) (bound_of self.now) self.now.cells.now row self.now.length) result }
    {
        self.view()
            .sum_of(terms_of(self.grammar, row, at), self.length)
    }

    // Writes the count of `row`, which stands at `at`. Inlined, as `sum_of` is.
    #[inline(always)]
    fn fill(&mut self, row: Row, at: usize) -> Result<(), TooLarge>
        requires stands { AtRow (grammar_of self.old) row at }
        requires due { equation (grammar_of self.old) (bound_of self.old) self.old.cells.now row self.old.length ≡ count_of (grammar_of self.old) row self.old.length }
        ensures stays { Stays self.old self.new }
        ensures done { UnlessTooLarge result self.old (Right self.new row) }
    {
        let sum = self.sum(row, at);
        let i = self.layout.place(at, self.length);
        self.cells[i] = sum.ok_or(TooLarge {
            length: self.length,
        })?;
        Ok(())
    }

    // Writes the suffixes of slot `s` from position `to` - 1 down to `from`.
    fn fill_suffixes(&mut self, s: u8, from: u8, to: u8) -> Result<(), TooLarge>
        requires inside { s < (grammar_of self.old).slots }
        requires far { to ≤ length (right_of ((grammar_of self.old).slot s)) }
        requires firsts { FirstsRight self.old (right_of ((grammar_of self.old).slot s)) to }
        requires last { (p : ℕ) → p + 1 ≡ to → NeedsNoRest (grammar_of self.old) (right_of ((grammar_of self.old).slot s)) p }
        ensures stays { Stays self.old self.new }
        ensures done { UnlessTooLarge result self.old ((q : ℕ) → from ≤ q → q < to → Right self.new (Row.Suffix s q)) }
    {
        let offset = self.layout.offsets[s as usize] as usize;
        for position in (from..to).rev() {
            let row = Row::Suffix { slot: s, position };
            self.fill(row, offset + position as usize)?;
        }
        Ok(())
    }

    // Writes the suffixes of slot `s` that its left-hand side, if that is `a`, needs.
    fn fill_prefix(&mut self, a: u8, s: u8) -> Result<(), TooLarge>
        requires inside { s < (grammar_of self.old).slots }
        requires corners { CornersRight self.old a }
        ensures stays { Stays self.old self.new }
        ensures done { UnlessTooLarge result self.old (PrefixRight self.new a s) }
    {
        if self.grammar.left(s) == Some(a) && self.grammar.length(s) > 0 {
            let end = self.view().prefix_end(s);
            return self.fill_suffixes(s, 0, end + 1);
        }
        Ok(())
    }

    // Writes the cell of the nonterminal `a`, with the suffixes that it needs.
    fn fill_nonterminal(&mut self, a: u8) -> Result<(), TooLarge>
        requires inside { a < (grammar_of self.old).nonterminals }
        requires corners { CornersRight self.old a }
        ensures stays { Stays self.old self.new }
        ensures done { UnlessTooLarge result self.old (DoneRight self.new a) }
    {
        for s in 0..self.grammar.slots() {
            self.fill_prefix(a, s)?;
        }
        self.fill(Row::Nonterminal(a), a as usize)
    }

    // Writes the cells of all nonterminals, by ascending level, with the suffixes that they need.
    fn fill_nonterminals(&mut self) -> Result<(), TooLarge>
        ensures stays { Stays self.old self.new }
        ensures done { UnlessTooLarge result self.old (AllDoneRight self.new) }
    {
        for level in 0..16u8 {
            for a in 0..self.grammar.nonterminals() {
                if self.grammar.level(a) == level {
                    self.fill_nonterminal(a)?;
                }
            }
        }
        Ok(())
    }

    // Writes the suffixes of slot `s` that its left-hand side did not need.
    fn fill_rest(&mut self, s: u8) -> Result<(), TooLarge>
        requires inside { s < (grammar_of self.old).slots }
        requires prefixes { AllDoneRight self.old }
        ensures stays { Stays self.old self.new }
        ensures done { UnlessTooLarge result self.old ((q : ℕ) → RowOf (grammar_of self.new) (Row.Suffix s q) → Right self.new (Row.Suffix s q)) }
    {
        let n = self.grammar.length(s);
        if n == 0 {
            return Ok(());
        }
        let end = self.view().prefix_end(s);
        self.fill_suffixes(s, end + 1, n)
    }

    // Writes the suffixes of all slots that the nonterminals did not need.
    fn fill_rests(&mut self) -> Result<(), TooLarge>
        requires { AllDoneRight self.old }
        ensures stays { Stays self.old self.new }
        ensures done { UnlessTooLarge result self.old ((s q : ℕ) → RowOf (grammar_of self.new) (Row.Suffix s q) → Right self.new (Row.Suffix s q)) }
    {
        for s in 0..self.grammar.slots() {
            self.fill_rest(s)?;
        }
        Ok(())
    }

    // Writes all cells.
    fn fill_all(&mut self) -> Result<(), TooLarge>
        ensures stays { Stays self.old self.new }
        ensures done { UnlessTooLarge result self.old (CorrectBelow (grammar_of self.new) (bound_of self.new) self.new.cells.now (self.new.length + 1)) }
    {
        self.fill_nonterminals()?;
        self.fill_rests()
    }
}

/// Writes all cells for the length `m`; `TooLarge` where a count passes the limit.
///
/// A function of its own, since a proof knows nothing of the guard's cells once a struct in its loop has borrowed them.
pub(crate) fn fill_length<G: Grammar>(
    g: &G,
    layout: &Layout,
    cells: &mut [u64],
    m: usize,
) -> Result<(), TooLarge>
    requires { ReadyAt (G.meaning g.now) layout.now cells.old m }
    ensures keeps { Keeps (G.meaning g.now) layout.now.bound cells.old cells.new }
    ensures done { UnlessOver result (G.meaning g.now) m (CorrectBelow (G.meaning g.now) layout.now.bound cells.new (m + 1)) }
{
    let mut filling = Filling {
        cells,
        grammar: g,
        layout,
        length: m,
    };
    filling.fill_all()
}
