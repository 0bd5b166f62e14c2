//! The table of counts: how many sentences each nonterminal has of each length, and how many ways each suffix of a right-hand side has at that length.
//!
//! A table for the bound L has a row for each nonterminal, then for each filled slot in order a row for each suffix of its right-hand side but the empty one.
//! A row holds a cell for each of the lengths 0 to L.

#![tactic(auto)]

ghost use Rattle.std.specs.Prelude.{◌≡◌, IfOk, Decides, MatchResult};
ghost use Rattle.table.specs.Calls.{NoRoom, HasRoom, NeededAnswer, CountAnswer, CheckAnswer};
ghost use Rattle.table.specs.Checked.{Short, SufficientLayout, Insufficient, CheckedAnswer};
ghost use Rattle.table.specs.GrammarCountsOf.{counts_in};
ghost use Rattle.table.specs.Layouts.{NoOffsetsPast};
ghost use Rattle.table.specs.Laws.{NeededCellsAreThoseOfTheRows, EquationsHaveOneSolution, CountsFitBelowFailure};

use cells::Cells;
pub use counts::Counts;
use fault::{Fault, Memory};
use grammar::Grammar;
pub use grammar_counts::GrammarCounts;
use guard::count_cells;
use layout::{Layout, lay_out};

mod cells;
mod checking;
mod counts;
mod filling;
mod grammar_counts;
mod guard;
mod layout;
mod nullable;
mod reading;
mod sums;

/// The greatest bound of a table.
pub const GREATEST_BOUND: usize = 48;

/// What a row of a table counts: a nonterminal, or a suffix, the right-hand side of a slot from a position on.
///
/// `Counts::row` takes one, and definitions speak of rows.
#[derive(Clone, Copy)]
pub enum Row {
    Nonterminal(u8),
    Suffix { slot: u8, position: u8 },
}

/// A table: the cells that the caller lends for it, and its bound, the greatest length that it has.
#[derive(Drop)]
pub struct Table<'a> {
    pub cells: &'a mut [u64],
    pub bound: usize,
}

/// How much a call is lent besides the cells: entries of a working stack and bytes of an output, none of what it does not use.
#[derive(Clone, Copy)]
pub struct Lent {
    pub stack: Option<usize>,
    pub output: Option<usize>,
}

// The layout of the table of `g`, if its bound is at most 48 and it has cells enough.
fn room<G: Grammar>(g: &G, bound: usize, cells: usize) -> Result<Layout, Fault>
    ensures room { MatchResult result (HasRoom (G.meaning g.now) bound cells) (NoRoom (G.meaning g.now) bound cells) }
    ensures past { IfOk result (NoOffsetsPast (G.meaning g.now)) }
{
    if bound > GREATEST_BOUND {
        return Err(Fault::TooLong(bound as u64));
    }
    let layout = lay_out(g, bound);
    if layout.needed() > cells {
        return Err(Fault::ShortMemory(Memory::Cells));
    }
    Ok(layout)
}

/// How many cells the table of `g` for its bound needs.
///
/// Fault 9 if the bound is above 48, place the bound; 10 if there are too few cells, place 1.
pub fn needed_cells<G: Grammar>(g: &G, table: &Table<'_>) -> Result<usize, Fault>
    ensures { NeededAnswer (G.meaning g.now) table.now.bound table.now.cells.now result }
{
    let room = room(g, table.bound, table.cells.len())?;
    Ok(room.needed())
}

/// Fills the needed cells with the counts: each is how many sentences its nonterminal has of its length, or how many ways its suffix has at that length.
///
/// Fault 9 if the bound is above 48, place the bound; 10 if there are too few cells, place 1; 11 if a count passes 2^63 - 1, place the smallest such length.
/// After 11 the needed cells are 0; after 9 and 10 all cells are unchanged. The cells past the needed ones are always unchanged.
pub fn count<G: Grammar>(g: &G, table: &mut Table<'_>) -> Result<(), Fault>
    ensures answer { CountAnswer (G.meaning g.now) table.old.bound table.old.cells.now table.new.cells.now result }
    ensures bound { table.new.bound ≡ table.old.bound }
    ensures same { table.new.cells.ghost_name ≡ table.old.cells.ghost_name }
{
    let layout = room(g, table.bound, table.cells.len())?;
    count_cells(g, &layout, table.cells)?;
    Ok(())
}

// Whether a memory of which `lent` is lent is shorter than `asked`.
fn is_short(lent: Option<usize>, asked: usize) -> bool
    ensures { Decides result (Short lent asked) }
{
    lent.is_some_and(|amount| amount < asked)
}

// The layout of the table of `g`, if lengths and memory are sufficient for a call over sentences of that length.
fn sufficient<G: Grammar>(
    g: &G,
    bound: usize,
    cells: &[u64],
    length: usize,
    lent: Lent,
) -> Result<Layout, Fault>
    ensures { MatchResult result (SufficientLayout (G.meaning g.now) bound cells.now length lent) (Insufficient (G.meaning g.now) bound cells.now length lent) }
{
    if bound <= GREATEST_BOUND && length > bound {
        return Err(Fault::TooLong(length as u64));
    }
    let layout = room(g, bound, cells.len())?;
    if is_short(lent.stack, (length + 1) * g.nonterminals() as usize) {
        return Err(Fault::ShortMemory(Memory::Stack));
    }
    if is_short(lent.output, length) {
        return Err(Fault::ShortMemory(Memory::Output));
    }
    Ok(layout)
}

/// The check before a call over sentences of one length: the counts of the table, if it may be used.
///
/// Fault 9 if the bound is above 48, place the bound, or the length above the bound, place the length; 10 if there are too few cells, place 1,
/// entries of the stack, of which the call asks for (length + 1) × nonterminals, place 2, or bytes of output, of which it asks for as many as the length, place 3;
/// 12 if a needed cell breaks its equation, place the lowest such cell.
pub fn checked<'a, G: Grammar>(
    g: &G,
    table: &'a Table<'_>,
    length: usize,
    lent: Lent,
) -> Result<Counts<'a>, Fault>
    ensures { CheckedAnswer (G.meaning g.now) table.now.bound table.now.cells.now length lent result }
{
    let layout = sufficient(g, table.bound, table.cells, length, lent)?;
    let cells = Cells {
        grammar: g,
        layout: &layout,
        cells: table.cells,
    };
    cells.check_all()?;
    Ok(Counts {
        layout,
        cells: table.cells,
    })
}

/// The same check; the counts that it hands out hold the grammar.
pub fn checked_counts<'a, G: Grammar>(
    g: &'a G,
    table: &'a Table<'_>,
    length: usize,
    lent: Lent,
) -> Result<GrammarCounts<'a, G>, Fault>
    ensures answer { CheckedAnswer (G.meaning g.now) table.now.bound table.now.cells.now length lent (counts_in result) }
    ensures grammar { IfOk result (λ counts. counts.grammar.now ≡ g.now) }
{
    let counts = checked(g, table, length, lent)?;
    Ok(GrammarCounts { grammar: g, counts })
}

/// Whether every needed cell obeys its equation, which is so exactly if the table is sound.
///
/// Fault 9 if the bound is above 48, place the bound; 10 if there are too few cells, place 1; 12 if a needed cell breaks its equation, place the lowest such cell.
pub fn check<G: Grammar>(g: &G, table: &Table<'_>) -> Result<(), Fault>
    ensures { CheckAnswer (G.meaning g.now) table.now.bound table.now.cells.now result }
{
    let layout = &room(g, table.bound, table.cells.len())?;
    let cells = Cells {
        grammar: g,
        layout,
        cells: table.cells,
    };
    cells.check_all()?;
    Ok(())
}

/// The needed cells are the cells of the rows, each of one row and one length.
pub fn needed_cells_are_those_of_the_rows()
    ensures { NeededCellsAreThoseOfTheRows }
{}

/// A table that satisfies all equations is the table of counts, and only that one does.
pub fn equations_have_one_solution()
    ensures { EquationsHaveOneSolution }
{}

/// Where counting for a bound fails at a length, counting for one less than that length succeeds: no count passes the limit, and with room no fault refuses it.
pub fn counts_fit_below_failure()
    ensures { CountsFitBelowFailure }
{}
