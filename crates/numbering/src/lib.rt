//! Numbering: how many sentences of the start precede one of the same length in split order.

#![tactic(auto)]

ghost use Rattle.std.specs.Prelude.{◌≡◌, length, IfOk};
ghost use Rattle.table.specs.Checked.{CheckedAnswer};
ghost use Rattle.table.specs.GrammarCountsOf.{counts_in};
ghost use Rattle.numbering.specs.Calls.{lent_stack, NumberAnswer};

use fault::Fault;
pub use frame::Frame;
use grammar::Grammar;
use parsing::rank;
use ranking::Ranking;
use table::{GrammarCounts, Lent, Table, checked_counts};
use walk::ShortestFirst;

mod frame;
mod parsing;
mod ranking;

// The counts of the table, if it may be used to number these tokens with so many entries of a stack.
fn counts_for<'a, G: Grammar>(
    g: &'a G,
    table: &'a Table<'_>,
    tokens: &[u8],
    entries: usize,
) -> Result<GrammarCounts<'a, G>, Fault>
    ensures answer { CheckedAnswer (G.meaning g.now) table.now.bound table.now.cells.now (length tokens.now) (lent_stack entries) (counts_in result) }
    ensures grammar { IfOk result (λ counts. counts.grammar.now ≡ g.now) }
{
    let lent = Lent {
        stack: Some(entries),
        output: None,
    };
    checked_counts(g, table, tokens.len(), lent)
}

/// How many sentences of the start that are as long as `tokens` precede `tokens` in split order. The stack is working memory.
///
/// Fault 9 if the bound is above 48, place the bound, or there are more tokens than the bound, place their number; 10 if there are too few cells, place 1,
/// or the stack has fewer than (tokens + 1) × nonterminals entries, place 2; 12 if a needed cell breaks its equation, place the lowest such cell;
/// 14 if the parse of the tokens stops, which is so exactly if they are no sentence of the start, place how many of them are gone.
pub fn number<G: Grammar>(
    g: &G,
    table: &Table<'_>,
    tokens: &[u8],
    stack: &mut [Frame],
) -> Result<u64, Fault>
    ensures { NumberAnswer (G.meaning g.now) (G.chosen g.now) table.now.bound table.now.cells.now (length stack.old) tokens.now result }
{
    let counts = counts_for(g, table, tokens, stack.len())?;
    let ranking = Ranking {
        counts: &counts,
        policy: &ShortestFirst,
    };
    Ok(rank(ranking, tokens, stack)?)
}
