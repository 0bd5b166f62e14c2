//! Expanding: the sentence of a length with a number.

#![tactic(auto)]

ghost use Rattle.std.specs.Prelude.{◌≡◌, ℕ, ◌+◌, ◌*◌, ◌<◌, ◌≤◌, length, Some, IfOk, MatchResult};
ghost use Rattle.fault.specs.declared.Fault.TheVariants.{NumberTooLarge};
ghost use Rattle.theory.specs.Order.{ascending};
ghost use Rattle.table.specs.Checked.{CheckedAnswer};
ghost use Rattle.table.specs.GrammarCountsOf.{grammar_of, bound_of, counts_in};
ghost use Rattle.expanding.specs.Calls.{SentenceAnswer, ExpandAnswer};
ghost use Rattle.expanding.specs.Laws.{EachSentenceHasOneNumber};

use dividing::Unranking;
use expansion::Expansion;
use fault::Fault;
pub use frame::Frame;
use grammar::Grammar;
use table::{GrammarCounts, Lent, Table, checked_counts};
use walk::{LengthPolicy, ShortestFirst};

mod dividing;
mod expansion;
mod frame;

// The counts of the table, if it may be used to write a sentence of that length with so many entries of a stack, to so many bytes.
fn counts_of<'a, G: Grammar>(
    g: &'a G,
    table: &'a Table<'_>,
    n: usize,
    stack: usize,
    output: usize,
) -> Result<GrammarCounts<'a, G>, Fault>
    ensures answer { CheckedAnswer (G.meaning g.now) table.now.bound table.now.cells.now n (record { stack = Some stack; output = Some output }) (counts_in result) }
    ensures grammar { IfOk result (λ counts. counts.grammar.now ≡ g.now) }
{
    let lent = Lent {
        stack: Some(stack),
        output: Some(output),
    };
    checked_counts(g, table, n, lent)
}

// Refuses a number that is not below the count.
fn below_count(number: u64, count: u64) -> Result<(), Fault>
    ensures { MatchResult result (λ _. number < count) (λ f. (f ≡ NumberTooLarge count) × (count ≤ number)) }
{
    if number < count {
        Ok(())
    } else {
        Err(Fault::NumberTooLarge(count))
    }
}

// Writes the sentence of the start of length `n` with that number, if the number is below the count.
fn write_numbered<G: Grammar, O: LengthPolicy>(
    unranking: Unranking<'_, G, O>,
    n: usize,
    number: u64,
    stack: &mut [Frame],
    output: &mut [u8],
) -> Result<(), Fault>
    requires short { n ≤ bound_of unranking.counts.now }
    requires stack { (n + 1) * (grammar_of unranking.counts.now).nonterminals ≤ length stack.old }
    requires output { n ≤ length output.old }
    ensures { SentenceAnswer (O.order unranking.entry.policy.now) (grammar_of unranking.entry.counts.now) n number output.old output.new result }
{
    below_count(number, unranking.start_count(n))?;
    let sentence = Expansion::begin(unranking, n, number, stack);
    for (place, token) in sentence.enumerate() {
        output[place] = token;
    }
    Ok(())
}

// Expands a number in the order of part lengths that the policy gives.
fn expand_by<G: Grammar, O: LengthPolicy>(
    g: &G,
    policy: &O,
    table: &Table<'_>,
    n: usize,
    number: u64,
    stack: &mut [Frame],
    output: &mut [u8],
) -> Result<(), Fault>
    ensures { ExpandAnswer (O.order policy.now) (G.meaning g.now) table.now.bound table.now.cells.now n number stack.old output.old output.new result }
{
    let counts = counts_of(g, table, n, stack.len(), output.len())?;
    let unranking = Unranking {
        counts: &counts,
        policy,
    };
    write_numbered(unranking, n, number, stack, output)
}

/// Writes the sentence of the start of that length and number to the front of the output, one byte for each token.
///
/// Fault 9 if the bound is above 48, place the bound, or the length above the bound, place the length; 10 if there are too few cells, place 1,
/// fewer than (length + 1) × nonterminals entries of the stack, place 2, or fewer bytes of output than the length, place 3; 12 if a needed cell breaks
/// its equation, place the lowest such cell; 13 if the number is not below the count of the start at that length, place the count.
/// A refusal leaves the output unchanged. The bytes past the sentence are always unchanged. What the stack holds afterwards is left open.
pub fn expand<G: Grammar>(
    g: &G,
    table: &Table<'_>,
    length: usize,
    number: u64,
    stack: &mut [Frame],
    output: &mut [u8],
) -> Result<(), Fault>
    ensures { ExpandAnswer ascending (G.meaning g.now) table.now.bound table.now.cells.now length number stack.old output.old output.new result }
{
    expand_by(g, &ShortestFirst, table, length, number, stack, output)
}

/// Each sentence has exactly one number: it is below the count, an expansion of it that succeeds leaves that sentence, and no other number does.
pub fn each_sentence_has_one_number()
    ensures { EachSentenceHasOneNumber }
{}
