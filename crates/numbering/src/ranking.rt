//! The rank of a right-hand side from the ranks of its parts.

ghost use Rattle.std.specs.Prelude.{◌≡◌, ℕ, ◌+◌, ◌-◌, ◌*◌, ◌^◌, ◌<◌, ◌≤◌, length, Some, slice_index};
ghost use Rattle.theory.specs.Count.{left_of};
ghost use Rattle.table.specs.GrammarCountsOf.{grammar_of, bound_of};
ghost use Rattle.walk.specs.Splits.{sum_listed};
ghost use Rattle.walk.specs.Ways.{ways_before};
ghost use Rattle.numbering.specs.Parts.{frame_side, PartsFrom, tokens_from, AddsUpFrom, entry_at, Joins, WholePart};

use crate::frame::{Frame, Part};
use grammar::{Grammar, Symbol};
use table::{GrammarCounts, Row};
use walk::LengthPolicy;

/// What ranks are computed from: the counts of a grammar, and which length of a part comes first.
// The fields are those of `Unranking` in crate expanding: methods of a struct stand in the crate of that struct, so one struct would serve one of the two.
#[derive(Drop)]
pub(crate) struct Ranking<'a, G: Grammar, O> {
    pub(crate) counts: &'a GrammarCounts<'a, G>,
    pub(crate) policy: &'a O,
}

// The rank of a first part and a rest together: the ways of all first parts of an earlier length, then those of all lower ranks.
// The rows count the first parts and the rests, one entry for each length.
fn join<O: LengthPolicy>(policy: &O, firsts: &[u64], rests: &[u64], part: Part, rest: Part) -> u64
    requires first_long { part.length + rest.length < length firsts.now }
    requires rest_long { part.length + rest.length < length rests.now }
    requires part_low { part.rank < slice_index firsts.now part.length }
    requires rest_low { rest.rank < slice_index rests.now rest.length }
    requires small { sum_listed (entry_at firsts.now) (entry_at rests.now) (part.length + rest.length) (O.order policy.now (part.length + rest.length)) < 2 ^ 63 }
    ensures { Joins (O.order policy.now) firsts.now rests.now part rest result }
{
    let m = part.length + rest.length;
    let mut before = 0;
    // The policy is asked by place.
    for i in 0..=m {
        let length = policy.length_at(m, i);
        if length == part.length {
            return before + part.rank * rests[rest.length] + rest.rank;
        }
        before += firsts[length] * rests[m - length];
    }
    unreachable!()
}

// The clauses on a frame, a slot or a length speak of an argument of the one call, not of the ranking: they stay clauses.
impl<G: Grammar, O: LengthPolicy> Ranking<'_, G, O> {
    // What the parts of the symbols from `position` on add up to, where those behind it add up to `rest`.
    fn add_part(&self, frame: &Frame, position: u8, rest: Part) -> Part
        requires inside { frame.now.slot < (grammar_of self.now.counts.now).slots }
        requires there { position < length (frame_side (grammar_of self.now.counts.now) frame.now) }
        requires parts { PartsFrom (O.order self.now.policy.now) (grammar_of self.now.counts.now) frame.now position }
        requires short { length (tokens_from (O.order self.now.policy.now) (grammar_of self.now.counts.now) frame.now position) ≤ bound_of self.now.counts.now }
        requires rest { AddsUpFrom (O.order self.now.policy.now) (grammar_of self.now.counts.now) frame.now (position + 1) rest }
        ensures { AddsUpFrom (O.order self.now.policy.now) (grammar_of self.now.counts.now) frame.now position result }
    {
        let a = match self.counts.grammar.symbol_at(frame.slot, position) {
            Some(Symbol::Terminal(_)) => {
                return Part {
                    length: rest.length + 1,
                    rank: rest.rank,
                };
            }
            Some(Symbol::Nonterminal(a)) => a,
            None => unreachable!(),
        };
        let part = frame.parts[usize::from(position)];
        if position + 1 == self.counts.grammar.length(frame.slot) {
            return part;
        }
        let firsts = self.counts.row(Row::Nonterminal(a));
        let rests = self.counts.row(Row::Suffix {
            slot: frame.slot,
            position: position + 1,
        });
        Part {
            length: part.length + rest.length,
            rank: join(self.policy, firsts, rests, part, rest),
        }
    }

    // What the parts of all symbols of a frame add up to, from the last to the first: the grammar is asked by position.
    fn add_parts(&self, frame: &Frame) -> Part
        requires inside { frame.now.slot < (grammar_of self.now.counts.now).slots }
        requires parts { PartsFrom (O.order self.now.policy.now) (grammar_of self.now.counts.now) frame.now 0 }
        requires short { length (tokens_from (O.order self.now.policy.now) (grammar_of self.now.counts.now) frame.now 0) ≤ bound_of self.now.counts.now }
        ensures { AddsUpFrom (O.order self.now.policy.now) (grammar_of self.now.counts.now) frame.now 0 result }
    {
        let mut sum = Part::default();
        for position in (0..self.counts.grammar.length(frame.slot)).rev() {
            sum = self.add_part(frame, position, sum);
        }
        sum
    }

    // How many ways at `m` the slots of `a` before `slot` have.
    fn lower_ways(&self, a: u8, slot: u8, m: usize) -> u64
        requires inside { slot < (grammar_of self.now.counts.now).slots }
        requires own { left_of ((grammar_of self.now.counts.now).slot slot) ≡ Some a }
        requires short { m ≤ bound_of self.now.counts.now }
        ensures { result ≡ ways_before (grammar_of self.now.counts.now) a m slot }
    {
        (0..slot).map(|s| self.counts.slot_ways(a, s, m)).sum()
    }

    /// The part that the symbols of a frame make of its nonterminal, where all of them have been parsed.
    pub(crate) fn whole_part(&self, frame: &Frame) -> Part
        requires own { (A : ℕ) × (left_of ((grammar_of self.now.counts.now).slot frame.now.slot) ≡ Some A) }
        requires parts { PartsFrom (O.order self.now.policy.now) (grammar_of self.now.counts.now) frame.now 0 }
        requires short { length (tokens_from (O.order self.now.policy.now) (grammar_of self.now.counts.now) frame.now 0) ≤ bound_of self.now.counts.now }
        ensures { WholePart (O.order self.now.policy.now) (grammar_of self.now.counts.now) frame.now result }
    {
        let a = self.counts.grammar.left(frame.slot).unwrap();
        let sum = self.add_parts(frame);
        Part {
            length: sum.length,
            rank: self.lower_ways(a, frame.slot, sum.length) + sum.rank,
        }
    }
}
