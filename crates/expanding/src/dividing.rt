//! Which slot, which length and which ranks a number stands for.

ghost use Rattle.std.specs.Prelude.{◌≡◌, ℕ, ◌+◌, ◌-◌, ◌*◌, ◌/◌, ◌%◌, ◌^◌, ◌<◌, ◌≤◌, length, MatchOption};
ghost use Rattle.theory.specs.Count.{count};
ghost use Rattle.table.specs.GrammarCountsOf.{grammar_of, bound_of};
ghost use Rattle.walk.specs.Splits.{sum_listed};
ghost use Rattle.expanding.specs.Frames.{FrameOf, AtNonterminal};
ghost use Rattle.expanding.specs.Dividing.{cell_of, Divided, Opened, Parted};

use crate::frame::{Frame, Part};
use grammar::Grammar;
use table::{GrammarCounts, Row};
use walk::LengthPolicy;

// What is left of a rank behind `ways` ways; none if it is the rank of one of them.
fn rank_behind(rank: u64, ways: u64) -> Option<u64>
    ensures { MatchOption result (rank < ways) (λ behind. rank ≡ ways + behind) }
{
    rank.checked_sub(ways)
}

// The part of that length which has a rank among pairs of a first part and one of `rests` rests.
fn quotient_part(length: usize, rank: u64, rests: u64) -> Part
    requires { (length ≤ 48) × (0 < rests) }
    ensures length { result.length ≡ length }
    ensures rank { result.rank ≡ rank / rests }
    ensures rest { result.rest ≡ rank % rests }
{
    let (quotient, remainder) = (rank / rests, rank % rests);
    Part {
        length: length as u8,
        rank: quotient,
        rest: remainder,
    }
}

// The part at which `rank` stands in the sum over the lengths of a first part, where the two rows count first parts and rests.
fn divide<O: LengthPolicy>(policy: &O, first: &[u64], rest: &[u64], m: usize, rank: u64) -> Part
    requires small { m ≤ 48 }
    requires first { m < length first.now }
    requires rest { m < length rest.now }
    requires low { rank < sum_listed (cell_of first.now) (cell_of rest.now) m (O.order policy.now m) }
    requires within { sum_listed (cell_of first.now) (cell_of rest.now) m (O.order policy.now m) < 2 ^ 63 }
    ensures { Divided (cell_of first.now) (cell_of rest.now) m (O.order policy.now m) rank result }
{
    let mut left = rank;
    for i in 0..m + 1 {
        let length = policy.length_at(m, i);
        let rests = rest[m - length];
        match rank_behind(left, first[length] * rests) {
            None => return quotient_part(length, left, rests),
            Some(behind) => left = behind,
        }
    }
    unreachable!()
}

/// What the sentence with a number is found from: the counts of a grammar, and which length of a part comes first.
// The fields are those of `Ranking` in crate numbering: methods of a struct stand in the crate of that struct, so one struct would serve one of the two.
#[derive(Drop)]
pub(crate) struct Unranking<'a, G: Grammar, O> {
    pub(crate) counts: &'a GrammarCounts<'a, G>,
    pub(crate) policy: &'a O,
}

impl<G: Grammar, O: LengthPolicy> Unranking<'_, G, O> {
    /// How many sentences of length `n` the start has.
    pub(crate) fn start_count(&self, n: usize) -> u64
        requires { n ≤ bound_of self.now.counts.now }
        ensures { result ≡ count (grammar_of self.now.counts.now) (grammar_of self.now.counts.now).start n }
    {
        let start = self.counts.grammar.start();
        self.counts.row(Row::Nonterminal(start))[n]
    }

    /// The frame for the sentence of `a` with that length and rank: of the slot at which the rank stands in the sum over the slots.
    pub(crate) fn open(&self, a: u8, m: u8, rank: u64) -> Frame
        requires short { m ≤ bound_of self.now.counts.now }
        requires low { rank < count (grammar_of self.now.counts.now) a m }
        ensures { Opened (grammar_of self.now.counts.now) a m rank result }
    {
        let mut left = rank;
        for slot in 0..self.counts.grammar.slots() {
            match rank_behind(left, self.counts.slot_ways(a, slot, m as usize)) {
                None => {
                    return Frame {
                        slot,
                        position: 0,
                        length: m,
                        rank: left,
                    };
                }
                Some(later) => left = later,
            }
        }
        unreachable!()
    }

    /// The first part of a frame that stands before the nonterminal `a`.
    pub(crate) fn first_part(&self, f: Frame, a: u8) -> Part
        requires frame { FrameOf (O.order self.now.policy.now) (grammar_of self.now.counts.now) (bound_of self.now.counts.now) f }
        requires before { AtNonterminal (grammar_of self.now.counts.now) f a }
        ensures { Parted (O.order self.now.policy.now) (grammar_of self.now.counts.now) f a result }
    {
        if f.position + 1 == self.counts.grammar.length(f.slot) {
            return Part {
                length: f.length,
                rank: f.rank,
                rest: 0,
            };
        }
        let first = self.counts.row(Row::Nonterminal(a));
        let rest = self.counts.row(Row::Suffix {
            slot: f.slot,
            position: f.position + 1,
        });
        divide(self.policy, first, rest, f.length as usize, f.rank)
    }
}
