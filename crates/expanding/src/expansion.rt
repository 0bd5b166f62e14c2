//! The sentence of a length with a number, token by token.

ghost use Rattle.std.specs.Prelude.{◌≡◌, ℕ, ◌+◌, ◌*◌, ◌<◌, ◌≤◌, [], length, Some, slice_index_or};
ghost use Rattle.theory.specs.Count.{count};
ghost use Rattle.theory.specs.Enumerate.{sentences};
ghost use Rattle.table.specs.GrammarCountsOf.{grammar_of, bound_of};
ghost use Rattle.grammar.specs.declared.Symbol.TheVariants.{Nonterminal};

use crate::dividing::Unranking;
use crate::frame::Frame;
use grammar::{Grammar, Symbol};
use stack::Stack;
use walk::LengthPolicy;

/// The sentence of a length with a number, token by token: what is still to be written stands in the frame at work and in those that are suspended.
// Where it stands (`Stands`) is a clause of its methods: it is false between the push and the new frame of `enter`.
#[derive(Drop)]
pub(crate) struct Expansion<'a, G: Grammar, O> {
    unranking: Unranking<'a, G, O>,
    suspended: Stack<'a, Frame>,
    frame: Frame,
}

impl<'a, G: Grammar, O: LengthPolicy> Expansion<'a, G, O> {
    ghost use Rattle.expanding.specs.Expansions.{Stands, symbol_here, to_come, Goes};

    /// The sentence of the start of length `n` with that number, with a stack for the frames that are suspended.
    pub(crate) fn begin(
        unranking: Unranking<'a, G, O>,
        n: usize,
        number: u64,
        stack: &'a mut [Frame],
    ) -> Expansion<'a, G, O>
        requires short { n ≤ bound_of unranking.counts.now }
        requires low { number < count (grammar_of unranking.counts.now) (grammar_of unranking.counts.now).start n }
        requires room { (n + 1) * (grammar_of unranking.counts.now).nonterminals ≤ length stack.old }
        ensures at { Stands O.order result }
        ensures whole { to_come O.order result ≡ slice_index_or (sentences (O.order unranking.entry.policy.now) (grammar_of unranking.entry.counts.now) (grammar_of unranking.entry.counts.now).start n) number [] }
    {
        let start = unranking.counts.grammar.start();
        let frame = unranking.open(start, n as u8, number);
        Expansion {
            unranking,
            suspended: Stack::over(stack),
            frame,
        }
    }

    // Suspends what is left behind nonterminal `a`, and opens a frame for `a`.
    fn enter(&mut self, a: u8)
        requires at { Stands O.order self.old }
        requires here { Some (Nonterminal a) ≡ symbol_here self.old }
        ensures { Goes O.order self.old self.new }
    {
        let unranking = &self.unranking;
        let part = unranking.first_part(self.frame, a);
        let opened = unranking.open(a, part.length, part.rank);
        self.suspended.push(self.frame.behind(part)).unwrap();
        self.frame = opened;
    }
}

impl<'a, G: Grammar, O: LengthPolicy> Iterator for Expansion<'a, G, O> {
    type Item = u8;

    ghost use Rattle.std.specs.Iterator.{YieldsFirst, item_count};
    ghost use Rattle.expanding.specs.Expansions.{Stands, to_come};

    ghost can_next = { Stands O.order };

    ghost next_gives = { YieldsFirst (to_come O.order) };

    ghost remaining = { item_count (to_come O.order) };

    fn next(&mut self) -> Option<u8> {
        loop {
            let grammar = self.unranking.counts.grammar;
            match grammar.symbol_at(self.frame.slot, self.frame.position) {
                Some(Symbol::Terminal(t)) => {
                    self.frame = self.frame.past_token();
                    return Some(t);
                }
                Some(Symbol::Nonterminal(a)) => self.enter(a),
                None => self.frame = self.suspended.pop()?,
            }
        }
    }
}
