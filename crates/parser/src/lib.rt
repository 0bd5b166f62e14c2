//! The parser of a grammar by its choice of slots, as a relation: one function for each law, whose contract is the law.
//!
//! The definitions stand in `specs/`. A function here does nothing; it exists so that the check asks for the proof. The laws hold whatever the choice answers where no predict set holds what comes next.

#![tactic(auto)]

ghost use Rattle.parser.specs.Laws.{GoesThroughExactlyForSentences, EndsInOneWay};

use grammar::Grammar;

/// The parse from a nonterminal, as the start, goes through exactly for its sentences.
pub fn goes_through_exactly_for_sentences<G: Grammar>(g: &G)
    ensures { GoesThroughExactlyForSentences (G.meaning g.now) (G.chosen g.now) }
{}

/// Every parse goes through or stops, never both, and stops at one place, which is not past the tokens.
pub fn ends_in_one_way<G: Grammar>(g: &G)
    ensures { EndsInOneWay (G.meaning g.now) (G.chosen g.now) }
{}
