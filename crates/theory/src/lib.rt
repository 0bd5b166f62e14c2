//! The theory of command grammars: one function for each law, whose contract is the law.
//!
//! The definitions stand in `specs/`, the statements in `specs/Theorems.antt`. A function here does nothing; it exists so that the check asks for the proof.

#![tactic(auto)]

ghost use Rattle.theory.specs.Theorems.{SetsMeanWhatTheySay, CountsAndRanksAreUnique, AscendingListsLengths, OneParse, RankBelowCount, RanksNumberTheSentences, SentencesAreListedInSplitOrder, SplitOrderIsStrictAndTotal, CountIsSumOfSlots, ComputedCountsAreCounts, AtMostOneWayToNothing};

/// Derivations, nullable, FIRST, FOLLOW and left-corner steps agree with the rewriting of sentential forms.
pub fn sets_mean_what_they_say()
    ensures { SetsMeanWhatTheySay }
{}

/// There is one count, one number of ways and one rank.
pub fn counts_and_ranks_are_unique()
    ensures { CountsAndRanksAreUnique }
{}

/// The ascending order lists each of the lengths 0 to m once, the shorter before the longer.
pub fn ascending_lists_lengths()
    ensures { AscendingListsLengths }
{}

/// A sentence has one parse.
pub fn one_parse()
    ensures { OneParse }
{}

/// A sentence has a rank, and it is below the count.
pub fn rank_below_count()
    ensures { RankBelowCount }
{}

/// Each sentence of one nonterminal and length has exactly one rank, below the count, and each number below the count is the rank of exactly one.
pub fn ranks_number_the_sentences()
    ensures { RanksNumberTheSentences }
{}

/// The sentences of one nonterminal and length can be listed in split order, each once, and only in one way: as they are enumerated.
pub fn sentences_are_listed_in_split_order()
    ensures { SentencesAreListedInSplitOrder }
{}

/// Split order is a strict total order on the sentences of one nonterminal and length.
pub fn split_order_is_strict_and_total()
    ensures { SplitOrderIsStrictAndTotal }
{}

/// The count of a nonterminal is the sum of its slots' ways.
pub fn count_is_sum_of_slots()
    ensures { CountIsSumOfSlots }
{}

/// The computed counts are the counts.
pub fn computed_counts_are_counts()
    ensures { ComputedCountsAreCounts }
{}

/// At most one way gives no tokens.
pub fn at_most_one_way_to_nothing()
    ensures { AtMostOneWayToNothing }
{}
