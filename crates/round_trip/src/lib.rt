//! Expanding and numbering undo each other: one function for each law, whose contract is the law.
//!
//! The laws are stated over the answers of the public calls, so they hold of whatever `expanding::expand` and `numbering::number` answer and leave.

#![tactic(auto)]

ghost use Rattle.round_trip.specs.Laws.{NumberingUndoesExpanding, ExpandingUndoesNumbering};

use grammar::Grammar;

/// Numbering what expanding wrote for a number, over the same table and with a stack that is long enough, answers that number.
pub fn numbering_undoes_expanding<G: Grammar>(g: &G)
    ensures { NumberingUndoesExpanding (G.meaning g.now) (G.chosen g.now) }
{}

/// Expanding the number that numbering answered for a plan, over the same table and with stack and output that are long enough, writes that plan.
pub fn expanding_undoes_numbering<G: Grammar>(g: &G)
    ensures { ExpandingUndoesNumbering (G.meaning g.now) (G.chosen g.now) }
{}
