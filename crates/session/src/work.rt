//! The work of the commands on a table, over any grammar.

ghost use Rattle.std.specs.Prelude.{◌≡◌, IfOk};
ghost use Rattle.session.specs.Asked.{CountReply, CheckReply, TableReply};

use crate::answer::Answer;
use grammar::Grammar;
use std::alloc::{AllocError, Global};
use table::{Table, needed_cells};

/// Counts the pile's table for a bound in these cells.
#[tactic(auto, using(crate::specs::Asked::counted, crate::specs::Asked::refused))]
pub(crate) fn count<P: Grammar>(pile: &P, bound: usize, cells: &mut [u64]) -> Answer
    ensures { CountReply (P.meaning pile.now) bound cells.old cells.new result }
{
    table::count(pile, &mut Table { cells, bound }).map_or_else(
        Answer::Refused,
        |()| Answer::Counted,
    )
}

/// Checks the pile's table for a bound in these cells.
// It takes `&mut` here and in `show_table` because `Table` does. The table is made here, since of one that is made from
// a session's `Vec` a proof does not learn what the `Vec` holds afterwards.
#[tactic(auto, using(crate::specs::Asked::sound, crate::specs::Asked::refused))]
pub(crate) fn check<P: Grammar>(pile: &P, bound: usize, cells: &mut [u64]) -> Answer
    ensures answer { CheckReply (P.meaning pile.now) bound cells.old result }
    ensures cells { cells.new ≡ cells.old }
{
    table::check(pile, &Table { cells, bound }).map_or_else(Answer::Refused, |()| Answer::Sound)
}

/// The needed cells of the pile's table for a bound.
#[tactic(auto, using(crate::specs::Asked::shown, crate::specs::Asked::refused))]
pub(crate) fn show_table<P: Grammar>(
    heap: Global,
    pile: &P,
    bound: usize,
    cells: &mut [u64],
) -> Result<Answer, AllocError>
    ensures answer { IfOk result (TableReply (P.meaning pile.now) bound cells.old) }
    ensures cells { cells.new ≡ cells.old }
{
    let needed = needed_cells(pile, &Table { cells, bound });
    match needed {
        Ok(needed) => Ok(Answer::Table(cells[..needed].to_vec(heap)?)),
        Err(fault) => Ok(Answer::Refused(fault)),
    }
}
