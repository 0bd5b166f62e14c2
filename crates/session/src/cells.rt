//! The commands on single cells of the lent memory.

ghost use Rattle.std.specs.Prelude.{◌≡◌};
ghost use Rattle.session.specs.Asked.{cell_answer, written_answer, written, flipped_answer, flipped};

use crate::answer::Answer;

/// What a cell holds.
pub(crate) fn cell(cells: &[u64], at: u64) -> Answer
    ensures { result ≡ cell_answer cells.now at }
{
    cells
        .get(at as usize)
        .map_or(Answer::NoSuchCell, |value| Answer::Cell(*value))
}

/// Writes a cell.
// A `Vec`, not a slice, here and in `flip`: of a slice's `get_mut` a proof does not learn what was written.
pub(crate) fn poke(cells: &mut Vec<u64>, at: u64, value: u64) -> Answer
    ensures answer { result ≡ written_answer cells.old.items at }
    ensures cells { cells.new.items ≡ written cells.old.items at value }
{
    match cells.get_mut(at as usize) {
        Some(cell) => {
            *cell = value;
            Answer::Done
        }
        None => Answer::NoSuchCell,
    }
}

/// Flips one bit of one cell.
pub(crate) fn flip(cells: &mut Vec<u64>, at: u64, bit: u64) -> Answer
    ensures answer { result ≡ flipped_answer cells.old.items at bit }
    ensures cells { cells.new.items ≡ flipped cells.old.items at bit }
{
    match cells.get_mut(at as usize) {
        Some(cell) if bit < 64 => {
            *cell ^= 1 << bit;
            Answer::Done
        }
        _ => Answer::NoSuchCell,
    }
}
