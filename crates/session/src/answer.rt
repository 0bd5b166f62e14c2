//! What the console answers, and the text of it.

ghost use Rattle.std.specs.Fmt.{WritesOnOk};
ghost use Rattle.std.specs.Prelude.{◌≡◌, ◌++◌, Some, codes};
ghost use Rattle.session.specs.Answers.{spaced, answer_text};
ghost use Rattle.session.specs.Asked.{slot_answer};
ghost use Rattle.session.specs.Runs.{setting_answer};

use fault::Fault;
use std::fmt;

/// What the console answers to a line. Its text, by `Display`, is the line that the console prints.
#[derive(Drop)]
pub enum Answer {
    /// A setting was taken.
    Done,
    /// The table was counted.
    Counted,
    /// The table is sound.
    Sound,
    /// The slot that was chosen.
    Slot(u8),
    /// No slot was chosen.
    NoSlot,
    /// The level of a nonterminal.
    Level(u8),
    /// The needed cells.
    Table(Vec<u64>),
    /// What a cell holds.
    Cell(u64),
    /// There is no such cell, or no such bit of it.
    NoSuchCell,
    /// A call was refused.
    Refused(Fault),
    /// The line says no command.
    Unreadable,
}

/// The answer to a choice.
impl From<Option<u8>> for Answer {
    ghost from_gives = { λ slot answer. answer ≡ slot_answer slot };

    fn from(slot: Option<u8>) -> Answer {
        slot.map_or(Answer::NoSlot, Answer::Slot)
    }
}

/// The answer to a setting.
impl From<Result<(), Fault>> for Answer {
    ghost from_gives = { λ settled answer. answer ≡ setting_answer settled };

    fn from(settled: Result<(), Fault>) -> Answer {
        settled.map_or_else(Answer::Refused, |()| Answer::Done)
    }
}

// The needed cells, each after a space.
fn write_table<W: fmt::Write>(cells: &[u64], f: &mut fmt::Formatter<W>) -> fmt::Result
    ensures { WritesOnOk W.write_str_gives f.old result (codes "table" ++ spaced cells.now) f.new }
{
    write!(f, "table")?;
    for cell in cells {
        write!(f, " {cell}")?;
    }
    Ok(())
}

impl fmt::Display for Answer {
    ghost output = { λ answer. Some (answer_text answer) };

    fn fmt<W: fmt::Write>(&self, f: &mut fmt::Formatter<W>) -> fmt::Result {
        match self {
            Answer::Done => write!(f, "ok"),
            Answer::Counted => write!(f, "counted"),
            Answer::Sound => write!(f, "sound"),
            Answer::Slot(slot) => write!(f, "slot {slot}"),
            Answer::NoSlot => write!(f, "none"),
            Answer::Level(level) => write!(f, "level {level}"),
            Answer::Table(cells) => write_table(cells.as_slice(), f),
            Answer::Cell(value) => write!(f, "cell {value}"),
            Answer::NoSuchCell => write!(f, "no such cell"),
            Answer::Refused(fault) => write!(f, "{fault}"),
            Answer::Unreadable => write!(f, "unreadable"),
        }
    }
}
