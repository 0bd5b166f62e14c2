//! Reads a line of a console script into a command.
//!
//! An empty line and a line that begins with `#` are blank, however long they are. Any other line is a keyword and its
//! arguments: words between single spaces, with none before the first word or after the last. A number is decimal
//! digits, and may have leading zeros. The commands are
//!
//! ```text
//! brackets KINDS               KINDS, NONTERMINAL, TERMINAL, START: at most 255
//! neutral
//! restrict MASK                MASK, L, CELL, BIT, VALUE: at most 2^64 - 1
//! start START
//! choice NONTERMINAL TERMINAL
//! choice NONTERMINAL end
//! level NONTERMINAL
//! memory CELLS STACK OUTPUT    each at most 1000000
//! bound L
//! count
//! check
//! table
//! cell CELL
//! flip CELL BIT
//! poke CELL VALUE
//! ```
//!
//! A line that is not blank and says no command, or has more than 1,000,000 bytes, is unreadable.

#![tactic(auto)]

ghost use Rattle.script.specs.Laws.{EveryCommand, OneCommand, OneReading};
ghost use Rattle.script.specs.LineEnd.{LineEndOff};
ghost use Rattle.script.specs.Says.{IsBlank, Reads, Says};
ghost use Rattle.std.specs.Prelude.{Decides, MatchOption};

mod arguments;
mod keyword;
mod number;
mod words;

use keyword::Keyword;
use words::Words;

/// A command of a console script.
#[derive(Clone, Copy, PartialEq, Eq, Drop)]
pub enum Command {
    /// Set the number of kinds of brackets.
    Brackets {
        kinds: u8,
    },
    /// Reset both layers.
    Neutral,
    /// Set the mask of the restriction.
    Restrict {
        mask: u64,
    },
    /// Set the start of the start change.
    Start {
        start: u8,
    },
    /// Ask for the slot chosen for a nonterminal and the next terminal, none at the end of the input.
    Choice {
        nonterminal: u8,
        next: Option<u8>,
    },
    /// Ask for the level of a nonterminal.
    Level {
        nonterminal: u8,
    },
    /// Set the sizes of the lent memories.
    Memory {
        cells: usize,
        stack: usize,
        output: usize,
    },
    /// Set the bound of the table.
    Bound {
        bound: usize,
    },
    /// Count the table.
    Count,
    /// Check the table.
    Check,
    /// Ask for the needed cells.
    Table,
    /// Ask for what a cell holds.
    Cell {
        cell: u64,
    },
    /// Change one bit of a cell.
    Flip {
        cell: u64,
        bit: u64,
    },
    /// Write a value to a cell.
    Poke {
        cell: u64,
        value: u64,
    },
}

/// What a line of a script is.
// The console answers the three in three ways; in a `Result` of an `Option` a blank line would be a `None` in an `Ok`.
#[derive(Clone, Copy, PartialEq, Eq, Drop)]
pub enum Line {
    /// It is empty or a comment.
    Blank,
    /// It says this command.
    Command(Command),
    /// It is not blank and says no command, or is too long.
    Unreadable,
}

/// The most bytes that a line with a command has.
const LONGEST: usize = 1_000_000;

/// Whether a line is empty or a comment.
fn is_blank(line: &[u8]) -> bool
    ensures { Decides result (IsBlank line.now) }
{
    matches!(line, [] | [b'#', ..])
}

/// The command that a text says.
fn read_command(text: &[u8]) -> Option<Command>
    ensures { MatchOption result ((c : Command) → Says text.now c → ⊥) (λ c. Says text.now c) }
{
    let mut words = Words::of(text);
    let word = words.next()?;
    let keyword = Keyword::try_from(word).ok()?;
    arguments::read(keyword, words)
}

/// Reads a line, given without its line end, LF or CR LF.
pub fn read_line(line: &[u8]) -> Line
    ensures { Reads line.now result }
{
    if is_blank(line) {
        return Line::Blank;
    }
    if line.len() > LONGEST {
        return Line::Unreadable;
    }
    match read_command(line) {
        Some(command) => Line::Command(command),
        None => Line::Unreadable,
    }
}

/// A line without its line end: one LF, or one CR LF, is taken off at the end. Any other CR stays.
pub fn without_line_end(line: &[u8]) -> &[u8]
    ensures { LineEndOff line.now result.now }
{
    let Some(text) = line.strip_suffix(b"\n") else {
        return line;
    };
    text.strip_suffix(b"\r").unwrap_or(text)
}

/// No line says two commands, and no line is read in two ways.
pub fn line_says_one()
    ensures command { OneCommand }
    ensures reading { OneReading }
{}

/// Each command within its limits is read from a line.
pub fn command_has_line()
    ensures { EveryCommand }
{}

#[cfg(test)]
mod tests {
    use super::*;
    use std::process::Abort;

    // Checks what a line is.
    fn line_is(rt: &impl Abort, line: &[u8], wanted: Line) {
        assert!(rt; read_line(line) == wanted);
    }

    // Checks which command a line says.
    fn says(rt: &impl Abort, line: &[u8], wanted: Command) {
        line_is(rt, line, Line::Command(wanted));
    }

    #[test]
    fn line_ends(rt: HostRuntime) {
        assert!(rt; without_line_end(b"count\n") == b"count".as_slice());
        assert!(rt; without_line_end(b"count\r\n") == b"count".as_slice());
        assert!(rt; without_line_end(b"count") == b"count".as_slice());
        assert!(rt; without_line_end(b"count\r") == b"count\r".as_slice());
        assert!(rt; without_line_end(b"\r\r\n\n") == b"\r\r\n".as_slice());
        assert!(rt; without_line_end(b"\n") == b"".as_slice());
        assert!(rt; without_line_end(b"") == b"".as_slice());
    }

    #[test]
    fn blank_lines(rt: HostRuntime) {
        line_is(&rt, b"", Line::Blank);
        line_is(&rt, b"#", Line::Blank);
        line_is(&rt, b"# count", Line::Blank);
        line_is(&rt, b" # count", Line::Unreadable);
    }

    #[test]
    fn commands_of_grammars(rt: HostRuntime) {
        says(&rt, b"brackets 3", Command::Brackets { kinds: 3 });
        says(&rt, b"neutral", Command::Neutral);
        says(
            &rt,
            b"restrict 18446744073709551615",
            Command::Restrict { mask: u64::MAX },
        );
        says(&rt, b"start 255", Command::Start { start: 255 });
        says(
            &rt,
            b"choice 1 007",
            Command::Choice {
                nonterminal: 1,
                next: Some(7),
            },
        );
        says(
            &rt,
            b"choice 1 end",
            Command::Choice {
                nonterminal: 1,
                next: None,
            },
        );
        says(&rt, b"level 0", Command::Level { nonterminal: 0 });
    }

    #[test]
    fn commands_of_tables(rt: HostRuntime) {
        says(
            &rt,
            b"memory 1000000 64 0",
            Command::Memory {
                cells: 1_000_000,
                stack: 64,
                output: 0,
            },
        );
        says(&rt, b"bound 48", Command::Bound { bound: 48 });
        says(&rt, b"count", Command::Count);
        says(&rt, b"check", Command::Check);
        says(&rt, b"table", Command::Table);
        says(&rt, b"cell 12", Command::Cell { cell: 12 });
        says(&rt, b"flip 12 63", Command::Flip { cell: 12, bit: 63 });
        says(&rt, b"poke 12 0", Command::Poke { cell: 12, value: 0 });
    }

    #[test]
    fn unreadable_lines(rt: HostRuntime) {
        line_is(&rt, b"brackets 256", Line::Unreadable);
        line_is(&rt, b"restrict 18446744073709551616", Line::Unreadable);
        line_is(&rt, b"memory 1 1 1000001", Line::Unreadable);
        line_is(&rt, b"bound", Line::Unreadable);
        line_is(&rt, b"bound ", Line::Unreadable);
        line_is(&rt, b"bound  48", Line::Unreadable);
        line_is(&rt, b"bound +48", Line::Unreadable);
        line_is(&rt, b"count 1", Line::Unreadable);
        line_is(&rt, b"choice 1 End", Line::Unreadable);
        line_is(&rt, b"counts", Line::Unreadable);
        line_is(&rt, b"count\xff", Line::Unreadable);
    }
}
