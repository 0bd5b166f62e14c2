//! The arguments of commands.

ghost use Rattle.script.specs.Cut.{unread};
ghost use Rattle.script.specs.Says.{byte, max_byte, next_argument, number};
ghost use Rattle.script.specs.Shapes.{ReadAs, ReadWord, ReadWords, choice, numbers};
ghost use Rattle.std.specs.Prelude.{[], ◌∷◌, map};

use crate::Command;
use crate::keyword::Keyword;
use crate::number::{byte, number_up_to};
use crate::words::Words;

/// The most cells, places of a stack and bytes of output that a script asks for.
const MOST: u64 = 1_000_000;

/// The arguments, `N` numbers up to a limit.
fn numbers<const N: usize>(mut words: Words, limit: u64) -> Option<[u64; N]>
    ensures { ReadWords (numbers N limit) (map (number limit)) (unread words.entry) result }
{
    let mut values = [0; N];
    for value in values.iter_mut() {
        *value = number_up_to(words.next()?, limit)?;
    }
    words.ended().then_some(values)
}

/// The only argument, a number of one byte.
fn one_byte(mut words: Words) -> Option<u8>
    ensures { ReadWords (numbers 1 max_byte) (λ v. byte v ∷ []) (unread words.entry) result }
{
    let value = byte(words.next()?)?;
    words.ended().then_some(value)
}

/// The next terminal that a word names; none at the end of the input.
fn next_terminal(word: &[u8]) -> Option<Option<u8>>
    ensures { ReadWord next_argument word.now result }
{
    match word {
        b"end" => Some(None),
        _ => byte(word).map(Some),
    }
}

/// The arguments of a choice.
fn choice(mut words: Words) -> Option<(u8, Option<u8>)>
    ensures { ReadWords choice (λ p. byte p.0 ∷ next_argument p.1 ∷ []) (unread words.entry) result }
{
    let nonterminal = byte(words.next()?)?;
    let next = next_terminal(words.next()?)?;
    words.ended().then_some((nonterminal, next))
}

/// The command of a keyword with the words after it.
pub fn read(keyword: Keyword, words: Words) -> Option<Command>
    ensures { ReadAs keyword (unread words.entry) result }
{
    match keyword {
        Keyword::Brackets => {
            let kinds = one_byte(words)?;
            Some(Command::Brackets { kinds })
        }
        Keyword::Neutral => words.ended().then_some(Command::Neutral),
        Keyword::Restrict => {
            let [mask] = numbers::<1>(words, u64::MAX)?;
            Some(Command::Restrict { mask })
        }
        Keyword::Start => {
            let start = one_byte(words)?;
            Some(Command::Start { start })
        }
        Keyword::Choice => {
            let (nonterminal, next) = choice(words)?;
            Some(Command::Choice { nonterminal, next })
        }
        Keyword::Level => {
            let nonterminal = one_byte(words)?;
            Some(Command::Level { nonterminal })
        }
        Keyword::Memory => {
            let [cells, stack, output] = numbers::<3>(words, MOST)?;
            Some(Command::Memory {
                cells: cells as usize,
                stack: stack as usize,
                output: output as usize,
            })
        }
        Keyword::Bound => {
            let [bound] = numbers::<1>(words, u64::MAX)?;
            Some(Command::Bound {
                bound: bound as usize,
            })
        }
        Keyword::Count => words.ended().then_some(Command::Count),
        Keyword::Check => words.ended().then_some(Command::Check),
        Keyword::Table => words.ended().then_some(Command::Table),
        Keyword::Cell => {
            let [cell] = numbers::<1>(words, u64::MAX)?;
            Some(Command::Cell { cell })
        }
        Keyword::Flip => {
            let [cell, bit] = numbers::<2>(words, u64::MAX)?;
            Some(Command::Flip { cell, bit })
        }
        Keyword::Poke => {
            let [cell, value] = numbers::<2>(words, u64::MAX)?;
            Some(Command::Poke { cell, value })
        }
    }
}
