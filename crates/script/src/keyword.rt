//! The first words of commands.

ghost use Rattle.script.specs.Says.{Names};

/// The first word of a command.
#[derive(Clone, Copy, Drop)]
pub enum Keyword {
    Brackets,
    Neutral,
    Restrict,
    Start,
    Choice,
    Level,
    Memory,
    Bound,
    Count,
    Check,
    Table,
    Cell,
    Flip,
    Poke,
}

/// A word that is no keyword.
#[derive(Clone, Copy, Drop)]
pub struct UnknownKeyword;

impl<'a> TryFrom<&'a [u8]> for Keyword {
    type Error = UnknownKeyword;

    ghost try_from_gives = { λ word r. Names word.now r };

    fn try_from(word: &'a [u8]) -> Result<Keyword, UnknownKeyword> {
        match word {
            b"brackets" => Ok(Keyword::Brackets),
            b"neutral" => Ok(Keyword::Neutral),
            b"restrict" => Ok(Keyword::Restrict),
            b"start" => Ok(Keyword::Start),
            b"choice" => Ok(Keyword::Choice),
            b"level" => Ok(Keyword::Level),
            b"memory" => Ok(Keyword::Memory),
            b"bound" => Ok(Keyword::Bound),
            b"count" => Ok(Keyword::Count),
            b"check" => Ok(Keyword::Check),
            b"table" => Ok(Keyword::Table),
            b"cell" => Ok(Keyword::Cell),
            b"flip" => Ok(Keyword::Flip),
            b"poke" => Ok(Keyword::Poke),
            _ => Err(UnknownKeyword),
        }
    }
}
