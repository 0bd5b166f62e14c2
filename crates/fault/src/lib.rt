//! What can be refused: each fault has a number, a stage and a place.

#![tactic(auto)]

ghost use Rattle.std.specs.Prelude.{◌≡◌, Some, Decides};
ghost use Rattle.fault.specs.Faults.{fault_number, fault_stage, stage_number, memory_place, fault_place, same_fault, fault_text, NumberAndPlaceIdentify};

use std::error::Error;
use std::fmt;

/// Where a fault comes from.
#[derive(Clone, Copy, PartialEq, Eq, Debug)]
pub enum Stage {
    /// Reading a grammar file.
    File = 1,
    /// Judging the grammar that was read.
    Grammar = 2,
    /// Judging or using a spelling.
    Spelling = 3,
    /// Counting, and the memory that a call is lent.
    Table = 4,
    /// A sentence, or the number of one.
    Sentence = 5,
    /// The setting of a grammar or of a layer.
    Layer = 6,
    /// A tour, which gives out the sentences of one length one by one, and its slip: the token that opening gives with a
    /// tour and closing takes back. Both come with a later delivery.
    Tour = 7,
}

/// A memory that a call is lent.
#[derive(Clone, Copy, PartialEq, Eq, Debug)]
pub enum Memory {
    /// The cells of the table.
    Cells = 1,
    /// The working stack.
    Stack = 2,
    /// What the result is written to.
    Output = 3,
}

/// A refusal, with its place.
#[derive(Clone, Copy, PartialEq, Eq, Debug)]
pub enum Fault {
    /// The file ends before a byte that its record needs; at the offset where that record begins.
    MissingByte(u64),
    /// This mark may not stand here; at the offset of the mark.
    UnexpectedMark(u64),
    /// A field is outside its limits; at the offset where its record begins.
    FieldOutOfLimits(u64),
    /// There are bytes after the end record; at the offset of the first.
    TrailingBytes(u64),
    /// A right-hand side of two or more symbols is nullable; the lowest such slot.
    LongNullableSide(u64),
    /// A nonterminal reaches itself by left corners; the lowest such nonterminal.
    LeftRecursion(u64),
    /// Two slots of one nonterminal share a member of their predict sets; the lowest slot that clashes with an earlier one.
    PredictClash(u64),
    /// A terminal has no spelling while another has one, or its spelling is a prefix of another's or has another's as its prefix; the lowest such terminal.
    SpellingClash(u64),
    /// A length or a bound is above its limit; the length or the bound.
    TooLong(u64),
    /// A lent memory is too short; which one.
    ShortMemory(Memory),
    /// A count does not fit 63 bits; the smallest length that has such a count.
    CountTooLarge(u64),
    /// A cell of the table breaks its equation; the lowest such cell.
    BrokenCell(u64),
    /// The number of a sentence is not below the count; the count.
    NumberTooLarge(u64),
    /// The tokens are no sentence; how many were read when the parse stopped.
    ParseStopped(u64),
    /// A token has no spelling, or nothing is spelled here; the index of the token or the offset.
    NotSpelled(u64),
    /// A setting is outside its limits; the setting, or its lowest bit that is.
    SettingRefused(u64),
    /// The slip is of another campaign than the tour; the slip's campaign. A campaign is a run of tours over years,
    /// numbered 0 to 65535; it comes with a later delivery.
    OtherCampaign(u64),
}

impl Stage {
    /// The number of the stage, 1 to 7.
    pub fn number(self) -> u8
        ensures { result ≡ stage_number self }
    {
        self as u8
    }
}

impl Memory {
    /// The place that names this memory in a fault.
    pub fn place(self) -> u64
        ensures { result ≡ memory_place self }
    {
        self as u64
    }
}

impl Fault {
    /// The number of the fault, 1 to 17.
    // A match: a case that holds a place has no discriminant to cast.
    pub fn number(self) -> u8
        ensures { result ≡ fault_number self }
    {
        match self {
            Fault::MissingByte(_) => 1,
            Fault::UnexpectedMark(_) => 2,
            Fault::FieldOutOfLimits(_) => 3,
            Fault::TrailingBytes(_) => 4,
            Fault::LongNullableSide(_) => 5,
            Fault::LeftRecursion(_) => 6,
            Fault::PredictClash(_) => 7,
            Fault::SpellingClash(_) => 8,
            Fault::TooLong(_) => 9,
            Fault::ShortMemory(_) => 10,
            Fault::CountTooLarge(_) => 11,
            Fault::BrokenCell(_) => 12,
            Fault::NumberTooLarge(_) => 13,
            Fault::ParseStopped(_) => 14,
            Fault::NotSpelled(_) => 15,
            Fault::SettingRefused(_) => 16,
            Fault::OtherCampaign(_) => 17,
        }
    }

    /// The stage at which the fault comes.
    pub fn stage(self) -> Stage
        ensures { result ≡ fault_stage self }
    {
        match self {
            Fault::MissingByte(_)
            | Fault::UnexpectedMark(_)
            | Fault::FieldOutOfLimits(_)
            | Fault::TrailingBytes(_) => Stage::File,
            Fault::LongNullableSide(_) | Fault::LeftRecursion(_) | Fault::PredictClash(_) =>
                Stage::Grammar,
            Fault::SpellingClash(_) | Fault::NotSpelled(_) => Stage::Spelling,
            Fault::TooLong(_)
            | Fault::ShortMemory(_)
            | Fault::CountTooLarge(_)
            | Fault::BrokenCell(_) => Stage::Table,
            Fault::NumberTooLarge(_) | Fault::ParseStopped(_) => Stage::Sentence,
            Fault::SettingRefused(_) => Stage::Layer,
            Fault::OtherCampaign(_) => Stage::Tour,
        }
    }

    /// The place of the fault.
    pub fn place(self) -> u64
        ensures { result ≡ fault_place self }
    {
        match self {
            Fault::ShortMemory(memory) => memory.place(),
            Fault::MissingByte(place)
            | Fault::UnexpectedMark(place)
            | Fault::FieldOutOfLimits(place)
            | Fault::TrailingBytes(place)
            | Fault::LongNullableSide(place)
            | Fault::LeftRecursion(place)
            | Fault::PredictClash(place)
            | Fault::SpellingClash(place)
            | Fault::TooLong(place)
            | Fault::CountTooLarge(place)
            | Fault::BrokenCell(place)
            | Fault::NumberTooLarge(place)
            | Fault::ParseStopped(place)
            | Fault::NotSpelled(place)
            | Fault::SettingRefused(place)
            | Fault::OtherCampaign(place) => place,
        }
    }
}

/// Whether two faults are one, by the derived `==`: so exactly where number and place agree.
pub fn same(x: &Fault, y: &Fault) -> bool
    ensures computes { result ≡ same_fault x.now y.now }
    ensures decides { Decides result (x.now ≡ y.now) }
{
    x == y
}

/// A fault is known by its number and its place.
pub fn number_and_place_identify()
    ensures { NumberAndPlaceIdentify }
{}

impl fmt::Display for Fault {
    ghost output = { λ f. Some (fault_text f) };

    fn fmt<W: fmt::Write>(&self, f: &mut fmt::Formatter<W>) -> fmt::Result {
        let number = self.number();
        let stage = self.stage().number();
        let place = self.place();
        write!(f, "fault {number} stage {stage} place {place}")
    }
}

impl Error for Fault {}
