//! The grammar of 1 to 16 kinds of brackets.

#![tactic(auto)]

ghost use Rattle.std.specs.Prelude.{◌≡◌, ◌≤◌, if◌then◌else◌};
ghost use Rattle.brackets.specs.Brackets.{bracket_grammar, bracket_choice, kinds_allowed, kinds_answer};
ghost use Rattle.brackets.specs.Laws.{SentencesAreBrackets};
ghost use Rattle.brackets.specs.Facts.{bracket_implements};

use fault::Fault;
use grammar::Grammar;

/// Well-nested brackets of k kinds: terminal i below k opens kind i, terminal k + i closes it.
#[derive(Clone, Copy)]
pub struct Brackets {
    kinds: u8,
    ghost allowed: { (1 ≤ kinds) × (kinds ≤ 16) },
}

impl Brackets {
    /// Brackets of one kind.
    pub fn new() -> Brackets
        ensures { result.kinds ≡ 1 }
    {
        Brackets { kinds: 1 }
    }

    /// How many kinds there are.
    pub fn kinds(&self) -> u8
        ensures { result ≡ self.now.kinds }
    {
        self.kinds
    }

    /// Sets the number of kinds; one outside 1 to 16 is refused, and changes nothing.
    pub fn set_kinds(&mut self, kinds: u8) -> Result<(), Fault>
        ensures answer { result ≡ kinds_answer kinds }
        ensures holds { self.new.kinds ≡ (if kinds_allowed kinds then kinds else self.old.kinds) }
    {
        if matches!(kinds, 1..=16) {
            *self = Brackets { kinds };
            Ok(())
        } else {
            Err(Fault::SettingRefused(u64::from(kinds)))
        }
    }
}

impl Grammar for Brackets {
    ghost meaning = { λ s. bracket_grammar s.kinds };

    ghost chosen = { λ s. bracket_choice s.kinds };

    ghost levels = { λ s A. 0 };

    ghost implements = { λ s. bracket_implements s.kinds s.allowed.0 s.allowed.1 };

    fn terminals(&self) -> u8 {
        self.kinds * 2
    }

    fn nonterminals(&self) -> u8 {
        1
    }

    fn slots(&self) -> u8 {
        self.kinds + 1
    }

    fn start(&self) -> u8 {
        0
    }

    fn left(&self, slot: u8) -> Option<u8> {
        (slot <= self.kinds).then_some(0)
    }

    fn length(&self, slot: u8) -> u8 {
        if slot < self.kinds { 4 } else { 0 }
    }

    fn symbol(&self, slot: u8, position: u8) -> Option<u8> {
        match position {
            0 if slot < self.kinds => Some(slot),
            1 | 3 if slot < self.kinds => Some(128),
            2 if slot < self.kinds => Some(self.kinds + slot),
            _ => None,
        }
    }

    fn level(&self, _a: u8) -> u8 {
        0
    }

    fn choice(&self, a: u8, next: Option<u8>) -> Option<u8> {
        match (a, next) {
            (0, Some(t)) if t < self.kinds => Some(t),
            (0, Some(t)) if t < 2 * self.kinds => Some(self.kinds),
            (0, None) => Some(self.kinds),
            _ => None,
        }
    }
}

/// A sentence of the bracket family is empty, or an opening bracket, a sentence, the closing bracket of that kind and a sentence; and nothing else is one.
pub fn sentences_are_brackets()
    ensures { SentencesAreBrackets }
{}
