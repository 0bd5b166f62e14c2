//! The interface of grammars: what every grammar answers, and what it owes.

#![tactic(auto)]

ghost use Rattle.std.specs.Prelude.{◌≡◌, ℕ, length, Option};
ghost use Rattle.theory.specs.Grammar.{Cfg};
ghost use Rattle.theory.specs.Sets.{Next};
ghost use Rattle.theory.specs.Sound.{Limits, Sound, Ll1};
ghost use Rattle.theory.specs.Count.{left_of, right_of};
ghost use Rattle.grammar.specs.Interface.{byte_at, next_of_lookahead, Implements, OutsideIsNone};
ghost use Rattle.grammar.specs.Symbols.{symbol_of_byte, symbol_at};

/// A symbol of a right-hand side.
#[derive(Clone, Copy, PartialEq, Eq, Debug)]
pub enum Symbol {
    Terminal(u8),
    Nonterminal(u8),
}

/// The symbol of a byte: t for terminal t, 128 + A for nonterminal A.
impl From<u8> for Symbol {
    ghost from_gives = { λ b s. s ≡ symbol_of_byte b };

    fn from(byte: u8) -> Symbol {
        if byte < 128 {
            Symbol::Terminal(byte)
        } else {
            Symbol::Nonterminal(byte - 128)
        }
    }
}

/// A sound grammar with a choice of slots and a level for each nonterminal.
///
/// Questions change nothing and answer alike each time. One out of range answers none, or 0 for a length or a level.
pub trait Grammar {
    /// The grammar that the answers are about.
    ghost meaning: { Self → Cfg };

    /// The slot chosen for a nonterminal and what comes next.
    ghost chosen: { Self → ℕ → Next → Option ℕ };

    /// The level of each nonterminal.
    ghost levels: { Self → ℕ → ℕ };

    /// How many terminals there are.
    fn terminals(&self) -> u8
        ensures { result ≡ (meaning self.now).terminals };

    /// How many nonterminals there are.
    fn nonterminals(&self) -> u8
        ensures { result ≡ (meaning self.now).nonterminals };

    /// How many slots there are.
    fn slots(&self) -> u8
        ensures { result ≡ (meaning self.now).slots };

    /// The start nonterminal.
    fn start(&self) -> u8
        ensures { result ≡ (meaning self.now).start };

    /// The left-hand side of a slot; none if the slot is empty or there is no such slot.
    fn left(&self, slot: u8) -> Option<u8>
        ensures { result ≡ left_of ((meaning self.now).slot slot) };

    /// The length of a slot's right-hand side; 0 if the slot is empty or there is no such slot.
    fn length(&self, slot: u8) -> u8
        ensures { result ≡ length (right_of ((meaning self.now).slot slot)) };

    /// The byte of the symbol at a position of a slot's right-hand side: t for terminal t, 128 + A for nonterminal A.
    /// None past the end, if the slot is empty and if there is no such slot.
    // A byte, not a `Symbol`: the interface of grammars answers bytes; `symbol_at` answers the symbol.
    fn symbol(&self, slot: u8, position: u8) -> Option<u8>
        ensures { result ≡ byte_at (right_of ((meaning self.now).slot slot)) position };

    /// The level of a nonterminal; 0 if there is no such nonterminal.
    fn level(&self, a: u8) -> u8
        ensures { result ≡ levels self.now a };

    /// The slot chosen for a nonterminal and what comes next, a terminal or none at the end of the input; none also if there is no such nonterminal or no such terminal.
    fn choice(&self, a: u8, next: Option<u8>) -> Option<u8>
        ensures { result ≡ chosen self.now a (next_of_lookahead next) };

    /// The symbol at a position of a slot's right-hand side. None past the end, if the slot is empty and if there is no such slot.
    final fn symbol_at(&self, slot: u8, position: u8) -> Option<Symbol>
        ensures { result ≡ symbol_at (right_of ((meaning self.now).slot slot)) position }
    {
        self.symbol(slot, position).map(Symbol::from)
    }

    /// The grammar keeps the limits and is sound, and choice and levels are as they should be.
    ghost implements: { (s : Self) → Implements (meaning s) (chosen s) (levels s) };
}

/// Every grammar keeps the limits and is sound, and its levels are levels: the laws of the theory apply to it.
pub fn sound<G: Grammar>(g: &G)
    ensures limits { Limits (G.meaning g.now) }
    ensures sound { Sound (G.meaning g.now) }
    ensures ll1 { Ll1 (G.meaning g.now) (G.levels g.now) }
{}

/// Every grammar answers none, or 0 for a length or a level, where a question is out of range.
pub fn outside_is_none<G: Grammar>(g: &G)
    ensures { OutsideIsNone (G.meaning g.now) (G.chosen g.now) (G.levels g.now) }
{}
