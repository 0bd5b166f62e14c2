//! The layer that changes the start of the grammar below.

#![tactic(auto)]

ghost use Rattle.std.specs.Prelude.{◌≡◌, if◌then◌else◌, Some, None, nat_lt};
ghost use Rattle.std.specs.Borrow.{Lends, sem};
ghost use Rattle.start_change.specs.contracts.StartChange.{the_row};
ghost use Rattle.start_change.specs.Started.{with_start, start_answer};
ghost use Rattle.start_change.specs.Laws.{DerivationsAreThoseBelow, StartIsStoredOrBelow};
ghost use Rattle.start_change.specs.Implemented.{start_implements};

use fault::Fault;
use grammar::Grammar;

/// The grammar below with another start; a stored start that is no nonterminal of the grammar below has no effect, and the start is as below.
#[derive(Drop)]
pub struct StartChange<G> {
    below: G,
    start: Option<u8>,
}

impl<G> StartChange<G> {
    /// A layer that leaves the start as it is.
    pub fn new(below: G) -> StartChange<G>
        ensures below { result.below ≡ below }
        ensures start { result.start ≡ None }
    {
        StartChange { below, start: None }
    }

    /// Leaves the start as it is again.
    pub fn reset(&mut self)
        ensures below { self.new.below ≡ self.old.below }
        ensures start { self.new.start ≡ None }
    {
        self.start = None;
    }

    /// The grammar below.
    pub fn below(&self) -> &G
        ensures { result.now ≡ self.now.below }
    {
        &self.below
    }

    /// The grammar below, to be changed; the stored start stays.
    pub fn below_mut(&mut self) -> &mut G
        ensures below { result.now ≡ self.old.below }
        ensures* writes_back { sem 𝓛 (Lends (the_row G.row) G.row self.entry result (λ g. record self.old { below = g })) }
    {
        &mut self.below
    }

    /// Puts another grammar below, and hands the old one back; the stored start stays.
    pub fn replace_below<H>(self, below: H) -> (StartChange<H>, G)
        ensures below { result.0.below ≡ below }
        ensures start { result.0.start ≡ self.start }
        ensures old { result.1 ≡ self.below }
    {
        (
            StartChange {
                below,
                start: self.start,
            },
            self.below,
        )
    }
}

impl<G: Grammar> StartChange<G> {
    /// Sets the start; one that is no nonterminal of the grammar below is refused, and nothing changes.
    pub fn set_start(&mut self, start: u8) -> Result<(), Fault>
        ensures answer { result ≡ start_answer (G.Grammar.meaning self.old.below).nonterminals start }
        ensures start { self.new.start ≡ (if nat_lt start (G.Grammar.meaning self.old.below).nonterminals then Some start else self.old.start) }
        ensures below { self.new.below ≡ self.old.below }
    {
        if start < self.below.nonterminals() {
            self.start = Some(start);
            Ok(())
        } else {
            Err(Fault::SettingRefused(u64::from(start)))
        }
    }
}

// The questions that are passed on, and `below`, `below_mut` and `replace_below`, stand in `Restriction` too. One layer over any setting
// would be longer: it needs a trait with a method and a ghost member for each question that some setting changes.
impl<G: Grammar> Grammar for StartChange<G> {
    ghost meaning = { λ s. with_start (G.Grammar.meaning s.below) s.start };

    ghost chosen = { λ s. G.Grammar.chosen s.below };

    ghost levels = { λ s. G.Grammar.levels s.below };

    ghost implements = { λ s. start_implements (G.Grammar.meaning s.below) s.start (G.Grammar.chosen s.below) (G.Grammar.levels s.below) (G.Grammar.implements s.below) };

    fn terminals(&self) -> u8 {
        self.below.terminals()
    }

    fn nonterminals(&self) -> u8 {
        self.below.nonterminals()
    }

    fn slots(&self) -> u8 {
        self.below.slots()
    }

    fn start(&self) -> u8 {
        match self.start {
            Some(stored) if stored < self.below.nonterminals() => stored,
            _ => self.below.start(),
        }
    }

    fn left(&self, slot: u8) -> Option<u8> {
        self.below.left(slot)
    }

    fn length(&self, slot: u8) -> u8 {
        self.below.length(slot)
    }

    fn symbol(&self, slot: u8, position: u8) -> Option<u8> {
        self.below.symbol(slot, position)
    }

    fn level(&self, a: u8) -> u8 {
        self.below.level(a)
    }

    fn choice(&self, a: u8, next: Option<u8>) -> Option<u8> {
        self.below.choice(a, next)
    }
}

/// The derivations are those below.
pub fn derivations_are_those_below()
    ensures { DerivationsAreThoseBelow }
{}

/// The start is the stored one if it is a nonterminal below; else, and with none stored, the grammar is the one below.
pub fn start_is_stored_or_below()
    ensures { StartIsStoredOrBelow }
{}
