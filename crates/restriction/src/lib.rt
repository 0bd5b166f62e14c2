//! The layer that keeps only some slots of the grammar below.

#![tactic(auto)]

ghost use Rattle.std.specs.Prelude.{◌≡◌};
ghost use Rattle.std.specs.Borrow.{Lends, sem};
ghost use Rattle.restriction.specs.contracts.Restriction.{the_row};
ghost use Rattle.restriction.specs.Masks.{keeps, all_bits, KeepsAll, LowestFrom};
ghost use Rattle.restriction.specs.Restricted.{kept_slots, kept_choice, MaskSet};
ghost use Rattle.restriction.specs.Laws.{AllBitsChangeNothing, DerivationsUseKeptSlots};
ghost use Rattle.restriction.specs.Fewer.{restricted_implements};

use fault::Fault;
use grammar::Grammar;

/// The grammar below with only the slots that the mask has a bit for: bit r keeps slot r, other slots are empty, and numbers do not move.
#[derive(Drop)]
pub struct Restriction<G> {
    below: G,
    mask: u64,
}

// Whether the mask keeps a slot.
fn kept(mask: u64, slot: u8) -> bool
    ensures { result ≡ keeps mask slot }
{
    slot < 64 && (mask >> slot) % 2 == 1
}

// The mask that keeps every slot.
fn all_slots() -> u64
    ensures value { result ≡ all_bits }
    ensures keeps { KeepsAll result }
{
    u64::MAX
}

// The lowest bit of the mask that is set at or above a place.
fn lowest_from(mask: u64, place: u8) -> Option<u32>
    ensures { LowestFrom mask place result }
{
    if place >= 64 {
        return None;
    }
    let part = (mask >> place) << place;
    if part == 0 {
        return None;
    }
    Some(part.trailing_zeros())
}

impl<G> Restriction<G> {
    /// A restriction that keeps every slot.
    pub fn new(below: G) -> Restriction<G>
        ensures below { result.below ≡ below }
        ensures mask { result.mask ≡ all_bits }
        ensures keeps { KeepsAll result.mask }
    {
        Restriction {
            below,
            mask: all_slots(),
        }
    }

    /// Keeps every slot again.
    pub fn reset(&mut self)
        ensures below { self.new.below ≡ self.old.below }
        ensures mask { self.new.mask ≡ all_bits }
        ensures keeps { KeepsAll self.new.mask }
    {
        self.mask = all_slots();
    }

    /// The mask.
    pub fn mask(&self) -> u64
        ensures { result ≡ self.now.mask }
    {
        self.mask
    }

    /// The grammar below.
    pub fn below(&self) -> &G
        ensures { result.now ≡ self.now.below }
    {
        &self.below
    }

    /// The grammar below, to be changed; the mask stays.
    pub fn below_mut(&mut self) -> &mut G
        ensures below { result.now ≡ self.old.below }
        ensures* writes_back { sem 𝓛 (Lends (the_row G.row) G.row self.entry result (λ g. record self.old { below = g })) }
    {
        &mut self.below
    }

    /// Puts another grammar below, and hands the old one back; the mask stays.
    pub fn replace_below<H>(self, below: H) -> (Restriction<H>, G)
        ensures below { result.0.below ≡ below }
        ensures mask { result.0.mask ≡ self.mask }
        ensures old { result.1 ≡ self.below }
    {
        (
            Restriction {
                below,
                mask: self.mask,
            },
            self.below,
        )
    }
}

impl<G: Grammar> Restriction<G> {
    /// Sets the mask; a bit at or above the number of slots below is refused at the lowest such bit, and nothing changes.
    pub fn set_mask(&mut self, mask: u64) -> Result<(), Fault>
        ensures answer { MaskSet (G.Grammar.meaning self.old.below).slots mask self.old.mask self.new.mask result }
        ensures below { self.new.below ≡ self.old.below }
    {
        match lowest_from(mask, self.below.slots()) {
            None => {
                self.mask = mask;
                Ok(())
            }
            Some(bit) => Err(Fault::SettingRefused(u64::from(bit))),
        }
    }
}

// The questions that are passed on, and `below`, `below_mut` and `replace_below`, stand in `StartChange` too. One layer over any setting
// would be longer: it needs a trait with a method and a ghost member for each question that some setting changes.
impl<G: Grammar> Grammar for Restriction<G> {
    ghost meaning = { λ s. kept_slots (G.Grammar.meaning s.below) s.mask };

    ghost chosen = { λ s A n. kept_choice s.mask (G.Grammar.chosen s.below A n) };

    ghost levels = { λ s. G.Grammar.levels s.below };

    ghost implements = { λ s. restricted_implements (G.Grammar.meaning s.below) s.mask (G.Grammar.chosen s.below) (G.Grammar.levels s.below) (G.Grammar.implements s.below) };

    fn terminals(&self) -> u8 {
        self.below.terminals()
    }

    fn nonterminals(&self) -> u8 {
        self.below.nonterminals()
    }

    fn slots(&self) -> u8 {
        self.below.slots()
    }

    fn start(&self) -> u8 {
        self.below.start()
    }

    fn left(&self, slot: u8) -> Option<u8> {
        if kept(self.mask, slot) {
            self.below.left(slot)
        } else {
            None
        }
    }

    fn length(&self, slot: u8) -> u8 {
        if kept(self.mask, slot) {
            self.below.length(slot)
        } else {
            0
        }
    }

    fn symbol(&self, slot: u8, position: u8) -> Option<u8> {
        if kept(self.mask, slot) {
            self.below.symbol(slot, position)
        } else {
            None
        }
    }

    fn level(&self, a: u8) -> u8 {
        self.below.level(a)
    }

    fn choice(&self, a: u8, next: Option<u8>) -> Option<u8> {
        self.below
            .choice(a, next)
            .filter(|slot| kept(self.mask, *slot))
    }
}

/// The mask of all bits leaves a grammar as it is.
pub fn all_bits_change_nothing()
    ensures { AllBitsChangeNothing }
{}

/// The derivations of a restriction are those below that use only kept slots.
pub fn derivations_use_kept_slots()
    ensures { DerivationsUseKeptSlots }
{}
