//! The frames of a parse.

ghost use Rattle.std.specs.Prelude.{◌≡◌, ◌+◌, ◌<◌};
ghost use Rattle.numbering.specs.Parts.{blank_frame, begun, with_part};

/// What is known of a symbol that has been parsed: how many tokens it has, and its rank among its parts of that length.
#[derive(Clone, Copy, Default, PartialEq, Eq, Debug)]
pub(crate) struct Part {
    pub(crate) length: usize,
    pub(crate) rank: u64,
}

/// A right-hand side that is being parsed: a slot, a position in its right-hand side, and the parts of the symbols before that position.
///
/// The stack that a caller lends is a slice of frames.
// An array for the most symbols that a right-hand side has, with a position beside it: the library uses no heap.
#[derive(Clone, Copy, PartialEq, Eq, Debug)]
pub struct Frame {
    pub(crate) slot: u8,
    pub(crate) position: u8,
    pub(crate) parts: [Part; 6],
}

impl Frame {
    /// A frame that holds nothing, to make a stack of.
    pub fn blank() -> Frame
        ensures { result ≡ blank_frame }
    {
        Frame {
            slot: 0,
            position: 0,
            parts: [Part::default(); 6],
        }
    }

    /// Goes to the front of a slot.
    pub(crate) fn begin(&mut self, slot: u8)
        ensures { self.new ≡ begun self.old slot }
    {
        self.slot = slot;
        self.position = 0;
    }

    /// Notes the part of the symbol at the position, and goes one position further.
    pub(crate) fn note(&mut self, part: Part)
        requires { self.old.position < 6 }
        ensures { self.new ≡ with_part self.old part }
    {
        self.parts[usize::from(self.position)] = part;
        self.position += 1;
    }
}
