//! The frames of an expansion.

ghost use Rattle.std.specs.Prelude.{◌≡◌, ◌<◌, ◌≤◌};
ghost use Rattle.expanding.specs.Frames.{blank_frame, past_token, rest_frame};

/// What is still to be written of a slot: its right-hand side from a position on, as so many tokens, in the way with that rank.
#[derive(Clone, Copy)]
pub struct Frame {
    pub(crate) slot: u8,
    pub(crate) position: u8,
    pub(crate) length: u8,
    pub(crate) rank: u64,
}

/// The first part of what a frame is to write: its length and its rank among the sentences of that length, and the rank of the rest behind it.
#[derive(Clone, Copy)]
pub(crate) struct Part {
    pub(crate) length: u8,
    pub(crate) rank: u64,
    pub(crate) rest: u64,
}

impl Frame {
    /// A frame to fill a stack with: what an expansion is lent may hold any frames.
    pub fn blank() -> Frame
        ensures { result ≡ blank_frame }
    {
        Frame {
            slot: 0,
            position: 0,
            length: 0,
            rank: 0,
        }
    }

    // What is left of a frame when the terminal at its position is written.
    pub(crate) fn past_token(self) -> Frame
        requires { (self.position < 6) × (0 < self.length) }
        ensures { result ≡ past_token self }
    {
        Frame {
            position: self.position + 1,
            length: self.length - 1,
            ..self
        }
    }

    // What is left of a frame behind its first part.
    pub(crate) fn behind(self, part: Part) -> Frame
        requires { (self.position < 6) × (part.length ≤ self.length) }
        ensures { result ≡ rest_frame self part }
    {
        Frame {
            position: self.position + 1,
            length: self.length - part.length,
            rank: part.rest,
            ..self
        }
    }
}
