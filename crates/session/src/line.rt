//! A line of a script: read into a command, and answered.

ghost use Rattle.std.specs.Prelude.{◌≡◌, true, is_ok, IfOk, OnErr};
ghost use Rattle.session.specs.Lines.{Answers, LineAllocates};

use crate::answer::Answer;
use crate::state::Session;
use brackets::Brackets;
use script::{Line, read_line, without_line_end};
use std::alloc::{AllocError, Global};

impl Session<Brackets> {
    /// What a line is answered by, if by anything. The line end, LF or CR LF, may stand at its end or be missing.
    /// Where memory runs out, the session is as it was.
    pub fn answer(&mut self, heap: Global, line: &[u8]) -> Result<Option<Answer>, AllocError>
        ensures answer { IfOk result (Answers self.old self.new line.now) }
        ensures answered { (LineAllocates line.now → ⊥) → is_ok result ≡ true }
        ensures out_of_memory { OnErr result (self.new ≡ self.old) }
    {
        match read_line(without_line_end(line)) {
            Line::Blank => Ok(None),
            Line::Unreadable => Ok(Some(Answer::Unreadable)),
            Line::Command(command) => Ok(Some(self.run(heap, command)?)),
        }
    }
}
