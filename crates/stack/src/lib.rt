//! A stack over entries that the caller lends.

#![tactic(auto)]

ghost use Rattle.std.specs.Prelude.{◌≡◌, ◌≤◌, length};

/// A stack: the first `depth` entries, the last of them on top.
// No model: it would hide the entries past the depth, and that the lent slice is still this one.
// Entries with a depth beside them, since the library uses no heap.
#[derive(Drop)]
pub struct Stack<'a, T> {
    entries: &'a mut [T],
    depth: usize,
    ghost inside: { depth ≤ length entries.now },
}

impl<'a, T: Copy> Stack<'a, T> {
    ghost use Rattle.stack.specs.Held.{held, first_of, Pushed, Popped};

    /// An empty stack over `entries`.
    pub fn over(entries: &'a mut [T]) -> Stack<'a, T>
        ensures empty { result.depth ≡ 0 }
        ensures unchanged { result.entries.now ≡ entries.old }
        ensures same { result.entries.ghost_name ≡ entries.entry.ghost_name }
    {
        Stack { entries, depth: 0 }
    }

    /// Puts `x` on top; hands it back where every entry is taken, and then nothing changes.
    #[tactic(auto, using(crate::proofs::Tops::put))]
    pub fn push(&mut self, x: T) -> Result<(), T>
        ensures { Pushed x self.old self.new result }
    {
        if self.depth == self.entries.len() {
            return Err(x);
        }
        self.entries[self.depth] = x;
        self.depth += 1;
        Ok(())
    }

    /// Takes the top off; none if the stack is empty. The entries stay as they are.
    pub fn pop(&mut self) -> Option<T>
        ensures { Popped self.old self.new result }
    {
        let depth = self.depth.checked_sub(1)?;
        self.depth = depth;
        Some(self.entries[depth])
    }

    /// The top; none if the stack is empty.
    #[tactic(auto, using(crate::proofs::Tops::top))]
    pub fn top(&self) -> Option<T>
        ensures { result ≡ first_of (held self.now) }
    {
        self.entries[..self.depth].last().copied()
    }
}
