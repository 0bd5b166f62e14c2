//! The words of a text, which stand between single spaces.

ghost use Rattle.std.specs.Prelude.{◌≡◌, ◌==◌, [], Decides, position};
ghost use Rattle.std.specs.Iterator.{YieldsFirstRef, item_count};
ghost use Rattle.script.specs.Cut.{cut, unread};

/// The words of a text that are not read yet; `None` once all are read.
// Not the library's `split`: its type names a closure, and each function that takes words would have a parameter for it.
#[derive(Drop)]
pub struct Words<'a> {
    rest: Option<&'a [u8]>,
}

/// The place of the first space of a text.
fn first_space(text: &[u8]) -> Option<usize>
    ensures { result ≡ position (λ b. b == 32) text.now }
{
    text.iter().position(|byte| *byte == b' ')
}

impl<'a> Words<'a> {
    /// All words of a text.
    pub fn of(text: &'a [u8]) -> Words<'a>
        ensures { unread result ≡ cut text.now }
    {
        Words { rest: Some(text) }
    }

    /// Whether all words are read.
    pub fn ended(&self) -> bool
        ensures { Decides result (unread self.now ≡ []) }
    {
        self.rest.is_none()
    }
}

impl<'a> Iterator for Words<'a> {
    type Item = &'a [u8];

    ghost next_gives = { YieldsFirstRef unread };

    ghost remaining = { item_count unread };

    fn next(&mut self) -> Option<&'a [u8]> {
        let text = self.rest.take()?;
        let Some(space) = first_space(text) else {
            return Some(text);
        };
        self.rest = Some(&text[space + 1..]);
        Some(&text[..space])
    }
}
