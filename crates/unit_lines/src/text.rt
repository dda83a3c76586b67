// The text that the machine holds, of the record that has begun.
ghost use Rattle.std.specs.Prelude.{◌≡◌, [], ◌++◌};
ghost use Rattle.unit_lines.specs.Machine.{last_of, text_of, keep};

// A record of 64 characters and CR LF.
const KEPT_MOST: usize = 66;

// The text is the first `len` of `bytes`: no heap, so no Vec.
#[derive(Clone, Copy)]
pub struct ListMachine {
    pub bytes: [u8; KEPT_MOST],
    pub len: usize,
}

impl ListMachine {
    pub fn empty() -> ListMachine
        ensures { result ≡ keep [] }
    {
        ListMachine {
            bytes: [0; KEPT_MOST],
            len: 0,
        }
    }

    pub fn text(&self) -> &[u8]
        ensures { result.now ≡ text_of self.now }
    {
        &self.bytes[..self.len.min(KEPT_MOST)]
    }

    // The last character of the text, 0 where there is none: that is no CR, and nothing else is asked of it.
    pub fn last(&self) -> u8
        ensures { result ≡ last_of (text_of self.now) }
    {
        self.text().last().copied().unwrap_or(0)
    }

    // More characters behind a text that is kept already.
    fn more_kept(self, more: &[u8]) -> ListMachine
        requires { self ≡ keep (text_of self) }
        ensures { result ≡ keep (text_of self ++ more.now) }
    {
        let mut bytes = self.bytes;
        let n = more.len().min(KEPT_MOST - self.len);
        let len = self.len + n;
        bytes[self.len..len].copy_from_slice(&more[..n]);
        if n < more.len() {
            bytes[KEPT_MOST - 1] = more[more.len() - 1];
        }
        ListMachine { bytes, len }
    }

    // What is kept of the text and of more characters behind it.
    pub fn grown(&self, more: &[u8]) -> ListMachine
        ensures { result ≡ keep (text_of self.now ++ more.now) }
    {
        ListMachine::empty().more_kept(self.text()).more_kept(more)
    }
}
