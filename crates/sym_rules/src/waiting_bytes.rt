//! The buffer of bytes that wait for a sink.
ghost use Rattle.std.specs.Prelude.{◌≡◌, ◌+◌, ◌≤◌, [], ◌++◌, length};

use std::marker::Model;

/// At most `N` bytes that wait for a sink; contracts see the list of these bytes.
#[derive(Drop)]
pub struct Waiting<const N: usize> {
    held: [u8; N],
    used: usize,
}

impl<const N: usize> Model for Waiting<N> {
    ghost use Rattle.std.specs.Prelude.{◌≤◌, List, ℕ, take};

    ghost Value = { List ℕ };

    ghost view = { λ w. take w.used w.held };

    ghost invariant = { λ w. w.used ≤ N };
}

impl<const N: usize> Waiting<N> {
    pub fn new() -> Waiting<N>
        ensures { result ≡ [] }
    {
        Waiting {
            held: [0; N],
            used: 0,
        }
    }

    /// How many more bytes can wait.
    pub fn room(&self) -> usize
        ensures { result + length self.now ≡ N }
    {
        N - self.used
    }

    pub fn put(&mut self, bytes: &[u8])
        requires { length self.old + length bytes.now ≤ N }
        ensures { self.new ≡ self.old ++ bytes.now }
    {
        let start = self.used;
        let end = start + bytes.len();
        let held = &mut self.held[..];
        held[start..end].copy_from_slice(bytes);
        self.used = end;
    }

    pub fn as_slice(&self) -> &[u8]
        ensures { result.now ≡ self.now }
    {
        &self.held[..self.used]
    }

    pub fn clear(&mut self)
        ensures { self.new ≡ [] }
    {
        self.used = 0;
    }
}
