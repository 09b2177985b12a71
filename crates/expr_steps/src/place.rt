//! Where the bytes of an expression are.
ghost use Rattle.std.specs.Prelude.{◌≡◌};
ghost use Rattle.expr_steps.specs.Places.{place_of, bytes_at};

/// A run of bytes in an entry's own instructions, or in those of its CIE: where it begins and how long it is. It is stored in twelve bytes.
#[derive(Clone, Copy, PartialEq, Eq, Debug)]
pub struct Place {
    pub own: bool,
    pub start: u32,
    pub len: u32,
}

impl Place {
    /// The place with this start and length, if both are below 2^32.
    #[tactic(auto, unfolding(crate::specs::Places::place_of))]
    pub fn of(own: bool, start: usize, len: usize) -> Option<Place>
        ensures { result ≡ place_of own start len }
    {
        if start >= 0x1_0000_0000 || len >= 0x1_0000_0000 {
            return None;
        }
        Some(Place {
            own,
            start: start as u32,
            len: len as u32,
        })
    }

    /// The bytes at the place, in the CIE's instructions `first` or in the entry's `own`. If the
    /// place reaches beyond their end, only those before the end.
    #[tactic(auto, unfolding(crate::specs::Places::bytes_at))]
    pub fn bytes<'a>(self, first: &'a [u8], own: &'a [u8]) -> &'a [u8]
        ensures { result.now ≡ bytes_at self first.now own.now }
    {
        let run = if self.own { own } else { first };
        let start = run.len().min(self.start as usize);
        let behind = &run[start..];
        let len = behind.len().min(self.len as usize);
        &behind[..len]
    }
}
