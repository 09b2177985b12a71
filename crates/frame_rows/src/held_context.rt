//! The context of instructions, owned or borrowed.
ghost use Rattle.std.specs.Prelude.{◌≡◌};
ghost use Rattle.frame_rows.specs.internal.Held.{context_in};

use crate::machine::CieContext;

/// A context that is owned, or a reference to the one in the state after a CIE.
#[derive(Drop)]
pub enum HeldContext<'c> {
    Own(Box<CieContext>),
    Lent(&'c CieContext),
}

impl<'c> HeldContext<'c> {
    #[inline]
    pub fn get(&self) -> &CieContext
        ensures { result.now ≡ context_in self.now }
    {
        match self {
            HeldContext::Own(context) => context,
            HeldContext::Lent(context) => context,
        }
    }
}
