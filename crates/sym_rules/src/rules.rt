//! Rules, their targets and their words.
ghost use Rattle.std.specs.Prelude.{◌≡◌, ◌==◌, [], ◌∷◌, length, slice_get, IfOk};
ghost use Rattle.std.specs.Option.{option_copied};

use std::alloc::Global;
use std::marker::Model;
use sym_edges::{ByteRun, ListOf, OutOfMemory};

/// The bytes of a field or a name in a text.
pub type ByteText = ByteRun;

/// A name that has no variant of its own; contracts see its bytes. It is stored as one pointer, so
/// that tokens stay small.
#[derive(Debug, Drop)]
pub struct RuleName {
    text: Box<ByteText>,
}

impl Model for RuleName {
    ghost use Rattle.std.specs.Prelude.{List, ℕ};

    ghost Value = { List ℕ };

    ghost view = { λ n. n.text.value };
}

impl RuleName {
    pub fn of(alloc: Global, text: ByteText) -> Result<RuleName, OutOfMemory>
        ensures { IfOk result (λ n. n ≡ text) }
    {
        Ok(RuleName {
            text: Box::new(alloc, text)?,
        })
    }

    pub fn as_slice(&self) -> &[u8]
        ensures { result.now ≡ self.now }
    {
        self.text.as_slice()
    }
}

/// The register or other name for which a frame rule gives a value.
#[derive(Debug, Drop)]
pub enum Target {
    /// `.cfa`, the canonical frame address (DWARF 5, 6.4.1).
    Cfa,
    /// `.ra`, the return address.
    Ra,
    /// A register by its DWARF number: `$rax $rdx $rcx $rbx $rsi $rdi $rbp $rsp $r8 .. $r15` are 0 to 15. No greater
    /// number has a name.
    Reg(u8),
    /// Any other name.
    Other(RuleName),
}

/// A word of a frame rule's postfix expression.
#[derive(Debug, Drop)]
pub enum Token {
    Number(i64),
    /// A register by its DWARF number, as in a target.
    Reg(u8),
    /// `.cfa`
    Cfa,
    /// `.undef`: there is no value.
    Undef,
    /// Any other name.
    Other(RuleName),
    /// `+`
    Add,
    /// `-`
    Sub,
    /// `*`
    Mul,
    /// `/`
    Div,
    /// `%`
    Rem,
    /// `@`: the first operand with all bits below the second operand cleared; the second is a power of two.
    Align,
    /// `^`: the word in memory at the address.
    Fetch,
}

/// A postfix expression; contracts see the list of its words.
#[derive(Debug, Drop)]
pub struct Tokens {
    kept: KeptTokens,
}

/// The words of an expression. One, three or four words are stored without an allocation.
#[derive(Debug, Drop)]
enum KeptTokens {
    One([Token; 1]),
    Three([Token; 3]),
    Four([Token; 4]),
    Many(Vec<Token>),
}

impl Model for Tokens {
    ghost use Rattle.std.specs.Prelude.{List};
    ghost use Rattle.sym_rules.specs.declared.rules.Token.{Token};
    ghost use Rattle.sym_rules.specs.internal.KeptTokens.{kept_tokens};

    ghost Value = { List Token };

    ghost view = { λ t. kept_tokens t.kept };
}

impl Tokens {
    /// The words of a list. Allocates no memory.
    pub fn of(items: Vec<Token>) -> Tokens
        ensures { result ≡ items.items }
    {
        Tokens {
            kept: KeptTokens::Many(items),
        }
    }

    /// One word. Allocates no memory.
    pub fn one(a: Token) -> Tokens
        ensures { result ≡ a ∷ [] }
    {
        Tokens {
            kept: KeptTokens::One([a]),
        }
    }

    /// Three words. Allocates no memory.
    pub fn three(a: Token, b: Token, c: Token) -> Tokens
        ensures { result ≡ a ∷ b ∷ c ∷ [] }
    {
        Tokens {
            kept: KeptTokens::Three([a, b, c]),
        }
    }

    /// Four words. Allocates no memory.
    pub fn four(a: Token, b: Token, c: Token, d: Token) -> Tokens
        ensures { result ≡ a ∷ b ∷ c ∷ d ∷ [] }
    {
        Tokens {
            kept: KeptTokens::Four([a, b, c, d]),
        }
    }

    pub fn as_slice(&self) -> &[Token]
        ensures { result.now ≡ self.now }
    {
        match &self.kept {
            KeptTokens::One(items) => items,
            KeptTokens::Three(items) => items,
            KeptTokens::Four(items) => items,
            KeptTokens::Many(items) => items.as_slice(),
        }
    }

    pub fn len(&self) -> usize
        ensures { result ≡ length self.now }
    {
        self.as_slice().len()
    }

    pub fn is_empty(&self) -> bool
        ensures { result ≡ (length self.now == 0) }
    {
        self.as_slice().is_empty()
    }

    pub fn get(&self, i: usize) -> Option<&Token>
        ensures { option_copied result ≡ slice_get self.now i }
    {
        self.as_slice().get(i)
    }
}

/// A frame rule: a target, and the expression that gives its value.
#[derive(Debug, Drop)]
pub struct RuleText {
    pub target: Target,
    pub tokens: Tokens,
}

/// Frame rules in order.
pub type Rules = ListOf<RuleText>;
