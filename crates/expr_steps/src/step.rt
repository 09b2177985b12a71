//! The steps of an expression: what rule text can express.
ghost use Rattle.std.specs.Prelude.{◌≡◌};
ghost use Rattle.std.specs.Option.{option_and_then};
ghost use Rattle.expr_steps.specs.Standing.{takes, words, after_step};
ghost use Rattle.expr_steps.specs.internal.Reading.{IsAtMost};

/// A step. It takes values from the stack and leaves one. A constant and a `DW_OP_and`, `DW_OP_shl` or `DW_OP_ge` directly after it are one step.
/// Every other operation is a step of its own.
#[derive(Clone, Copy, PartialEq, Eq, Debug)]
pub enum Step {
    Constant { value: u64 },
    /// A register, where 16 is rip, and its offset.
    Register { register: u8, offset: i64 },
    Fetch,
    Add,
    Subtract,
    Multiply,
    AddConstant { addend: u64 },
    /// An `and` that keeps only the low bits: the remainder of a division by a power of two.
    Remainder { size: u64 },
    /// A shift to the left: a multiplication by a power of two.
    Product { factor: u64 },
    /// Whether a value below `size` is at least `size` after `lift` is added: 1 or 0.
    Reaches { lift: u64, size: u64 },
}

impl Step {
    /// How many values the step takes from the stack.
    fn takes(self) -> u32
        ensures { result ≡ takes self }
    {
        match self {
            Step::Constant { .. } | Step::Register { .. } => 0,
            Step::Fetch
            | Step::AddConstant { .. }
            | Step::Remainder { .. }
            | Step::Product { .. }
            | Step::Reaches { .. } => 1,
            Step::Add | Step::Subtract | Step::Multiply => 2,
        }
    }

    /// How many words of rule text express the step.
    pub fn words(self) -> u32
        ensures { result ≡ words self }
    {
        match self {
            Step::Constant { .. } | Step::Fetch | Step::Add | Step::Subtract | Step::Multiply => 1,
            Step::AddConstant { .. } | Step::Remainder { .. } | Step::Product { .. } => 2,
            Step::Register { .. } => 3,
            Step::Reaches { .. } => 4,
        }
    }

    /// How many values are on the stack after the step, or none if the stack has fewer values than
    /// the step takes.
    pub(crate) fn after(self, depth: Option<u32>) -> Option<u32>
        requires room { IsAtMost 1025 depth }
        ensures { result ≡ option_and_then (after_step self) depth }
    {
        let depth = depth?;
        if depth < self.takes() {
            return None;
        }
        Some(depth - self.takes() + 1)
    }
}
