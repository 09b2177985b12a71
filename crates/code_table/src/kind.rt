//! Layouts of operands, and the operands that are read by them.

/// The layout of one operand. Fixed numbers have their lowest byte first.
#[derive(Clone, Copy, PartialEq, Eq, Debug)]
pub enum Kind {
    /// No bytes.
    Nothing,
    U8,
    U16,

    /// A number of three bytes.
    U24,
    U32,
    U64,

    /// Sixteen bytes.
    Bytes16,

    /// An unsigned LEB128.
    Uleb,

    /// A signed LEB128.
    Sleb,

    /// A text up to its zero byte.
    ZeroText,

    /// A length of one byte, and as many bytes as it says.
    Block1,

    /// A length of two bytes, and as many bytes as it says.
    Block2,

    /// A length of four bytes, and as many bytes as it says.
    Block4,

    /// A length as an unsigned LEB128, and as many bytes as it says.
    BlockUleb,
}

/// The layouts of a code's two operands, one after the other.
#[derive(Clone, Copy, PartialEq, Eq, Debug)]
pub struct Shape {
    pub first: Kind,
    pub second: Kind,
}

/// An operand.
#[derive(Clone, Copy, PartialEq, Eq, Debug)]
pub enum Operand {
    Nothing,
    Num(u64),
    Signed(i64),

    /// A text without its zero byte, or the bytes of a block: the place of the first byte, and how many there are.
    Run { start: usize, len: usize },
}

/// The two operands of a code, in order.
#[derive(Clone, Copy, PartialEq, Eq, Debug)]
pub struct Operands {
    pub first: Operand,
    pub second: Operand,
}
