//! The symbols of the grammar of v0 names (RFC 2603), and the words that are shown between them.
use crate::words::Word;

/// What counts as a level of nesting.
#[derive(Clone, Copy)]
pub enum Kind {
    /// A path among types.
    Path,
    /// A path in a value, whose generic arguments follow `::`.
    ValuePath,
    /// The path of a trait of a `dyn` type, whose generic arguments may go on with bindings.
    TraitPath,
    /// A type that is not basic.
    Type,
    /// A constant among generic arguments.
    Constant,
    /// A constant in a type or a value.
    Value,
}

/// What the items of a list are; a list ends with `E`.
#[derive(Clone, Copy)]
pub enum Item {
    /// Generic arguments.
    Argument,
    /// Parameters of a function.
    Parameter,
    /// Types of a tuple.
    Member,
    /// Constants of an array or of a tuple-like value.
    Element,
    /// Constants of a tuple.
    Component,
    /// Fields of a value.
    Field,
    /// Traits of a `dyn` type.
    Bound,
}

/// How many items of a list stand before a place.
#[derive(Clone, Copy)]
pub enum Count {
    Zero,
    One,
    Many,
}

/// A symbol that is made of other symbols.
#[derive(Clone, Copy)]
pub enum Phrase {
    /// Any type.
    AnyType,
    /// The items of a list from some place on.
    Items(Item, Count),
    /// One generic argument.
    Argument,
    /// The bindings of a trait.
    Bindings,
    /// The bindings after the first.
    LaterBindings,
    /// The name of a nested path, in a namespace.
    Named(u8),
    /// The lifetime of a reference.
    Borrow,
    /// The lifetime of a `dyn` type.
    Outlives,
    /// `unsafe` of a function.
    Unsafety,
    /// The calling convention of a function.
    Convention,
    /// The type that a function returns.
    Returned,
    /// The fields of a value.
    Fields,
    /// The sign of a number.
    Sign,
}

/// A symbol that is made of other symbols with a scope of their own.
#[derive(Clone, Copy)]
pub enum Inner {
    /// The path of an impl.
    ImplPath,
    /// The instantiating path.
    Instance,
    /// A function's type, with the lifetimes that it binds.
    Function,
    /// The traits of a `dyn` type, with the lifetimes that they bind.
    Object,
}

/// A symbol that is made of bytes alone.
#[derive(Clone, Copy)]
pub enum Leaf {
    /// A word; no bytes are read.
    Say(Word),
    /// A letter; no bytes are read.
    Letter(u8),
    /// A number; no bytes are read.
    Index(u64),
    /// A lifetime; no bytes are read.
    Lifetime(u64),
    /// The `for<..>` of this many lifetimes, those that were bound last; no bytes are read.
    ForAll(u64),
    /// A disambiguator, which is not shown.
    Disambiguator,
    /// An identifier.
    Identifier,
    /// An identifier that names a calling convention.
    Convention,
    /// An integer.
    Number,
    /// A `bool`.
    Boolean,
    /// A `char`.
    Character,
    /// A text.
    Text,
    /// The end of the name.
    End,
}

/// A part of a name.
#[derive(Clone, Copy)]
pub enum Part {
    /// A level of nesting.
    Deep(Kind),
    /// A backreference, which is a level too.
    Back(Kind),
    Phrase(Phrase),
    Inner(Inner),
    Leaf(Leaf),
    /// The parts after this one are read from this place on.
    Goto(usize),
    /// Whether the arguments of the last trait are open.
    Opened(bool),
}

/// What holds for the parts around a place: how many lifetimes are bound, and whether they are shown.
#[derive(Clone, Copy)]
pub struct Scope {
    pub bound: u64,
    pub visible: bool,
}

/// A part that is still to be read, and how many levels and symbols may nest in it.
#[derive(Clone, Copy)]
pub struct Frame {
    pub part: Part,
    pub scope: Scope,
    pub levels: usize,
    pub width: usize,
}

/// How parts may nest in a frame.
#[derive(Clone, Copy)]
pub struct Nest {
    pub scope: Scope,
    pub levels: usize,
    pub width: usize,
}
