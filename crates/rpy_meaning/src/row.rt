// The operations of a program. An operation is named by what the text says, and not by what its
// operands turn out to be: `+` is one operation for numbers, strings and lists.
use rpy_base::Text;
use rpy_tree::{BinOp, ClassId, CmpOp, Const, FunId, SiteId, UnOp};

/// For which classes a failure is raised as an exception: those for which the operation stands in
/// the body of a `try` of its function with a bare `except`, or a clause for the class or a base
/// of it.
#[derive(Clone, Copy, Debug, PartialEq, Eq)]
pub struct Covers {
    /// `IndexError`.
    pub index: bool,
    /// `ZeroDivisionError`.
    pub zero: bool,
    /// `ValueError`.
    pub number: bool,
    /// `AttributeError`.
    pub attribute: bool,
}

#[derive(Drop)]
pub enum RowOp {
    /// Literals.
    Word(i64),
    Str(Text),
    Bool(bool),
    None,
    Constant(Const),
    /// The reading of a local, the binding of a target, the meeting of the ways of `and` and `or`.
    Copy,
    Unary(UnOp),
    /// The site is that of `+` and `*`.
    Binary(BinOp, Option<SiteId>),
    /// `+=`, which extends a list in its place.
    AddTo,
    /// `ovfcheck` of an operation.
    CheckedNeg,
    Checked(BinOp),
    Compare(CmpOp),
    Not,
    /// The truth of a value, in a test or by `bool`.
    Truth,
    Intmask,
    Min,
    Max,
    Len,
    Ord,
    Chr,
    ToStr,
    ToInt,
    /// `os.write(1, s)`.
    Write,
    IsInstance(ClassId),
    /// A container and an index, with the literal that the index is.
    Index(Option<i64>),
    /// A container, an index and the value.
    StoreIndex,
    DeleteIndex,
    Attr(Text),
    /// An instance and the value.
    StoreAttr(Text),
    /// A container and those of the two bounds that are there.
    Slice(SiteId, bool, bool),
    /// The slice `[:-1]`.
    AllButLast(SiteId),
    Tuple,
    List(SiteId),
    /// An empty dict, to which a display stores its pairs.
    Dict(SiteId),
    /// An empty list, to which a comprehension adds its items by `AddItem`.
    Comprehension(SiteId),
    AddItem,
    /// A function by its name.
    Call(FunId),
    /// `C.m`.
    CallOf(ClassId, FunId),
    /// The value that is called, and the arguments.
    CallValue,
    New(ClassId),
    /// The method of this name of whatever the receiver is. The site is that of the list that
    /// `split`, `keys`, `values` and `items` make.
    Method(Text, Option<SiteId>),
    Raise,
    Print,
    /// What a `for` or a comprehension walks.
    Walk(SiteId),
    /// On a walk, which is a value and a place, or with a step the end of a range and the next
    /// number: whether an item is there, the item, and the next place.
    HasItem(Option<i64>),
    Item(Option<i64>),
    Advance(Option<i64>),
    /// A turn of a loop.
    Turn,
    /// Of a tuple of so many items, the one at a place.
    Unpack(u32, u32),
    /// What a test says of a local. Each gives its first operand.
    DropNone,
    OnlyNone,
    FalseNone,
    Lower(ClassId),
    /// The second operand is the other side of the comparison.
    NonNegative,
}
