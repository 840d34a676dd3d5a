// Kinds of expressions and statements, and the words for them.
ghost use Rattle.std.specs.Prelude.{◌≡◌};
ghost use Rattle.rpy_kinds.specs.Words as spec;

/// The kind of an expression or of a statement, which stands for its targets too.
#[derive(Clone, Copy)]
pub enum Kind {
    Int,
    Str,
    Name,
    Unary,
    Binary,
    Compare,
    /// `and` or `or` of the values of two nodes.
    Logic(u64, u64),
    Not,
    /// A call, and whether its callee is a plain name.
    Call(bool),
    Attr,
    Index,
    Slice,
    Tuple,
    List,
    Dict,
    Comp,
    Pass,
    Break,
    Continue,
    Return,
    Raise,
    Assert,
    Del,
    Print,
    Assign,
    Aug,
    Expr,
    If,
    While,
    For,
    Try,
}

/// The word for a kind.
pub fn word_of(kind: Kind) -> &'static [u8]
    ensures { result.now ≡ spec.word kind }
{
    match kind {
        Kind::Int => b"int".as_slice(),
        Kind::Str => b"str".as_slice(),
        Kind::Name => b"name".as_slice(),
        Kind::Unary => b"unary".as_slice(),
        Kind::Binary => b"binary".as_slice(),
        Kind::Compare => b"compare".as_slice(),
        Kind::Logic(_, _) => b"logic".as_slice(),
        Kind::Not => b"not".as_slice(),
        Kind::Call(_) => b"call".as_slice(),
        Kind::Attr => b"attr".as_slice(),
        Kind::Index => b"index".as_slice(),
        Kind::Slice => b"slice".as_slice(),
        Kind::Tuple => b"tuple".as_slice(),
        Kind::List => b"list".as_slice(),
        Kind::Dict => b"dict".as_slice(),
        Kind::Comp => b"comp".as_slice(),
        Kind::Pass => b"pass".as_slice(),
        Kind::Break => b"break".as_slice(),
        Kind::Continue => b"continue".as_slice(),
        Kind::Return => b"return".as_slice(),
        Kind::Raise => b"raise".as_slice(),
        Kind::Assert => b"assert".as_slice(),
        Kind::Del => b"del".as_slice(),
        Kind::Print => b"print".as_slice(),
        Kind::Assign => b"assign".as_slice(),
        Kind::Aug => b"aug".as_slice(),
        Kind::Expr => b"expr".as_slice(),
        Kind::If => b"if".as_slice(),
        Kind::While => b"while".as_slice(),
        Kind::For => b"for".as_slice(),
        Kind::Try => b"try".as_slice(),
    }
}
