// The words for operations in the text of graphs.
ghost use Rattle.std.specs.Prelude.{◌≡◌, ◌++◌, OnOk};
ghost use Rattle.flow_graph.specs.GraphText as spec;

use rpy_base::{NoMem, Text};
use rpy_meaning::RowOp;
use rpy_tree::{BinOp, CmpOp, UnOp};

fn unary(op: UnOp) -> &'static [u8]
    ensures { result.now ≡ spec.unary_word op }
{
    match op {
        UnOp::Neg => b"neg".as_slice(),
        UnOp::Pos => b"pos".as_slice(),
        UnOp::Invert => b"invert".as_slice(),
    }
}

fn binary(op: BinOp) -> &'static [u8]
    ensures { result.now ≡ spec.binary_word op }
{
    match op {
        BinOp::Add => b"add".as_slice(),
        BinOp::Sub => b"sub".as_slice(),
        BinOp::Mul => b"mul".as_slice(),
        BinOp::Div => b"div".as_slice(),
        BinOp::FloorDiv => b"floordiv".as_slice(),
        BinOp::Mod => b"mod".as_slice(),
        BinOp::Shl => b"shl".as_slice(),
        BinOp::Shr => b"shr".as_slice(),
        BinOp::BitAnd => b"bitand".as_slice(),
        BinOp::BitOr => b"bitor".as_slice(),
        BinOp::BitXor => b"bitxor".as_slice(),
    }
}

fn compare(op: CmpOp) -> &'static [u8]
    ensures { result.now ≡ spec.compare_word op }
{
    match op {
        CmpOp::Lt => b"lt".as_slice(),
        CmpOp::Le => b"le".as_slice(),
        CmpOp::Gt => b"gt".as_slice(),
        CmpOp::Ge => b"ge".as_slice(),
        CmpOp::Eq => b"eq".as_slice(),
        CmpOp::Ne => b"ne".as_slice(),
        CmpOp::Within => b"within".as_slice(),
        CmpOp::NotWithin => b"notwithin".as_slice(),
        CmpOp::Is => b"is".as_slice(),
        CmpOp::IsNot => b"isnot".as_slice(),
    }
}

fn put_checked(text: &mut Text, op: BinOp) -> Result<(), NoMem>
    ensures { OnOk result (text.new ≡ text.old ++ (spec.checked_word op)) }
{
    text.append(b"checked")?;
    text.append(binary(op))
}

/// The word for an operation: its name, or that of its operator.
pub fn put_word(text: &mut Text, op: &RowOp) -> Result<(), NoMem>
    ensures { OnOk result (text.new ≡ text.old ++ spec.word op.now) }
{
    match op {
        RowOp::Word(_) => text.append(b"word"),
        RowOp::Str(_) => text.append(b"str"),
        RowOp::Bool(_) => text.append(b"bool"),
        RowOp::None => text.append(b"none"),
        RowOp::Constant(_) => text.append(b"constant"),
        RowOp::Copy => text.append(b"copy"),
        RowOp::Unary(op) => text.append(unary(*op)),
        RowOp::Binary(op, _) => text.append(binary(*op)),
        RowOp::AddTo => text.append(b"addto"),
        RowOp::CheckedNeg => text.append(b"checkedneg"),
        RowOp::Checked(op) => put_checked(text, *op),
        RowOp::Compare(op) => text.append(compare(*op)),
        RowOp::Not => text.append(b"not"),
        RowOp::Truth => text.append(b"truth"),
        RowOp::Intmask => text.append(b"intmask"),
        RowOp::Min => text.append(b"min"),
        RowOp::Max => text.append(b"max"),
        RowOp::Len => text.append(b"len"),
        RowOp::Ord => text.append(b"ord"),
        RowOp::Chr => text.append(b"chr"),
        RowOp::ToStr => text.append(b"tostr"),
        RowOp::ToInt => text.append(b"toint"),
        RowOp::Write => text.append(b"write"),
        RowOp::IsInstance(_) => text.append(b"isinstance"),
        RowOp::Index(_) => text.append(b"index"),
        RowOp::StoreIndex => text.append(b"storeindex"),
        RowOp::DeleteIndex => text.append(b"deleteindex"),
        RowOp::Attr(_) => text.append(b"attr"),
        RowOp::StoreAttr(_) => text.append(b"storeattr"),
        RowOp::Slice(_, _, _) => text.append(b"slice"),
        RowOp::AllButLast(_) => text.append(b"allbutlast"),
        RowOp::Tuple => text.append(b"tuple"),
        RowOp::List(_) => text.append(b"list"),
        RowOp::Dict(_) => text.append(b"dict"),
        RowOp::Comprehension(_) => text.append(b"comprehension"),
        RowOp::AddItem => text.append(b"additem"),
        RowOp::Call(_) => text.append(b"call"),
        RowOp::CallOf(_, _) => text.append(b"callof"),
        RowOp::CallValue => text.append(b"callvalue"),
        RowOp::New(_) => text.append(b"new"),
        RowOp::Method(_, _) => text.append(b"method"),
        RowOp::Raise => text.append(b"raise"),
        RowOp::Print => text.append(b"print"),
        RowOp::Walk(_) => text.append(b"walk"),
        RowOp::HasItem(_) => text.append(b"hasitem"),
        RowOp::Item(_) => text.append(b"item"),
        RowOp::Advance(_) => text.append(b"advance"),
        RowOp::Turn => text.append(b"turn"),
        RowOp::Unpack(_, _) => text.append(b"unpack"),
        RowOp::DropNone => text.append(b"dropnone"),
        RowOp::OnlyNone => text.append(b"onlynone"),
        RowOp::FalseNone => text.append(b"falsenone"),
        RowOp::Lower(_) => text.append(b"lower"),
        RowOp::NonNegative => text.append(b"nonnegative"),
    }
}
