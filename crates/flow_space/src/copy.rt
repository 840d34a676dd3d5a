// Operations once more.
ghost use Rattle.std.specs.Prelude.{◌≡◌, IfOk, IfSome};

use rpy_base::NoMem;
use rpy_copies::copy_const;
use rpy_meaning::RowOp;
use std::alloc::Global;

/// The same operation once more.
pub fn copy_op(alloc: Global, op: &RowOp) -> Result<RowOp, NoMem>
    ensures { IfOk result (λ copy. copy ≡ op.now) }
{
    match op {
        RowOp::Str(text) => Ok(RowOp::Str(text.copy(alloc)?)),
        RowOp::Constant(value) => Ok(RowOp::Constant(copy_const(alloc, value)?)),
        RowOp::Attr(name) => Ok(RowOp::Attr(name.copy(alloc)?)),
        RowOp::StoreAttr(name) => Ok(RowOp::StoreAttr(name.copy(alloc)?)),
        RowOp::Method(name, site) => Ok(RowOp::Method(name.copy(alloc)?, *site)),
        other => match copy_small(other) {
            Some(copy) => Ok(copy),
            // Each operation is one of these.
            None => copy_further(other).ok_or(NoMem),
        },
    }
}

// An operation that holds no text.
fn copy_small(op: &RowOp) -> Option<RowOp>
    ensures { IfSome result (λ copy. copy ≡ op.now) }
{
    match op {
        RowOp::Word(word) => Some(RowOp::Word(*word)),
        RowOp::Bool(flag) => Some(RowOp::Bool(*flag)),
        RowOp::None => Some(RowOp::None),
        RowOp::Unary(op) => Some(RowOp::Unary(*op)),
        RowOp::Binary(op, site) => Some(RowOp::Binary(*op, *site)),
        RowOp::AddTo => Some(RowOp::AddTo),
        RowOp::CheckedNeg => Some(RowOp::CheckedNeg),
        RowOp::Checked(op) => Some(RowOp::Checked(*op)),
        RowOp::Compare(op) => Some(RowOp::Compare(*op)),
        RowOp::Not => Some(RowOp::Not),
        RowOp::Truth => Some(RowOp::Truth),
        RowOp::Intmask => Some(RowOp::Intmask),
        RowOp::Min => Some(RowOp::Min),
        RowOp::Max => Some(RowOp::Max),
        RowOp::Len => Some(RowOp::Len),
        RowOp::Ord => Some(RowOp::Ord),
        RowOp::Chr => Some(RowOp::Chr),
        RowOp::ToStr => Some(RowOp::ToStr),
        RowOp::ToInt => Some(RowOp::ToInt),
        RowOp::Write => Some(RowOp::Write),
        RowOp::IsInstance(class) => Some(RowOp::IsInstance(*class)),
        RowOp::Index(literal) => Some(RowOp::Index(*literal)),
        RowOp::StoreIndex => Some(RowOp::StoreIndex),
        RowOp::DeleteIndex => Some(RowOp::DeleteIndex),
        RowOp::Slice(site, low, high) => Some(RowOp::Slice(*site, *low, *high)),
        _ => None,
    }
}

// Of what is made, called and walked.
fn copy_further(op: &RowOp) -> Option<RowOp>
    ensures { IfSome result (λ copy. copy ≡ op.now) }
{
    match op {
        RowOp::AllButLast(site) => Some(RowOp::AllButLast(*site)),
        RowOp::Tuple => Some(RowOp::Tuple),
        RowOp::List(site) => Some(RowOp::List(*site)),
        RowOp::Dict(site) => Some(RowOp::Dict(*site)),
        RowOp::Comprehension(site) => Some(RowOp::Comprehension(*site)),
        RowOp::AddItem => Some(RowOp::AddItem),
        RowOp::Call(function) => Some(RowOp::Call(*function)),
        RowOp::CallOf(class, function) => Some(RowOp::CallOf(*class, *function)),
        RowOp::CallValue => Some(RowOp::CallValue),
        RowOp::New(class) => Some(RowOp::New(*class)),
        RowOp::Raise => Some(RowOp::Raise),
        RowOp::Print => Some(RowOp::Print),
        RowOp::Walk(site) => Some(RowOp::Walk(*site)),
        RowOp::HasItem(step) => Some(RowOp::HasItem(*step)),
        RowOp::Item(step) => Some(RowOp::Item(*step)),
        RowOp::Advance(step) => Some(RowOp::Advance(*step)),
        RowOp::Turn => Some(RowOp::Turn),
        RowOp::Unpack(count, place) => Some(RowOp::Unpack(*count, *place)),
        RowOp::DropNone => Some(RowOp::DropNone),
        RowOp::OnlyNone => Some(RowOp::OnlyNone),
        RowOp::FalseNone => Some(RowOp::FalseNone),
        RowOp::Lower(class) => Some(RowOp::Lower(*class)),
        RowOp::NonNegative => Some(RowOp::NonNegative),
        RowOp::Copy => Some(RowOp::Copy),
        _ => None,
    }
}
