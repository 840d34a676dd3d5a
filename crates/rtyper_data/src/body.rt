// What is written, and what is known around it.
ghost use Rattle.std.specs.Prelude.{◌≡◌, IfOk, OnOk};
ghost use Rattle.rtyper_data.specs.Seen as seen;
ghost use Rattle.rtyper_data.specs.Seen.{Writes};

use ann_element::{Element, Sites};
use class_desc::Classes;
use csub_tree::COperand;
use ll_code::{LlOp, LlType, VarId};
use rpy_base::{NoMem, Seq, Text};
use rpy_resolved::Function;
use rpy_tree::{ClassId, Site};
use rtyper_layout::{Layout, repr_seen};
use std::alloc::Global;

/// The variables of a graph, by their types, and the operations of the block that is being written.
#[derive(Drop)]
pub struct Body {
    pub types: Seq<LlType>,
    pub ops: Seq<LlOp>,
}

/// An operand, and what is known of its value.
#[derive(Clone, Copy)]
pub struct Operand<'a> {
    pub x: COperand,
    pub element: Option<&'a Element>,
}

/// The variable that takes a result, and what is known of its value.
#[derive(Clone, Copy)]
pub struct Place<'a> {
    pub variable: VarId,
    pub element: Option<&'a Element>,
}

/// The types of values; for each function the number of its graph, the elements of its parameters
/// and of its result, and the function itself, whose constants stand in for arguments; the classes, of
/// which these have instances, with the elements of attributes; and the numbers of
/// the first vtable and of the first instance of a builtin exception class; and the sites, with their
/// classes.
#[derive(Clone, Copy)]
pub struct Around<'a> {
    pub layout: &'a Layout,
    pub numbers: &'a [u64],
    pub params: &'a [Seq<Element>],
    pub results: &'a [Element],
    pub functions: &'a [Function],
    pub classes: &'a Classes,
    pub made: &'a [bool],
    pub attributes: &'a [(ClassId, Text, Element)],
    pub first_vtable: u64,
    pub first_exception: u64,
    pub sites: &'a [Site],
    pub same: &'a Sites,
}

impl<'a> Around<'a> {
    /// The type of the values of an operand.
    pub fn type_of(self, operand: Operand<'_>) -> LlType
        ensures { result ≡ seen.type_of (seen.the_around self.entry) (seen.the_operand operand.entry) }
    {
        repr_seen(self.layout, operand.element)
    }

    /// The type of the values of a place.
    pub fn type_at(self, place: Place<'_>) -> LlType
        ensures { result ≡ seen.type_at (seen.the_around self.entry) (seen.the_place place.entry) }
    {
        repr_seen(self.layout, place.element)
    }
}

impl Body {
    /// No variables and no operations.
    pub fn new(alloc: Global) -> Body
        ensures { result ≡ seen.empty }
    {
        Body {
            types: Seq::new(alloc),
            ops: Seq::new(alloc),
        }
    }

    /// One more variable of this type.
    pub fn fresh(&mut self, kind: LlType) -> Result<VarId, NoMem>
        ensures { IfOk result (λ v. Writes (seen.fresh kind self.old) v self.new) }
    {
        let variable = self.types.len() as u64;
        self.types.push(kind)?;
        Ok(variable)
    }
}

/// An operand of a list; where there is none, a word that is never read.
#[tactic(auto, using(crate::proofs::Views::at_place))]
pub fn operand_at<'a>(args: &[Operand<'a>], i: usize) -> Operand<'a>
    ensures { seen.the_operand result ≡ seen.operand_at (seen.the_operands args.now) i }
{
    match args.get(i) {
        None => Operand {
            x: COperand::Const(csub_tree::CConst::Word(0)),
            element: None,
        },
        Some(operand) => *operand,
    }
}
