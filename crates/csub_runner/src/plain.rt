// Plain statements: assignments, operations on two words, field accesses and jumps. Most of those that
// run are plain, so they are done in a loop of their own, one after another, each with a single look
// at what it needs. What is less plain than that is left undone, for `step`.
ghost use Rattle.std.specs.Prelude.{◌≡◌, ◌+◌, ◌<◌, ◌≤◌, ◌^◌};
ghost use Rattle.csub_tree.specs.State.{Value};
ghost use Rattle.csub_tree.specs.Operation.{binary_of};
ghost use Rattle.csub_tree.specs.Layout.{shapes_of};
ghost use Rattle.csub_tree.specs.Statement.{read as read_value, operand as operand_value, assigned, answered, set as sets, binary as binary_does, get_field as gets_field, set_field as sets_field, goes_to as goes_to_block, branch as branches};
ghost use Rattle.csub_tree.specs.Machine.{does};
ghost use Rattle.csub_runner.specs.Erased.{erase, IsPlain};
ghost use Rattle.csub_runner.specs.Heap.{ValOk};
ghost use Rattle.csub_runner.specs.Core.{core_of, MachineOk, Plainly};
ghost use Rattle.csub_runner.specs.Run.{LeadsOn};

use crate::code::{statement_among, statements_at};
use crate::heap::put;
use crate::machine::Machine;
use crate::operation::{add_overflows, mul_overflows, sub_overflows};
use crate::shape::{Shape, place_in};
use crate::val::{Val, flag_in, is_unset, read, word_operand};
use csub_tree::{CBinary, CFile, COperand, CStmt};
use rpy_base::{Text, word};

/// How a plain statement went: the run goes on behind it, or at a label; or it is not done.
#[derive(Clone, Copy)]
pub enum Went {
    On,
    Jumped,
    Undone,
}

impl Machine {
    #[inline(always)]
    fn assign_plain(&mut self, a: u64, value: Val) -> Went
        requires at { self.old.at + 1 < 2 ^ 64 }
        requires ok { MachineOk self.old }
        requires value { ValOk self.old.heap value }
        ensures ok { MachineOk self.new }
        ensures step { Plainly (assigned (core_of self.old) a (erase value)) result (core_of self.old) (core_of self.new) }
    {
        put(&mut self.vars, a, value);
        self.at += 1;
        Went::On
    }

    #[inline(always)]
    fn set_plain(&mut self, a: u64, value: Val) -> Went
        requires at { self.old.at + 1 < 2 ^ 64 }
        requires ok { MachineOk self.old }
        requires value { ValOk self.old.heap value }
        ensures ok { MachineOk self.new }
        ensures step { Plainly (sets (core_of self.old) a (erase value)) result (core_of self.old) (core_of self.new) }
    {
        if is_unset(value) {
            return Went::Undone;
        }
        self.assign_plain(a, value)
    }

    // The operations that have a result for any two words.
    #[inline(always)]
    fn on_words(&mut self, a: u64, op: CBinary, x: i64, y: i64) -> Went
        requires at { self.old.at + 1 < 2 ^ 64 }
        requires ok { MachineOk self.old }
        ensures ok { MachineOk self.new }
        ensures step { Plainly (answered (core_of self.old) a (binary_of op (Value.Word x) (Value.Word y))) result (core_of self.old) (core_of self.new) }
    {
        match op {
            CBinary::Add => self.assign_plain(a, Val::Word(word::wrap_add(x, y))),
            CBinary::Sub => self.assign_plain(a, Val::Word(word::wrap_sub(x, y))),
            CBinary::Mul => self.assign_plain(a, Val::Word(word::wrap_mul(x, y))),
            CBinary::And => self.assign_plain(a, Val::Word(x & y)),
            CBinary::Or => self.assign_plain(a, Val::Word(x | y)),
            CBinary::Xor => self.assign_plain(a, Val::Word(x ^ y)),
            CBinary::AddOvf => self.assign_plain(a, Val::Flag(add_overflows(x, y))),
            CBinary::SubOvf => self.assign_plain(a, Val::Flag(sub_overflows(x, y))),
            CBinary::MulOvf => self.assign_plain(a, Val::Flag(mul_overflows(x, y))),
            CBinary::Eq => self.assign_plain(a, Val::Flag(x == y)),
            CBinary::Ne => self.assign_plain(a, Val::Flag(x != y)),
            CBinary::Lt => self.assign_plain(a, Val::Flag(x < y)),
            CBinary::Le => self.assign_plain(a, Val::Flag(x <= y)),
            CBinary::Gt => self.assign_plain(a, Val::Flag(x > y)),
            CBinary::Ge => self.assign_plain(a, Val::Flag(x >= y)),
            _ => Went::Undone,
        }
    }

    #[inline(always)]
    fn binary_plain(&mut self, a: u64, op: CBinary, x: &COperand, y: &COperand) -> Went
        requires at { self.old.at + 1 < 2 ^ 64 }
        requires ok { MachineOk self.old }
        ensures ok { MachineOk self.new }
        ensures step { Plainly (binary_does (core_of self.old) a op (operand_value (core_of self.old).vars x.now) (operand_value (core_of self.old).vars y.now)) result (core_of self.old) (core_of self.new) }
    {
        let Some(p) = word_operand(&self.vars, x) else {
            return Went::Undone;
        };
        let Some(q) = word_operand(&self.vars, y) else {
            return Went::Undone;
        };
        self.on_words(a, op, p, q)
    }

    // A field of a block of this very struct.
    #[inline(always)]
    fn get_field_plain(
        &mut self,
        file: &CFile,
        shapes: &Vec<Shape>,
        a: u64,
        kind: u64,
        b: u64,
        k: u64,
    ) -> Went
        requires at { self.old.at + 1 < 2 ^ 64 }
        requires ok { MachineOk self.old }
        requires shapes { shapes.now.items ≡ shapes_of file.now.structs }
        ensures ok { MachineOk self.new }
        ensures step { Plainly (gets_field (core_of self.old) shapes.now.items a kind (read_value (core_of self.old).vars b) k) result (core_of self.old) (core_of self.new) }
    {
        let Val::Ptr(ptr) = self.variable(b) else {
            return Went::Undone;
        };
        let Some(at) = place_in(shapes, kind, k) else {
            return Went::Undone;
        };
        let value = match self.heap.block(ptr) {
            Some(cells) if cells.kind == kind => read(&cells.fields, at),
            _ => return Went::Undone,
        };
        self.set_plain(a, value)
    }

    #[inline(always)]
    fn set_field_plain(
        &mut self,
        file: &CFile,
        shapes: &Vec<Shape>,
        kind: u64,
        b: u64,
        k: u64,
        x: &COperand,
    ) -> Went
        requires at { self.old.at + 1 < 2 ^ 64 }
        requires ok { MachineOk self.old }
        requires shapes { shapes.now.items ≡ shapes_of file.now.structs }
        ensures ok { MachineOk self.new }
        ensures step { Plainly (sets_field (core_of self.old) shapes.now.items kind (read_value (core_of self.old).vars b) k (operand_value (core_of self.old).vars x.now)) result (core_of self.old) (core_of self.new) }
    {
        let Val::Ptr(ptr) = self.variable(b) else {
            return Went::Undone;
        };
        let Some(at) = place_in(shapes, kind, k) else {
            return Went::Undone;
        };
        let value = self.value(x);
        if is_unset(value) || !self.heap.has_kind(ptr, kind) {
            return Went::Undone;
        }
        self.heap.set_field(ptr, at, value);
        self.at += 1;
        Went::On
    }

    #[inline(always)]
    fn goto_plain(&mut self, block: u64) -> Went
        requires ok { MachineOk self.old }
        ensures ok { MachineOk self.new }
        ensures step { Plainly (goes_to_block (core_of self.old) block) result (core_of self.old) (core_of self.new) }
    {
        self.block = block;
        self.at = 0;
        Went::Jumped
    }

    #[inline(always)]
    fn branch_plain(&mut self, a: u64, there: u64, elsewhere: u64) -> Went
        requires ok { MachineOk self.old }
        ensures ok { MachineOk self.new }
        ensures step { Plainly (branches (core_of self.old) (read_value (core_of self.old).vars a) there elsewhere) result (core_of self.old) (core_of self.new) }
    {
        match flag_in(self.variable(a)) {
            Some(true) => self.goto_plain(there),
            Some(false) => self.goto_plain(elsewhere),
            None => Went::Undone,
        }
    }

    // The statement, where it is plain.
    #[inline(always)]
    fn plain(&mut self, file: &CFile, shapes: &Vec<Shape>, args: &[Text], stmt: &CStmt) -> Went
        requires at { self.old.at + 1 < 2 ^ 64 }
        requires ok { MachineOk self.old }
        requires shapes { shapes.now.items ≡ shapes_of file.now.structs }
        ensures ok { MachineOk self.new }
        ensures step { Plainly (does file.now args.now (core_of self.old) stmt.now) result (core_of self.old) (core_of self.new) }
    {
        match stmt {
            CStmt::Set(a, x) => self.set_plain(*a, self.value(x)),
            CStmt::Binary(a, op, x, y) => self.binary_plain(*a, *op, x, y),
            CStmt::GetField(a, kind, b, k) => self.get_field_plain(file, shapes, *a, *kind, *b, *k),
            CStmt::SetField(kind, b, k, x) => self.set_field_plain(file, shapes, *kind, *b, *k, x),
            CStmt::Goto(block) => self.goto_plain(*block),
            CStmt::If(a, there, elsewhere) => self.branch_plain(*a, *there, *elsewhere),
            _ => Went::Undone,
        }
    }

    /// Plain statements, as long as one comes after another and at most so many; how many it did.
    pub fn run_plain(&mut self, file: &CFile, shapes: &Vec<Shape>, args: &[Text], most: u64) -> u64
        requires ok { MachineOk self.old }
        requires shapes { shapes.now.items ≡ shapes_of file.now.structs }
        ensures ok { MachineOk self.new }
        ensures few { result ≤ most }
        ensures leads { LeadsOn file.now args.now result (core_of self.old) (core_of self.new) }
    {
        let mut stmts = statements_at(file, self.function, self.block);
        for done in 0..most {
            let Some(stmt) = statement_among(stmts, self.at) else {
                return done;
            };
            match self.plain(file, shapes, args, stmt) {
                Went::On => {}
                Went::Jumped => stmts = statements_at(file, self.function, self.block),
                Went::Undone => return done,
            }
        }
        most
    }
}
