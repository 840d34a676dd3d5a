// Blocks of memory.
use crate::machine::{Code, Machine, Next, put};
use crate::shape::{begins_with, place, size_of};
use crate::val::{Cells, Val, is_unset, read, word_in};
use csub_tree::StuckReason;
use rpy_base::NoMem;
use std::alloc::Global;

impl Machine {
    // The block or static that a pointer names, where it is there.
    fn cells(&self, pointer: Val) -> Option<&Cells> {
        match pointer {
            Val::Ptr(number) => match self.blocks.get(number as usize)? {
                Some(cells) => Some(cells),
                None => None,
            },
            Val::Static(number) => self.statics.get(number as usize),
            Val::Unset | Val::Word(_) | Val::Byte(_) | Val::Flag(_) | Val::Fun(_) | Val::Null => {
                None
            }
        }
    }

    /// The block that a pointer names, seen as a struct.
    pub fn reached(&self, code: Code<'_>, kind: u64, pointer: Val) -> Result<&Cells, StuckReason> {
        if is_unset(pointer) {
            return Err(StuckReason::Unset);
        }
        match self.cells(pointer) {
            None => Err(StuckReason::Gone),
            Some(cells) => {
                if begins_with(code.shapes, cells.kind, kind) {
                    Ok(cells)
                } else {
                    Err(StuckReason::Kind)
                }
            }
        }
    }

    pub fn get_field(&mut self, code: Code<'_>, a: u64, kind: u64, pointer: Val, k: u64) -> Next {
        let value = match self.reached(code, kind, pointer) {
            Ok(cells) => read(&cells.fields, place(code.shapes, kind, k)),
            Err(reason) => return Next::Stuck(reason),
        };
        self.set(a, value)
    }

    pub fn get_item(&mut self, code: Code<'_>, a: u64, kind: u64, pointer: Val, i: Val) -> Next {
        let Some(i) = word_in(i) else {
            return Next::Stuck(StuckReason::Unset);
        };
        let value = match self.reached(code, kind, pointer) {
            Ok(cells) => {
                if i < 0 || i as u64 >= cells.items.len() as u64 {
                    return Next::Stuck(StuckReason::Outside);
                }
                read(&cells.items, i as u64)
            }
            Err(reason) => return Next::Stuck(reason),
        };
        self.set(a, value)
    }

    fn put_field(&mut self, pointer: Val, at: u64, value: Val) {
        match pointer {
            Val::Ptr(number) => {
                if let Some(Some(cells)) = self.blocks.get_mut(number as usize) {
                    put(&mut cells.fields, at, value);
                }
            }
            Val::Static(number) => {
                if let Some(cells) = self.statics.get_mut(number as usize) {
                    put(&mut cells.fields, at, value);
                }
            }
            Val::Unset | Val::Word(_) | Val::Byte(_) | Val::Flag(_) | Val::Fun(_) | Val::Null => {}
        }
    }

    fn put_item(&mut self, pointer: Val, at: u64, value: Val) {
        match pointer {
            Val::Ptr(number) => {
                if let Some(Some(cells)) = self.blocks.get_mut(number as usize) {
                    put(&mut cells.items, at, value);
                }
            }
            Val::Static(number) => {
                if let Some(cells) = self.statics.get_mut(number as usize) {
                    put(&mut cells.items, at, value);
                }
            }
            Val::Unset | Val::Word(_) | Val::Byte(_) | Val::Flag(_) | Val::Fun(_) | Val::Null => {}
        }
    }

    pub fn set_field(
        &mut self,
        code: Code<'_>,
        kind: u64,
        pointer: Val,
        k: u64,
        value: Val,
    ) -> Next {
        if is_unset(value) {
            return Next::Stuck(StuckReason::Unset);
        }
        if let Err(reason) = self.reached(code, kind, pointer) {
            return Next::Stuck(reason);
        }
        self.put_field(pointer, place(code.shapes, kind, k), value);
        Next::Goes
    }

    pub fn set_item(
        &mut self,
        code: Code<'_>,
        kind: u64,
        pointer: Val,
        i: Val,
        value: Val,
    ) -> Next {
        if is_unset(value) {
            return Next::Stuck(StuckReason::Unset);
        }
        let Some(i) = word_in(i) else {
            return Next::Stuck(StuckReason::Unset);
        };
        let items = match self.reached(code, kind, pointer) {
            Ok(cells) => cells.items.len() as u64,
            Err(reason) => return Next::Stuck(reason),
        };
        if i < 0 || i as u64 >= items {
            return Next::Stuck(StuckReason::Outside);
        }
        self.put_item(pointer, i as u64, value);
        Next::Goes
    }

    /// A new block of unset cells. Its number is the count of those made before it.
    pub fn new_block(
        &mut self,
        alloc: Global,
        code: Code<'_>,
        a: u64,
        kind: u64,
        items: u64,
    ) -> Result<Next, NoMem> {
        let number = self.blocks.len() as u64;
        let fields = vec![in alloc; Val::Unset; size_of(code.shapes, kind) as usize]?;
        let items = vec![in alloc; Val::Unset; items as usize]?;
        self.blocks.push(Some(Cells {
            kind,
            fields,
            items,
        }))?;
        Ok(self.assign(a, Val::Ptr(number)))
    }

    pub fn new_array(
        &mut self,
        alloc: Global,
        code: Code<'_>,
        a: u64,
        kind: u64,
        count: Val,
    ) -> Result<Next, NoMem> {
        let Some(count) = word_in(count) else {
            return Ok(Next::Stuck(StuckReason::Unset));
        };
        if count < 0 {
            return Ok(Next::Stuck(StuckReason::Length));
        }
        self.new_block(alloc, code, a, kind, count as u64)
    }

    pub fn free(&mut self, pointer: Val) -> Next {
        match pointer {
            Val::Unset => Next::Stuck(StuckReason::Unset),
            Val::Ptr(number) => {
                if self.cells(pointer).is_none() {
                    return Next::Stuck(StuckReason::BadFree);
                }
                if (number as usize) < self.blocks.len() {
                    self.blocks[number as usize] = None;
                }
                Next::Goes
            }
            Val::Word(_) | Val::Byte(_) | Val::Flag(_) | Val::Fun(_) | Val::Null | Val::Static(_) =>
                { Next::Stuck(StuckReason::BadFree) }
        }
    }
}
