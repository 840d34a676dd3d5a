use csub_runner::*;
use csub_tree::{CBinary, CConst, CFile, CFunction, COperand, CPrototype, CStmt, CStruct, CType};
use rpy_base::{MemSink, NoMem, Seq, Sink, Text};
use std::alloc::Global;
use std::test::Fail;

pub fn word(n: i64) -> COperand {
    COperand::Const(CConst::Word(n))
}

fn types(alloc: Global, list: &[CType]) -> Result<Seq<CType>, NoMem> {
    let mut types = Seq::new(alloc);
    for t in list {
        types.push(*t)?;
    }
    Ok(types)
}

fn structure(
    alloc: Global,
    base: Option<u64>,
    fields: &[CType],
    items: Option<CType>,
) -> Result<CStruct, NoMem> {
    Ok(CStruct {
        base,
        fields: types(alloc, fields)?,
        items,
    })
}

fn function(
    alloc: Global,
    name: &[u8],
    gives: Option<CType>,
    params: &[CType],
    locals: &[CType],
) -> Result<CFunction, NoMem> {
    Ok(CFunction {
        name: Text::from_bytes(alloc, name)?,
        result: gives,
        params: types(alloc, params)?,
        locals: types(alloc, locals)?,
        blocks: Seq::new(alloc),
    })
}

fn empty_file(alloc: Global) -> CFile {
    CFile {
        structs: Seq::new(alloc),
        prototypes: Seq::new(alloc),
        statics: Seq::new(alloc),
        functions: Seq::new(alloc),
    }
}

/// A struct of one field; a function of these variables and blocks.
pub fn file_of(
    alloc: Global,
    field: CType,
    locals: &[CType],
    blocks: Seq<Seq<CStmt>>,
) -> Result<CFile, NoMem> {
    let mut file = empty_file(alloc);
    file.structs
        .push(structure(alloc, None, [field].as_slice(), None)?)?;
    file.prototypes.push(CPrototype {
        result: Some(CType::Signed),
        params: Seq::new(alloc),
    })?;
    let mut main = function(alloc, b"main", Some(CType::Signed), [].as_slice(), locals)?;
    main.blocks = blocks;
    file.functions.push(main)?;
    Ok(file)
}

// A struct of one word; a function with a variable that points to it and a word; one block.
fn one_block(alloc: Global, stmts: Vec<CStmt>) -> Result<CFile, NoMem> {
    let mut blocks = Seq::new(alloc);
    blocks.push(Seq::from_vec(stmts))?;
    let locals = [CType::Ptr(0), CType::Signed];
    file_of(alloc, CType::Signed, locals.as_slice(), blocks)
}

pub fn no_args(alloc: Global) -> Result<Vec<Text>, NoMem> {
    let mut args = Vec::new(alloc);
    args.push(Text::from_bytes(alloc, b"program")?)?;
    Ok(args)
}

// What a run of two statements, put between a new block and `return 0`, answers: the word that it
// returned, or the reason and the statement.
fn stuck_by(alloc: Global, first: CStmt, second: CStmt) -> Result<(u64, u64), Fail> {
    let mut stmts = Vec::new(alloc);
    stmts.push(CStmt::New(0, 0, 0))?;
    stmts.push(first)?;
    stmts.push(second)?;
    stmts.push(CStmt::Return(Some(word(0))))?;
    let file = one_block(alloc, stmts)?;
    let args = no_args(alloc)?;
    let mut out = MemSink::new(alloc);
    let mut watch = Vec::new(alloc);
    match run_c(alloc, &file, args.as_slice(), 100, &mut out, &mut watch) {
        Ok(_) => Ok((0, 0)),
        Err(RunFault::Stuck(reason, number)) => Ok((reason as u64, number)),
        Err(_) => Ok((99, 0)),
    }
}

#[test]
fn reasons_of_blocks(rt: HostRuntime) -> Result<(), Fail> {
    let alloc = rt.alloc();
    let gone = stuck_by(alloc, CStmt::Free(0), CStmt::GetField(1, 0, 0, 0))?;
    assert_eq!(rt; gone, (1, 3));
    let unset = stuck_by(alloc, CStmt::GetField(1, 0, 0, 0), CStmt::ExcClear)?;
    assert_eq!(rt; unset, (4, 2));
    let null = CStmt::Set(0, COperand::Const(CConst::Null));
    let null = stuck_by(alloc, null, CStmt::Free(0))?;
    assert_eq!(rt; null, (5, 3));
    let twice = stuck_by(alloc, CStmt::Free(0), CStmt::Free(0))?;
    assert_eq!(rt; twice, (5, 3));
    Ok(())
}

#[test]
fn reasons_of_words(rt: HostRuntime) -> Result<(), Fail> {
    let alloc = rt.alloc();
    let put = stuck_by(alloc, CStmt::Put(word(256)), CStmt::ExcClear)?;
    assert_eq!(rt; put, (7, 2));
    let div = CStmt::Binary(1, CBinary::Div, word(1), word(0));
    let divided = stuck_by(alloc, div, CStmt::ExcClear)?;
    assert_eq!(rt; divided, (7, 2));
    let cost = stuck_by(alloc, CStmt::Step(word(-1)), CStmt::ExcClear)?;
    assert_eq!(rt; cost, (9, 2));
    let outside = stuck_by(alloc, CStmt::ArgLen(1, word(1)), CStmt::ExcClear)?;
    assert_eq!(rt; outside, (10, 2));
    let set = stuck_by(alloc, CStmt::Set(1, word(7)), CStmt::ExcClear)?;
    assert_eq!(rt; set, (0, 0));
    Ok(())
}

// Three blocks, one of them freed, and two bytes of output.
pub fn three_blocks(alloc: Global) -> Result<CFile, NoMem> {
    let mut stmts = Vec::new(alloc);
    stmts.push(CStmt::New(0, 0, 0))?;
    stmts.push(CStmt::Put(word(104)))?;
    stmts.push(CStmt::New(0, 0, 0))?;
    stmts.push(CStmt::Free(0))?;
    stmts.push(CStmt::Put(word(105)))?;
    stmts.push(CStmt::New(0, 0, 0))?;
    stmts.push(CStmt::Return(Some(word(7))))?;
    one_block(alloc, stmts)
}

#[test]
fn a_sink_fails(rt: HostRuntime) -> Result<(), Fail> {
    let alloc = rt.alloc();
    let file = three_blocks(alloc)?;
    let args = no_args(alloc)?;
    let mut out = MemSink::new(alloc);
    out.fail_at(0, 1);
    let mut watch = Vec::new(alloc);
    let ran = run_c(alloc, &file, args.as_slice(), 5, &mut out, &mut watch);
    assert!(rt; matches!(ran, Err(RunFault::WriteFault)));
    assert_eq!(rt; out.taken(), b"h".as_slice());
    assert_eq!(rt; out.faults(), 1);
    Ok(())
}
