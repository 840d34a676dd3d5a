// Files that break one rule each, with the number of the declaration.
use csub_tree::*;
use rpy_base::{NoMem, Seq, Text};
use std::alloc::Global;
use std::test::Fail;

fn listed<T: Drop, const N: usize>(alloc: Global, items: [T; N]) -> Result<Seq<T>, NoMem> {
    Ok(Seq::from_vec(Vec::from_array(alloc, items)?))
}

#[derive(Clone, Copy)]
enum End {
    Whole,
    NoBlock,
    Open,
    After,
}

// What the rows of the table change in a file that keeps the rules.
#[derive(Clone, Copy)]
struct Parts {
    base: Option<u64>,
    field: CType,
    prototypes: usize,
    result: Option<CType>,
    takes_word: bool,
    cell: CConst,
    functions: usize,
    name: &'static str,
    end: End,
}

const GOOD: Parts = Parts {
    base: Some(0),
    field: CType::Ptr(0),
    prototypes: 1,
    result: Some(CType::Signed),
    takes_word: false,
    cell: CConst::Static(0, 0),
    functions: 1,
    name: "module.Class_2",
    end: End::Whole,
};

fn structs(alloc: Global, parts: Parts) -> Result<Seq<CStruct>, NoMem> {
    let word = CStruct {
        base: None,
        fields: listed(alloc, [CType::Signed])?,
        items: None,
    };
    let based = CStruct {
        base: parts.base,
        fields: listed(alloc, [parts.field])?,
        items: None,
    };
    let bytes = CStruct {
        base: None,
        fields: listed(alloc, [CType::Signed])?,
        items: Some(CType::Char),
    };
    listed(alloc, [word, based, bytes])
}

fn params(alloc: Global, parts: Parts) -> Result<Seq<CType>, NoMem> {
    if parts.takes_word {
        listed(alloc, [CType::Signed])
    } else {
        Ok(Seq::new(alloc))
    }
}

fn prototypes(alloc: Global, parts: Parts) -> Result<Seq<CPrototype>, NoMem> {
    let mut made = Seq::new(alloc);
    for _i in 0..parts.prototypes {
        made.push(CPrototype {
            result: parts.result,
            params: params(alloc, parts)?,
        })?;
    }
    Ok(made)
}

fn statics(alloc: Global, parts: Parts) -> Result<Seq<CStatic>, NoMem> {
    let first = CStatic {
        kind: 0,
        cells: listed(alloc, [CCell::Const(CConst::Word(5))])?,
    };
    let base = listed(alloc, [CCell::Const(CConst::Word(7))])?;
    let second = CStatic {
        kind: 1,
        cells: listed(alloc, [CCell::Braces(base), CCell::Const(parts.cell)])?,
    };
    listed(alloc, [first, second])
}

fn zero() -> CStmt {
    CStmt::Return(Some(COperand::Const(CConst::Word(0))))
}

fn blocks(alloc: Global, parts: Parts) -> Result<Seq<Seq<CStmt>>, NoMem> {
    let statements = match parts.end {
        End::NoBlock => return Ok(Seq::new(alloc)),
        End::Whole => listed(alloc, [CStmt::ExcClear, zero()])?,
        End::Open => listed(alloc, [CStmt::ExcClear])?,
        End::After => listed(alloc, [zero(), zero()])?,
    };
    listed(alloc, [statements])
}

// Its variables are two pointers, a Bool, a Char, a Signed, a Fn and a pointer to bytes.
fn function(alloc: Global, parts: Parts, blocks: Seq<Seq<CStmt>>) -> Result<CFunction, NoMem> {
    Ok(CFunction {
        name: Text::from_bytes(alloc, parts.name.as_bytes())?,
        result: Some(CType::Signed),
        params: params(alloc, parts)?,
        locals: listed(
            alloc,
            [
                CType::Ptr(0),
                CType::Ptr(1),
                CType::Bool,
                CType::Char,
                CType::Signed,
                CType::Fn,
                CType::Ptr(2),
            ],
        )?,
        blocks,
    })
}

fn functions(alloc: Global, parts: Parts) -> Result<Seq<CFunction>, NoMem> {
    let mut made = Seq::new(alloc);
    for _i in 0..parts.functions {
        made.push(function(alloc, parts, blocks(alloc, parts)?)?)?;
    }
    Ok(made)
}

fn file(alloc: Global, parts: Parts) -> Result<CFile, NoMem> {
    Ok(CFile {
        structs: structs(alloc, parts)?,
        prototypes: prototypes(alloc, parts)?,
        statics: statics(alloc, parts)?,
        functions: functions(alloc, parts)?,
    })
}

#[test]
fn a_broken_rule_has_the_number_of_its_declaration(rt: HostRuntime) -> Result<(), Fail> {
    for (row, parts, verdict) in [
        ("whole", GOOD, Ok(())),
        (
            "field of no struct",
            Parts {
                field: CType::Ptr(3),
                ..GOOD
            },
            Err(2),
        ),
        (
            "base of itself",
            Parts {
                base: Some(1),
                ..GOOD
            },
            Err(2),
        ),
        (
            "prototype without function",
            Parts {
                prototypes: 2,
                ..GOOD
            },
            Err(5),
        ),
        (
            "function without prototype",
            Parts {
                prototypes: 0,
                ..GOOD
            },
            Err(6),
        ),
        (
            "another result",
            Parts {
                result: None,
                ..GOOD
            },
            Err(7),
        ),
        (
            "start with a parameter",
            Parts {
                takes_word: true,
                ..GOOD
            },
            Err(7),
        ),
        (
            "static of itself",
            Parts {
                cell: CConst::Static(0, 1),
                ..GOOD
            },
            Err(6),
        ),
        (
            "another cast",
            Parts {
                cell: CConst::Static(1, 0),
                ..GOOD
            },
            Err(6),
        ),
        (
            "word for a pointer",
            Parts {
                cell: CConst::Word(0),
                ..GOOD
            },
            Err(6),
        ),
        ("no base", Parts { base: None, ..GOOD }, Err(6)),
        (
            "a space in the name",
            Parts {
                name: "a b",
                ..GOOD
            },
            Err(7),
        ),
        (
            "no block",
            Parts {
                end: End::NoBlock,
                ..GOOD
            },
            Err(7),
        ),
        (
            "no end",
            Parts {
                end: End::Open,
                ..GOOD
            },
            Err(7),
        ),
        (
            "after the end",
            Parts {
                end: End::After,
                ..GOOD
            },
            Err(7),
        ),
        (
            "no function",
            Parts {
                prototypes: 0,
                functions: 0,
                ..GOOD
            },
            Err(6),
        ),
    ] {
        let file = file(rt.alloc(), parts)?;
        assert_eq!(rt; checked(&file), verdict, "{row}");
    }
    Ok(())
}

fn file_of(alloc: Global, statements: Seq<CStmt>) -> Result<CFile, NoMem> {
    let blocks = listed(alloc, [statements])?;
    Ok(CFile {
        structs: structs(alloc, GOOD)?,
        prototypes: prototypes(alloc, GOOD)?,
        statics: statics(alloc, GOOD)?,
        functions: listed(alloc, [function(alloc, GOOD, blocks)?])?,
    })
}

#[test]
fn statements_keep_their_types(rt: HostRuntime) -> Result<(), Fail> {
    let alloc = rt.alloc();
    let word = COperand::Const(CConst::Word(1));
    let null = COperand::Const(CConst::Null);
    for (statement, keeps) in [
        (CStmt::Set(4, word), true),
        (CStmt::Set(4, null), false),
        (CStmt::Set(7, word), false),
        (CStmt::Set(0, COperand::Var(1)), false),
        (CStmt::Unary(3, CUnary::S2C, word), true),
        (CStmt::Unary(4, CUnary::C2S, word), false),
        (CStmt::Binary(4, CBinary::Lt, word, word), false),
        (CStmt::Binary(2, CBinary::Peq, COperand::Var(0), null), true),
        (
            CStmt::Binary(2, CBinary::Peq, COperand::Var(0), COperand::Var(1)),
            false,
        ),
        (CStmt::GetField(0, 1, 0, 1), true),
        (CStmt::GetField(0, 1, 0, 0), false),
        (CStmt::New(0, 0, 1), true),
        (CStmt::New(1, 1, 0), false),
        (CStmt::New(6, 2, 2), false),
        (CStmt::NewArray(6, 2, 2, word), true),
        (CStmt::Call(Some(4), 0, Seq::new(alloc)), true),
        (CStmt::Call(None, 0, listed(alloc, [word])?), false),
        (
            CStmt::CallFn(None, None, Seq::new(alloc), 5, Seq::new(alloc)),
            true,
        ),
        (CStmt::ExcType(0, 1), false),
        (CStmt::Free(4), false),
    ] {
        let file = file_of(alloc, listed(alloc, [statement, zero()])?)?;
        assert_eq!(rt; checked(&file).is_ok(), keeps);
    }
    Ok(())
}

#[test]
fn ends_keep_their_rules(rt: HostRuntime) -> Result<(), Fail> {
    let alloc = rt.alloc();
    for (statement, keeps) in [
        (CStmt::Fail(5), true),
        (CStmt::Fail(6), false),
        (CStmt::Fail(0), false),
        (CStmt::Goto(0), true),
        (CStmt::Goto(1), false),
        (CStmt::If(4, 0, 0), false),
        (CStmt::Return(None), false),
        (CStmt::Raised(6), true),
        (CStmt::Raised(0), false),
    ] {
        let file = file_of(alloc, listed(alloc, [statement])?)?;
        assert_eq!(rt; checked(&file).is_ok(), keeps);
    }
    Ok(())
}
