// The helpers of a program.
ghost use Rattle.std.specs.Prelude.{◌≡◌, ◌++◌, IfOk, OnOk, map};
ghost use Rattle.ll_helpers.specs.Helpers as spec;

use crate::loops::{
    alike_bytes, copy_bytes, count_digits, find_bytes, less_bytes, put_bytes, repeat_bytes,
    skip_backwards, skip_forwards, write_digits,
};
use crate::print::{print_bool, print_digits, print_word};
use crate::statics::texts;
use crate::strings_ask::{
    print_str, str_contains, str_ends_with, str_equal, str_find, str_has_item, str_index, str_item,
    str_len, str_less, str_starts_with, str_truth, str_walk, str_write,
};
use crate::strings_cut::{str_but_last, str_slice, str_strip};
use crate::strings_make::{str_add, str_mul, str_of_bool, str_of_char, str_of_word, string_part};
use crate::words::{
    is_alpha, is_digit, is_space, range_down, range_up, word_chr, word_div, word_max, word_min,
    word_mod, word_shl, word_shr,
};
use ll_build::{Helper, Need, Numbers, Shared, all_shared, is_used, numbers_of, uses_texts};
use ll_code::{LlGraph, LlProgram, LlStage, LlStatic, LlStruct, LlType};
use rpy_base::{NoMem, Seq};
use std::alloc::Global;

fn graph_of(alloc: Global, numbers: Numbers, need: Need) -> Result<LlGraph, NoMem>
    ensures { IfOk result (λ made. made ≡ spec.helper_graph numbers need) }
{
    match need.helper {
        Helper::PrintWord => print_word(alloc, numbers.print_digits),
        Helper::PrintBool => print_bool(alloc),
        Helper::WordDiv => word_div(alloc),
        Helper::WordMod => word_mod(alloc),
        Helper::WordShl => word_shl(alloc),
        Helper::WordShr => word_shr(alloc),
        Helper::WordChr => word_chr(alloc),
        Helper::WordMin => word_min(alloc),
        Helper::WordMax => word_max(alloc),
        Helper::RangeUp => range_up(alloc),
        Helper::RangeDown => range_down(alloc),
        Helper::IsDigit => is_digit(alloc),
        Helper::IsAlpha => is_alpha(alloc),
        Helper::IsSpace => is_space(alloc),
        Helper::PrintStr => print_str(alloc, numbers.put_bytes),
        Helper::StrWrite => str_write(alloc, numbers.put_bytes),
        Helper::StrOfChar => str_of_char(alloc, numbers.table),
        Helper::StrOfWord => str_of_word(
            alloc,
            numbers.table,
            numbers.count_digits,
            numbers.write_digits,
        ),
        Helper::StrOfBool => str_of_bool(alloc),
        Helper::StrAdd => str_add(alloc, numbers.copy_bytes, numbers.string_part),
        Helper::StrMul => str_mul(alloc, numbers.string_part, numbers.repeat_bytes),
        Helper::StrIndex => str_index(alloc),
        Helper::StrSlice => str_slice(alloc, numbers.string_part),
        Helper::StrButLast => str_but_last(alloc, numbers.string_part),
        Helper::StrLen => str_len(alloc),
        Helper::StrTruth => str_truth(alloc),
        Helper::StrEqual => str_equal(alloc, numbers.alike_bytes),
        Helper::StrLess => str_less(alloc, numbers.less_bytes),
        Helper::StrContains => str_contains(alloc, numbers.find_bytes),
        Helper::StrFind => str_find(alloc, numbers.find_bytes),
        Helper::StrStartsWith => str_starts_with(alloc, numbers.alike_bytes),
        Helper::StrEndsWith => str_ends_with(alloc, numbers.alike_bytes),
        Helper::StrStrip => str_strip(
            alloc,
            numbers.string_part,
            numbers.skip_forwards,
            numbers.skip_backwards,
        ),
        Helper::StrWalk => str_walk(alloc),
        Helper::StrHasItem => str_has_item(alloc),
        Helper::StrItem => str_item(alloc),
    }
}

fn shared_graph(alloc: Global, numbers: Numbers, graph: Shared) -> Result<LlGraph, NoMem>
    ensures { IfOk result (λ made. made ≡ spec.shared_graph numbers graph) }
{
    match graph {
        Shared::PrintDigits => print_digits(alloc, numbers.print_digits),
        Shared::PutBytes => put_bytes(alloc),
        Shared::CopyBytes => copy_bytes(alloc),
        Shared::StringPart => string_part(alloc, numbers.table, numbers.copy_bytes),
        Shared::RepeatBytes => repeat_bytes(alloc, numbers.copy_bytes),
        Shared::AlikeBytes => alike_bytes(alloc),
        Shared::FindBytes => find_bytes(alloc, numbers.alike_bytes),
        Shared::LessBytes => less_bytes(alloc),
        Shared::CountDigits => count_digits(alloc),
        Shared::WriteDigits => write_digits(alloc),
        Shared::IsSpace => is_space(alloc),
        Shared::SkipForwards => skip_forwards(alloc, numbers.is_space),
        Shared::SkipBackwards => skip_backwards(alloc, numbers.is_space),
    }
}

fn need_graphs(alloc: Global, numbers: Numbers, needs: &[Need]) -> Result<Seq<LlGraph>, NoMem>
    ensures { IfOk result (λ made. made ≡ map (spec.helper_graph numbers) needs.now) }
{
    let mut made = Seq::new(alloc);
    for need in needs {
        made.push(graph_of(alloc, numbers, *need)?)?;
    }
    Ok(made)
}

fn push_if_used(
    alloc: Global,
    numbers: Numbers,
    needs: &[Need],
    graph: Shared,
    into: &mut Seq<LlGraph>,
) -> Result<(), NoMem>
    ensures { OnOk result (into.new ≡ into.old ++ spec.if_used numbers needs.now graph) }
{
    if is_used(needs, graph) {
        into.push(shared_graph(alloc, numbers, graph)?)?;
    }
    Ok(())
}

fn push_shared(
    alloc: Global,
    numbers: Numbers,
    needs: &[Need],
    order: &[Shared],
    into: &mut Seq<LlGraph>,
) -> Result<(), NoMem>
    ensures { OnOk result (into.new ≡ into.old ++ spec.shared_graphs numbers needs.now order.now) }
{
    for graph in order {
        push_if_used(alloc, numbers, needs, *graph, into)?;
    }
    Ok(())
}

fn all_graphs(
    alloc: Global,
    numbers: Numbers,
    needs: &[Need],
    order: &[Shared],
) -> Result<Seq<LlGraph>, NoMem>
    ensures { IfOk result (λ made. made ≡ spec.all_graphs numbers needs.now order.now) }
{
    let mut made = need_graphs(alloc, numbers, needs)?;
    push_shared(alloc, numbers, needs, order, &mut made)?;
    Ok(made)
}

fn graphs(alloc: Global, needs: &[Need], table: u64) -> Result<Seq<LlGraph>, NoMem>
    ensures { IfOk result (λ made. made ≡ spec.helper_graphs needs.now table) }
{
    let order = all_shared(alloc)?;
    let numbers = numbers_of(needs, order.as_slice(), table)?;
    all_graphs(alloc, numbers, needs, order.as_slice())
}

fn copied_types(alloc: Global, types: &[LlType]) -> Result<Seq<LlType>, NoMem>
    ensures { IfOk result (λ made. made ≡ types.now) }
{
    let items = Vec::from_slice(alloc, types)?;
    Ok(Seq::from_vec(items))
}

fn copied(alloc: Global, item: &LlStruct) -> Result<LlStruct, NoMem>
    ensures { IfOk result (λ made. made ≡ item.now) }
{
    Ok(LlStruct {
        base: item.base,
        fields: copied_types(alloc, item.fields.as_slice())?,
        items: item.items,
    })
}

fn copied_structs(alloc: Global, structs: &[LlStruct]) -> Result<Seq<LlStruct>, NoMem>
    ensures { IfOk result (λ made. made ≡ structs.now) }
{
    let mut made = Seq::new(alloc);
    for item in structs {
        made.push(copied(alloc, item)?)?;
    }
    Ok(made)
}

// The struct of the table of strings.
fn table_struct(alloc: Global) -> Result<LlStruct, NoMem>
    ensures { IfOk result (λ made. made ≡ spec.table_struct) }
{
    Ok(LlStruct {
        base: None,
        fields: copied_types(alloc, &[LlType::Signed])?,
        items: Some(LlType::Ptr(0)),
    })
}

fn all_structs(alloc: Global, structs: &[LlStruct], needs: &[Need]) -> Result<Seq<LlStruct>, NoMem>
    ensures { IfOk result (λ made. made ≡ spec.all_structs structs.now needs.now) }
{
    let mut made = copied_structs(alloc, structs)?;
    if uses_texts(needs) {
        made.push(table_struct(alloc)?)?;
    }
    Ok(made)
}

fn all_statics(alloc: Global, needs: &[Need], table: u64) -> Result<Seq<LlStatic>, NoMem>
    ensures { IfOk result (λ made. made ≡ spec.all_statics needs.now table) }
{
    if uses_texts(needs) {
        texts(alloc, table)
    } else {
        Ok(Seq::new(alloc))
    }
}

/// The helpers, as the graphs of a program of the stage `Raw` with these structs, of which the first is
/// that of strings: graph i is that of need i, and the graphs that these call follow. Where a need uses
/// the static strings, these are the statics, and the struct of their table follows the structs. The
/// entry means nothing.
pub fn helpers(alloc: Global, structs: &[LlStruct], needs: &[Need]) -> Result<LlProgram, NoMem>
    ensures { IfOk result (λ program. program ≡ spec.helpers structs.now needs.now) }
{
    let table = structs.len() as u64;
    Ok(LlProgram {
        stage: LlStage::Raw,
        structs: all_structs(alloc, structs, needs)?,
        statics: all_statics(alloc, needs, table)?,
        graphs: graphs(alloc, needs, table)?,
        entry: 0,
    })
}
