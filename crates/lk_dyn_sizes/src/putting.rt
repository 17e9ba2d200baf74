//! Tables with their sizes, put one after another.

ghost use Rattle.std.specs.Prelude.{◌≡◌, [], ◌∷◌, ◌++◌, IfOk, OnOk};
ghost use Rattle.lk_model.specs.SectionKeys.{named};
ghost use Rattle.lk_dyn_sizes.specs.SizeRows.{as_pairs};
ghost use Rattle.lk_dyn_sizes.specs.SizesIn.{call_pairs, dynamic_pairs, static_pairs, symbol_pairs};

use crate::amounts::{plus, times};
use crate::size_rows::{DynamicSizes, TableSize, TableSizeList};
use lk_model::layouts::{Class, Needs, SectionKey};
use lk_report::{List, Name, NoMemory};
use std::alloc::Global;

/// Puts a table of this name and class at the end.
fn put(
    alloc: Global,
    tables: &mut TableSizeList,
    name: &[u8],
    class: Class,
    size: u64,
) -> Result<(), NoMemory>
    ensures { OnOk result (as_pairs tables.new ≡ as_pairs tables.old ++ (named name.now class, size) ∷ []) }
{
    let name = Name::from_slice(alloc, name)?;
    let key = SectionKey { name, class };
    tables.push(TableSize { key, size })
}

/// The tables that every link has, with their sizes: a slot of the GOT has eight bytes, and `.got.plt` begins
/// with three slots that are reserved for the dynamic linker (psABI "Global Offset Table").
pub(crate) fn static_tables(alloc: Global, needs: &Needs) -> Result<TableSizeList, NoMemory>
    ensures { IfOk result (λ tables. as_pairs tables ≡ static_pairs needs.now) }
{
    let got = times(8, needs.got.as_slice().len() as u64)?;
    let got_plt = times(8, plus(3, needs.plt.as_slice().len() as u64)?)?;
    let mut tables = List::new(alloc);
    put(alloc, &mut tables, b".got", Class::W, got)?;
    put(alloc, &mut tables, b".got.plt", Class::W, got_plt)?;
    Ok(tables)
}

/// Puts the tables of the dynamic symbols and of their names at the end.
fn put_symbols(
    alloc: Global,
    tables: &mut TableSizeList,
    sizes: DynamicSizes,
) -> Result<(), NoMemory>
    ensures { OnOk result (as_pairs tables.new ≡ as_pairs tables.old ++ symbol_pairs sizes) }
{
    put(alloc, tables, b".interp", Class::R, sizes.interp)?;
    put(alloc, tables, b".hash", Class::R, sizes.hash)?;
    put(alloc, tables, b".dynsym", Class::R, sizes.dynsym)?;
    put(alloc, tables, b".dynstr", Class::R, sizes.dynstr)?;
    Ok(())
}

/// Puts the relocation tables, the procedure linkage table and the dynamic section at the end.
fn put_calls(alloc: Global, tables: &mut TableSizeList, sizes: DynamicSizes) -> Result<(), NoMemory>
    ensures { OnOk result (as_pairs tables.new ≡ as_pairs tables.old ++ call_pairs sizes) }
{
    put(alloc, tables, b".rela.dyn", Class::R, sizes.rela_dyn)?;
    put(alloc, tables, b".rela.plt", Class::R, sizes.rela_plt)?;
    put(alloc, tables, b".plt", Class::X, sizes.plt)?;
    put(alloc, tables, b".dynamic", Class::W, sizes.dynamic)?;
    Ok(())
}

/// Puts the tables of a dynamic link at the end.
#[tactic(auto, using(crate::proofs::PairsPut::both_put))]
pub(crate) fn put_dynamic(
    alloc: Global,
    tables: &mut TableSizeList,
    sizes: DynamicSizes,
) -> Result<(), NoMemory>
    ensures { OnOk result (as_pairs tables.new ≡ as_pairs tables.old ++ dynamic_pairs sizes) }
{
    put_symbols(alloc, tables, sizes)?;
    put_calls(alloc, tables, sizes)?;
    Ok(())
}
