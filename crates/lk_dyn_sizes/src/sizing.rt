//! The sizes of a link's tables.

ghost use Rattle.std.specs.Prelude.{◌≡◌, ◌+◌, ◌*◌, length, List, IfOk};
ghost use Rattle.lk_model.specs.DynamicTexts.{interpreter_path};
ghost use Rattle.lk_model.specs.HashTable.{word_count};
ghost use Rattle.lk_model.specs.Resolving.{resolve};
ghost use Rattle.lk_model.specs.SectionOrder.{slots_of, table_sizes_among};
ghost use Rattle.lk_model.specs.Views.{Input};
ghost use Rattle.lk_resolve.specs.Given.{IsGiven};
ghost use Rattle.lk_dyn_sizes.specs.SizeRows.{as_pairs};
ghost use Rattle.lk_dyn_sizes.specs.SizesIn.{counts_in, sizes_in, sizes_of};

use crate::amounts::{plus, times};
use crate::dynamic_rows::{copied_among, dynamic_names};
use crate::entry_counts::entry_count;
use crate::fills::filled_count;
use crate::link_texts::{dynamic_texts, interpreter_path, needed_names};
use crate::name_sets::copied_set;
use crate::putting::{put_dynamic, static_tables};
use crate::size_rows::{DynamicCounts, DynamicSizes, TableSizeList};
use lk_elf::numbers::{DYN_SIZE, RELA_SIZE, SYM_SIZE};
use lk_model::layouts::{Needs, SectionKeyList};
use lk_model::summaries::SummaryList;
use lk_report::{Name, NoMemory, OptionRecord};
use lk_resolve::Resolution;
use std::alloc::Global;

/// The bytes of an entry of the procedure linkage table (psABI "Procedure Linkage Table").
const PLT_ENTRY_SIZE: u64 = 16;

/// The bytes of the path of the dynamic linker, with its closing zero.
fn interp_size(given: &Name) -> Result<u64, NoMemory>
    ensures { IfOk result (λ size. size ≡ length (interpreter_path given.now) + 1) }
{
    let path = interpreter_path(given.as_slice());
    plus(path.len() as u64, 1)
}

/// The words of the hash table of so many dynamic symbols, the null symbol among them (gABI "Hash Table"): two
/// counts, the buckets, and one for each symbol. How many buckets there are is this project's own.
fn hash_words(symbols: u64) -> Result<u64, NoMemory>
    ensures { IfOk result (λ words. words ≡ word_count symbols) }
{
    let buckets = (symbols / 4).max(1);
    plus(plus(2, buckets)?, symbols)
}

/// The counts that decide the sizes of the tables of a dynamic link.
fn dynamic_counts(
    alloc: Global,
    resolution: &Resolution,
    inputs: &SummaryList,
    needs: &Needs,
    options: &OptionRecord,
    keys: &SectionKeyList,
) -> Result<DynamicCounts, NoMemory>
    ensures { IfOk result (λ counts. counts ≡ counts_in keys.now resolution.now inputs.now needs.now options.now) }
{
    let names = resolution.names();
    let numbers = dynamic_names(alloc, resolution, needs, options)?;
    let needed = needed_names(alloc, resolution, inputs)?;
    let texts = dynamic_texts(
        alloc,
        resolution,
        numbers.as_slice(),
        &needed,
        &options.runpath,
    )?;
    let copied = copied_set(alloc, needs)?;
    let filled = filled_count(names, &copied, needs.got.as_slice());
    let copies = copied_among(alloc, names, &copied)?;
    let path = &options.runpath;
    let entries = entry_count(alloc, names, needed.count(), path, keys.as_slice())?;
    Ok(DynamicCounts {
        interp: interp_size(&options.interp)?,
        symbols: plus(numbers.as_slice().len() as u64, 1)?,
        strings: texts.size(),
        fills: plus(filled as u64, copies.as_slice().len() as u64)?,
        calls: needs.plt.as_slice().len() as u64,
        entries,
    })
}

/// The sizes of the tables with these counts.
fn sizes_of(counts: DynamicCounts) -> Result<DynamicSizes, NoMemory>
    ensures { IfOk result (λ sizes. sizes ≡ sizes_of counts) }
{
    Ok(DynamicSizes {
        interp: counts.interp,
        hash: times(4, hash_words(counts.symbols)?)?,
        dynsym: times(SYM_SIZE as u64, counts.symbols)?,
        dynstr: counts.strings,
        rela_dyn: times(RELA_SIZE as u64, counts.fills)?,
        rela_plt: times(RELA_SIZE as u64, counts.calls)?,
        plt: times(PLT_ENTRY_SIZE, plus(1, counts.calls)?)?,
        dynamic: times(DYN_SIZE as u64, counts.entries)?,
    })
}

/// The tables that a link makes with their sizes in bytes, before anything is placed: `.got` and `.got.plt`, and
/// in a dynamic link `.interp`, `.hash`, `.dynsym`, `.dynstr`, `.rela.dyn`, `.rela.plt`, `.plt` and `.dynamic`.
///
/// `inputs` has the summary of each input, `needs` what the references of kept pieces need, and `keys` the output
/// sections that kept pieces go to, of which the arrays of functions have entries in `.dynamic`.
///
/// # Errors
/// Out of memory. A size that does not fit 64 bits is answered so too.
pub fn table_sizes(
    alloc: Global,
    resolution: &Resolution,
    inputs: &SummaryList,
    needs: &Needs,
    options: &OptionRecord,
    keys: &SectionKeyList,
) -> Result<TableSizeList, NoMemory>
    ensures { (xs : List Input) → IsGiven resolution.now inputs.now needs.now options.now xs → IfOk result (λ tables. as_pairs tables ≡ table_sizes_among keys.now (resolve options.now xs) (slots_of (resolve options.now xs).needs)) }
{
    tables_of(alloc, resolution, inputs, needs, options, keys)
}

/// The tables with their sizes, by a `Resolution`, the summaries of the inputs, the needs and the options.
fn tables_of(
    alloc: Global,
    resolution: &Resolution,
    inputs: &SummaryList,
    needs: &Needs,
    options: &OptionRecord,
    keys: &SectionKeyList,
) -> Result<TableSizeList, NoMemory>
    ensures { IfOk result (λ tables. as_pairs tables ≡ sizes_in keys.now resolution.now inputs.now needs.now options.now) }
{
    let mut tables = static_tables(alloc, needs)?;
    if resolution.dynamic() {
        let counts = dynamic_counts(alloc, resolution, inputs, needs, options, keys)?;
        put_dynamic(alloc, &mut tables, sizes_of(counts)?)?;
    }
    Ok(tables)
}
