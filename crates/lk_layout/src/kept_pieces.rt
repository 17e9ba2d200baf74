//! The pieces that a link keeps: the sections of the added inputs that no group drops, in adding order and by
//! section; then the common blocks and the copies, in order of names.

ghost use Rattle.std.specs.Prelude.{◌≡◌, [], List, IfOk};
ghost use Rattle.lk_model.specs.KeptPieces.{bss_key};
ghost use Rattle.lk_model.specs.Resolving.{resolve};
ghost use Rattle.lk_model.specs.Views.{Input};
ghost use Rattle.lk_layout.specs.Grouping.{groups_of};
ghost use Rattle.lk_layout.specs.KeptIn.{kept_in};

use crate::grouping::Grouped;
use crate::kept::Nameless;
use crate::kept_sections::keep_sections;
use crate::name_pieces::keep_names;
use lk_model::layouts::{Class, Needs, SectionKey};
use lk_model::summaries::SummaryList;
use lk_report::{Name, NoMemory};
use lk_resolve::Resolution;
use std::alloc::Global;

/// The key of common blocks and copies.
pub(crate) fn bss_key(alloc: Global) -> Result<SectionKey, NoMemory>
    ensures { IfOk result (λ key. key ≡ bss_key) }
{
    Ok(SectionKey {
        name: Name::from_slice(alloc, b".bss")?,
        class: Class::Bss,
    })
}

/// The kept pieces by their sections.
#[tactic(auto, using(crate::proofs::GroupsGrow::pieces_grouped))]
pub(crate) fn kept_pieces<'p>(
    alloc: Global,
    resolution: &Resolution,
    inputs: &'p SummaryList,
    needs: &Needs,
    nameless: &Nameless<'p>,
) -> Result<Grouped<'p>, NoMemory>
    requires key { nameless.now.key.now ≡ bss_key }
    requires name { nameless.now.name.now ≡ [] }
    ensures { IfOk result (λ kept. kept ≡ groups_of (kept_in resolution.now inputs.now needs.now.copies)) }
{
    let mut kept = Grouped::new(alloc);
    keep_sections(&mut kept, resolution, inputs.as_slice())?;
    let copies = needs.copies.as_slice();
    keep_names(alloc, &mut kept, resolution.names(), copies, nameless)?;
    Ok(kept)
}
