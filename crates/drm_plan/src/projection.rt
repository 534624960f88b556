//! The draft that lines give.

ghost use Rattle.std.specs.Prelude.{◌≡◌, ◌++◌, IfOk};
ghost use Rattle.std.specs.Option.{option_to_list};
ghost use Rattle.plan_rules.specs.InLines.{ReadInLines, EndsComplete};
ghost use Rattle.drm_plan.specs.Projection.{drafted};

use crate::draft::Draft;
use crate::lists::make_lists;
use crate::settings;
use drm_bits::NoMemory;
use drm_schedule::{OwnedList, Plan};
use plan_rules::{ConfigLines, ParsedText};
use std::alloc::Global;

fn all_blocks(
    closed: OwnedList<ConfigLines>,
    current: Option<ConfigLines>,
) -> Result<OwnedList<ConfigLines>, NoMemory>
    ensures { IfOk result (λ blocks. blocks ≡ closed ++ option_to_list current) }
{
    let mut blocks = closed;
    if let Some(block) = current {
        blocks.push(block)?;
    }
    Ok(blocks)
}

/// The draft that lines give.
pub fn make_draft(alloc: Global, read: ParsedText) -> Result<Draft, NoMemory>
    requires in_lines { ReadInLines read }
    requires whole { EndsComplete read }
    ensures { IfOk result (λ draft. draft ≡ drafted read) }
{
    let front = read.front.as_slice();
    let (carry, seq) = (settings::carry(front), settings::seq(front));
    let (dlfc, length) = (settings::dlfc(front), settings::length(front));
    let blocks = all_blocks(read.closed, read.current)?;
    let lists = make_lists(alloc, blocks)?;
    let plan = Plan {
        carry,
        seq,
        dlfc,
        length,
        configs: lists.configs,
    };
    Ok(Draft::new(plan, lists.places, lists.files))
}
