ghost use Rattle.std.specs.Prelude.{◌≡◌, IfOk, IfErr, OnOk, Ok, Err};
ghost use Rattle.ofit_input.specs.Given.{PairsGive, OrderGives};
ghost use Rattle.ofit_input.specs.Stops.{Stops};

use crate::fetch::fetch;
use crate::refusal::Which;
use crate::stop::Stop;
use ofit_outside::Folder;
use ofit_study::Study;
use ofit_table::{read_pairs, shape_pairs};
use ofit_words::OrderChoice;
use std::alloc::Global;

/// The study with the pairs of the order file of this name.
fn filed_study<F: Folder>(
    alloc: Global,
    folder: &mut F,
    name: &str,
    study: &Study,
) -> Result<Study, Stop>
    ensures study { IfOk result (λ after. PairsGive (F.held folder.old) name.now study.now (Ok after)) }
    ensures stops { IfErr result (λ stop. Stops (F.faults folder.old) (F.faults folder.new) (λ refusal. PairsGive (F.held folder.old) name.now study.now (Err refusal)) stop) }
    ensures stays { OnOk result (F.faults folder.new ≡ F.faults folder.old) }
    ensures held { F.held folder.new ≡ F.held folder.old }
{
    let bytes = fetch(alloc, folder, name, Which::Pairs)?;
    let after = read_pairs(alloc, bytes.as_slice(), study)?;
    Ok(after)
}

/// The study with the pairs of its order.
pub(crate) fn ordered_study<F: Folder>(
    alloc: Global,
    folder: &mut F,
    order: &OrderChoice,
    study: &Study,
) -> Result<Study, Stop>
    ensures study { IfOk result (λ after. OrderGives (F.held folder.old) order.now study.now (Ok after)) }
    ensures stops { IfErr result (λ stop. Stops (F.faults folder.old) (F.faults folder.new) (λ refusal. OrderGives (F.held folder.old) order.now study.now (Err refusal)) stop) }
    ensures stays { OnOk result (F.faults folder.new ≡ F.faults folder.old) }
    ensures held { F.held folder.new ≡ F.held folder.old }
{
    match order {
        OrderChoice::Shaped(pattern) => {
            let after = shape_pairs(alloc, pattern, study)?;
            Ok(after)
        }
        OrderChoice::File(name) => filed_study(alloc, folder, name.as_str(), study),
    }
}
