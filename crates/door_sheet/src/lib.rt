// The sheet: each record of a lent list is copied out, advanced by value and stored back, in list order. All that decides anything about a
// record stands in crate door_record.
#![tactic(auto)]

ghost use Rattle.base_answers.specs.Faults.{no_of};
ghost use Rattle.door_sheet.specs.Sheet.{Sheet};

use base_answers::Fault;
use door_record::advance;
use walk_record::{WalkRecord, beyond};

// At most `budget` steps from each record, or 14 with nothing changed. What a record is refused with stands in its state.
pub fn sheet(records: &mut [WalkRecord], budget: u64) -> Result<(), Fault>
    ensures { Sheet records.old budget (no_of result) records.new }
{
    if beyond(records.len(), budget) {
        return Err(Fault::OutOfRule);
    }
    for r in records.iter_mut() {
        *r = advance(*r, budget);
    }
    Ok(())
}
