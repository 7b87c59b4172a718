// One walk record, advanced by value: everything about it is decided here, the sheet only goes from record to record. A record's state is a
// number, since C reads it (`WalkRecord` is laid out as C lays it out).
#![tactic(auto)]

ghost use Rattle.std.specs.Prelude.{◌≡◌};
ghost use Rattle.base_answers.specs.Faults.{fault_number};
ghost use Rattle.field_open.specs.Door.{Door};
ghost use Rattle.walk_chain.specs.Told.{told, TenEnds};
ghost use Rattle.walk_chain.specs.Walk.{Walks};
ghost use Rattle.walk_record.specs.Record as R;
ghost use Rattle.door_record.specs.Advance.{After, Advances};

use base_answers::Fault;
use walk_chain::{End, Walked};
use walk_record::{WalkRecord, counted, marked, moved, passed_over, unfit};

// What an unfit record is refused with: the refusal of its field, else 14.
#[tactic(auto, using(walk_record::proofs::States::counted_room))]
fn fault_of_unfit(r: WalkRecord) -> Fault
    ensures { Door r.p (R.list_g r) (R.list_h r) (λ k. fault_number result ≡ k) (fault_number result ≡ 14) }
{
    let i = counted(r.ng);
    let j = counted(r.nh);
    match field_open::refusal(r.p, &r.g[..i], &r.h[..j]) {
        Ok(()) => Fault::OutOfRule,
        Err(k) => k,
    }
}

// The walk from a record's basis.
#[tactic(auto, using(walk_record::proofs::States::counted_room))]
fn walk_from(r: WalkRecord, budget: u64) -> Result<Walked, Fault>
    ensures walks { Walks r.p (R.list_g r) (R.list_h r) budget r.basis (told result) }
    ensures ten { TenEnds result }
{
    let i = counted(r.ng);
    let j = counted(r.nh);
    door_walk::walk(r.p, &r.g[..i], &r.h[..j], r.basis, budget)
}

// The record after the walk w from its basis.
fn after(r: WalkRecord, w: Result<Walked, Fault>) -> WalkRecord
    requires fits { R.MoveAsks r (told w).steps (told w).sum }
    requires ten { TenEnds w }
    ensures { After r (told w) result }
{
    match w {
        Ok(o) => match o.end {
            End::Closed => moved(r, o.basis, o.steps, o.sum, 100),
            End::Spent => moved(r, o.basis, o.steps, o.sum, 0),
        },
        Err(k) => marked(r, u32::from(k)),
    }
}

// At most `budget` steps from a record that is open; a bad one gets its refusal's number into its state.
pub fn advance(r: WalkRecord, budget: u64) -> WalkRecord
    ensures { Advances budget r result }
{
    if passed_over(r.state) {
        return r;
    }
    if unfit(r) {
        let k = fault_of_unfit(r);
        return marked(r, u32::from(k));
    }
    let w = walk_from(r, budget);
    after(r, w)
}
