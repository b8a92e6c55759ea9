// The active visits in their flat form, place by place: the visit and whether an undo row bears it; the first `count` are in use.
ghost use Rattle.std.specs.Prelude.{◌≡◌, length, slice_index_or, slice_set};
ghost use Rattle.tables_model.specs.Visits.{tables_in, Placed, Listed, MayBegin, Without};
ghost use Rattle.tables_model.specs.Visits.{is_listed, with_begun, with_undo, with_ended};
ghost use Rattle.tables_model.specs.Rows.{may_act};
ghost use Rattle.tables_model.specs.Meaning.{vacant};
ghost use Rattle.tables_model.specs.Layout.{actives};

use crate::layout::{BEARS, PLACE_WIDTH, VISIT};
use rows::Visit;
use tables_model::{Active, Counts};

// Place i. Whatever is not 0 counts as bearing.
#[tactic(auto, using(crate::proofs::Places::places_read))]
pub fn active_at(visits: &[u16], i: usize) -> Active
    requires { Placed (length visits.now) i }
    ensures { result ≡ slice_index_or (actives visits.now) i vacant }
{
    let at = PLACE_WIDTH * i;
    Active {
        visit: Visit(visits[at + VISIT]),
        bears: visits[at + BEARS] != 0,
    }
}

// Place i is set.
pub fn put_active(visits: &mut [u16], i: usize, a: Active)
    requires { Placed (length visits.old) i }
    ensures { actives visits.new ≡ slice_set (actives visits.old) i a }
{
    let at = PLACE_WIDTH * i;
    visits[at + VISIT] = a.visit.0;
    visits[at + BEARS] = u16::from(a.bears);
}

// The visit is listed as active.
#[tactic(auto, unfolding(tables_model::specs::Visits::is_listed), using(crate::proofs::Places::places_read, crate::proofs::Loops::looking))]
pub fn is_listed(t: Counts, visits: &[u16], v: Visit) -> bool
    requires { Listed (length visits.now) t.count }
    ensures { result ≡ is_listed (tables_in t visits.now) v.0 }
{
    for i in 0..t.count as u32 {
        if active_at(visits, i as usize).visit == v {
            return true;
        }
    }
    false
}

// The visit is listed, and no undo row bears it. All places are looked at, since a table of any origin may list a visit twice.
#[tactic(auto, unfolding(tables_model::specs::Visits::is_listed, tables_model::specs::Visits::is_bearing), using(crate::proofs::Places::places_read, crate::proofs::Loops::looking))]
pub fn may_act(t: Counts, visits: &[u16], v: Visit) -> bool
    requires { Listed (length visits.now) t.count }
    ensures { result ≡ may_act (tables_in t visits.now) v.0 }
{
    let mut seen = false;
    for i in 0..t.count as u32 {
        let a = active_at(visits, i as usize);
        if a.visit == v {
            if a.bears {
                return false;
            }
            seen = true;
        }
    }
    seen
}

// A begin row: the visit is put behind the last.
#[tactic(auto, unfolding(tables_model::specs::Visits::with_begun))]
pub fn with_begun(t: Counts, visits: &mut [u16], v: Visit) -> Counts
    requires { MayBegin t visits.old v.0 }
    ensures { tables_in result visits.new ≡ with_begun (tables_in t visits.old) v.0 }
{
    let a = Active {
        visit: v,
        bears: false,
    };
    put_active(visits, t.count, a);
    Counts {
        begun: t.begun + 1,
        count: t.count + 1,
        ..t
    }
}

// An undo row bears the visit.
#[tactic(auto, unfolding(tables_model::specs::Visits::with_undo))]
pub fn with_undo(t: Counts, visits: &mut [u16], v: Visit)
    requires { Listed (length visits.old) t.count }
    ensures { tables_in t visits.new ≡ with_undo (tables_in t visits.old) v.0 }
{
    for i in 0..t.count as u32 {
        let a = active_at(visits, i as usize);
        if a.visit == v {
            put_active(visits, i as usize, Active { bears: true, ..a });
        }
    }
}

// The visits but v close ranks. Returns how many they are; what stands behind them is not said.
fn close_ranks(t: Counts, visits: &mut [u16], v: Visit) -> usize
    requires { Listed (length visits.old) t.count }
    ensures { Without (tables_in t visits.old) v.0 result (actives visits.new) }
{
    let mut kept: u32 = 0;
    for i in 0..t.count as u32 {
        let a = active_at(visits, i as usize);
        if a.visit != v {
            put_active(visits, kept as usize, a);
            kept += 1;
        }
    }
    kept as usize
}

// A commit or abort row; `used` is what the scope table has left.
#[tactic(auto, unfolding(tables_model::specs::Visits::with_ended), using(crate::proofs::Places::places_cleared))]
pub fn with_ended(t: Counts, visits: &mut [u16], v: Visit, used: usize) -> Counts
    requires { Listed (length visits.old) t.count }
    ensures { tables_in result visits.new ≡ with_ended (tables_in t visits.old) v.0 used }
{
    let kept = close_ranks(t, visits, v);
    visits[PLACE_WIDTH * kept..].fill(0);
    Counts {
        count: kept,
        used,
        ..t
    }
}
