// The checks of a call but that of the lengths, in document 01's order, for whatever the arrays hold. Nothing is changed.
ghost use Rattle.std.specs.Prelude.{◌≡◌, ◌&&◌, List, ℕ, ℤ, length};
ghost use Rattle.book.specs.Calls.{Call};
ghost use Rattle.book.specs.Scopes.{Scope};
ghost use Rattle.tables_model.specs.Layout.{flat_length, entries, visits_length};
ghost use Rattle.tables_model.specs.Visits.{tables_in};
ghost use Rattle.state.specs.Answers.{checked};
ghost use Rattle.book.specs.Book.{refused_by};
ghost use Rattle.state.specs.Requests.{call_of};
ghost use Rattle.state.specs.World.{is_open_phase};
ghost use Rattle.calls_model.specs.Perform.{is_coherent, number_by, Flat};

use crate::refuse::{
    refuse_begin, refuse_change, refuse_end, refuse_flush, refuse_hand_over, refuse_read,
};
use journal::Control;
use rows::limits::{ACTIVE_LIMIT, ROW_LIMIT, SCOPE_LIMIT, TAIL_LIMIT};
use rows::{Cell, Visit};
use state::answers::Refusal;
use state::ram::Phase;
use state::requests::Request;
use tables_model::{CellSet, Counts};

// The counters are within their limits.
fn is_coherent(c: Control, t: Counts) -> bool
    ensures { (vs : List ℕ) → result ≡ is_coherent c (tables_in t vs) }
{
    c.waiting <= TAIL_LIMIT
        && c.stored <= ROW_LIMIT - c.waiting
        && t.count <= ACTIVE_LIMIT
        && t.used <= SCOPE_LIMIT
}

// The store is open, and its counters are within their limits.
fn is_ready(c: Control, t: Counts) -> bool
    ensures { (vs : List ℕ) → result ≡ (is_open_phase c.phase && is_coherent c (tables_in t vs)) }
{
    matches!(c.phase, Phase::Open) && is_coherent(c, t)
}

// Each is inlined, as `check` is. It is lent the arrays that its call looks at, and no others.
#[inline(always)]
pub fn check_begin(c: Control, t: Counts, scopes: &[u16]) -> Result<(), Refusal>
    requires { length scopes.now ≡ flat_length }
    ensures { (vs : List ℕ) → checked result ≡ refused_by (number_by c (tables_in t vs) (entries scopes.now) Call.begin) }
{
    if !is_ready(c, t) {
        return Err(Refusal::Closed);
    }
    refuse_begin(t, scopes, c.stored + c.waiting)
}

#[inline(always)]
pub fn check_change(
    c: Control,
    t: Counts,
    visits: &[u16],
    scopes: &[u16],
    v: Visit,
    k: Cell,
) -> Result<(), Refusal>
    requires { Flat (length visits.now) (length scopes.now) }
    ensures { (a : ℤ) → checked result ≡ refused_by (number_by c (tables_in t visits.now) (entries scopes.now) (Call.change v.0 k.0 a)) }
{
    if !is_ready(c, t) {
        return Err(Refusal::Closed);
    }
    refuse_change(t, visits, scopes, c.stored + c.waiting, v, k)
}

#[inline(always)]
pub fn check_hand_over(
    c: Control,
    t: Counts,
    visits: &[u16],
    scopes: &[u16],
    g: Visit,
    r: Visit,
    k: Cell,
) -> Result<(), Refusal>
    requires { Flat (length visits.now) (length scopes.now) }
    ensures { checked result ≡ refused_by (number_by c (tables_in t visits.now) (entries scopes.now) (Call.hand_over g.0 r.0 k.0)) }
{
    if !is_ready(c, t) {
        return Err(Refusal::Closed);
    }
    let one = CellSet::Only(k);
    refuse_hand_over(t, visits, scopes, c.stored + c.waiting, g, r, one)
}

#[inline(always)]
pub fn check_hand_over_all(
    c: Control,
    t: Counts,
    visits: &[u16],
    scopes: &[u16],
    g: Visit,
    r: Visit,
) -> Result<(), Refusal>
    requires { Flat (length visits.now) (length scopes.now) }
    ensures { checked result ≡ refused_by (number_by c (tables_in t visits.now) (entries scopes.now) (Call.hand_over_all g.0 r.0)) }
{
    if !is_ready(c, t) {
        return Err(Refusal::Closed);
    }
    let all = CellSet::Every;
    refuse_hand_over(t, visits, scopes, c.stored + c.waiting, g, r, all)
}

// Commit and abort.
#[inline(always)]
pub fn check_end(c: Control, t: Counts, visits: &[u16], v: Visit) -> Result<(), Refusal>
    requires { length visits.now ≡ visits_length }
    ensures { (scopes : List Scope)
        → (checked result ≡ refused_by (number_by c (tables_in t visits.now) scopes (Call.commit v.0)))
        × (checked result ≡ refused_by (number_by c (tables_in t visits.now) scopes (Call.abort v.0))) }
{
    if !is_ready(c, t) {
        return Err(Refusal::Closed);
    }
    refuse_end(t, visits, v)
}

#[inline(always)]
pub fn check_force(c: Control, t: Counts) -> Result<(), Refusal>
    ensures { (vs : List ℕ) (scopes : List Scope) → checked result ≡ refused_by (number_by c (tables_in t vs) scopes Call.force) }
{
    if !is_ready(c, t) {
        return Err(Refusal::Closed);
    }
    Ok(())
}

#[inline(always)]
pub fn check_flush(c: Control, t: Counts, page: u8) -> Result<(), Refusal>
    ensures { (vs : List ℕ) (scopes : List Scope) → checked result ≡ refused_by (number_by c (tables_in t vs) scopes (Call.flush page)) }
{
    if !is_ready(c, t) {
        return Err(Refusal::Closed);
    }
    refuse_flush(page)
}

#[inline(always)]
pub fn check_read(c: Control, t: Counts, k: Cell) -> Result<(), Refusal>
    ensures { (vs : List ℕ) (scopes : List Scope) → checked result ≡ refused_by (number_by c (tables_in t vs) scopes (Call.read k.0)) }
{
    if !is_ready(c, t) {
        return Err(Refusal::Closed);
    }
    refuse_read(k)
}

// `Ok` where no check refuses the request. It is inlined, so that a caller with one kind of request has the checks of that kind alone.
#[inline(always)]
pub fn check(
    c: Control,
    t: Counts,
    visits: &[u16],
    scopes: &[u16],
    request: Request,
) -> Result<(), Refusal>
    requires { Flat (length visits.now) (length scopes.now) }
    ensures { checked result ≡ refused_by (number_by c (tables_in t visits.now) (entries scopes.now) (call_of request)) }
{
    match request {
        Request::Begin => check_begin(c, t, scopes),
        Request::Change(v, k, _) => check_change(c, t, visits, scopes, v, k),
        Request::HandOver(g, r, k) => check_hand_over(c, t, visits, scopes, g, r, k),
        Request::HandOverAll(g, r) => check_hand_over_all(c, t, visits, scopes, g, r),
        Request::Commit(v) | Request::Abort(v) => check_end(c, t, visits, v),
        Request::Force => check_force(c, t),
        Request::Flush(page) => check_flush(c, t, page),
        Request::Read(k) => check_read(c, t, k),
    }
}
