// A given list beside the records that are due, one after the other.
#![tactic(auto)]

ghost use Rattle.std.specs.Prelude.{◌≡◌, ◌+◌, ◌≤◌, length, take, drop};
ghost use Rattle.alike.specs.Same.{same};
ghost use Rattle.record.specs.Layout.{spot_width, record_bytes};
ghost use Rattle.follow.specs.Follow.{earlier, meet_of, step_of, is_going, end_of};

use record::{Record, SPOT_WIDTH};
use std::ops::ControlFlow;

// What is found of a list: that it is the one that is due, or the index of the first record that differs, and how.
#[derive(Clone, Copy)]
pub enum Finding {
    Yes,
    Extra(usize),
    Absent(usize),
    Different(usize),
}

// How far a list was followed: so many of its records are those due, or the first difference was found.
pub type Walk = ControlFlow<Finding, usize>;

// Whether r comes before t: by key, at one key by polarity.
fn is_earlier(r: Record, t: Record) -> bool
    ensures { result ≡ earlier r t }
{
    (r.key, r.polarity) < (t.key, t.polarity)
}

// Whether the record's bytes stand in the list from the byte at on.
fn is_record(d: Record, list: &[u8], at: usize) -> bool
    requires { at + spot_width ≤ length list.now }
    ensures { result ≡ same (record_bytes d) (take spot_width (drop at list.now)) }
{
    let mut own = [0u8; SPOT_WIDTH];
    record::put_record(&mut own, 0, d);
    let end = at + SPOT_WIDTH;
    alike::is_same(&own, &list[at..end])
}

// The record d is due where the i-th of the list stands.
fn meet(list: &[u8], i: usize, d: Record) -> Walk
    ensures { result ≡ meet_of list.now i d }
{
    if list.len() / SPOT_WIDTH <= i {
        return ControlFlow::Break(Finding::Absent(i));
    }
    let given = record::record_from(list, i * SPOT_WIDTH);
    if is_earlier(given, d) {
        return ControlFlow::Break(Finding::Extra(i));
    }
    if is_earlier(d, given) {
        return ControlFlow::Break(Finding::Absent(i));
    }
    if is_record(d, list, i * SPOT_WIDTH) {
        return ControlFlow::Continue(i + 1);
    }
    ControlFlow::Break(Finding::Different(i))
}

// One due record more; past the first difference none is looked at.
pub fn step(list: &[u8], w: Walk, d: Record) -> Walk
    ensures { result ≡ step_of list.now w d }
{
    meet(list, w?, d)
}

// Whether no difference was found yet.
pub fn is_going(w: Walk) -> bool
    ensures { result ≡ is_going w }
{
    w.is_continue()
}

// After the last due record anything that is left is extra.
pub fn end(list: &[u8], w: Walk) -> Finding
    ensures { result ≡ end_of list.now w }
{
    match w {
        ControlFlow::Continue(i) => {
            if i < list.len() / SPOT_WIDTH {
                Finding::Extra(i)
            } else {
                Finding::Yes
            }
        }
        ControlFlow::Break(found) => found,
    }
}
