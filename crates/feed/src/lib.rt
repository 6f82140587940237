// A feed of columns: a map is given four columns at a time, and each column is judged when two more have come.
#![tactic(auto)]

ghost use Rattle.std.specs.Prelude.{Ok, Err, ◌≡◌, cond, ◌≤◌, ◌<◌, length};
ghost use Rattle.tables.specs.declared.Refusal.TheVariants.{Room};
ghost use Rattle.tables.specs.Refusal.{first_of};
ghost use Rattle.samples.specs.Four.{four_of};
ghost use Rattle.ring.specs.Lent.{Lent};
ghost use Rattle.feed.specs.Feed.{ring_check, start_checks, opened, start_of, past, after, next, output_of, column_of};

use grid::Levels;
use ring::State;
use ring::column::Column;
use tables::{Refusal, Set, Thresholds};

// Why a feed was not begun; and in its state's place that of no rows and no cols, which takes no column.
#[derive(Clone, Copy)]
pub struct Unstarted {
    pub why: Refusal,
    pub state: State,
}

// A slice of the ring is shorter than five columns.
fn ring_off(rows: usize, n0: usize, n1: usize, n2: usize, n3: usize) -> bool
    requires { rows ≤ 4096 }
    ensures { result ≡ (ring_check rows n0 n1 n2 n3).holds }
{
    (n0 < 5 * rows) | ((n1 < 5 * rows) | ((n2 < 5 * rows) | (n3 < 5 * rows)))
}

// Of start's checks, in their order, the first that holds.
fn checked(
    set: Set,
    thresholds: Thresholds,
    rows: usize,
    cols: usize,
    octave: usize,
    n0: usize,
    n1: usize,
    n2: usize,
    n3: usize,
) -> Result<(), Refusal>
    ensures { result ≡ first_of (start_checks set thresholds rows cols octave n0 n1 n2 n3) }
{
    let high = checks::octave_off(octave);
    let lost = tables::has_nan(thresholds);
    let good = tables::is_good(set);
    if checks::sides_off(rows, cols) {
        return Err(Refusal::Size);
    }
    let short = ring_off(rows, n0, n1, n2, n3);
    if high {
        return Err(Refusal::Octave);
    }
    if lost {
        return Err(Refusal::Thresholds);
    }
    if !good {
        return Err(Refusal::BadSet);
    }
    if short {
        return Err(Refusal::Room);
    }
    Ok(())
}

// The state before the first column.
fn open(set: Set, thresholds: Thresholds, rows: usize, cols: usize, octave: u8) -> State
    ensures { result ≡ opened set thresholds rows cols octave }
{
    State {
        set,
        thresholds,
        rows,
        cols,
        octave,
        position: 0,
    }
}

// Begins a feed of cols columns of rows floats. It writes nothing: the four slices of the ring are only measured. Beside a refusal stands a state that takes no
// column.
pub fn feed_start<'a>(
    set: Set,
    thresholds: Thresholds,
    rows: usize,
    cols: usize,
    octave: usize,
    r0: &'a [f32],
    r1: &'a [f32],
    r2: &'a [f32],
    r3: &'a [f32],
) -> Result<State, Unstarted>
    ensures { result ≡ start_of set thresholds rows cols octave (length r0.now) (length r1.now) (length r2.now) (length r3.now) }
{
    let check = checked(
        set,
        thresholds,
        rows,
        cols,
        octave,
        r0.len(),
        r1.len(),
        r2.len(),
        r3.len(),
    );
    match check {
        Err(why) => Err(Unstarted {
            why,
            state: open(set, thresholds, 0, 0, 0),
        }),
        Ok(()) => Ok(open(set, thresholds, rows, cols, octave as u8)),
    }
}

// All columns have come.
fn is_past(s: State) -> bool
    ensures { result ≡ past s }
{
    (4096 < s.rows) | ((4096 < s.cols) | (s.cols <= s.position))
}

// The state after a column: one more has come where it was taken.
fn advance(taken: bool, s: &mut State)
    requires { s.old.position < 4096 }
    ensures { s.new ≡ cond taken (next s.old) s.old }
{
    if taken {
        s.position += 1;
    }
}

// What a column is answered once all checks but that of its records have passed.
fn answer_of(taken: bool, count: usize) -> Result<usize, Refusal>
    ensures { result ≡ cond taken (Ok count) (Err Room) }
{
    if taken {
        return Ok(count);
    }
    Err(Refusal::Room)
}

// A column that passed the checks but the last is taken where its records fit. It is judged before anything is written.
fn taken<'a>(
    s: &mut State,
    c0: &'a [f32],
    c1: &'a [f32],
    c2: &'a [f32],
    c3: &'a [f32],
    r0: &mut [f32],
    r1: &mut [f32],
    r2: &mut [f32],
    r3: &mut [f32],
    out: &mut [u8],
) -> Result<usize, Refusal>
    requires lent { Lent s.old.rows (four_of r0.old r1.old r2.old r3.old) (four_of c0.now c1.now c2.now c3.now) }
    requires cols_bound { (s.old.cols ≤ 4096) × (s.old.position < s.old.cols) }
    ensures { after result s.new (four_of r0.new r1.new r2.new r3.new) out.new
        ≡ output_of s.old (four_of c0.now c1.now c2.now c3.now)
        (four_of r0.old r1.old r2.old r3.old) out.old }
{
    let before = *s;
    let n = spots::height(before);
    let mut marks = [0u8; 4096];
    let column = Column {
        state: before,
        ring: Levels {
            l0: r0,
            l1: r1,
            l2: r2,
            l3: r3,
        },
        given: Levels {
            l0: c0,
            l1: c1,
            l2: c2,
            l3: c3,
        },
    };
    rule::mark_column(&column, n, &mut marks);
    let fits = spots::is_roomy(&column, n, &marks, out.len());
    let m = spots::lay_spots(fits, &column, n, &marks, out);
    let slot = before.position % 5 * before.rows;
    ring::store(fits, r0, slot, c0);
    ring::store(fits, r1, slot, c1);
    ring::store(fits, r2, slot, c2);
    ring::store(fits, r3, slot, c3);
    advance(fits, s);
    answer_of(fits, m)
}

// Gives the next column of each level, and moves the state on. Column c is judged when c + 2 has come; a column that is not taken changes nothing, and may be given again.
pub fn feed_column<'a>(
    s: &mut State,
    c0: &'a [f32],
    c1: &'a [f32],
    c2: &'a [f32],
    c3: &'a [f32],
    r0: &mut [f32],
    r1: &mut [f32],
    r2: &mut [f32],
    r3: &mut [f32],
    out: &mut [u8],
) -> Result<usize, Refusal>
    ensures { after result s.new (four_of r0.new r1.new r2.new r3.new) out.new
        ≡ column_of s.old (four_of c0.now c1.now c2.now c3.now)
        (four_of r0.old r1.old r2.old r3.old) out.old }
{
    let past = is_past(*s);
    let wrong = checks::levels_off(c0.len(), c1.len(), c2.len(), c3.len(), s.rows);
    if past {
        return Err(Refusal::Past);
    }
    if wrong {
        return Err(Refusal::Level);
    }
    if ring_off(s.rows, r0.len(), r1.len(), r2.len(), r3.len()) {
        return Err(Refusal::Room);
    }
    taken(s, c0, c1, c2, c3, r0, r1, r2, r3, out)
}
