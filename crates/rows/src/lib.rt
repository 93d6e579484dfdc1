// The rows of an inlined drawing, which are the vertices of its one problem in order: each row tells the next.
#![tactic(auto)]

ghost use Rattle.std.specs.Prelude.{◌≡◌, ◌-◌};
ghost use Rattle.model.specs.Drawings.{called_by};
ghost use Rattle.model.specs.Inlining.{after};
ghost use Rattle.drawings.specs.Facts.{DrawingFacts};
ghost use Rattle.rows.specs.Fit.{RowsMade};
ghost use Rattle.rows.specs.Next.{Followed};

use model::{Drawing, Row, drawn, places};

// One row more than a problem may have vertices: it tells that there are too many.
pub const ROOM: usize = places::MOST_VERTICES + 1;

// The rows are the first `count`.
#[derive(Clone, Copy)]
pub struct Rows {
    pub count: usize,
    pub rows: [Row; ROOM],
}

// The number before n, and 0 before 0. The row of a copy's call vertex is the one before its first; function 0's copy has none.
pub fn one_before(n: usize) -> usize
    ensures { result ≡ n - 1 }
{
    n.saturating_sub(1)
}

// The row after row i, which is `r`, in a copy that was called at `caller`.
fn row_after(d: &Drawing, r: Row, caller: Row, i: usize) -> Option<Row>
    requires { Followed r caller i }
    ensures { result ≡ after d.now (called_by d.now r.function r.vertex) r caller i }
{
    let f = r.function;
    let v = r.vertex;
    let callee = drawings::callee_at(d, f, v);
    if callee != drawn::NONE {
        let begin = i + 1;
        let first = Row {
            function: callee,
            vertex: 0,
            first: begin,
        };
        return Some(first);
    }
    let onward = v + 1;
    if onward < drawings::vertex_count(d, f) {
        let next = Row {
            vertex: onward,
            ..r
        };
        return Some(next);
    }
    if r.first == 0 {
        return None;
    }
    let behind = caller.vertex + 1;
    let back = Row {
        vertex: behind,
        ..caller
    };
    Some(back)
}

// All rows, or one more than a problem may have vertices.
pub fn rows_of(d: &Drawing) -> Rows
    requires { DrawingFacts d.now }
    ensures { RowsMade d.now result.rows result.count }
{
    let start = Row {
        function: 0,
        vertex: 0,
        first: 0,
    };
    let mut rows = [start; ROOM];
    for last in 0..places::MOST_VERTICES {
        let r = rows[last];
        let caller = rows[one_before(r.first)];
        let next = row_after(d, r, caller, last);
        let Some(more) = next else {
            return Rows {
                count: last + 1,
                rows,
            };
        };
        rows[last + 1] = more;
    }
    Rows { count: ROOM, rows }
}
