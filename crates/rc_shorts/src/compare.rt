//! Few shapes, each compared with each.

ghost use Rattle.std.specs.Prelude.{◌≡◌, IsTrue};
ghost use Rattle.rc_shorts.specs.Search.{pair_of, better as better_of, with_earlier as with_earlier_of, with_later as with_later_of, among as among_of, AreByNets};

use crate::order::{leading, may_lead};
use crate::shape::{Pair, Shape, are_short};

/// The pair that leads, once these two shapes are looked at.
fn better(best: Option<Pair>, earlier: &Shape, later: &Shape) -> Option<Pair>
    ensures { result ≡ better_of best (pair_of earlier.now later.now) }
{
    if !are_short(earlier, later) {
        return best;
    }
    leading(
        best,
        Pair {
            earlier: *earlier,
            later: *later,
        },
    )
}

/// Whether the nets of the shapes never fall.
pub fn is_by_nets(shapes: &[Shape]) -> bool
    ensures { IsTrue result → AreByNets shapes.now }
{
    let mut last = 0;
    for shape in shapes {
        if shape.net < last {
            return false;
        }
        last = shape.net;
    }
    true
}

/// The pair that leads, once this shape is looked at with each of these before it. Where the shapes stand by nets, none from its
/// own net on is looked at.
fn with_earlier(shapes: &[Shape], by_nets: bool, later: &Shape, best: Option<Pair>) -> Option<Pair>
    requires { IsTrue by_nets → AreByNets shapes.now }
    ensures { result ≡ with_earlier_of shapes.now later.now best }
{
    let mut leader = best;
    for earlier in shapes {
        if by_nets && later.net <= earlier.net {
            return leader;
        }
        leader = better(leader, earlier, later);
    }
    leader
}

/// The same, with nothing done for a shape that is behind the pair that leads.
fn with_later(shapes: &[Shape], by_nets: bool, later: &Shape, best: Option<Pair>) -> Option<Pair>
    requires { IsTrue by_nets → AreByNets shapes.now }
    ensures { result ≡ with_later_of shapes.now best later.now }
{
    if !may_lead(&best, later) {
        return best;
    }
    with_earlier(shapes, by_nets, later, best)
}

/// The pair that leads, once each of these shapes is looked at with each.
pub fn among(shapes: &[Shape], best: Option<Pair>) -> Option<Pair>
    ensures { result ≡ among_of shapes.now best }
{
    let by_nets = is_by_nets(shapes);
    let mut leader = best;
    for later in shapes {
        leader = with_later(shapes, by_nets, later, leader);
    }
    leader
}
