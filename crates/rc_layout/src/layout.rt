//! The linked layout.

ghost use Rattle.std.specs.Prelude.{◌≡◌, ◌+◌, ◌<◌, ◌≤◌, ◌^◌, All, IfOk, Ok, Err, Some, MatchOption, MatchResult, length, slice_get, slice_set};
ghost use Rattle.rc_wire.specs.Forms.{IsRegular};
ghost use Rattle.rc_layout.specs.Facts.{IsCandidate, IsLayout};
ghost use Rattle.rc_layout.specs.Limits.{IsCountWithin};
ghost use Rattle.rc_layout.specs.Layouts.{Wired, shape_count, net_with, with_put, within_limits as within_limits_of};
ghost use Rattle.rc_layout.specs.Ranges.{IsParts};
ghost use Rattle.rc_layout.specs.Refusals.{Links};
ghost use Rattle.rc_layout.specs.declared.net.Net.{Net};

use crate::edit::draw_anew;
use crate::given::discard;
use crate::net::Net;
use crate::parts::Parts;
use crate::wired::Wired;
use rc_fixed::List;
use rc_keys::{Fault, Quantity, Refusal};
use rc_wire::RawPath;
use std::alloc::Global;
use std::marker::Model;

/// How many nets a layout has at most, and how many components and die pins.
const MOST_NETS: usize = 1_048_576;

/// How many items all nets of a layout have at most.
const MOST_SHAPES: u64 = 4_194_304;

/// A linked layout. Contracts see what its nets may name, its nets, and its grounded nets.
///
/// It keeps how many items all nets have.
#[derive(Drop)]
pub struct Layout {
    wired: Wired,
    shapes: u64,
}

impl Model for Layout {
    ghost use Rattle.std.specs.Prelude.{◌≡◌, ◌+◌};
    ghost use Rattle.rc_layout.specs.Facts.{IsLayout};
    ghost use Rattle.rc_layout.specs.Layouts.{Wired, shape_count};

    ghost Value = { Wired };

    ghost view = { λ layout. layout.wired };

    ghost invariant = { λ layout. IsLayout layout.wired × (layout.shapes ≡ shape_count layout.wired.nets + shape_count layout.wired.grounded) };
}

/// Puts a net in the place of another, and answers how many items that one had.
fn exchange(nets: &mut List<Net>, at: usize, new: Net) -> usize
    requires { at < length nets.old }
    ensures list { nets.new ≡ slice_set nets.old at new }
    ensures had { result ≤ shape_count nets.old }
    ensures count { shape_count nets.new + result ≡ shape_count nets.old + length new.items }
{
    let old = nets.swap(at, new);
    old.items.len()
}

/// The net of that number.
fn net_at(nets: &[Net], at: usize) -> &Net
    requires { at < length nets.now }
    ensures at { slice_get nets.now at ≡ Some result.now }
    ensures had { length result.now.items ≤ shape_count nets.now }
{
    &nets[at]
}

/// How many items nets have, where they have at most so many. None comes exactly where they have more.
fn counted(nets: &[Net], most: u64) -> Option<u64>
    ensures { MatchOption result (most < shape_count nets.now) (λ count. (count ≡ shape_count nets.now) × (count ≤ most)) }
{
    let mut count = 0;
    for net in nets {
        let more = net.items.len() as u64;
        if more > most - count {
            return None;
        }
        count += more;
    }
    Some(count)
}

/// How many items nets and grounded nets have, within the limit.
fn counted_all(nets: &[Net], grounded: &[Net]) -> Option<u64>
    ensures { MatchOption result (2 ^ 22 < shape_count nets.now + shape_count grounded.now) (λ count. (count ≡ shape_count nets.now + shape_count grounded.now) × (count ≤ 2 ^ 22)) }
{
    let Some(count) = counted(nets, MOST_SHAPES) else {
        return None;
    };
    match counted(grounded, MOST_SHAPES - count) {
        Some(more) => Some(count + more),
        None => None,
    }
}

/// The refusal of a limit.
fn above(what: Quantity) -> Refusal
    ensures { result ≡ Refusal.Limit what }
{
    Refusal::Limit { what }
}

/// How many items all nets have, where they keep the limits; or the first limit of Nets, Comps, Pins and Shapes that they don't
/// keep.
#[tactic(auto, unfolding(crate::specs::Layouts::within_limits))]
fn counted_within(wired: &Wired) -> Result<u64, Refusal>
    ensures { MatchResult result (IsCountWithin wired.now) (λ refusal. within_limits_of wired.now ≡ Err refusal) }
{
    let nets = wired.nets.len();
    if nets > MOST_NETS || wired.grounded.len() > MOST_NETS - nets {
        return Err(above(Quantity::Nets));
    }
    if wired.parts.comps.len() > MOST_NETS {
        return Err(above(Quantity::Comps));
    }
    if wired.parts.ports.len() > MOST_NETS {
        return Err(above(Quantity::Pins));
    }
    match counted_all(wired.nets.items(), wired.grounded.items()) {
        Some(shapes) => Ok(shapes),
        None => Err(above(Quantity::Shapes)),
    }
}

impl Layout {
    /// The layout of these nets, where they keep the limits.
    ///
    /// # Errors
    ///
    /// The first limit of Nets, Comps, Pins and Shapes that they don't keep.
    pub(crate) fn within_limits(wired: Wired) -> Result<Layout, Refusal>
        requires { (after : Wired) → within_limits_of wired ≡ Ok after → IsLayout after }
        ensures { result ≡ within_limits_of wired }
    {
        match counted_within(&wired) {
            Ok(shapes) => Ok(Layout { wired, shapes }),
            Err(refusal) => {
                discard(wired);
                Err(refusal)
            }
        }
    }

    /// What holds of every layout. Nothing is computed here.
    pub fn facts(&self)
        ensures { IsLayout self.now }
    {
        let _shapes = self.shapes;
    }

    /// What the nets may name.
    pub fn parts(&self) -> &Parts
        ensures is { result.now ≡ self.now.parts }
        ensures range { IsParts self.now.parts }
    {
        &self.wired.parts
    }

    /// The nets that aren't grounded.
    pub fn nets(&self) -> &[Net]
        ensures { result.now ≡ self.now.nets }
    {
        self.wired.nets.items()
    }

    /// The grounded nets.
    pub fn grounded(&self) -> &[Net]
        ensures { result.now ≡ self.now.grounded }
    {
        self.wired.grounded.items()
    }

    /// How many items all nets have.
    pub fn shapes(&self) -> u64
        ensures is { result ≡ shape_count self.now.nets + shape_count self.now.grounded }
        ensures few { result ≤ 2 ^ 22 }
    {
        self.shapes
    }

    /// Sets one net, and nothing else. It takes no memory.
    pub fn put(&mut self, net: u32, new: Net)
        requires net { net < length self.old.nets }
        requires fits { (old : Net) → slice_get self.old.nets net ≡ Some old → IsCandidate self.old old new }
        ensures { self.new ≡ with_put self.old net new }
    {
        let more = new.items.len() as u64;
        let fewer = exchange(&mut self.wired.nets, net as usize, new) as u64;
        self.shapes = self.shapes - fewer + more;
    }

    /// The net of that number with other paths, and all else as it is.
    ///
    /// # Errors
    ///
    /// The first refusal of the paths, or of the limit of shapes for the layout with that net.
    pub fn with_net(&self, alloc: Global, net: u32, paths: &[RawPath]) -> Result<Net, Fault>
        requires net { net < length self.now.nets }
        requires paths { All IsRegular paths.now }
        ensures is { (old : Net) → slice_get self.now.nets net ≡ Some old → Links result (net_with self.now old paths.now) }
        ensures fits { (old : Net) → slice_get self.now.nets net ≡ Some old → IfOk result (IsCandidate self.now old) }
    {
        let old = net_at(self.wired.nets.items(), net as usize);
        draw_anew(alloc, &self.wired.parts, self.shapes, old, paths)
    }
}
