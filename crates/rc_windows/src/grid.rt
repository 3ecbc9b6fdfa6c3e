//! The grid of windows.

ghost use Rattle.std.specs.Prelude.{◌≡◌, ◌<◌, ◌≤◌, ◌^◌, ◌++◌, pos, All, IfOk, OnOk, IfSome};
ghost use Rattle.std.specs.List.Sorted.{IsStrictlyIncreasing};
ghost use Rattle.rc_geom.specs.Rects.{IsNearRect};
ghost use Rattle.rc_windows.specs.Axes.{IsHalo, IsBounds};
ghost use Rattle.rc_windows.specs.Indexes.{rect_places, most_places};
ghost use Rattle.rc_windows.specs.Frames.{frame_for, window_count, window_rect, touched as touched_of, IsFrame};

use crate::frame::Frame;
use crate::places::rects_are_few;
use rc_fixed::{List, NoMemory};
use rc_geom::Rect;
use rc_sweep::Window;
use std::alloc::Global;
use std::marker::Model;

/// Windows in rows and columns that part all squares. They are numbered row by row from below, each row from the left.
/// Contracts see the two axes and the halo.
#[derive(Debug, Drop)]
pub struct Grid {
    frame: Frame,
}

impl Model for Grid {
    ghost use Rattle.rc_windows.specs.declared.frame.Frame.{Frame};
    ghost use Rattle.rc_windows.specs.Frames.{IsFrame};

    ghost Value = { Frame };

    ghost view = { λ grid. grid.frame };

    ghost invariant = { λ grid. IsFrame grid.frame };
}

impl Grid {
    /// The grid over some bounds, for windows with that halo: their sides are four halos long, or longer where an edge
    /// of the bounds would have more than 1,024 windows. Without bounds there is one window. The outer windows reach to
    /// the end of all coordinates.
    pub fn new(bounds: Option<Rect>, halo: u32) -> Grid
        requires bounds { IfSome bounds IsBounds }
        requires halo { IsHalo halo }
        ensures { result ≡ frame_for bounds halo }
    {
        Grid {
            frame: Frame::new(bounds, halo),
        }
    }

    /// The two axes and the halo.
    pub(crate) fn frame(&self) -> Frame
        ensures is { result ≡ self.now }
        ensures frame { IsFrame result }
        ensures sound { IsFrame self.now }
    {
        self.frame
    }

    /// How many windows there are.
    pub fn count(&self) -> u32
        ensures is { result ≡ window_count self.now }
        ensures some { 1 ≤ result }
        ensures few { result ≤ 2 ^ 20 }
    {
        self.frame.count()
    }

    /// A window by its number.
    pub fn window(&self, k: u32) -> Window
        requires { k < window_count self.now }
        ensures rect { result.rect ≡ window_rect self.now k }
        ensures halo { result.halo ≡ pos self.now.halo }
        ensures near { IsNearRect result.rect }
    {
        Window {
            rect: self.frame.rect(k),
            halo: self.frame.halo as i32,
        }
    }

    /// The windows that share a square with one of the rectangles, or whose halo does, by rising numbers.
    ///
    /// # Errors
    ///
    /// `NoMemory` for want of memory, and, before any is taken, where the old or the new rectangles meet more than 2^27
    /// windows, each counted by itself.
    pub fn touched(&self, alloc: Global, old: &[Rect], new: &[Rect]) -> Result<List<u32>, NoMemory>
        ensures list { IfOk result (λ list. list ≡ touched_of self.now (old.now ++ new.now)) }
        ensures rising { IfOk result IsStrictlyIncreasing }
        ensures range { IfOk result (All (λ k. k < window_count self.now)) }
        ensures few_old { OnOk result (rect_places self.now old.now ≤ most_places) }
        ensures few_new { OnOk result (rect_places self.now new.now ≤ most_places) }
    {
        let frame = self.frame();
        if !rects_are_few(&frame, old) || !rects_are_few(&frame, new) {
            return Err(NoMemory);
        }
        let mut numbers = Vec::new(alloc);
        frame.met_all(old, &mut numbers)?;
        frame.met_all(new, &mut numbers)?;
        numbers.sort_unstable();
        numbers.dedup();
        Ok(List::from_vec(numbers))
    }
}
