//! A net that is given other paths.

ghost use Rattle.std.specs.Prelude.{◌≡◌, ◌<◌, All, Some, length, slice_get};
ghost use Rattle.rc_def.specs.Forms.{IsRawDesign};
ghost use Rattle.rc_layout.specs.Facts.{IsCandidate};
ghost use Rattle.rc_layout.specs.declared.net.Net.{Net};
ghost use Rattle.rc_wire.specs.Forms.{IsRegular};

use crate::given::{Outcome, design, discard, link_text};
use crate::shown::{refused, show, show_short, tell};
use anyhow::bail;
use rc_def::RawDesign;
use rc_fixed::NoMemory;
use rc_layout::{Layout, Net};
use rc_shorts::{Short, first_short, short_with};
use rc_wire::RawPath;
use std::alloc::Global;

/// The first short that a layout without shorts has with a net exchanged; none where it has shorts before.
fn new_short(alloc: Global, layout: &Layout, net: u32, new: &Net) -> Result<Option<Short>, NoMemory>
    requires net { net < length layout.now.nets }
    requires fits { (old : Net) → slice_get layout.now.nets net ≡ Some old → IsCandidate layout.now old new.now }
{
    match first_short(alloc, layout)? {
        None => short_with(alloc, layout, net, new),
        Some(_) => Ok(None),
    }
}

/// Prints a short that an edit makes, where it makes one.
fn show_new_short<R: Print>(rt: &R, short: Option<Short>) -> anyhow::Result<()> {
    match short {
        Some(short) => show_short(rt, "short with it", short),
        None => Ok(()),
    }
}

/// Puts a net in the place of another, and prints the first short that there is with it, and the layout then.
fn exchanged<R: Print + AllocGlobal>(
    rt: &R,
    layout: &mut Layout,
    net: u32,
    new: Net,
) -> anyhow::Result<()>
    requires net { net < length layout.old.nets }
    requires fits { (old : Net) → slice_get layout.old.nets net ≡ Some old → IsCandidate layout.old old new }
{
    match new_short(rt.alloc(), layout, net, &new) {
        Ok(short) => {
            layout.put(net, new);
            show_new_short(rt, short)?;
            show(rt, layout)
        }
        Err(_) => {
            discard(new);
            bail!("no memory")
        }
    }
}

/// Gives a net other paths, and prints the layout then, or what they are refused as.
fn rerouted<R: Print + AllocGlobal>(
    rt: &R,
    layout: &mut Layout,
    net: u32,
    paths: &[RawPath],
) -> anyhow::Result<()>
    requires net { net < length layout.old.nets }
    requires paths { All IsRegular paths.now }
{
    match layout.with_net(rt.alloc(), net, paths) {
        Ok(new) => exchanged(rt, layout, net, new),
        Err(fault) => refused(rt, fault),
    }
}

/// Gives a net the paths of the first net of another design.
fn follows<R: Print + AllocGlobal>(
    rt: &R,
    layout: &mut Layout,
    net: u32,
    other: &RawDesign,
) -> anyhow::Result<()>
    requires { IsRawDesign other.now }
{
    if net as usize >= layout.nets().len() {
        bail!("there is no such net");
    }
    match other.nets.items() {
        [first, ..] => rerouted(rt, layout, net, first.paths.items()),
        [] => bail!("there are no paths"),
    }
}

/// Gives a net the paths of the first net of a DEF text.
fn follows_text<R: Print + AllocGlobal>(
    rt: &R,
    layout: &mut Layout,
    net: u32,
    text: &str,
) -> anyhow::Result<()> {
    match design(rt.alloc(), text) {
        Ok(other) => {
            let told = follows(rt, layout, net, &other);
            discard(other);
            told
        }
        Err(error) => Err(error),
    }
}

/// Gives a net of what was linked the paths of the first net of a DEF text.
fn edit_linked<R: Print + AllocGlobal>(
    rt: &R,
    linked: Outcome,
    net: u32,
    text: &str,
) -> anyhow::Result<()> {
    match linked {
        Outcome::Layout(mut layout) => {
            let told = follows_text(rt, &mut layout, net, text);
            discard(layout);
            told
        }
        Outcome::Fault(fault) => tell(rt, Outcome::Fault(fault)),
    }
}

/// Prints what a row's edit comes to.
pub fn edited<R: Print + AllocGlobal>(rt: &R, edit: &str) -> anyhow::Result<()> {
    let Some((net, others)) = edit.split_once(' ') else {
        bail!("no net");
    };
    let Some((word, texts)) = others.split_once(' ') else {
        bail!("no technology");
    };
    let Some((text, other)) = texts.split_once('~') else {
        bail!("no second design");
    };
    let net: u32 = net.parse()?;
    edit_linked(rt, link_text(rt.alloc(), word, text)?, net, other)
}
