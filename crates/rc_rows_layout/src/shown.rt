//! What a layout looks like.

use crate::given::{Outcome, discard};
use rc_keys::{Fault, Refusal};
use rc_layout::{Comp, Conn, Item, ItemKind, Layout, Net};
use rc_shorts::{Short, first_short};
use std::str;

/// Prints what a refusal says.
pub fn refused<R: Print>(rt: &R, fault: Fault) -> anyhow::Result<()> {
    match fault {
        Fault::Refused(Refusal::At { code, line }) => Ok(println!(rt; "{code:?} {line}")?),
        Fault::Refused(Refusal::Limit { what }) => Ok(println!(rt; "E14 {}", what.name())?),
        Fault::Refused(_) => Ok(println!(rt; "another refusal")?),
        Fault::NoMemory => Ok(println!(rt; "no memory")?),
    }
}

/// A name as it is printed.
fn printed(name: &[u8]) -> &str {
    match str::from_utf8(name) {
        Ok(name) => name,
        Err(_) => "?",
    }
}

/// A connection.
fn show_conn<R: Print>(rt: &R, conn: Conn) -> anyhow::Result<()> {
    match conn {
        Conn::Pin { comp, pin } => Ok(println!(rt; "  pin {pin} of {comp}")?),
        Conn::Port { port } => Ok(println!(rt; "  port {port}")?),
    }
}

/// An item.
fn show_item<R: Print>(rt: &R, item: Item) -> anyhow::Result<()> {
    let Item {
        kind,
        layer,
        rect,
        a,
        b,
        width,
    } = item;
    let word = match kind {
        ItemKind::Piece => "piece",
        ItemKind::Pad => "pad",
        ItemKind::Patch => "patch",
    };
    println!(rt;
        "  {word} {layer} {} {} {} {} from {} {} to {} {} width {width}",
        rect.x0, rect.y0, rect.x1, rect.y1, a.x, a.y, b.x, b.y
    )?;
    Ok(())
}

/// A net with all that it has.
fn show_net<R: Print>(rt: &R, word: &str, net: &Net) -> anyhow::Result<()> {
    println!(rt; "{word} {} line {}", printed(net.name.bytes()), net.line)?;
    for conn in net.conns.items() {
        show_conn(rt, *conn)?;
    }
    for point in net.points.items() {
        println!(rt; "  point {} {} {}", point.0, point.1.x, point.1.y)?;
    }
    for via in net.vias.items() {
        println!(rt; "  via {} {} {}", via.0, via.1.x, via.1.y)?;
    }
    for item in net.items.items() {
        show_item(rt, *item)?;
    }
    Ok(())
}

/// A component.
fn show_comp<R: Print>(rt: &R, comp: &Comp) -> anyhow::Result<()> {
    let name = printed(comp.name.bytes());
    match comp.at {
        Some((at, orient)) => Ok(println!(rt;
            "comp {name} {} at {} {} {orient:?}",
            comp.cell, at.x, at.y
        )?),
        None => Ok(println!(rt; "comp {name} {}", comp.cell)?),
    }
}

/// A short.
pub fn show_short<R: Print>(rt: &R, word: &str, short: Short) -> anyhow::Result<()> {
    println!(rt;
        "{word} {} {} on {} at {} {}",
        short.first, short.second, short.layer, short.at.x, short.at.y
    )?;
    Ok(())
}

/// The first short of a layout, where it has one.
fn show_first_short<R: Print + AllocGlobal>(rt: &R, layout: &Layout) -> anyhow::Result<()> {
    match first_short(rt.alloc(), layout)? {
        Some(short) => show_short(rt, "short", short),
        None => Ok(()),
    }
}

/// A layout: how many items it has, its first short, its placed components and die pins, its nets and its grounded nets.
pub fn show<R: Print + AllocGlobal>(rt: &R, layout: &Layout) -> anyhow::Result<()> {
    println!(rt; "layout {}", layout.shapes())?;
    show_first_short(rt, layout)?;
    for port in layout.ports() {
        println!(rt; "port {} {:?}", printed(port.name.bytes()), port.dir)?;
        for rect in port.rects.items() {
            println!(rt;
                "  {} {} {} {} {}",
                rect.0, rect.1.x0, rect.1.y0, rect.1.x1, rect.1.y1
            )?;
        }
    }
    for comp in layout.comps() {
        show_comp(rt, comp)?;
    }
    for net in layout.nets() {
        show_net(rt, "net", net)?;
    }
    for net in layout.grounded() {
        show_net(rt, "grounded", net)?;
    }
    Ok(())
}

/// What linking comes to.
pub fn tell<R: Print + AllocGlobal>(rt: &R, linked: Outcome) -> anyhow::Result<()> {
    match linked {
        Outcome::Layout(layout) => {
            let told = show(rt, &layout);
            discard(layout);
            told
        }
        Outcome::Fault(fault) => refused(rt, fault),
    }
}
