//! The names of an extraction.

ghost use Rattle.std.specs.Prelude.{◌≡◌, ◌<◌, ◌≤◌, ◌+◌, ◌*◌, ◌^◌, ◌++◌, fold, length, map, IfOk, OnOk};
ghost use Rattle.std.specs.List.{flat_map};
ghost use Rattle.rc_layout.specs.declared.net.Conn.{Conn as ConnOf};
ghost use Rattle.rc_engine.specs.Names.{called as called_of, comp_name, escaped_in, first_uses as first_uses_of, names_of, net_name, numbering_of, port_name, with_conn};

use indexmap::IndexSet;
use rc_fixed::{List, NoMemory, Text};
use rc_layout::{Comp, Conn, Layout, Net, Port};
use rc_spef::escape;
use std::alloc::Global;
use std::marker::Model;

/// How many nets a layout has at most, and how many components and die pins.
const MOST: usize = 1 << 20;

/// How the names of an extraction are numbered, from 1: first the nets, then the components that nets connect, by the connection
/// that names them first, and then all die pins. An edit of a net's wiring changes nothing of it.
#[derive(Drop)]
pub struct Naming {
    nets: u32,
    uses: IndexSet<u32>,
}

impl Model for Naming {
    ghost use Rattle.std.specs.Prelude.{◌≤◌, ◌^◌, length};
    ghost use Rattle.rc_engine.specs.Names.{Numbering};

    ghost Value = { Numbering };

    ghost view = { λ naming. record { nets = naming.nets; uses = naming.uses.keys } };

    ghost invariant = { λ naming. (naming.nets ≤ 2 ^ 20) × (length naming.uses.keys ≤ 2 ^ 20) };
}

/// Enters the components of connections that aren't there yet.
fn enter_uses(uses: &mut IndexSet<u32>, conns: &[Conn]) -> Result<(), NoMemory>
    ensures { OnOk result (uses.new.keys ≡ fold with_conn uses.old.keys conns.now) }
{
    for conn in conns {
        match conn {
            Conn::Pin { comp, .. } => {
                uses.insert(*comp)?;
            }
            Conn::Port { .. } => {}
        }
    }
    Ok(())
}

/// The components that nets connect, by first use.
fn first_uses(alloc: Global, nets: &[Net]) -> Result<IndexSet<u32>, NoMemory>
    ensures { IfOk result (λ uses. uses.keys ≡ first_uses_of nets.now) }
{
    let mut uses: IndexSet<u32> = IndexSet::new(alloc);
    for net in nets {
        enter_uses(&mut uses, net.conns.items())?;
    }
    Ok(uses)
}

/// A name, with a backslash before the bytes that aren't letters, digits or the layout's own.
pub fn escaped(alloc: Global, layout: &Layout, name: &[u8]) -> Result<Text, NoMemory>
    ensures { IfOk result (λ text. text ≡ escaped_in layout.now.parts name.now) }
{
    let (left, right) = layout.bus();
    escape(alloc, name, layout.divider(), left, right)
}

/// What a component is called.
fn called(comps: &[Comp], comp: u32) -> &[u8]
    ensures { result.now ≡ called_of comps.now comp }
{
    match comps.get(comp as usize) {
        Some(comp) => comp.name.bytes(),
        None => &[],
    }
}

/// Appends the names of nets.
fn push_nets(
    alloc: Global,
    layout: &Layout,
    names: &mut List<Text>,
    nets: &[Net],
) -> Result<(), NoMemory>
    ensures { OnOk result (names.new ≡ names.old ++ map (λ net. escaped_in layout.now.parts net.name) nets.now) }
{
    for net in nets {
        names.push(escaped(alloc, layout, net.name.bytes())?)?;
    }
    Ok(())
}

/// Appends the names of components, by their numbers.
fn push_comps(
    alloc: Global,
    layout: &Layout,
    names: &mut List<Text>,
    comps: &[u32],
) -> Result<(), NoMemory>
    ensures { OnOk result (names.new ≡ names.old ++ map (λ comp. escaped_in layout.now.parts (called_of layout.now.parts.comps comp)) comps.now) }
{
    for comp in comps {
        names.push(escaped(alloc, layout, called(layout.comps(), *comp))?)?;
    }
    Ok(())
}

/// Appends the names of die pins.
fn push_ports(
    alloc: Global,
    layout: &Layout,
    names: &mut List<Text>,
    ports: &[Port],
) -> Result<(), NoMemory>
    ensures { OnOk result (names.new ≡ names.old ++ map (λ port. escaped_in layout.now.parts port.name) ports.now) }
{
    for port in ports {
        names.push(escaped(alloc, layout, port.name.bytes())?)?;
    }
    Ok(())
}

impl Naming {
    /// The numbers of a layout's names.
    ///
    /// # Errors
    ///
    /// `NoMemory` for want of memory.
    pub fn new(alloc: Global, layout: &Layout) -> Result<Naming, NoMemory>
        ensures { IfOk result (λ naming. naming ≡ numbering_of layout.now) }
    {
        layout.facts();
        let nets = layout.nets();
        let uses = first_uses(alloc, nets)?;
        if uses.as_slice().len() > MOST {
            return Err(NoMemory);
        }
        Ok(Naming {
            nets: nets.len() as u32,
            uses,
        })
    }

    /// The name of a net, by the net's number.
    pub fn net(&self, net: u32) -> u32
        requires { net < 2 ^ 20 }
        ensures { result ≡ net_name net }
    {
        net + 1
    }

    /// The name of a component that a net connects, by the component's number.
    pub fn comp(&self, comp: u32) -> u32
        ensures { result ≡ comp_name self.now comp }
    {
        match self.uses.get_index_of(&comp) {
            Some(place) => self.nets + (place as u32 + 1),
            None => self.nets,
        }
    }

    /// The name of a die pin, by the pin's number.
    pub fn port(&self, port: u32) -> u32
        requires { port < 2 ^ 20 }
        ensures { result ≡ port_name self.now port }
    {
        self.nets + self.uses.as_slice().len() as u32 + port + 1
    }

    /// All names, escaped, in the order of their numbers.
    ///
    /// # Errors
    ///
    /// `NoMemory` for want of memory.
    pub fn names(&self, alloc: Global, layout: &Layout) -> Result<List<Text>, NoMemory>
        requires { self.now ≡ numbering_of layout.now }
        ensures { IfOk result (λ names. names ≡ names_of layout.now) }
    {
        let comps = self.uses.as_slice();
        let count = layout.nets().len() + comps.len() + layout.ports().len();
        let mut names = List::with_capacity(alloc, count)?;
        push_nets(alloc, layout, &mut names, layout.nets())?;
        push_comps(alloc, layout, &mut names, comps)?;
        push_ports(alloc, layout, &mut names, layout.ports())?;
        Ok(names)
    }
}
