//! What an item says of the file so far.

ghost use Rattle.std.specs.Prelude.{◌≡◌, [], OnOk, IfOk};
ghost use Rattle.rc_keys.specs.Course.{Turned};
ghost use Rattle.rc_def.specs.Means as means;

use crate::draft::{Draft, LayerWidth, PinDraft, ViaDraft, ViaLayers};
use crate::entry::{RawComp, RawRule};
use crate::item::{DefItem, Section, Stage};
use crate::list::{pairs, put_new, put_rect, rect_of};
use crate::options::first_placement;
use rc_fixed::{List, NoMemory, Text};
use rc_keys::{Table, Turn};
use rc_wire::{Operands, one_of, point_of};
use std::alloc::Global;
use std::mem;

/// The text, which is none from then on.
fn taken(alloc: Global, text: &mut Text) -> Text
    ensures answer { result ≡ text.old }
    ensures left { text.new ≡ [] }
{
    mem::replace(text, Text::new(alloc))
}

impl Draft {
    /// What may stand next.
    fn goes(&mut self, stage: Stage) -> Turn
        ensures { Turned result self.new (means.goes stage self.old) }
    {
        self.stage = stage;
        Turn::More
    }

    /// The statement is complete, and what may stand next is this.
    fn ends(&mut self, stage: Stage) -> Turn
        ensures { Turned result self.new (means.ends stage self.old) }
    {
        self.stage = stage;
        Turn::Done
    }

    /// The name of an entry begins it.
    fn begins_entry(&mut self, alloc: Global, said: &mut Operands) -> Turn
        ensures { Turned result self.new (means.begins_entry said.old self.old) }
    {
        self.name = taken(alloc, &mut said.name);
        self.line = said.line;
        match self.section {
            Section::Vias => {
                self.via = ViaDraft::new(alloc);
                self.goes(Stage::Options)
            }
            Section::Rules => {
                self.widths = Table::new(alloc);
                self.goes(Stage::Options)
            }
            Section::Comps => {
                self.cell = taken(alloc, &mut said.second);
                self.at = None;
                self.goes(Stage::Options)
            }
            Section::Pins => {
                self.pin = PinDraft::new(alloc);
                self.goes(Stage::Options)
            }
            Section::Specials | Section::Nets => {
                self.net.clear(alloc);
                self.goes(Stage::Connections)
            }
        }
    }

    /// The via that is open joins the others.
    fn via_done(&mut self, alloc: Global) -> Result<(), NoMemory>
        ensures { OnOk result (self.new ≡ means.via_done self.old) }
    {
        let name = taken(alloc, &mut self.name);
        let draft = mem::replace(&mut self.via, ViaDraft::new(alloc));
        let via = draft.finish(alloc, name, self.line)?;
        put_new(&mut self.lists.vias, via)
    }

    /// The nondefault rule that is open joins the others.
    fn rule_done(&mut self, alloc: Global) -> Result<(), NoMemory>
        ensures { OnOk result (self.new ≡ means.rule_done self.old) }
    {
        let name = taken(alloc, &mut self.name);
        let widths = mem::replace(&mut self.widths, Table::new(alloc));
        let widths = pairs(alloc, widths.into_list().into_vec())?;
        let rule = RawRule {
            name,
            line: self.line,
            widths: List::from_vec(widths),
        };
        put_new(&mut self.lists.rules, rule)
    }

    /// The component that is open joins the others.
    fn comp_done(&mut self, alloc: Global) -> Result<(), NoMemory>
        ensures { OnOk result (self.new ≡ means.comp_done self.old) }
    {
        let comp = RawComp {
            name: taken(alloc, &mut self.name),
            line: self.line,
            cell: taken(alloc, &mut self.cell),
            at: self.at,
        };
        put_new(&mut self.lists.comps, comp)
    }

    /// The die pin that is open joins the others.
    fn pin_done(&mut self, alloc: Global) -> Result<(), NoMemory>
        ensures { OnOk result (self.new ≡ means.pin_done self.old) }
    {
        let name = taken(alloc, &mut self.name);
        let draft = mem::replace(&mut self.pin, PinDraft::new(alloc));
        let pin = draft.finish(alloc, name, self.line)?;
        put_new(&mut self.lists.pins, pin)
    }

    /// The special net that is open joins the others.
    fn special_done(&mut self, alloc: Global) -> Result<(), NoMemory>
        ensures { OnOk result (self.new ≡ means.special_done self.old) }
    {
        let name = taken(alloc, &mut self.name);
        let net = self.net.finish(alloc, name, self.line)?;
        put_new(&mut self.lists.specials, net)
    }

    /// The net that is open joins the others.
    fn net_done(&mut self, alloc: Global) -> Result<(), NoMemory>
        ensures { OnOk result (self.new ≡ means.net_done self.old) }
    {
        let name = taken(alloc, &mut self.name);
        let net = self.net.finish(alloc, name, self.line)?;
        put_new(&mut self.lists.nets, net)
    }

    /// The entry that is open is complete.
    fn entry_done(&mut self, alloc: Global) -> Result<Turn, NoMemory>
        ensures { IfOk result (λ turn. Turned turn self.new (means.entry_done self.old)) }
    {
        match self.section {
            Section::Vias => {
                self.via_done(alloc)?;
                Ok(self.ends(Stage::Section))
            }
            Section::Rules => {
                self.rule_done(alloc)?;
                Ok(self.ends(Stage::Section))
            }
            Section::Comps => {
                self.comp_done(alloc)?;
                Ok(self.ends(Stage::Section))
            }
            Section::Pins => {
                self.pin_done(alloc)?;
                Ok(self.ends(Stage::Section))
            }
            Section::Specials => {
                self.special_done(alloc)?;
                Ok(self.ends(Stage::Section))
            }
            Section::Nets => {
                self.net_done(alloc)?;
                Ok(self.ends(Stage::Section))
            }
        }
    }

    /// Paths begin.
    fn open_paths(&mut self, alloc: Global, is_wide: bool, stage: Stage) -> Turn
        ensures { Turned result self.new (means.open_paths is_wide stage self.old) }
    {
        self.wiring.restart(alloc, is_wide, self.line);
        self.goes(stage)
    }

    /// The paths join those of the net.
    fn paths_done(&mut self, alloc: Global) -> Result<(), NoMemory>
        ensures { OnOk result (self.new ≡ means.with_paths self.old) }
    {
        let paths = self.wiring.finish(alloc)?;
        self.wiring.restart(alloc, false, 0);
        self.net.with_paths(paths)
    }

    /// A statement between the sections.
    fn means_statement(&mut self, alloc: Global, item: DefItem, said: &mut Operands) -> Turn
        ensures { Turned result self.new (means.statement item said.old self.old) }
    {
        match item {
            DefItem::Design => self.header.with_design(taken(alloc, &mut said.name)),
            DefItem::Units => self
                .header
                .with_units(one_of(said.numbers.items()), said.line),
            DefItem::DividerChar => self.header.with_divider(said.name.bytes()),
            DefItem::BusBitChars => self.header.with_bus(said.name.bytes()),
            _ => {}
        }
        self.ends(Stage::Top)
    }

    /// An option of a via.
    fn means_via(
        &mut self,
        alloc: Global,
        item: DefItem,
        said: &mut Operands,
    ) -> Result<(), NoMemory>
        ensures { OnOk result (self.new ≡ means.via_option item said.old self.old) }
    {
        match item {
            DefItem::ViaRect => put_rect(
                &mut self.via.rects,
                taken(alloc, &mut said.name),
                rect_of(said.numbers.items()),
            ),
            DefItem::ViaRule => {
                self.via.has_rule = true;
                Ok(())
            }
            DefItem::CutSize => {
                self.via.with_cut(point_of(said.numbers.items()));
                Ok(())
            }
            DefItem::Layers => {
                self.via.with_layers(ViaLayers {
                    first: taken(alloc, &mut said.name),
                    cut: taken(alloc, &mut said.second),
                    third: taken(alloc, &mut said.third),
                });
                Ok(())
            }
            DefItem::CutSpacing => {
                self.via.with_spacing(point_of(said.numbers.items()));
                Ok(())
            }
            DefItem::Enclosure => {
                self.via.with_enclosure(said.numbers.items());
                Ok(())
            }
            DefItem::RowCol => {
                self.via.with_rows(point_of(said.numbers.items()));
                Ok(())
            }
            _ => Ok(()),
        }
    }

    /// An option of a nondefault rule.
    fn means_width(&mut self, alloc: Global, said: &mut Operands) -> Result<(), NoMemory>
        ensures { OnOk result (self.new ≡ means.layer_width said.old self.old) }
    {
        let Some(width) = one_of(said.numbers.items()) else {
            return Ok(());
        };
        let layer = taken(alloc, &mut said.name);
        put_new(&mut self.widths, LayerWidth { layer, width })
    }

    /// A placement of a component or of a die pin.
    fn means_placed(&mut self, said: &mut Operands)
        ensures { self.new ≡ means.placed said.old self.old }
    {
        let at = point_of(said.numbers.items());
        match self.section {
            Section::Pins => self.pin.placed(at, said.chosen),
            _ => self.at = first_placement(self.at, at, said.chosen),
        }
    }

    /// An option of a die pin.
    fn means_pin(
        &mut self,
        alloc: Global,
        item: DefItem,
        said: &mut Operands,
    ) -> Result<(), NoMemory>
        ensures { OnOk result (self.new ≡ means.pin_option item said.old self.old) }
    {
        match item {
            DefItem::Direction => {
                self.pin.with_direction(said.chosen);
                Ok(())
            }
            DefItem::Port => self.pin.begins_port(alloc),
            DefItem::PinRect => {
                let layer = taken(alloc, &mut said.name);
                self.pin.with_pin_rect(layer, rect_of(said.numbers.items()))
            }
            _ => Ok(()),
        }
    }

    /// An option of a net that isn't about paths.
    fn means_net(
        &mut self,
        alloc: Global,
        item: DefItem,
        said: &mut Operands,
    ) -> Result<(), NoMemory>
        ensures { OnOk result (self.new ≡ means.net_option item said.old self.old) }
    {
        match item {
            DefItem::NetRule => {
                self.net.with_rule(taken(alloc, &mut said.name));
                Ok(())
            }
            DefItem::Use => {
                self.net.with_use(said.chosen);
                Ok(())
            }
            DefItem::NetRect => {
                let layer = taken(alloc, &mut said.name);
                self.net.with_net_rect(layer, rect_of(said.numbers.items()))
            }
            _ => Ok(()),
        }
    }

    /// Vias at points.
    fn means_net_via(
        &mut self,
        alloc: Global,
        item: DefItem,
        said: &mut Operands,
    ) -> Result<Turn, NoMemory>
        ensures { IfOk result (λ turn. Turned turn self.new (means.net_via item said.old self.old)) }
    {
        match item {
            DefItem::NetVia => {
                self.net.begins_vias(taken(alloc, &mut said.name));
                Ok(self.goes(Stage::ViaHead))
            }
            DefItem::NetViaOrient => {
                self.net.turned(said.chosen);
                Ok(self.goes(Stage::ViaFirst))
            }
            _ => {
                self.net.with_via(alloc, point_of(said.numbers.items()))?;
                Ok(self.goes(Stage::ViaPoints))
            }
        }
    }

    /// What begins paths, belongs to them or ends them.
    fn means_paths(
        &mut self,
        alloc: Global,
        item: DefItem,
        said: &mut Operands,
    ) -> Result<Turn, NoMemory>
        ensures { IfOk result (λ turn. Turned turn self.new (means.paths item said.old self.old)) }
    {
        match item {
            DefItem::Routed => Ok(self.open_paths(alloc, false, Stage::Wiring)),
            DefItem::WideRouted | DefItem::Shield => {
                Ok(self.open_paths(alloc, true, Stage::Paths))
            }
            DefItem::Path(item) => {
                self.wiring.means(alloc, item, said)?;
                Ok(self.goes(Stage::Wiring))
            }
            DefItem::PathsDone => {
                self.paths_done(alloc)?;
                Ok(self.goes(Stage::Option))
            }
            _ => {
                self.paths_done(alloc)?;
                self.entry_done(alloc)
            }
        }
    }

    /// An item that is complete.
    ///
    /// # Errors
    ///
    /// `NoMemory` for want of memory.
    #[tactic(auto, unfolding(crate::specs::Means::means))]
    pub fn means(
        &mut self,
        alloc: Global,
        item: DefItem,
        said: &mut Operands,
    ) -> Result<Turn, NoMemory>
        ensures { IfOk result (λ turn. Turned turn self.new (means.means item self.old said.old)) }
    {
        match item {
            DefItem::Token(stage) => Ok(self.goes(stage)),
            DefItem::Done
            | DefItem::Design
            | DefItem::Units
            | DefItem::DividerChar
            | DefItem::BusBitChars => Ok(self.means_statement(alloc, item, said)),
            DefItem::Skip => {
                self.skipped = taken(alloc, &mut said.name);
                Ok(self.goes(Stage::Skipped))
            }
            DefItem::Head(section) => {
                self.section = section;
                Ok(self.ends(Stage::Section))
            }
            DefItem::End => {
                self.line = said.line;
                Ok(self.ends(Stage::EndOfFile))
            }
            DefItem::EndDesign => Ok(Turn::Close),
            DefItem::Entry | DefItem::Component => Ok(self.begins_entry(alloc, said)),
            DefItem::EntryDone => self.entry_done(alloc),
            DefItem::ViaRect
            | DefItem::ViaRule
            | DefItem::CutSize
            | DefItem::Layers
            | DefItem::CutSpacing
            | DefItem::Enclosure
            | DefItem::RowCol => {
                self.means_via(alloc, item, said)?;
                Ok(self.goes(Stage::Options))
            }
            DefItem::Unusual => {
                self.via.is_plain = false;
                Ok(self.goes(Stage::Passed))
            }
            DefItem::LayerWidth => {
                self.means_width(alloc, said)?;
                Ok(self.goes(Stage::Passed))
            }
            DefItem::Placed => {
                self.means_placed(said);
                Ok(self.goes(Stage::Options))
            }
            DefItem::Direction | DefItem::Port | DefItem::PinRect => {
                self.means_pin(alloc, item, said)?;
                Ok(self.goes(Stage::Options))
            }
            DefItem::Connection => {
                let comp = taken(alloc, &mut said.name);
                self.net
                    .with_connection(comp, taken(alloc, &mut said.second))?;
                Ok(self.goes(Stage::Connections))
            }
            DefItem::NetRule | DefItem::Use | DefItem::NetRect => {
                self.means_net(alloc, item, said)?;
                Ok(self.goes(Stage::Options))
            }
            DefItem::NetVia | DefItem::NetViaOrient | DefItem::NetViaPoint => {
                self.means_net_via(alloc, item, said)
            }
            DefItem::Routed
            | DefItem::WideRouted
            | DefItem::Shield
            | DefItem::Path(_)
            | DefItem::PathsDone
            | DefItem::PathsEntryDone => self.means_paths(alloc, item, said),
        }
    }
}
