//! Which item a token begins.

ghost use Rattle.std.specs.Prelude.{◌≡◌};
ghost use Rattle.rc_def.specs.Begins as begins;

use crate::draft::Draft;
use crate::item::{DefItem, Section, Stage};
use rc_keys::{Code, Lexeme};
use rc_wire::Key;

/// An option, or the end of an entry.
fn begins_options(key: Key) -> Result<DefItem, Code>
    ensures { result ≡ begins.options key }
{
    match key {
        Key::Plus => Ok(DefItem::Token(Stage::Option)),
        Key::Semicolon => Ok(DefItem::EntryDone),
        _ => Err(Code::E03),
    }
}

/// An option without a row of its own is passed over.
fn begins_passed(key: Key) -> Result<DefItem, Code>
    ensures { result ≡ begins.passed key }
{
    if key.is_name() {
        return Ok(DefItem::Token(Stage::Passed));
    }
    Err(Code::E03)
}

/// The word of an option of a via.
fn begins_via_option(key: Key) -> Result<DefItem, Code>
    ensures { result ≡ begins.via_option key }
{
    match key {
        Key::Rect => Ok(DefItem::ViaRect),
        Key::ViaRule => Ok(DefItem::ViaRule),
        Key::CutSize => Ok(DefItem::CutSize),
        Key::Layers => Ok(DefItem::Layers),
        Key::CutSpacing => Ok(DefItem::CutSpacing),
        Key::Enclosure => Ok(DefItem::Enclosure),
        Key::RowCol => Ok(DefItem::RowCol),
        Key::Polygon | Key::Origin | Key::Offset | Key::Pattern => Ok(DefItem::Unusual),
        _ => begins_passed(key),
    }
}

/// The word of an option of a die pin.
fn begins_pin_option(key: Key) -> Result<DefItem, Code>
    ensures { result ≡ begins.pin_option key }
{
    match key {
        Key::Direction => Ok(DefItem::Direction),
        Key::Port => Ok(DefItem::Port),
        Key::Layer => Ok(DefItem::PinRect),
        Key::Placed | Key::Fixed | Key::Cover => Ok(DefItem::Placed),
        _ => begins_passed(key),
    }
}

/// The word of an option of a net.
fn begins_net_option(key: Key) -> Result<DefItem, Code>
    ensures { result ≡ begins.net_option key }
{
    match key {
        Key::NonDefaultRule => Ok(DefItem::NetRule),
        Key::Routed | Key::Fixed | Key::Cover | Key::NoShield => Ok(DefItem::Routed),
        Key::SubNet | Key::VPin => Err(Code::E04),
        _ => begins_passed(key),
    }
}

/// The word of an option of a special net.
fn begins_special_option(key: Key) -> Result<DefItem, Code>
    ensures { result ≡ begins.special_option key }
{
    match key {
        Key::Use => Ok(DefItem::Use),
        Key::Routed | Key::Fixed | Key::Cover => Ok(DefItem::WideRouted),
        Key::Shield => Ok(DefItem::Shield),
        Key::Rect => Ok(DefItem::NetRect),
        Key::Via => Ok(DefItem::NetVia),
        Key::Polygon => Err(Code::E04),
        _ => begins_passed(key),
    }
}

/// The word of an option.
fn begins_option(section: Section, key: Key) -> Result<DefItem, Code>
    ensures { result ≡ begins.option section key }
{
    match section {
        Section::Vias => begins_via_option(key),
        Section::Rules => match key {
            Key::Layer => Ok(DefItem::LayerWidth),
            _ => begins_passed(key),
        },
        Section::Comps => match key {
            Key::Placed | Key::Fixed | Key::Cover => Ok(DefItem::Placed),
            _ => begins_passed(key),
        },
        Section::Pins => begins_pin_option(key),
        Section::Specials => begins_special_option(key),
        Section::Nets => begins_net_option(key),
    }
}

/// A token of what is skipped up to END and its word.
fn begins_skipped(key: Key) -> DefItem
    ensures { result ≡ begins.skipped key }
{
    match key {
        Key::End => DefItem::Token(Stage::SkippedEnd),
        _ => DefItem::Token(Stage::Skipped),
    }
}

/// Whether a key is the word of a section.
fn is_word_of(section: Section, key: Key) -> bool
    ensures { result ≡ begins.is_word_of section key }
{
    match section {
        Section::Vias => matches!(key, Key::Vias),
        Section::Rules => matches!(key, Key::NonDefaultRules),
        Section::Comps => matches!(key, Key::Components),
        Section::Pins => matches!(key, Key::Pins),
        Section::Specials => matches!(key, Key::SpecialNets),
        Section::Nets => matches!(key, Key::Nets),
    }
}

impl Draft {
    /// A statement or a section.
    fn begins_top(&self, key: Key) -> Result<DefItem, Code>
        ensures { result ≡ begins.top self.now.header key }
    {
        match key {
            Key::Semicolon => Ok(DefItem::Done),
            Key::Quoted => Err(Code::E03),
            Key::Design => {
                if self.header.design.is_some() {
                    return Err(Code::E07);
                }
                Ok(DefItem::Design)
            }
            Key::Units => {
                if self.header.units.is_some() {
                    return Err(Code::E07);
                }
                Ok(DefItem::Units)
            }
            Key::DividerChar => Ok(DefItem::DividerChar),
            Key::BusBitChars => Ok(DefItem::BusBitChars),
            Key::Vias => Ok(DefItem::Head(Section::Vias)),
            Key::NonDefaultRules => Ok(DefItem::Head(Section::Rules)),
            Key::Components => Ok(DefItem::Head(Section::Comps)),
            Key::Pins => Ok(DefItem::Head(Section::Pins)),
            Key::SpecialNets => Ok(DefItem::Head(Section::Specials)),
            Key::Nets => Ok(DefItem::Head(Section::Nets)),
            Key::Regions
            | Key::Groups
            | Key::Blockages
            | Key::Slots
            | Key::Fills
            | Key::ScanChains
            | Key::Styles
            | Key::PinProperties
            | Key::PropertyDefinitions => Ok(DefItem::Skip),
            Key::BeginExt => Ok(DefItem::Token(Stage::Extension)),
            Key::End => Ok(DefItem::End),
            _ => Ok(DefItem::Token(Stage::Over)),
        }
    }

    /// The word behind END at the top.
    fn begins_end(&self, key: Key) -> Result<DefItem, Code>
        ensures { result ≡ begins.end self.now.header key }
    {
        match key {
            Key::Design => {
                if self.header.is_complete() {
                    return Ok(DefItem::EndDesign);
                }
                Err(Code::E16)
            }
            _ => Err(Code::E03),
        }
    }

    /// The word behind END in what is skipped.
    fn begins_skipped_end(&self, key: Key, word: &Lexeme<'_>) -> DefItem
        ensures { result ≡ begins.skipped_end self.now.skipped key word.now.bytes }
    {
        if !key.is_quoted() && word.bytes() == self.skipped.bytes() {
            return DefItem::Done;
        }
        begins_skipped(key)
    }

    /// The name of an entry.
    fn begins_name(&self, key: Key, word: &Lexeme<'_>) -> Result<DefItem, Code>
        ensures { result ≡ begins.name self.now.section self.now.lists key word.now.bytes }
    {
        if !key.is_name() {
            return Err(Code::E03);
        }
        if matches!(self.section, Section::Nets) && matches!(key, Key::MustJoin) {
            return Err(Code::E04);
        }
        if self.lists.has(self.section, word.bytes()) {
            return Err(Code::E07);
        }
        match self.section {
            Section::Comps => Ok(DefItem::Component),
            _ => Ok(DefItem::Entry),
        }
    }

    /// A connection, an option, or the end of the entry.
    fn begins_connections(&self, key: Key) -> Result<DefItem, Code>
        ensures { result ≡ begins.connections self.now.section key }
    {
        match key {
            Key::Open => match self.section {
                Section::Specials => Ok(DefItem::Token(Stage::Connection)),
                _ => Ok(DefItem::Connection),
            },
            _ => begins_options(key),
        }
    }

    /// An item of a path, or what ends the paths.
    fn begins_wiring(&self, key: Key) -> Result<DefItem, Code>
        ensures { result ≡ begins.wiring self.now.wiring key }
    {
        match self.wiring.begins(key) {
            Ok(Some(item)) => Ok(DefItem::Path(item)),
            Ok(None) => match key {
                Key::Plus => Ok(DefItem::PathsDone),
                _ => Ok(DefItem::PathsEntryDone),
            },
            Err(code) => Err(code),
        }
    }

    /// The first path, or what stands in its place.
    fn begins_paths(&self, key: Key) -> Result<DefItem, Code>
        ensures { result ≡ begins.paths self.now.wiring key }
    {
        match key {
            Key::Plus => Ok(DefItem::Token(Stage::Option)),
            Key::Semicolon => Ok(DefItem::EntryDone),
            _ => self.begins_wiring(key),
        }
    }

    /// Which item a token begins. The code is that of a token that begins none.
    #[tactic(auto, unfolding(crate::specs::Begins::begins))]
    pub fn begins(&self, key: Key, word: &Lexeme<'_>) -> Result<DefItem, Code>
        ensures { result ≡ begins.begins self.now key word.now }
    {
        match self.stage {
            Stage::Top => self.begins_top(key),
            Stage::Over => match key {
                Key::Semicolon => Ok(DefItem::Done),
                _ => Ok(DefItem::Token(Stage::Over)),
            },
            Stage::EndOfFile => self.begins_end(key),
            Stage::Skipped => Ok(begins_skipped(key)),
            Stage::SkippedEnd => Ok(self.begins_skipped_end(key, word)),
            Stage::Extension => match key {
                Key::EndExt => Ok(DefItem::Done),
                _ => Ok(DefItem::Token(Stage::Extension)),
            },
            Stage::Section => match key {
                Key::Minus => Ok(DefItem::Token(Stage::Name)),
                Key::End => Ok(DefItem::Token(Stage::SectionEnd)),
                _ => Err(Code::E03),
            },
            Stage::SectionEnd => {
                if is_word_of(self.section, key) {
                    return Ok(DefItem::Done);
                }
                Err(Code::E03)
            }
            Stage::Name => self.begins_name(key, word),
            Stage::Connections => self.begins_connections(key),
            Stage::Connection => match key {
                Key::Close => Ok(DefItem::Token(Stage::Connections)),
                Key::Semicolon => Err(Code::E03),
                _ => Ok(DefItem::Token(Stage::Connection)),
            },
            Stage::Options => begins_options(key),
            Stage::Option => begins_option(self.section, key),
            Stage::Passed => match key {
                Key::Plus => Ok(DefItem::Token(Stage::Option)),
                Key::Semicolon => Ok(DefItem::EntryDone),
                _ => Ok(DefItem::Token(Stage::Passed)),
            },
            Stage::Paths => self.begins_paths(key),
            Stage::Wiring => self.begins_wiring(key),
            Stage::ViaHead => {
                if key.is_orientation() {
                    return Ok(DefItem::NetViaOrient);
                }
                match key {
                    Key::Open => Ok(DefItem::NetViaPoint),
                    _ => Err(Code::E03),
                }
            }
            Stage::ViaFirst => match key {
                Key::Open => Ok(DefItem::NetViaPoint),
                _ => Err(Code::E03),
            },
            Stage::ViaPoints => match key {
                Key::Open => Ok(DefItem::NetViaPoint),
                _ => begins_options(key),
            },
        }
    }
}
