//! The paths of a list, so far.

ghost use Rattle.std.specs.Prelude.{◌≡◌, OnOk, IfOk};
ghost use Rattle.rc_wire.specs.Paths as paths;

use crate::fit::fitted;
use crate::item::{PathItem, PathStage};
use crate::key::Key;
use crate::operands::Operands;
use crate::path::{RawPath, Step, Taper};
use rc_fixed::{List, NoMemory, Text};
use rc_geom::{Orient, Pt};
use rc_keys::Code;
use std::alloc::Global;
use std::mem;

/// The paths of a list so far, and the one that is open: `last` is its last point, and `stage` what may stand next in it.
/// `is_wide` says that the paths are special ones, `line` is that of their statement.
#[derive(Debug, Drop)]
pub struct Wiring {
    pub is_wide: bool,
    pub line: u32,
    pub paths: List<RawPath>,
    pub stage: PathStage,
    pub layer: Text,
    pub width: Option<i32>,
    pub taper: Taper,
    pub steps: List<Step>,
    pub last: Option<Pt>,
}

/// The orientation that a keyword is.
pub fn orient_of(key: Key) -> Orient
    ensures { result ≡ paths.orient_of key }
{
    match key {
        Key::S => Orient::S,
        Key::W => Orient::W,
        Key::E => Orient::E,
        Key::FN => Orient::FN,
        Key::FS => Orient::FS,
        Key::FW => Orient::FW,
        Key::FE => Orient::FE,
        _ => Orient::N,
    }
}

/// The point of two numbers.
pub fn point_of(numbers: &[i32]) -> Option<Pt>
    ensures { result ≡ paths.point_of numbers.now }
{
    match numbers {
        [x, y] => Some(Pt { x: *x, y: *y }),
        _ => None,
    }
}

/// The one number of a list.
pub fn one_of(numbers: &[i32]) -> Option<i32>
    ensures { result ≡ paths.one_of numbers.now }
{
    match numbers {
        [z] => Some(*z),
        _ => None,
    }
}

/// The step, turned where it is a via.
fn turned(step: Step, orient: Orient) -> Step
    ensures { result ≡ paths.turned orient step }
{
    match step {
        Step::Via { name, orient: _ } => Step::Via { name, orient },
        Step::Point { at, ext } => Step::Point { at, ext },
        Step::Patch { x0, y0, x1, y1 } => Step::Patch { x0, y0, x1, y1 },
    }
}

/// Turns the last step, where it is a via.
fn turn_last(steps: &mut List<Step>, orient: Orient) -> Result<(), NoMemory>
    ensures { OnOk result (steps.new ≡ paths.last_turned orient steps.old) }
{
    let Some(step) = steps.pop() else {
        return Ok(());
    };
    steps.push(turned(step, orient))
}

impl Wiring {
    /// No path yet: regular ones are due, or special ones.
    pub fn new(alloc: Global, is_wide: bool, line: u32) -> Wiring
        ensures { result ≡ paths.no_paths is_wide line }
    {
        Wiring {
            is_wide,
            line,
            paths: List::new(alloc),
            stage: PathStage::Layer,
            layer: Text::new(alloc),
            width: None,
            taper: Taper::Net,
            steps: List::new(alloc),
            last: None,
        }
    }

    /// No path yet, as `new` makes it. The memory of paths and steps stays.
    pub fn restart(&mut self, alloc: Global, is_wide: bool, line: u32)
        ensures { self.new ≡ paths.no_paths is_wide line }
    {
        self.is_wide = is_wide;
        self.line = line;
        self.paths.clear();
        self.stage = PathStage::Layer;
        self.layer = Text::new(alloc);
        self.width = None;
        self.taper = Taper::Net;
        self.steps.clear();
        self.last = None;
    }

    /// Whether the open path has the width 0.
    fn is_thin(&self) -> bool
        ensures { result ≡ paths.is_thin self.now.width }
    {
        match self.width {
            Some(width) => width == 0,
            None => false,
        }
    }

    /// The first point of a path.
    fn begins_first(key: Key) -> Result<Option<PathItem>, Code>
        ensures { result ≡ paths.begins_first key }
    {
        match key {
            Key::Open => Ok(Some(PathItem::Point)),
            Key::Style | Key::Virtual => Err(Code::E04),
            _ => Err(Code::E03),
        }
    }

    /// What belongs to the layer of a path, or its first point.
    fn begins_head(&self, key: Key) -> Result<Option<PathItem>, Code>
        ensures { result ≡ paths.begins_head self.now.is_wide key }
    {
        if self.is_wide {
            return match key {
                Key::Plus => Ok(Some(PathItem::Shape)),
                _ => Wiring::begins_first(key),
            };
        }
        match key {
            Key::Taper => Ok(Some(PathItem::Taper)),
            Key::TaperRule => Ok(Some(PathItem::TaperRule)),
            _ => Wiring::begins_first(key),
        }
    }

    /// A step, the next path, or what ends the list.
    fn begins_step(&self, key: Key) -> Result<Option<PathItem>, Code>
        ensures { result ≡ paths.begins_step self.now key }
    {
        match key {
            Key::Open => {
                if self.is_thin() {
                    return Err(Code::E05);
                }
                Ok(Some(PathItem::Point))
            }
            Key::Mask => Ok(Some(PathItem::Mask)),
            Key::Rect => {
                if self.is_wide {
                    return Err(Code::E03);
                }
                Ok(Some(PathItem::Patch))
            }
            Key::Style | Key::Virtual => Err(Code::E04),
            Key::New => {
                if self.is_wide {
                    return Ok(Some(PathItem::WideNext));
                }
                Ok(Some(PathItem::Next))
            }
            Key::Plus | Key::Semicolon => Ok(None),
            _ => {
                if key.is_name() {
                    return Ok(Some(PathItem::Via));
                }
                Err(Code::E03)
            }
        }
    }

    /// What may stand behind a via and its orientation.
    fn begins_turned(&self, key: Key) -> Result<Option<PathItem>, Code>
        ensures { result ≡ paths.begins_turned self.now key }
    {
        if self.is_wide && matches!(key, Key::Do) {
            return Err(Code::E04);
        }
        self.begins_step(key)
    }

    /// Which item a token begins; none, where it ends the list of paths. The code is that of a token that does neither.
    #[tactic(auto, unfolding(crate::specs::Paths::begins))]
    pub fn begins(&self, key: Key) -> Result<Option<PathItem>, Code>
        ensures { result ≡ paths.begins self.now key }
    {
        match self.stage {
            PathStage::Layer => {
                if !key.is_name() {
                    return Err(Code::E03);
                }
                if self.is_wide {
                    return Ok(Some(PathItem::WideLayer));
                }
                Ok(Some(PathItem::Layer))
            }
            PathStage::Head => self.begins_head(key),
            PathStage::First => Wiring::begins_first(key),
            PathStage::Steps => self.begins_step(key),
            PathStage::AfterVia => {
                if key.is_orientation() {
                    return Ok(Some(PathItem::Orientation));
                }
                self.begins_turned(key)
            }
            PathStage::Turned => self.begins_turned(key),
        }
    }

    /// The open path joins the others.
    fn with_path(&mut self, alloc: Global) -> Result<(), NoMemory>
        ensures { OnOk result (self.new ≡ paths.with_path self.old) }
    {
        let steps = fitted(alloc, &mut self.steps)?;
        let path = RawPath {
            layer: mem::replace(&mut self.layer, Text::new(alloc)),
            width: self.width,
            taper: mem::replace(&mut self.taper, Taper::Net),
            steps,
            line: self.line,
        };
        self.paths.push(path)
    }

    /// A path begins on this layer.
    fn on_layer(&mut self, layer: Text, width: Option<i32>)
        ensures { self.new ≡ paths.on_layer layer width self.old }
    {
        self.layer = layer;
        self.width = width;
        self.taper = Taper::Net;
        self.steps.clear();
        self.last = None;
        self.stage = PathStage::Head;
    }

    /// A point.
    fn with_point(&mut self, at: Option<Pt>, ext: Option<i32>) -> Result<(), NoMemory>
        ensures { OnOk result (self.new ≡ paths.with_point at ext self.old) }
    {
        if let Some(at) = at {
            self.steps.push(Step::Point { at, ext })?;
            self.last = Some(at);
        }
        self.stage = PathStage::Steps;
        Ok(())
    }

    /// A patch by two corners.
    fn with_patch(&mut self, numbers: &[i32]) -> Result<(), NoMemory>
        ensures { OnOk result (self.new ≡ paths.with_patch numbers.now self.old) }
    {
        if let [x0, y0, x1, y1] = numbers {
            self.steps.push(Step::Patch {
                x0: *x0,
                y0: *y0,
                x1: *x1,
                y1: *y1,
            })?;
        }
        self.stage = PathStage::Steps;
        Ok(())
    }

    /// A via.
    fn with_via(&mut self, name: Text) -> Result<(), NoMemory>
        ensures { OnOk result (self.new ≡ paths.with_via name self.old) }
    {
        self.steps.push(Step::Via {
            name,
            orient: Orient::N,
        })?;
        self.stage = PathStage::AfterVia;
        Ok(())
    }

    /// The last via's orientation.
    fn with_orientation(&mut self, orient: Orient) -> Result<(), NoMemory>
        ensures { OnOk result (self.new ≡ paths.with_orientation orient self.old) }
    {
        turn_last(&mut self.steps, orient)?;
        self.stage = PathStage::Turned;
        Ok(())
    }

    /// An item that is complete.
    ///
    /// # Errors
    ///
    /// `NoMemory` for want of memory.
    #[tactic(auto, unfolding(crate::specs::Paths::means))]
    pub fn means(
        &mut self,
        alloc: Global,
        item: PathItem,
        said: &mut Operands,
    ) -> Result<(), NoMemory>
        ensures { OnOk result (self.new ≡ paths.means item self.old said.old) }
    {
        match item {
            PathItem::Layer | PathItem::WideLayer => {
                let width = one_of(said.numbers.items());
                self.on_layer(mem::replace(&mut said.name, Text::new(alloc)), width);
            }
            PathItem::Next | PathItem::WideNext => {
                self.with_path(alloc)?;
                let width = one_of(said.numbers.items());
                self.on_layer(mem::replace(&mut said.name, Text::new(alloc)), width);
            }
            PathItem::Taper => {
                self.taper = Taper::Layer;
                self.stage = PathStage::First;
            }
            PathItem::TaperRule => {
                self.taper = Taper::Rule(mem::replace(&mut said.name, Text::new(alloc)));
                self.stage = PathStage::First;
            }
            PathItem::Shape => {}
            PathItem::Point => self.with_point(point_of(said.numbers.items()), said.extension)?,
            PathItem::Mask => self.stage = PathStage::Steps,
            PathItem::Patch => self.with_patch(said.numbers.items())?,
            PathItem::Via => self.with_via(mem::replace(&mut said.name, Text::new(alloc)))?,
            PathItem::Orientation => self.with_orientation(orient_of(said.chosen))?,
        }
        Ok(())
    }

    /// The paths, with the open one.
    ///
    /// # Errors
    ///
    /// `NoMemory` for want of memory.
    pub fn finish(&mut self, alloc: Global) -> Result<List<RawPath>, NoMemory>
        ensures { IfOk result (λ list. list ≡ paths.paths_of self.old) }
    {
        self.with_path(alloc)?;
        fitted(alloc, &mut self.paths)
    }
}
