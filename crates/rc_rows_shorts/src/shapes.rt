//! Shapes from their text.

use anyhow::bail;
use rc_geom::Rect;
use rc_shorts::Shape;
use std::alloc::Global;

/// The numbers of a text.
fn numbers(alloc: Global, text: &str) -> anyhow::Result<Vec<i32>> {
    let mut list = Vec::new(alloc);
    for word in text.split_ascii_whitespace() {
        list.push(word.parse::<i32>()?)?;
    }
    Ok(list)
}

/// A shape from its net, its item, its layer and its corners.
fn shape(alloc: Global, text: &str) -> anyhow::Result<Shape> {
    let list = numbers(alloc, text)?;
    match list.as_slice() {
        &[net, item, layer, x0, y0, x1, y1] => Ok(Shape {
            net: u32::try_from(net)?,
            item: u32::try_from(item)?,
            layer: u8::try_from(layer)?,
            rect: Rect { x0, y0, x1, y1 },
        }),
        _ => bail!("a shape has seven numbers"),
    }
}

/// Shapes, with commas between them.
pub fn shapes(alloc: Global, text: &str) -> anyhow::Result<Vec<Shape>> {
    let mut list = Vec::new(alloc);
    for part in text.split(',') {
        list.push(shape(alloc, part)?)?;
    }
    Ok(list)
}
