//! The eight orientations.

ghost use Rattle.std.specs.Prelude.{◌≡◌, ◌-ℤ◌};
ghost use Rattle.rc_geom.specs.Orients.{placed, turned, CanPlace, CanTurn};

use crate::Pt;

/// How something is placed: turned by so many quarters, and with F mirrored too. The names and their meaning are those of
/// the LEF/DEF 5.8 Language Reference, 'Specifying Orientation'.
#[derive(Clone, Copy, Debug, PartialEq, Eq)]
pub enum Orient {
    N,
    S,
    W,
    E,
    FN,
    FS,
    FW,
    FE,
}

/// The point as the far corner of a cell sees it.
fn mirrored(w: i32, h: i32, p: Pt) -> Pt
    requires { CanPlace w h p }
    ensures x { result.x ≡ w -ℤ p.x }
    ensures y { result.y ≡ h -ℤ p.y }
{
    Pt {
        x: w - p.x,
        y: h - p.y,
    }
}

/// Where a point of a cell `w` wide and `h` high comes to when the cell is turned and put back with its lower left corner
/// at the origin. Points are within 2^30 of 0, and a cell is at most 2^29 wide and high.
pub fn place(o: Orient, w: i32, h: i32, p: Pt) -> Pt
    requires { CanPlace w h p }
    ensures { result ≡ placed o w h p }
{
    let far = mirrored(w, h, p);
    match o {
        Orient::N => p,
        Orient::S => far,
        Orient::W => Pt { x: far.y, y: p.x },
        Orient::E => Pt { x: p.y, y: far.x },
        Orient::FN => Pt { x: far.x, y: p.y },
        Orient::FS => Pt { x: p.x, y: far.y },
        Orient::FW => Pt { x: p.y, y: p.x },
        Orient::FE => Pt { x: far.y, y: far.x },
    }
}

/// Where a point within 2^30 of 0 comes to when it is turned round the origin.
pub fn turn(o: Orient, p: Pt) -> Pt
    requires { CanTurn p }
    ensures { result ≡ turned o p }
{
    place(o, 0, 0, p)
}
