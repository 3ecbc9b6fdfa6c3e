//! What is proved of the definitions, each law on a function that does nothing.

ghost use Rattle.rc_nodes.specs.Laws.{NodesAreListed, NodesAreNearest, SpotsHaveTheirNode, TiedNetsHaveNodes, GroundedNets, FirstItemsOwn};
ghost use Rattle.rc_nodes.specs.LayoutPlane.{PlaneIsTheMetal, TilesMakeThePlane};
ghost use Rattle.rc_nodes.specs.Vias.{ViasAreLinkedOnce};

/// The list of a net's nodes has each path point, each end of a via and each crossing once, in order, and no others; no other
/// list does.
pub fn nodes_are_listed()
    ensures { NodesAreListed }
{}

/// A square of an item has the node on its centreline that is nearest along the axis, the lowest of those that are as near.
pub fn nodes_are_nearest()
    ensures { NodesAreNearest }
{}

/// A square of a pad or a patch has the node of its point.
pub fn spots_have_their_node()
    ensures { SpotsHaveTheirNode }
{}

/// Each square of a net whose items end in its points has one of its nodes.
pub fn tied_nets_have_nodes()
    ensures { TiedNetsHaveNodes }
{}

/// Without nodes each square is grounded.
pub fn grounded_nets()
    ensures { GroundedNets }
{}

/// The squares that the items cover have metal, each by the first item over it, and no others.
pub fn first_items_own()
    ensures { FirstItemsOwn }
{}

/// Where no square has items of two nets over it, the tiles of all nets make the plane of the nets.
pub fn tiles_make_the_plane()
    ensures { TilesMakeThePlane }
{}

/// The net that owns a square in the plane of a layout is the one whose metal stands there.
pub fn plane_is_the_metal()
    ensures { PlaneIsTheMetal }
{}

/// Each different via and point whose ends are nodes has one link of its own.
pub fn vias_are_linked_once()
    ensures { ViasAreLinkedOnce }
{}
