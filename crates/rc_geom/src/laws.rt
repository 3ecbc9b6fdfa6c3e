//! What is proved of the definitions, each law on a function that does nothing.

ghost use Rattle.rc_geom.specs.Line.{Line};
ghost use Rattle.rc_geom.specs.Orients.{PlacesSquares};
ghost use Rattle.rc_geom.specs.Laws.{OwnersAreLeast, OrderIsFree, OwnersSuffice, IsMirrored, ThicknessIsARun, FacesAreThick, SightIsFirst, SightIsMutual, FacesAreLocal, UnderIsHighest, OverIsLowest, InnerSumsSuffice, TilesHoldMetal, MetalBounds, ValuesAreBounded, CutsAdd, LayersSwap, LinesDecide, HalosSuffice, NearTilesSuffice, SharesAreMutual, KeysAreTold, KeysHaveAnOrder, NodesInWords, CouplingsInWords, PartsAreSound, SoundRatesSuffice, NodesOwnFaces, PairsFace, FarNetsAddNothing, HalosKeepFaces, FarNetsHaveNoParts, CountsAreBounded, ValuesFollowCounts};

use crate::Key;

/// In each orientation unit squares come to unit squares, one to one, and the squares of a rectangle to those of the
/// rectangle between its placed corners.
pub fn places_squares()
    ensures { PlacesSquares }
{}

/// A square's owner is the tile of least rank among those that cover it; it has none only where no tile covers it.
pub fn owners_are_least()
    ensures { OwnersAreLeast }
{}

/// Where overlapping tiles of one net differ in rank, and tiles of different nets share no square, every order of the
/// tiles gives the same plane.
pub fn order_is_free()
    ensures { OrderIsFree }
{}

/// A tile that owns no square can be left out.
pub fn owners_suffice()
    ensures { OwnersSuffice }
{}

/// Read the other way round, a line has the same faces, each in the other direction.
pub fn lines_are_mirrored()
    ensures { (line : Line) → IsMirrored line }
{}

/// A thickness is the length of a run of the net's squares, cut at the cap.
pub fn thickness_is_a_run()
    ensures { ThicknessIsARun }
{}

/// The thickness of a face is at least 1 and at most the cap, where that is at least 1.
pub fn faces_are_thick()
    ensures { FacesAreThick }
{}

/// A face sees metal behind a gap exactly where the gap's squares are empty, that metal follows, and the gap is from 1
/// to the reach.
pub fn sight_is_first()
    ensures { SightIsFirst }
{}

/// Where a face sees metal behind a gap, the face of that metal that looks back sees the first one's behind the same gap.
pub fn sight_is_mutual()
    ensures { SightIsMutual }
{}

/// A face rests on the squares up to one past the reach before it, and on those below the cap behind it, and on no
/// others of its line.
pub fn faces_are_local()
    ensures { FacesAreLocal }
{}

/// The layer under a square is the highest one below with metal over it.
pub fn under_is_highest()
    ensures { UnderIsHighest }
{}

/// The layer over a square is the lowest one above with metal over it.
pub fn over_is_lowest()
    ensures { OverIsLowest }
{}

/// A rectangle's sum is that of a smaller one in it, where the squares outside the smaller one add nothing.
pub fn inner_sums_suffice<V>()
    ensures { InnerSumsSuffice V }
{}

/// A rectangle that holds all tiles holds all metal of their plane.
pub fn tiles_hold_metal()
    ensures { TilesHoldMetal }
{}

/// Rectangles that hold all metal of a plane have the same sums: amounts of `V`, each by its worth in `W`.
pub fn metal_bounds<V, W>()
    ensures { MetalBounds V W }
{}

/// Rectangles that hold all metal of a plane have the same values and the same counts.
pub fn values_are_bounded<V>()
    ensures { ValuesAreBounded V }
{}

/// A rectangle that is cut in two, at a column or at a row, has the sum of both parts.
pub fn cuts_add<V>()
    ensures { CutsAdd V }
{}

/// A sum over layers and lines is the same in either order.
pub fn layers_swap<V>()
    ensures { LayersSwap V }
{}

/// What the faces of a line add rests on the lines that stand there, one on each layer, and not on where they stand.
pub fn lines_decide<V>()
    ensures { LinesDecide V }
{}

/// Planes that are alike in a window and its halo have the same sums over the window: amounts of `V`, each by its worth
/// in `W`.
pub fn halos_suffice<V, W>()
    ensures { HalosSuffice V W }
{}

/// A window's sum is that of the tiles which share a square with the window or its halo.
pub fn near_tiles_suffice<V, W>()
    ensures { NearTilesSuffice V W }
{}

/// What metals of two nets share has one key, from either side, and in a pair the lower net comes first.
pub fn shares_are_mutual()
    ensures { SharesAreMutual }
{}

/// The test of two keys passes exactly where they are one.
pub fn keys_are_told()
    ensures { KeysAreTold }
{}

/// A key of one node is below each key of two. Among keys of one kind the fields decide, the first that differs.
pub fn keys_have_an_order()
    ensures { KeysHaveAnOrder (⟦<Key as Ord>⟧.cmp) }
{}

/// What a face adds to the value of a node: its own amount and what it shares with grounded metal, where it is the
/// node's; its share, where it is grounded and sees the node.
pub fn nodes_in_words<V, W>()
    ensures { NodesInWords V W }
{}

/// What a face adds to the coupling of two nodes: its share, where it is either's and sees the other.
pub fn couplings_in_words<V, W>()
    ensures { CouplingsInWords V W }
{}

/// Where both amounts of a face have a sound worth, so do its parts.
pub fn parts_are_sound<V, W>()
    ensures { PartsAreSound V W }
{}

/// Where layers that have metal have a cap of at least 1, and sound rates at the thicknesses and gaps that faces have,
/// each amount that a face adds is sound.
pub fn sound_rates_suffice<V, W>()
    ensures { SoundRatesSuffice V W }
{}

/// A node has parts for its own key exactly where it owns a face, in a rectangle that holds all metal.
pub fn nodes_own_faces<V>()
    ensures { NodesOwnFaces V }
{}

/// Nodes of two nets have parts for the key of both exactly where a face of the one sees the other, in a rectangle that
/// holds all metal.
pub fn pairs_face<V>()
    ensures { PairsFace V }
{}

/// Where a window and its halo have no square of a net, the window has no part for a key of that net.
pub fn far_nets_add_nothing<V, W>()
    ensures { FarNetsAddNothing V W }
{}

/// Planes that are alike in a window and its halo have the same faces in the window, in the same context and with the same
/// parts.
pub fn halos_keep_faces<V>()
    ensures { HalosKeepFaces V }
{}

/// Where a window and its halo have no square of a net, no face in the window has a part for a key of that net.
pub fn far_nets_have_no_parts<V>()
    ensures { FarNetsHaveNoParts V }
{}

/// A key has at most four parts for each line of the axis that crosses a tile.
pub fn counts_are_bounded<V>()
    ensures { CountsAreBounded V }
{}

/// Where no amount is above a number, a key's value is at most that number for each of its parts.
pub fn values_follow_counts()
    ensures { ValuesFollowCounts }
{}
