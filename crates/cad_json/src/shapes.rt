//! Points and regions.

ghost use Rattle.std.specs.Prelude.{OnOk, ◌<◌, length, [], ◌∷◌, ◌++◌, map};
ghost use Rattle.serde_json.specs.Data.{array, number};
ghost use Rattle.serde_json.specs.Find.{of_integer};
ghost use Rattle.serde_json.specs.View.{items_of};
ghost use Rattle.cad_json.specs.Sent.{Sends};
ghost use Rattle.cad_json.specs.Shapes.{corner_data, closed, ring_data, polygon_data, spot_data};

use cad_shape::{Point, Ring};
use serde::Serializer;

/// A whole number.
pub(crate) fn send_whole<S: Serializer>(whole: i64, out: &mut S) -> Result<(), S::Error>
    ensures { OnOk result (Sends (number (of_integer whole)) (S.written out.old) (S.written out.new)) }
{
    if whole < 0 {
        out.i64(whole)
    } else {
        out.u64(whole.unsigned_abs())
    }
}

/// A position: x and then y.
fn send_corner<S: Serializer>(corner: Point, out: &mut S) -> Result<(), S::Error>
    ensures { OnOk result (Sends (corner_data corner) (S.written out.old) (S.written out.new)) }
{
    out.begin_seq(Some(2))?;
    send_whole(corner.x, out)?;
    send_whole(corner.y, out)?;
    out.end_seq()
}

/// A point, as GeoJSON's `Point` is shaped.
pub(crate) fn send_spot<S: Serializer>(spot: Point, out: &mut S) -> Result<(), S::Error>
    ensures { OnOk result (Sends (spot_data spot) (S.written out.old) (S.written out.new)) }
{
    out.begin_map(Some(2))?;
    out.key("coordinates")?;
    send_corner(spot, out)?;
    out.key("type")?;
    out.str("Point")?;
    out.end_map()
}

/// A region by its rings, as GeoJSON's `Polygon` is shaped.
pub(crate) fn send_polygon<S: Serializer>(rings: &[Ring], out: &mut S) -> Result<(), S::Error>
    ensures { OnOk result (Sends (polygon_data rings.now) (S.written out.old) (S.written out.new)) }
{
    out.begin_map(Some(2))?;
    out.key("coordinates")?;
    send_rings(rings, out)?;
    out.key("type")?;
    out.str("Polygon")?;
    out.end_map()
}

fn send_rings<S: Serializer>(rings: &[Ring], out: &mut S) -> Result<(), S::Error>
    ensures { OnOk result (Sends (array (items_of (map ring_data rings.now))) (S.written out.old) (S.written out.new)) }
{
    out.begin_seq(Some(rings.len()))?;
    for ring in rings {
        send_ring(ring.corners(), out)?;
    }
    out.end_seq()
}

// the corners, and the first again
fn send_ring<S: Serializer>(corners: &[Point], out: &mut S) -> Result<(), S::Error>
    ensures { OnOk result (Sends (array (items_of (map corner_data (closed corners.now)))) (S.written out.old) (S.written out.new)) }
{
    match corners.first() {
        None => {
            out.begin_seq(Some(0))?;
            out.end_seq()
        }
        Some(first) => send_closed(corners, *first, out),
    }
}

fn send_closed<S: Serializer>(corners: &[Point], last: Point, out: &mut S) -> Result<(), S::Error>
    requires { length corners.now < 18446744073709551615 }
    ensures { OnOk result (Sends (array (items_of (map corner_data (corners.now ++ last ∷ [])))) (S.written out.old) (S.written out.new)) }
{
    out.begin_seq(Some(corners.len() + 1))?;
    for corner in corners {
        send_corner(*corner, out)?;
    }
    send_corner(last, out)?;
    out.end_seq()
}
