//! Where the cells of a picture stand.
ghost use Rattle.std.specs.Prelude.{◌≡◌, ◌+◌, ◌*◌, ◌^◌, ◌≤◌};
ghost use Rattle.picture_text.specs.Window.{columns, band_height, bands, legend_top, height, column_x, row_y};

use crate::layout::{Corner, Layout};

/// How many columns a picture of so many nodes has: as many as whole rounds need.
pub fn columns(nodes: u8) -> u32
    requires { (1 ≤ nodes) × (nodes ≤ 24) }
    ensures value { result ≡ columns nodes }
    ensures some { (1 ≤ result) × (result ≤ 48) }
{
    let nodes = u32::from(nodes);
    nodes * (48 / nodes)
}

fn band_height(nodes: u8) -> u64
    requires { nodes ≤ 24 }
    ensures value { result ≡ band_height nodes }
    ensures low { result ≤ 584 }
{
    20 * u64::from(nodes) + 104
}

/// How many bands the slots take.
pub(crate) fn bands(layout: Layout) -> u32
    ensures value { result ≡ bands layout.head.nodes layout.span }
    ensures few { result ≤ 2 ^ 31 }
{
    (layout.span.last - layout.span.first) / columns(layout.head.nodes) + 1
}

/// Where the legend begins.
#[tactic(auto, using(crate::proofs::Places::bands_are_low))]
pub(crate) fn legend_top(layout: Layout) -> u64
    ensures value { result ≡ legend_top layout.head.nodes layout.span }
    ensures low { result ≤ 2 ^ 42 }
{
    92 + band_height(layout.head.nodes) * u64::from(bands(layout))
}

/// How high the picture is.
pub(crate) fn height(layout: Layout) -> u64
    ensures { result ≡ height layout.head.nodes layout.span }
{
    legend_top(layout) + 234
}

/// The left edge of a slot.
pub(crate) fn column_x(layout: Layout, slot: u32) -> u64
    ensures value { result ≡ column_x layout.head.nodes layout.span slot }
    ensures within { (72 ≤ result) × (result ≤ 1012) }
{
    72 + 20 * u64::from(slot.saturating_sub(layout.span.first) % columns(layout.head.nodes))
}

/// The upper edge of a row of a slot.
#[tactic(auto, using(crate::proofs::Places::bands_are_low))]
pub(crate) fn row_y(layout: Layout, slot: u32, row: u8) -> u64
    ensures value { result ≡ row_y layout.head.nodes layout.span slot row }
    ensures within { (120 ≤ result) × (result ≤ 2 ^ 42) }
{
    let band = slot.saturating_sub(layout.span.first) / columns(layout.head.nodes);
    120 + band_height(layout.head.nodes) * u64::from(band) + 20 * u64::from(row)
}

/// The corner of a row of a slot.
pub(crate) fn corner(layout: Layout, slot: u32, row: u8) -> Corner
    ensures x { result.x ≡ column_x layout.head.nodes layout.span slot }
    ensures y { result.y ≡ row_y layout.head.nodes layout.span slot row }
    ensures near { (result.x ≤ 1012) × (result.y ≤ 2 ^ 42) }
{
    Corner {
        x: column_x(layout, slot),
        y: row_y(layout, slot, row),
    }
}

/// The place so far to the right of a corner and below it.
pub fn beside(at: Corner, right: u8, down: u8) -> Corner
    requires { (at.x ≤ 2 ^ 44) × (at.y ≤ 2 ^ 44) }
    ensures x { result.x ≡ at.x + right }
    ensures y { result.y ≡ at.y + down }
{
    Corner {
        x: at.x + u64::from(right),
        y: at.y + u64::from(down),
    }
}
