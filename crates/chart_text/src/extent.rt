//! How much a chart shows, and where its elements stand.
#![tactic(auto)]

ghost use Rattle.std.specs.Prelude.{◌≡◌, ◌+◌, ◌*◌, ◌^◌, ◌≤◌, length};
ghost use Rattle.chart_text.specs.Columns.{most_columns, chart_band, chart_bands, list_top, key_top, chart_height, chart_x, chart_y, beside_x};

use crate::size::Size;
use picture_text::{Corner, columns};

/// The size of a campaign's runs, how many columns are shown, and how many of the worst faults are listed.
#[derive(Clone, Copy)]
pub(crate) struct Extent {
    pub(crate) size: Size,
    pub(crate) many: u32,
    pub(crate) listed: u8,
    ghost nodes: { (4 ≤ size.nodes) × (size.nodes ≤ 24) },
    ghost slots: { size.slots ≤ 20000 },
    ghost few: { many ≤ 20000 },
    ghost ten: { listed ≤ 10 },
}

/// The most slots that are shown unasked.
pub(crate) fn most_columns(nodes: u8) -> u32
    requires { (4 ≤ nodes) × (nodes ≤ 24) }
    ensures value { result ≡ most_columns nodes }
    ensures few { result ≤ 432 }
{
    columns(nodes) * u32::from((36 / nodes).max(1))
}

fn chart_band(nodes: u8) -> u64
    requires { nodes ≤ 24 }
    ensures value { result ≡ chart_band nodes }
    ensures low { result ≤ 806 }
{
    30 * u64::from(nodes) + 86
}

/// How many bands there are.
pub(crate) fn chart_bands(extent: Extent) -> u32
    ensures value { result ≡ chart_bands extent.size.nodes extent.many }
    ensures few { result ≤ 20000 }
{
    extent.many.saturating_sub(1) / columns(extent.size.nodes) + 1
}

/// Where the list of the worst faults begins.
#[tactic(auto, using(crate::proofs::Places::bands_are_low))]
pub(crate) fn list_top(extent: Extent) -> u64
    ensures value { result ≡ list_top extent.size.nodes extent.many }
    ensures low { result ≤ 2 ^ 29 }
{
    132 + chart_band(extent.size.nodes) * u64::from(chart_bands(extent))
}

/// Where the key begins.
pub(crate) fn key_top(extent: Extent) -> u64
    ensures value { result ≡ key_top extent.size.nodes extent.many extent.listed }
    ensures low { result ≤ 2 ^ 30 }
{
    list_top(extent) + 32 + 20 * u64::from(extent.listed)
}

/// How high the chart is.
pub(crate) fn chart_height(extent: Extent) -> u64
    ensures { result ≡ chart_height extent.size.nodes extent.many extent.listed }
{
    key_top(extent) + 530
}

/// The left edge of a column.
pub(crate) fn chart_x(nodes: u8, column: u32) -> u64
    requires { (4 ≤ nodes) × (nodes ≤ 24) }
    ensures value { result ≡ chart_x nodes column }
    ensures within { (72 ≤ result) × (result ≤ 1300) }
{
    72 + 24 * u64::from(column % columns(nodes))
}

/// The upper edge of a row of a column.
#[tactic(auto, using(crate::proofs::Places::bands_are_low))]
pub(crate) fn chart_y(nodes: u8, column: u32, row: u8) -> u64
    requires { (4 ≤ nodes) × (nodes ≤ 24) }
    ensures value { result ≡ chart_y nodes column row }
    ensures within { (160 ≤ result) × (result ≤ 2 ^ 43) }
{
    160 + chart_band(nodes) * u64::from(column / columns(nodes)) + 30 * u64::from(row)
}

/// The corner of a row of a column.
pub(crate) fn chart_corner(nodes: u8, column: u32, row: u8) -> Corner
    requires { (4 ≤ nodes) × (nodes ≤ 24) }
    ensures x { result.x ≡ chart_x nodes column }
    ensures y { result.y ≡ chart_y nodes column row }
    ensures near { (result.x ≤ 1300) × (result.y ≤ 2 ^ 43) }
{
    Corner {
        x: chart_x(nodes, column),
        y: chart_y(nodes, column, row),
    }
}

/// The left edge of what stands beside the columns.
pub(crate) fn beside_x(extent: Extent) -> u64
    ensures value { result ≡ beside_x extent.size.nodes extent.many }
    ensures within { (84 ≤ result) × (result ≤ 1400) }
{
    84 + 24 * u64::from(columns(extent.size.nodes).min(extent.many))
}
