// The presets, and then turn by turn the item that the counts choose.
ghost use Rattle.std.specs.Prelude.{◌≡◌, length, replicate};
ghost use Rattle.greedy.specs.Saturation.{saturation_colors};
ghost use Rattle.saturation.specs.Counts.{neighbors_in, CountsReady, Preset, turn_of};

use crate::counts::{start, take_color};
use choice::choose;
use graph::{Color, NodeIndex};
use items::Items;

// One turn: the chosen item takes the smallest colour that no neighbour has.
fn turn(items: Items<'_>, colors: &mut [u16], saturations: &mut [u16], waiting: &mut [u16])
    requires { CountsReady items colors.old saturations.old waiting.old }
    ensures colors { let items = items.entry in let colors₀ = colors.old in
        colors.new ≡ turn_of (neighbors_in items) (length colors₀) colors₀ }
    ensures ready { let items = items.entry in
        CountsReady items colors.new saturations.new waiting.new }
{
    if let Some(item) = choose(colors, saturations, waiting) {
        let color = items.free_color(colors, item);
        take_color(items, colors, saturations, waiting, item, color);
    }
}

// As many turns as there are items.
fn take_turns(items: Items<'_>, colors: &mut [u16], saturations: &mut [u16], waiting: &mut [u16])
    requires { CountsReady items colors.old saturations.old waiting.old }
    ensures colors { let items = items.entry in let colors₀ = colors.old in
        colors.new ≡ saturation_colors (neighbors_in items) (length colors₀) colors₀ }
{
    for _turns in 0..items.count {
        turn(items, colors, saturations, waiting);
    }
}

// The presets, one item after the other.
fn set_presets(
    items: Items<'_>,
    presets: &[u16],
    colors: &mut [u16],
    saturations: &mut [u16],
    waiting: &mut [u16],
)
    requires counts_ready { CountsReady items colors.old saturations.old waiting.old }
    requires colors_len { (length colors.old ≡ length presets.now) × Preset presets.now 0 colors.old }
    ensures colors { colors.new ≡ presets.now }
    ensures ready { let items = items.entry in
        CountsReady items colors.new saturations.new waiting.new }
{
    for (v, preset) in presets.iter().enumerate() {
        take_color(
            items,
            colors,
            saturations,
            waiting,
            NodeIndex(v as u16),
            Color(*preset),
        );
    }
}

// The whole colouring: nothing coloured, the presets, the turns.
pub(crate) fn run(
    items: Items<'_>,
    presets: &[u16],
    colors: &mut [u16],
    saturations: &mut [u16],
    waiting: &mut [u16],
)
    requires size { length colors.old ≡ items.count }
    requires colors_len { (length colors.old ≡ length presets.now) × (saturations.old ≡ replicate 4096 0) × (length waiting.old ≡ 4096) }
    ensures colors { let items = items.entry in let colors₀ = colors.old in let presets = presets.entry.now in
        colors.new ≡ saturation_colors (neighbors_in items) (length colors₀) presets }
{
    start(items, colors, waiting);
    set_presets(items, presets, colors, saturations, waiting);
    take_turns(items, colors, saturations, waiting);
}
