// Copying colours out.
ghost use Rattle.std.specs.Prelude.{◌≡◌};
ghost use Rattle.lists.specs.Parts.{copied_over};

// Copies from the front as many colours as both slices have. A loop, and not inlined: copy_from_slice, or a loop among other code, has an
// archive for C ask the C library for memmove.
#[inline(never)]
pub fn copy_colors(from: &[u16], to: &mut [u16])
    ensures to { let from = from.entry.now in let to₀ = to.old in to.new ≡ copied_over from to₀ }
{
    for place in 0..from.len().min(to.len()) {
        to[place] = from[place];
    }
}
