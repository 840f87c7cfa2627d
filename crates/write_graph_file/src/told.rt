// What the tags tell, and what follows from it.
ghost use Rattle.std.specs.Prelude.{◌≡◌, not, ◌&&◌, ◌||◌, cond, ◌+◌, ◌*◌, ◌≤◌, ltb, eqb};
ghost use Rattle.file_layout.specs.File.{has_tag};

use file_fields::Method;

// Whether tag 3 is told.
pub(crate) fn has_colors(tags: u8) -> bool
    ensures answer { result ≡ has_tag 3 tags }
{
    tags & 4 != 0
}

// Whether tag 4 is told.
pub(crate) fn has_method(tags: u8) -> bool
    ensures answer { result ≡ has_tag 4 tags }
{
    tags & 8 != 0
}

// Whether tag 4 is told with a way above 3 or without tag 3.
pub(crate) fn misnamed(tags: u8, method: u8) -> bool
    ensures answer { result ≡ has_tag 4 tags && (ltb 3 method || not (has_tag 3 tags)) }
{
    has_method(tags) && (Method::try_from(method).is_err() || !has_colors(tags))
}

// Whether tag 3 is told and the colours are not one for each edge.
pub(crate) fn wrong_colors(tags: u8, colors: usize, edges: usize) -> bool
    ensures answer { result ≡ has_tag 3 tags && not (eqb colors edges) }
{
    has_colors(tags) && colors != edges
}

// The bytes of the file that is told: the graph, and the fields of the colours and of the method where they are told.
pub(crate) fn file_length(tags: u8, edges: usize) -> usize
    requires { edges ≤ 4096 }
    ensures answer { result ≡ 8 + 4 * edges + cond (has_tag 3 tags) (3 + 2 * edges) 0 + cond (has_tag 4 tags) 4 0 }
{
    let mut length = 8 + 4 * edges;
    if has_colors(tags) {
        length += 3 + 2 * edges;
    }
    if has_method(tags) {
        length += 4;
    }
    length
}
