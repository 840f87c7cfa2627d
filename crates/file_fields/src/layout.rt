// The layout of a graph file: which fields stand in it, one function for what may follow each.
ghost use Rattle.std.specs.Prelude.{◌≡◌, ◌*◌, ◌≤◌, length, drop};
ghost use Rattle.std.proofs.Math.Option.{some, bind};
ghost use Rattle.file_layout.specs.Fields.{fields};
ghost use Rattle.file_layout.specs.File.{File, unnamed, after_colors, after_ends, after_nodes, file_of};
ghost use Rattle.file_fields.specs.Layout.{summary_of, shown_layout, SaysSoFar};

use crate::{FileSummary, Method, fields, numbers};
use graph::Graph;

// The end came before tag 4.
fn without_method(nodes: usize, edges: usize, tags: u8) -> FileSummary
    ensures answer { shown_layout (Some result) ≡ some (nodes, edges, tags, unnamed) }
{
    FileSummary {
        nodes,
        edges,
        tags,
        method: None,
    }
}

// What follows the colours: the end, or the field of the method, then the end.
fn after_colors(bytes: &[u8], at: usize, nodes: usize, edges: usize) -> Option<FileSummary>
    requires { at ≤ length bytes.now }
    ensures answer { let bytes = bytes.entry.now in
        ((file : File) → SaysSoFar nodes edges 7 file → shown_layout result ≡ summary_of (bind (fields (drop at bytes)) (after_colors file))) }
{
    if at == bytes.len() {
        return Some(without_method(nodes, edges, 7));
    }
    let field = fields::field_at(bytes, at)?;
    if field.tag != 4 {
        return None;
    }
    if field.length != 1 {
        return None;
    }
    let method = Method::try_from(bytes[field.start]).ok()?;
    if field.start + 1 != bytes.len() {
        return None;
    }
    Some(FileSummary {
        nodes,
        edges,
        tags: 15,
        method: Some(method),
    })
}

// What follows the ends: the end, or the field of the colours, and what may follow that.
#[tactic(auto, using(crate::proofs::LayoutLaws::other_tag))]
fn after_ends(bytes: &[u8], at: usize, nodes: usize, edges: usize) -> Option<FileSummary>
    requires { (at ≤ length bytes.now) × (edges ≤ 4096) }
    ensures answer { let bytes = bytes.entry.now in
        ((file : File) → SaysSoFar nodes edges 3 file → shown_layout result ≡ summary_of (bind (fields (drop at bytes)) (after_ends file))) }
{
    if at == bytes.len() {
        return Some(without_method(nodes, edges, 3));
    }
    let field = fields::field_at(bytes, at)?;
    if field.tag != 3 {
        return None;
    }
    if field.length != 2 * edges {
        return None;
    }
    after_colors(bytes, field.start + field.length, nodes, edges)
}

// What follows the node count: the field of the ends, and what may follow that.
#[tactic(auto, using(crate::proofs::LayoutLaws::ends_tag, crate::proofs::LayoutLaws::ends_length, crate::proofs::LayoutLaws::ends_above))]
fn after_nodes(bytes: &[u8], at: usize, nodes: usize) -> Option<FileSummary>
    requires { at ≤ length bytes.now }
    ensures answer { let bytes = bytes.entry.now in shown_layout result ≡ summary_of (bind (fields (drop at bytes)) (after_nodes nodes)) }
{
    let field = fields::field_at(bytes, at)?;
    if field.tag != 2 {
        return None;
    }
    if field.length % 4 != 0 {
        return None;
    }
    if field.length / 4 > Graph::MAX_EDGES {
        return None;
    }
    after_ends(bytes, field.start + field.length, nodes, field.length / 4)
}

// The whole file: the field of the node count comes first.
#[tactic(auto, using(crate::proofs::LayoutLaws::nodes_tag, crate::proofs::LayoutLaws::nodes_length))]
pub fn layout_of(bytes: &[u8]) -> Option<FileSummary>
    ensures answer { shown_layout result ≡ summary_of (file_of bytes.now) }
{
    let field = fields::field_at(bytes, 0)?;
    if field.tag != 1 {
        return None;
    }
    if field.length != 2 {
        return None;
    }
    let nodes = numbers::number_at(bytes, field.start) as usize;
    after_nodes(bytes, field.start + field.length, nodes)
}
