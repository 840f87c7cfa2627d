// Fields put into a slice from a place on.
ghost use Rattle.std.specs.Prelude.{◌≡◌, true, [], ◌∷◌, ◌++◌, ◌+◌, ◌*◌, ◌≤◌, ◌<◌, length};
ghost use Rattle.lists.specs.Parts.{overwrite};
ghost use Rattle.file_layout.specs.Fields.{bytes16, bytes_of, field_bytes, fields_bytes};
ghost use Rattle.file_layout.specs.File.{has_tag, other_fields};

use crate::told;

// A number of two bytes, low byte first.
#[tactic(auto, using(crate::proofs::PutLaws::number_put))]
fn put_number(output: &mut [u8], at: usize, number: u16)
    requires { at + 2 ≤ length output.old }
    ensures output { let output₀ = output.old in output.new ≡ overwrite output₀ at (bytes16 number) }
{
    output[at..at + 2].copy_from_slice(&number.to_le_bytes());
}

// A tag, and the length of what follows.
#[tactic(auto, using(crate::proofs::PutLaws::header_put))]
fn put_header(output: &mut [u8], at: usize, tag: u8, size: usize)
    requires { (at + 3 ≤ length output.old) × (size < 65536) }
    ensures output { let output₀ = output.old in output.new ≡ overwrite output₀ at (tag ∷ bytes16 size) }
{
    output[at] = tag;
    put_number(output, at + 1, size as u16);
}

// The numbers, one after another.
#[tactic(auto, using(crate::proofs::PutLaws::numbers_none, crate::proofs::PutLaws::numbers_more))]
fn put_numbers(output: &mut [u8], at: usize, numbers: &[u16])
    requires { at + 2 * length numbers.now ≤ length output.old }
    ensures output { let output₀ = output.old in let numbers = numbers.entry.now in output.new ≡ overwrite output₀ at (bytes_of numbers) }
{
    for (i, number) in numbers.iter().enumerate() {
        put_number(output, at + 2 * i, *number);
    }
}

// A field of numbers.
#[tactic(auto, using(crate::proofs::PutLaws::field_put))]
fn put_field(output: &mut [u8], at: usize, tag: u8, numbers: &[u16])
    requires { (at + (3 + 2 * length numbers.now) ≤ length output.old) × (length numbers.now ≤ 8192) }
    ensures output { let output₀ = output.old in let numbers = numbers.entry.now in
        output.new ≡ overwrite output₀ at (field_bytes (record { tag = tag; bytes = bytes_of numbers })) }
{
    put_header(output, at, tag, 2 * numbers.len());
    put_numbers(output, at + 3, numbers);
}

// The field of the method.
#[tactic(auto, using(crate::proofs::PutLaws::method_put))]
fn put_method(output: &mut [u8], at: usize, method: u8)
    requires { at + 4 ≤ length output.old }
    ensures output { let output₀ = output.old in
        output.new ≡ overwrite output₀ at (field_bytes (record { tag = 4; bytes = method ∷ [] })) }
{
    put_header(output, at, 4, 1);
    output[at + 3] = method;
}

// The fields of the node count and of the ends.
#[tactic(auto, using(crate::proofs::PutLaws::graph_put))]
pub(crate) fn put_graph(output: &mut [u8], n: usize, ends: &[u16])
    requires { (8 + 2 * length ends.now ≤ length output.old) × (length ends.now ≤ 8192) × (n < 65536) }
    ensures output { let output₀ = output.old in let ends = ends.entry.now in
        output.new ≡ overwrite output₀ 0 (field_bytes (record { tag = 1; bytes = bytes16 n }) ++ field_bytes (record { tag = 2; bytes = bytes_of ends })) }
{
    put_header(output, 0, 1, 2);
    put_number(output, 3, n as u16);
    put_field(output, 5, 2, ends);
}

// The fields that are told, from a place on: the colours, and the method behind them.
pub(crate) fn put_told(output: &mut [u8], at: usize, colors: &[u16], tags: u8, method: u8)
    requires { (has_tag 4 tags ≡ true → has_tag 3 tags ≡ true) × (has_tag 3 tags ≡ true → length colors.now ≤ 8192)
        × (at + length (fields_bytes (other_fields colors.now tags method)) ≤ length output.old) }
    ensures output { let output₀ = output.old in let colors = colors.entry.now in
        output.new ≡ overwrite output₀ at (fields_bytes (other_fields colors tags method)) }
{
    if !told::has_colors(tags) {
        return;
    }
    put_field(output, at, 3, colors);
    if !told::has_method(tags) {
        return;
    }
    put_method(output, at + (3 + 2 * colors.len()), method);
}
