// The fields of a file.
ghost use Rattle.std.specs.Prelude.{◌≡◌, ◌+◌, ◌≤◌, length, drop};
ghost use Rattle.file_layout.specs.Fields.{first_field};
ghost use Rattle.file_fields.specs.Layout.{shown_field};
ghost use Rattle.file_fields.specs.declared.fields.FieldPlace.{FieldPlace};

use crate::numbers;

// A field's tag, where its bytes start, and their number.
#[derive(Clone, Copy, PartialEq, Eq, Debug)]
pub struct FieldPlace {
    pub tag: u8,
    pub start: usize,
    pub length: usize,
}

// The field whose tag stands at `at`; none where the bytes end inside it.
#[tactic(auto, using(crate::proofs::LayoutLaws::header_truncated, crate::proofs::LayoutLaws::field_truncated))]
pub(crate) fn field_at(bytes: &[u8], at: usize) -> Option<FieldPlace>
    requires { at ≤ length bytes.now }
    ensures answer { let bytes = bytes.entry.now in shown_field bytes result ≡ first_field (drop at bytes) }
    ensures inside { (p : FieldPlace) → result ≡ Some p → p.start + p.length ≤ length bytes.now }
{
    if bytes.len() - at < 3 {
        return None;
    }
    let start = at + 3;
    let length = numbers::number_at(bytes, at + 1) as usize;
    if bytes.len() - start < length {
        return None;
    }
    Some(FieldPlace {
        tag: bytes[at],
        start,
        length,
    })
}
