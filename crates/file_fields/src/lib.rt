// Which fields stand in a graph file, and the numbers in them.
#![tactic(auto)]

ghost use Rattle.std.specs.Prelude.{◌≡◌};
ghost use Rattle.file_fields.specs.Method.{method_byte};

mod fields;
mod layout;
mod method;
mod numbers;

pub use layout::layout_of;
pub use method::Method;
pub use numbers::copy_numbers;

// What stands in a file. Bit t - 1 of `tags` is set where tag t stood; there is a method where tag 4 stood.
#[derive(Clone, Copy, PartialEq, Eq, Debug)]
pub struct FileSummary {
    pub nodes: usize,
    pub edges: usize,
    pub tags: u8,
    pub method: Option<Method>,
}

impl FileSummary {
    // The byte of tag 4, as a file is written with it.
    pub fn method_byte(self) -> u8
        ensures answer { result ≡ method_byte self.method }
    {
        match self.method {
            Some(method) => method.into(),
            None => Method::UNNAMED,
        }
    }
}
