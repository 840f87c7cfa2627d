// How a saved list was coloured, and the byte of tag 4 that says so.
ghost use Rattle.std.specs.Prelude.{◌≡◌};
ghost use Rattle.file_fields.specs.Method.{byte_of, NamedBy};

use graph::Refusal;

#[derive(Clone, Copy, PartialEq, Eq, Debug)]
pub enum Method {
    Degree,
    Saturation,
    IndependentSet,
    MisraGries,
}

impl Method {
    // What is reported where tag 4 does not stand.
    pub const UNNAMED: u8 = 255;
}

impl TryFrom<u8> for Method {
    type Error = Refusal;

    ghost try_from_gives = { NamedBy };

    fn try_from(byte: u8) -> Result<Method, Refusal> {
        match byte {
            0 => Ok(Method::Degree),
            1 => Ok(Method::Saturation),
            2 => Ok(Method::IndependentSet),
            3 => Ok(Method::MisraGries),
            _ => Err(Refusal::BadFile),
        }
    }
}

impl From<Method> for u8 {
    ghost from_gives = { λ method byte. byte ≡ byte_of method };

    fn from(method: Method) -> u8 {
        method as u8
    }
}
