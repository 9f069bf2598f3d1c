// A customization of CXOF128: the caller's bytes, at most 256 of them by the type.
ghost use Rattle.std.specs.Prelude.{◌≡◌, ◌≤◌, [], length};
ghost use Rattle.digest.specs.Customizations.{making};

use suite::SuiteFault;

// The most bytes of a customization.
const LIMIT: usize = 256;

#[derive(Clone, Copy)]
pub struct Customization<'a> {
    bytes: &'a [u8],
    ghost short: { length bytes.now ≤ 256 },
}

impl<'a> Customization<'a> {
    // The customization of no bytes.
    pub fn empty() -> Self
        ensures no_bytes { result.bytes.now ≡ [] }
    {
        Customization { bytes: &[] }
    }

    // Makes this the customization of these bytes. More than 256 are refused, and it stays as it was.
    pub fn make(&mut self, bytes: &'a [u8]) -> Result<(), SuiteFault>
        ensures made_or_unchanged { (result, self.new.bytes.now) ≡ making bytes.now self.old.bytes.now }
    {
        if bytes.len() > LIMIT {
            return Err(SuiteFault::CustomizationTooLong);
        }
        *self = Customization { bytes };
        Ok(())
    }

    // Its bytes.
    pub fn bytes(&self) -> &'a [u8]
        ensures bytes_held { result.now ≡ self.now.bytes.now }
        ensures at_most_256 { length result.now ≤ 256 }
    {
        self.bytes
    }
}
