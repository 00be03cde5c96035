// The layer and its two forms.
ghost use Rattle.std.specs.Prelude.{◌≡◌};
ghost use Rattle.std.specs.Coded.{Coded-set};
ghost use Rattle.gx_encode.specs.Forms.{encode_form, IsEncode, IsEncode-prop};

use gx_values::{Code, Form};

/// Records with one data field by its code, as bytes.
#[derive(Debug, Drop)]
pub struct Encode {
    pub(crate) form: Form,
    pub(crate) kid: Form,
    pub(crate) field: u16,
    pub(crate) code: Code,
    ghost sound: { IsEncode form field code } by { IsEncode-prop form field code },
    ghost kid_is: { kid ≡ encode_form field code form } by { Coded-set kid-code kid (encode_form field code form) },
}
