ghost use Rattle.std.specs.Prelude.{◌≡◌, ◌↔◌, IfOk, IfErr, IsOk, IsUtf8};
ghost use Rattle.std.specs.Str.{IsValidUpTo};
ghost use Rattle.std.specs.Str.Lossy.{utf8_valid_len};
ghost use Rattle.usfm_token.specs.View.{valid_of};

use crate::fault::TokenFault;
use simdutf8::compat;

/// The bytes as text, where they are UTF-8. It does not allocate.
///
/// # Errors
///
/// `NotUtf8` exactly where the bytes are not UTF-8, with the length of their longest front that is.
pub fn read_text(bytes: &[u8]) -> Result<&str, TokenFault>
    ensures accepts { IsOk result ↔ IsUtf8 bytes.now }
    ensures text { IfOk result (λ text. text.now ≡ bytes.now) }
    ensures longest { IfErr result (λ fault. IsValidUpTo bytes.now (valid_of fault)) }
    ensures fault { IfErr result (λ fault. fault ≡ TokenFault.NotUtf8 (utf8_valid_len bytes.now)) }
{
    compat::from_utf8(bytes).map_err(|error| TokenFault::NotUtf8 {
        valid: error.valid_up_to(),
    })
}
