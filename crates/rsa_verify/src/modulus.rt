//! What is taken for a modulus.

ghost use Rattle.std.specs.Prelude.{◌≡◌};
ghost use Rattle.rsa_verify.specs.Verification.{has_size};

/// Whether a modulus without zeros in front has 1024 to 8192 bits.
pub fn has_size(modulus: &[u8]) -> bool
    ensures { result ≡ has_size modulus.now }
{
    let octets = modulus.len();
    if octets > 1024 {
        return false;
    }
    if octets > 128 {
        return true;
    }
    if octets < 128 {
        return false;
    }
    modulus[0] >= 128
}
