//! What is taken for a key.

ghost use Rattle.std.specs.Prelude.{◌≡◌};
ghost use Rattle.rsa_verify.specs.Verification.{has_size};
ghost use Rattle.rsa_sign.specs.Keys.{has_factor_size, has_key_sizes};

use rsa_verify::has_size;

/// The numbers of a private key, as octets, the highest first. Zeros in front count for nothing.
#[derive(Clone, Copy)]
pub struct Key<'a> {
    pub modulus: &'a [u8],
    /// The public exponent.
    pub e: u64,
    /// The private exponent.
    pub d: &'a [u8],
    /// The first factor.
    pub p: &'a [u8],
    /// The second factor.
    pub q: &'a [u8],
    /// The inverse of q modulo p.
    pub iqmp: &'a [u8],
}

// Whether a factor without zeros in front has 65 to 4096 bits.
fn has_factor_size(factor: &[u8]) -> bool
    ensures { result ≡ has_factor_size factor.now }
{
    factor.len() > 8 && factor.len() <= 512
}

/// Whether numbers without zeros in front have the sizes of a key's.
pub(crate) fn has_key_sizes(modulus: &[u8], d: &[u8], p: &[u8], q: &[u8], iqmp: &[u8]) -> bool
    ensures { result ≡ has_key_sizes modulus.now d.now p.now q.now iqmp.now }
{
    if !has_size(modulus) {
        return false;
    }
    if !has_factor_size(p) {
        return false;
    }
    if !has_factor_size(q) {
        return false;
    }
    if d.len() > modulus.len() {
        return false;
    }
    iqmp.len() <= p.len()
}
