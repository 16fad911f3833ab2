//! Verification of ECDSA signatures over P-256, by FIPS 186-5.

ghost use Rattle.std.specs.Prelude.{◌≡◌, true, Some};
ghost use Rattle.p256_curve.specs.Encoding.{affine_x};
ghost use Rattle.curve_laws.specs.P256.{HasPoint};
ghost use Rattle.p256_ecdsa.specs.Keys.{in_range};
ghost use Rattle.p256_ecdsa.specs.Verification.{accepts, meets, recovered};

use crate::keys::is_in_range;
use crate::nonce::leftmost_bits;
use crate::sign::hash_of;
use p256_curve::{Point, decode};
use p256_multiples::{BaseTable, multiple};
use p256_order::Scalar;
use wide_words::U256;

/// Whether the signature, r and s in 32 bytes each, is one of the message under the public key
/// of 65 bytes, by FIPS 186-5, section 6.4.2: r and s are above 0 and below n, the key decodes
/// to a point on the curve, and x of [u1]G + [u2]Q modulo n is r. It takes no memory, can't fail,
/// and takes a time that depends on what it is given.
pub fn verify(table: &BaseTable, public: &[u8; 65], message: &[u8], signature: &[u8; 64]) -> bool
    ensures { result ≡ accepts public.now message.now signature.now }
{
    let r = U256::from_bytes(&signature[..32]);
    if !is_in_range(&r) {
        return false;
    }
    let s = U256::from_bytes(&signature[32..]);
    if !is_in_range(&s) {
        return false;
    }
    match decode(public) {
        Some(q) => {
            let e = leftmost_bits(&hash_of(message));
            holds(table, &q, &e, &r, &s)
        }
        None => false,
    }
}

// Whether x of R modulo n is r.
fn holds(table: &BaseTable, q: &Point, e: &U256, r: &U256, s: &U256) -> bool
    requires q { HasPoint q.now }
    requires r { in_range r.now ≡ true }
    requires s { in_range s.now ≡ true }
    ensures { result ≡ meets (Some q.now) e.now r.now s.now }
{
    let x = Scalar::from_words(&recovered(table, q, e, r, s).affine_x());
    x.to_words().equals(r)
}

// R = [u1]G + [u2]Q, in some coordinates.
fn recovered(table: &BaseTable, q: &Point, e: &U256, r: &U256, s: &U256) -> Point
    requires q { HasPoint q.now }
    requires r { in_range r.now ≡ true }
    requires s { in_range s.now ≡ true }
    ensures { affine_x result ≡ affine_x (recovered q.now e.now r.now s.now) }
{
    let w = Scalar::from_words(s).inverse();
    let u1 = Scalar::from_words(e).mul(&w);
    let u2 = Scalar::from_words(r).mul(&w);
    let left = table.multiple(&u1.to_words());
    let right = multiple(q, &u2.to_words());
    left.add(&right)
}
