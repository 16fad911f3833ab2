//! That P-384's p and n are primes.

ghost use Rattle.p384_field.specs.Field.{prime};
ghost use Rattle.p384_order.specs.Scalars.{order};
ghost use Rattle.prime_laws.specs.Primes.{IsPrime};

/// P-384's p is prime.
pub fn p384_is_prime()
    ensures { IsPrime prime }
{}

/// P-384's n, the order of its base point, is prime.
pub fn p384_order_is_prime()
    ensures { IsPrime order }
{}
