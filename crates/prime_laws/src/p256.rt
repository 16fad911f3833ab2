//! That P-256's p and n are primes.

ghost use Rattle.p256_field.specs.Field.{prime};
ghost use Rattle.p256_order.specs.Scalars.{order};
ghost use Rattle.prime_laws.specs.Primes.{IsPrime};

/// P-256's p is prime.
pub fn p256_is_prime()
    ensures { IsPrime prime }
{}

/// P-256's n, the order of its base point, is prime.
pub fn p256_order_is_prime()
    ensures { IsPrime order }
{}
