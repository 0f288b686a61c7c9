// Numbers below zero in a field of 13 bits, by two's complement.
ghost use Rattle.std.specs.Prelude.{◌≡◌};
ghost use Rattle.bits.specs.Signed.{narrowed_any, widened_any, SignedLosesNothing};

// The number that the lowest 13 bits of a field state, from -4,096 to 4,095.
pub fn widen(field: u16) -> i16
    ensures { result ≡ widened_any field }
{
    // the sign is dropped where there is none, here and in `narrow`: `try_from` would bring an error that cannot come
    let low = (field % 8192) as i16;
    if low < 4096 { low } else { low - 8192 }
}

// The lowest 13 bits of a number: from -4,096 to 4,095 they state it.
pub fn narrow(number: i16) -> u16
    ensures { result ≡ narrowed_any number }
{
    number.rem_euclid(8192) as u16
}

// Nothing is lost, in either direction: the contract is the theorem, and there is nothing to do.
pub fn signed_fields_lose_nothing()
    ensures { SignedLosesNothing }
{}
