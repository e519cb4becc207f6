// The two tests of a number by a limit: what it earns.
ghost use Rattle.std.specs.Prelude.{◌≡◌};
ghost use Rattle.section.specs.Limit.{counted_test, up_to_test};

/// Nothing for a number from 1 to most, else the refusal, whatever stands for one.
pub fn counted<E: Copy>(most: usize, n: usize, refusal: E) -> Result<(), E>
    ensures { result ≡ counted_test most n refusal }
{
    if (1..=most).contains(&n) {
        Ok(())
    } else {
        Err(refusal)
    }
}

/// Nothing for a number up to most, else the refusal, whatever stands for one.
pub fn up_to<E: Copy>(most: usize, n: usize, refusal: E) -> Result<(), E>
    ensures { result ≡ up_to_test most n refusal }
{
    if n <= most { Ok(()) } else { Err(refusal) }
}
