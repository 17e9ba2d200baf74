//! Times of the host's files in one number.

ghost use Rattle.std.specs.Prelude.{FitsSigned};
ghost use Rattle.std.specs.Option.{SomeIff};
ghost use Rattle.std.specs.Int.{w64};
ghost use Rattle.lk_outside.specs.Host.{nanoseconds};

/// The nanoseconds since 1970-01-01 UTC of a time in seconds and nanoseconds, negative before;
/// nothing where they do not fit.
pub fn nanoseconds_of(seconds: i64, nanos: i64) -> Option<i64>
    ensures { SomeIff result (FitsSigned w64 (nanoseconds seconds nanos)) (nanoseconds seconds nanos) }
{
    let total = i128::from(seconds) * 1_000_000_000 + i128::from(nanos);
    i64::try_from(total).ok()
}
