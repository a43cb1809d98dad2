// The instant, its limits and the epochs that clocks count from.
ghost use Rattle.std.specs.Prelude.{◌≡◌};
ghost use Rattle.instant.specs.Instants.{at, is_before};

// Seconds since 1970-01-01 UTC, and nanoseconds counted forwards: half a second before 1970 is -1 and 500,000,000.
#[derive(Clone, Copy, Debug, PartialEq, Eq, PartialOrd, Ord)]
pub struct Instant {
    pub seconds: i64,
    pub nanos: u32,
}

impl Instant {
    // The first and the last second of the civil window.
    pub const FIRST: i64 = -377705023201;

    pub const LAST: i64 = 253402207200;

    // The most nanoseconds that an instant has.
    pub const NANOS: u32 = 999999999;

    // 1 January of 1601 (FILETIME), 1900 (SQL Server) and 2050 (Nokia), in seconds.
    pub const EPOCH_1601: i64 = -11644473600;

    pub const EPOCH_1900: i64 = -2208988800;

    pub const EPOCH_2050: i64 = 2524608000;

    pub fn new(seconds: i64, nanos: u32) -> Self
        ensures { result ≡ at seconds nanos }
    {
        Instant { seconds, nanos }
    }

    // A whole second.
    pub fn at_second(seconds: i64) -> Self
        ensures { result ≡ at seconds 0 }
    {
        Instant { seconds, nanos: 0 }
    }

    // Whether this instant is earlier than another.
    pub fn is_before(self, other: Instant) -> bool
        ensures { result ≡ is_before self other }
    {
        self < other
    }
}
