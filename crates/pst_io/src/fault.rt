/// A read or a write failed: the count of faults of the object that was called has risen, or stands at its last value.
#[derive(Clone, Copy, Debug, PartialEq, Eq)]
pub struct Failed;
