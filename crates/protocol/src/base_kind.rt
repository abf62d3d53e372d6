// The single label kinds.
#[derive(Clone, Copy)]
pub enum BaseKind {
    Blank,
    Level,
    ByteLevel,
    CorrectedDate,
    Interval,
}
