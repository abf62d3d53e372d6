// How much a line may ask for.

// The longest line that is looked at, with its line break. A longer one is passed over, so that none can take all memory.
pub const LONGEST_LINE: usize = 1_048_576;

// The longest table.
pub const LONGEST_TABLE: usize = 1_000_000;
