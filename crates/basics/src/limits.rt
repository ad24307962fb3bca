// The limits of the product.

/// The most bytes of a line of a source, and of a line of a destination's input.
pub const LONGEST_LINE: usize = 20_971_520;

/// The most bytes of a line that a destination writes, so that the echo of a state always fits.
pub const LONGEST_DEST_LINE: usize = 20_971_584;

/// The most bytes of a stream's name, and of its namespace, in a catalog.
pub const LONGEST_NAME: usize = 65_536;

/// The most streams of a catalog.
pub const MOST_STREAMS: usize = 4_096;

/// The greatest generation id, and the greatest sync id.
pub const GREATEST_GENERATION: u64 = 4_611_686_018_427_387_904;

/// How deep a JSON text may nest.
pub const DEEPEST_JSON: usize = 127;

/// How deep a state object may nest, so that the state store, which holds it, still can be read.
pub const DEEPEST_STATE: usize = 124;
