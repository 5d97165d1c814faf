// The numbers that bound what the product takes in, and those that pace it.

/// The fewest places of a ring.
pub const RING_MIN: u32 = 4;

/// The most places of a ring: each of its indices fits in 16 bits.
pub const RING_MAX: u32 = 65_536;

/// The most items that one reservation of the ring takes.
pub const MAX_BATCH: u32 = 1;

/// The most items that a consumer of the ring offers to its drainer at once.
pub const DRAIN_BATCH: u32 = 32;

/// How many consumed items a consumer of the ring keeps to itself before it shows that their places are free.
pub const UPDATE_AFTER: u32 = 64;

/// How many items a drain may consume before it hands the ring over, where nothing else is asked.
pub const TX_BUDGET: u32 = 32;

/// The bytes of one cluster.
pub const CLUSTER_BYTES: u32 = 2_048;

/// The most segments of one chain.
pub const CHAIN_MAX: u32 = 64;

/// The fewest bytes of a frame that may be sent: two addresses and a type.
pub const FRAME_MIN: u32 = 14;

/// The most bytes of a frame that may be sent, where no setting says less.
pub const MAX_FRAME: u32 = 65_536;

/// The parts into which a ring, a pool or a turnstile is shared among its seats.
pub const PART: u32 = 1_048_576;

/// The most captures of one run.
pub const FILES_MAX: u32 = 16;

/// The most bytes of one capture's file.
pub const FILE_MAX: u64 = 67_108_864;

/// The most bytes of all captures' files of one run together.
pub const ALL_MAX: u64 = 134_217_728;

/// The most frames of one run.
pub const FRAMES_MAX: u32 = 1_000_000;
