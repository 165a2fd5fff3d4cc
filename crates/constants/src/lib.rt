// The constants at the head of cancel.rs, each with what it is for.
#![tactic(auto)]

// The window of the edge finder, which is also the block of the residual check and of the evidence, in seconds: 256
// samples at 96,000 a second.
pub const EDGE_WINDOW_S: f64 = 256.0 / 96_000.0;

// How long a sender's ramp takes from nothing to full, in seconds; its middle is the crossing at half the amplitude.
pub const RISE_S: f64 = 5e-3;

// With fewer fits than these an estimate is not good enough to be taken off.
pub const MIN_ELEMENTS: usize = 20;

// The farthest that refining may move a carrier from its hint for the estimate to be used. From a spot hint the Rust's
// authors measured 0.3 Hz, from a forced one 3 Hz.
pub const MAX_CARRIER_STEP_HZ: f64 = 5.0;

// An element whose interior, without both ramps, is shorter than this is not fitted.
pub const MIN_INTERIOR_S: f64 = 10e-3;

// The blocks whose phases the slope of a fit goes through, in seconds.
pub const SLOPE_BLOCK_S: f64 = 0.5e-3;

// Blocks this near to an end of the recording have no class of their own: what lies beyond it is not known.
pub const RIM_S: f64 = 0.2;

// Half the width of an edge: the ramp itself, and nothing beside it.
pub const EDGE_ZONE_S: f64 = RISE_S / 2.0;

// The share of the amplitudes that lie below the level of a key-down.
pub const EDGE_PERCENTILE: f64 = 0.98;

// A subtraction is clean when the median edge block it leaves is this far below the neighbour's level, in dB ..
pub const CLEAN_EDGE_OVER_NEIGHBOUR_DB: f64 = -7.0;

// .. and the median interior block this far.
pub const CLEAN_INTERIOR_OVER_NEIGHBOUR_DB: f64 = -10.0;

// The share of the gap blocks whose power lies below the neighbour's level.
pub const NEIGHBOUR_PERCENTILE: f64 = 0.90;

// With a smaller share of hot gap blocks the strong sender is alone.
pub const ONE_SIGNAL_MAX_HOT: f64 = 0.15;

// With a larger share of hot gap blocks a steady carrier fills the gaps.
pub const NON_CW_MIN_HOT: f64 = 0.75;

// Pairs of gap blocks whose phases agree less than this are no carrier.
pub const MIN_COHERENCE: f64 = 0.8;

// A neighbour nearer than this in frequency is not told from the strong sender ..
pub const MIN_OFFSET_HZ: f64 = 10.0;

// .. and one farther than this not from its image about the block rate.
pub const MAX_OFFSET_HZ: f64 = 150.0;

// A gap block is hot above this many times the reference (6 dB) ..
pub const HOT_FACTOR: f64 = 4.0;

// .. and one of a pair above this many times (10 dB).
pub const PAIR_FACTOR: f64 = 10.0;

// How far to either side of the carrier the reference for noise is measured.
pub const REFERENCE_OFFSET_HZ: f64 = 500.0;

// The smallest normal f64, below which no power is taken.
pub const MIN_POSITIVE: f64 = f64::MIN_POSITIVE;
