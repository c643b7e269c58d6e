// Sizes, and the ends of ranges.

// A curve's list has two numbers for each bucket: its rate and its burst.
pub const BUCKET_NUMBERS: usize = 2;

// A curve has at most 64 buckets, of rates below 2^20 and bursts below 2^40.
pub const BUCKETS: usize = 64;

pub const RATE_END: u64 = 1_048_576;

pub const BURST_END: u64 = 1_099_511_627_776;

// Bursts before normal form is taken, as those behind a server are, stay below twice that.
pub const RAW_BURST_END: u64 = 2_199_023_255_552;

// Latencies are below 2^20.
pub const LATENCY_END: u64 = 1_048_576;

// Ticks are below 2^40.
pub const TICK_END: u64 = 1_099_511_627_776;

// A link's longest frame is below 2^40, as a burst is.
pub const FRAME_END: u64 = 1_099_511_627_776;
