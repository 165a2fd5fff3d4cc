// The blocks that a measure looks at. Rust: fs, len, z.len() and est.carrier_hz in both measures.
ghost use Rattle.std.specs.Prelude.{◌≡◌, ◌*◌, ◌/◌, ◌≤◌, ◌<◌, length};
ghost use Rattle.row.specs.Window.{window_of};

use row::Samples;

// A sample rate, how many samples a block has, and how many blocks there are.
#[derive(Clone, Copy)]
pub struct Blocks {
    pub fs: f64,
    pub window: usize,
    pub count: usize,
    pub ghost some: { 0 < window },
    pub ghost inside: { count * window ≤ 1048576 },
}

// The whole blocks of a recording, and the carrier of an estimate.
#[derive(Clone, Copy)]
pub struct Grid<'a> {
    pub samples: Samples<'a>,
    pub carrier: f64,
    pub blocks: Blocks,
    pub ghost window_is: { blocks.window ≡ window_of blocks.fs },
    pub ghost blocks_are: { blocks.count ≡ length samples.iq.now / 2 / blocks.window },
}
