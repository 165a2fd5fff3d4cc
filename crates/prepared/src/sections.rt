// The sections of the work slice. Each number below, times the number of blocks, is where a section begins or ends:
//
//     0  the blocks' means, as complex numbers       2  the number of each block's class
//     3  free for a measure
//
// The evidence takes two numbers a block of what is free, for the powers of the gap blocks to both sides of the carrier
// and then for those of the interior. The residual check takes three: two for what is left of the means, as complex
// numbers, and one for the powers of the blocks of one class.
// They are sections of one slice, and no lists of their own, because C lends one work slice for all of them.

// Where the numbers of the classes begin.
pub const CLASSES: usize = 2;

// Where they end, and what is free for a measure begins.
pub const SIDES: usize = 3;
