// How many figures each call answers. What is added to a call's figures stands after those that are there, so that no
// figure changes its place. Where in them a group starts is said in specs/Places.antt: the code writes each row whole.
pub const ROW_FIGURES: usize = 3;

pub const FIND_FIGURES: usize = 4;

pub const FIT_FIGURES: usize = 1;

pub const ESTIMATE_FIGURES: usize = 7;

pub const CLASSES_FIGURES: usize = 5;

pub const RESIDUAL_FIGURES: usize = 5;

pub const EVIDENCE_FIGURES: usize = 5;

pub const CLASSIFY_FIGURES: usize = 2;

pub const CLEAN_FIGURES: usize = 1;

pub const RUN_FIGURES: usize = 28;

// A residual check that is given: the first figures of residual_check, which are its record.
pub const CHECK_FIGURES: usize = 5;
