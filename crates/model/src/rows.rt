// The rows of the field table, in file order, and the end of the file behind them.
pub const EDITION: usize = 0;

pub const SCRATCHPAD: usize = EDITION + 1;

pub const FUNCTION_COUNT: usize = SCRATCHPAD + 1;

pub const SIZE: usize = FUNCTION_COUNT + 1;

pub const LOAD: usize = SIZE + 1;

pub const CHECK: usize = LOAD + 1;

pub const VERTEX_COUNT: usize = CHECK + 1;

pub const FUNCTION: usize = VERTEX_COUNT + 1;

pub const COST: usize = FUNCTION + 1;

pub const EDGE_COUNT: usize = COST + 1;

pub const FROM: usize = EDGE_COUNT + 1;

pub const TO: usize = FROM + 1;

pub const LOOP_COUNT: usize = TO + 1;

pub const HEADER: usize = LOOP_COUNT + 1;

pub const LAST: usize = HEADER + 1;

pub const BOUND: usize = LAST + 1;

pub const END: usize = BOUND + 1;
