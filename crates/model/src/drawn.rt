// Where a drawing's numbers stand: the scratchpad size, the number of functions, and then each function's numbers behind those of the function before.
use crate::places;

pub const SCRATCHPAD: usize = 0;

pub const FUNCTION_COUNT: usize = SCRATCHPAD + 1;

pub const FUNCTIONS: usize = FUNCTION_COUNT + 1;

// Among a function's numbers: its size, its load cost, its check cost, and its graph, as a problem's numbers stand from the number of vertices on.
pub const SIZE: usize = 0;

pub const LOAD: usize = SIZE + 1;

pub const CHECK: usize = LOAD + 1;

pub const GRAPH: usize = CHECK + 1;

pub const CALLEE: usize = GRAPH + places::FUNCTION - places::VERTEX_COUNT;

pub const COST: usize = GRAPH + places::COST - places::VERTEX_COUNT;

pub const EDGE_COUNT: usize = GRAPH + places::EDGE_COUNT - places::VERTEX_COUNT;

pub const FROM: usize = GRAPH + places::FROM - places::VERTEX_COUNT;

pub const TO: usize = GRAPH + places::TO - places::VERTEX_COUNT;

pub const LOOP_COUNT: usize = GRAPH + places::LOOP_COUNT - places::VERTEX_COUNT;

pub const HEADER: usize = GRAPH + places::HEADER - places::VERTEX_COUNT;

pub const LAST: usize = GRAPH + places::LAST - places::VERTEX_COUNT;

pub const BOUND: usize = GRAPH + places::BOUND - places::VERTEX_COUNT;

// How many numbers a function has, and how many there are.
pub const WIDTH: usize = GRAPH + places::END - places::VERTEX_COUNT;

pub const END: usize = FUNCTIONS + WIDTH * places::MOST_FUNCTIONS;

// What stands for a callee where a vertex calls nothing.
pub const NONE: usize = 255;
