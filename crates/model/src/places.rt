// Where a problem's numbers stand, every spare place among them. A list stands behind its count, and what follows it behind its last item.

// How many items each list has room for, and how many numbers an item has.
pub const MOST_FUNCTIONS: usize = 32;

pub const MOST_VERTICES: usize = 128;

pub const MOST_EDGES: usize = 512;

pub const MOST_LOOPS: usize = 32;

pub const FUNCTION_WIDTH: usize = 3;

pub const VERTEX_WIDTH: usize = 2;

pub const EDGE_WIDTH: usize = 2;

pub const LOOP_WIDTH: usize = 3;

// The place of each count, and of each of the first item's numbers.
pub const EDITION: usize = 0;

pub const SCRATCHPAD: usize = EDITION + 1;

pub const FUNCTION_COUNT: usize = SCRATCHPAD + 1;

pub const SIZE: usize = FUNCTION_COUNT + 1;

pub const LOAD: usize = SIZE + 1;

pub const CHECK: usize = LOAD + 1;

pub const VERTEX_COUNT: usize = SIZE + FUNCTION_WIDTH * MOST_FUNCTIONS;

pub const FUNCTION: usize = VERTEX_COUNT + 1;

pub const COST: usize = FUNCTION + 1;

pub const EDGE_COUNT: usize = FUNCTION + VERTEX_WIDTH * MOST_VERTICES;

pub const FROM: usize = EDGE_COUNT + 1;

pub const TO: usize = FROM + 1;

pub const LOOP_COUNT: usize = FROM + EDGE_WIDTH * MOST_EDGES;

pub const HEADER: usize = LOOP_COUNT + 1;

pub const LAST: usize = HEADER + 1;

pub const BOUND: usize = LAST + 1;

// How many there are, and how many without the edition.
pub const END: usize = HEADER + LOOP_WIDTH * MOST_LOOPS;

pub const FIELD_COUNT: usize = END - 1;
