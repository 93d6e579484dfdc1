// The problem of document 01 and what the operations answer. What they mean is in specs/.
#![tactic(auto)]

ghost use Rattle.std.specs.Prelude.{◌≡◌, ◌≤◌};
ghost use Rattle.model.specs.Refusals.{last_refusal, number, place, refusal_of, placed_at};

pub mod drawn;
pub mod limits;
pub mod places;
pub mod rows;
mod units;

// Sizes count bytes, costs count cycles; no sum takes one of each.
#[derive(Clone, Copy, PartialEq, Eq, PartialOrd, Ord)]
pub struct Bytes(pub u64);

#[derive(Clone, Copy, PartialEq, Eq, PartialOrd, Ord)]
pub struct Cycles(pub u64);

#[derive(Clone, Copy)]
pub struct Function {
    pub size: Bytes,
    pub load: Cycles,
    pub check: Cycles,
}

#[derive(Clone, Copy)]
pub struct Vertex {
    pub function: usize,
    pub cost: Cycles,
}

#[derive(Clone, Copy)]
pub struct Edge {
    pub from: usize,
    pub to: usize,
}

// A loop's range is header to last, both counted.
#[derive(Clone, Copy)]
pub struct Loop {
    pub header: usize,
    pub last: usize,
    pub bound: u64,
}

// A problem as its numbers, in file order.
pub type Numbers = [u64; places::END];

// The items past a list's count are spare places.
#[derive(Clone, Copy)]
pub struct Problem {
    pub scratchpad: Bytes,
    pub function_count: usize,
    pub functions: [Function; places::MOST_FUNCTIONS],
    pub vertex_count: usize,
    pub vertices: [Vertex; places::MOST_VERTICES],
    pub edge_count: usize,
    pub edges: [Edge; places::MOST_EDGES],
    pub loop_count: usize,
    pub loops: [Loop; places::MOST_LOOPS],
}

// A drawn program: one graph per function, as numbers.
pub type Drawing = [u32; drawn::END];

// Why an operation refuses, each with its place. In the order of their numbers, 1 to 22.
#[derive(Clone, Copy)]
pub enum Refusal {
    EndsEarly(u64),
    Misspelt(u64),
    OutOfRange(u64),
    NotAscending(u64),
    LeftOver(u64),
    MissingEdge(u64),
    WrongLoop(u64),
    WrongEdge(u64),
    NoEdgeBack(u64),
    BufferTooShort(u64),
    LayoutTooLong(u64),
    UnknownRegion(u64),
    ScratchpadTooSmall(u64),
    BoundTooLarge(u64),
    WrongStep(u64),
    BeyondBound(u64),
    WalkTooLong(u64),
    Recursive(u64),
    CountPassed(u64),
    LastCalls(u64),
    UnknownVertex(u64),
    NoSentence(u64),
}

// Why no number stands at a position: the bytes end before it does, or it is misspelt.
#[derive(Clone, Copy)]
pub enum Misread {
    Ended,
    Misspelt,
}

// A field of the file: its row of the field table, its place among a problem's numbers, and how many items of its list come after its own.
#[derive(Clone, Copy)]
pub struct Field {
    pub row: usize,
    pub place: usize,
    pub left: usize,
}

// What Bound gives: bytes needed, number of contested vertices, what first loads add to the greatest visit charges, bound.
#[derive(Clone, Copy)]
pub struct Bound {
    pub need: Bytes,
    pub contested: usize,
    pub first: Cycles,
    pub bound: Cycles,
}

// What Run gives beside the regions, which it leaves in an array that its caller lends: cycles, and the loads counted as they occur.
#[derive(Clone, Copy)]
pub struct Run {
    pub cycles: Cycles,
    pub loads: u64,
}

// Why a vertex pays its load: on every visit, since the lowest function that comes between is this one; as a first load only; or never.
#[derive(Clone, Copy)]
pub enum Reason {
    EveryVisit(usize),
    FirstLoad,
    Never,
}

// What Eviction gives beside the walk, which it leaves in a buffer that its caller lends: the reason, and the walk's number of entries.
#[derive(Clone, Copy)]
pub struct Eviction {
    pub reason: Reason,
    pub count: usize,
}

// What Best gives beside the regions, which it leaves in an array that its caller lends: the number of functions, which is that of the regions written, the
// bytes that they need and their bound.
#[derive(Clone, Copy)]
pub struct Best {
    pub functions: usize,
    pub need: Bytes,
    pub bound: Cycles,
}

// What a sentence says: a refusal, or why a vertex pays its load.
#[derive(Clone, Copy)]
pub enum Remark {
    Refused(Refusal),
    Explained(Reason),
}

// A vertex of an inlined drawing: a vertex of a function's copy, and the number of the copy's first vertex. The call vertex of a copy is the one before its
// first.
#[derive(Clone, Copy)]
pub struct Row {
    pub function: usize,
    pub vertex: usize,
    pub first: usize,
}

impl Refusal {
    // The refusal's number in the documents.
    pub fn number(self) -> u32
        ensures { result ≡ number self }
    {
        match self {
            Refusal::EndsEarly(_) => 1,
            Refusal::Misspelt(_) => 2,
            Refusal::OutOfRange(_) => 3,
            Refusal::NotAscending(_) => 4,
            Refusal::LeftOver(_) => 5,
            Refusal::MissingEdge(_) => 6,
            Refusal::WrongLoop(_) => 7,
            Refusal::WrongEdge(_) => 8,
            Refusal::NoEdgeBack(_) => 9,
            Refusal::BufferTooShort(_) => 10,
            Refusal::LayoutTooLong(_) => 11,
            Refusal::UnknownRegion(_) => 12,
            Refusal::ScratchpadTooSmall(_) => 13,
            Refusal::BoundTooLarge(_) => 14,
            Refusal::WrongStep(_) => 15,
            Refusal::BeyondBound(_) => 16,
            Refusal::WalkTooLong(_) => 17,
            Refusal::Recursive(_) => 18,
            Refusal::CountPassed(_) => 19,
            Refusal::LastCalls(_) => 20,
            Refusal::UnknownVertex(_) => 21,
            Refusal::NoSentence(_) => 22,
        }
    }

    // The refusal's place.
    pub fn place(self) -> u64
        ensures { result ≡ place self }
    {
        match self {
            Refusal::EndsEarly(at)
            | Refusal::Misspelt(at)
            | Refusal::OutOfRange(at)
            | Refusal::NotAscending(at)
            | Refusal::LeftOver(at)
            | Refusal::MissingEdge(at)
            | Refusal::WrongLoop(at)
            | Refusal::WrongEdge(at)
            | Refusal::NoEdgeBack(at)
            | Refusal::BufferTooShort(at)
            | Refusal::LayoutTooLong(at)
            | Refusal::UnknownRegion(at)
            | Refusal::ScratchpadTooSmall(at)
            | Refusal::BoundTooLarge(at)
            | Refusal::WrongStep(at)
            | Refusal::BeyondBound(at)
            | Refusal::WalkTooLong(at)
            | Refusal::Recursive(at)
            | Refusal::CountPassed(at)
            | Refusal::LastCalls(at)
            | Refusal::UnknownVertex(at)
            | Refusal::NoSentence(at) => at,
        }
    }

    // The refusal with a number, 1 to the last, and a place.
    pub fn numbered(number: u32, at: u64) -> Refusal
        requires { (1 ≤ number) × (number ≤ last_refusal) }
        ensures { result ≡ refusal_of number at }
    {
        match number {
            1 => Refusal::EndsEarly(at),
            2 => Refusal::Misspelt(at),
            3 => Refusal::OutOfRange(at),
            4 => Refusal::NotAscending(at),
            5 => Refusal::LeftOver(at),
            6 => Refusal::MissingEdge(at),
            7 => Refusal::WrongLoop(at),
            8 => Refusal::WrongEdge(at),
            9 => Refusal::NoEdgeBack(at),
            10 => Refusal::BufferTooShort(at),
            11 => Refusal::LayoutTooLong(at),
            12 => Refusal::UnknownRegion(at),
            13 => Refusal::ScratchpadTooSmall(at),
            14 => Refusal::BoundTooLarge(at),
            15 => Refusal::WrongStep(at),
            16 => Refusal::BeyondBound(at),
            17 => Refusal::WalkTooLong(at),
            18 => Refusal::Recursive(at),
            19 => Refusal::CountPassed(at),
            20 => Refusal::LastCalls(at),
            21 => Refusal::UnknownVertex(at),
            _ => Refusal::NoSentence(at),
        }
    }

    // The same refusal at another place.
    pub fn placed_at(self, at: u64) -> Refusal
        ensures { result ≡ placed_at self at }
    {
        Refusal::numbered(self.number(), at)
    }
}
