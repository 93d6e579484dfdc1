// The phrases of the sentences in memory: one after another, and where each begins.
#![tactic(auto)]

ghost use Rattle.std.specs.Prelude.{◌≡◌, ◌≤◌};
ghost use Rattle.model.specs.Refusals.{last_refusal};
ghost use Rattle.model.specs.Sentences.{phrase};
ghost use Rattle.phrases.specs.Joined.{joined};

// The bytes of all phrases.
const LENGTH: usize = 1125;

pub type Table = [u8; LENGTH];

// In the order of the refusals' numbers.
const PHRASES: Table = *b"the file ends before a number does; its length is \
    a number is misspelt; its first byte is at \
    a number is out of range; its place is \
    an edge or a loop does not ascend; its place is \
    bytes are left over; the first of them is at \
    a vertex lacks an edge that it must have; its place is \
    a loop crosses an earlier one or holds the last vertex; its place is \
    an edge is wrong; its place is \
    a loop has no edge back to its header; its place is \
    the buffer is too short; the room needed is \
    the layout is longer than the list of functions; their number is \
    a region is unknown; its function is \
    the layout needs more than the scratchpad; the bytes needed are \
    the bound passes its limit; its place is \
    the walk does not follow the graph to its end; the first bad position is \
    the walk visits a header beyond its bound; the first bad position is \
    the walk is too long; the most entries are \
    a function can reach itself by calls; its number is \
    the whole graph would pass a count; its place is \
    the last vertex of a graph calls; its function is \
    the vertex is unknown; its number is \
    the text is no such sentence; the first byte that does not fit is at ";

// Where each phrase begins, and where the last one ends.
const STARTS: [usize; 23] = [
    0, 50, 93, 132, 180, 225, 280, 349, 380, 432, 476, 541, 578, 642, 683, 756, 825, 868, 920, 969,
    1019, 1056, 1125,
];

// The table, made once and then lent.
pub fn phrases() -> Table
    ensures { result ≡ joined }
{
    PHRASES
}

// The phrase of the refusal with a number.
pub fn phrase_of(table: &[u8], number: u32) -> &[u8]
    requires { (table.now ≡ joined) × (1 ≤ number) × (number ≤ last_refusal) }
    ensures { result.now ≡ phrase number }
{
    let starts = STARTS;
    let after = number as usize;
    let from = starts[after - 1];
    let to = starts[after];
    &table[from..to]
}
