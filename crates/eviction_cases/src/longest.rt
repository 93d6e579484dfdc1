// The longest walk that there is: a chain back to vertex 0, whose last vertex is the only one of function 1, and a way out just before it to the only
// vertex of function 2.
ghost use Rattle.std.specs.Prelude.{◌≡◌, length};

use model::Problem;

// The edges behind their count: from each vertex of the chain to the next, out, and back.
fn edges() -> [u64; 257]
    ensures { length result ≡ 257 }
{
    let mut edges = [0u64; 257];
    for u in 0..126usize {
        edges[1 + 2 * u] = u as u64;
        edges[2 + 2 * u] = u as u64 + 1;
    }
    edges[0] = 128;
    edges[253] = 125;
    edges[254] = 127;
    edges[255] = 126;
    edges
}

// The vertices behind their count, of function 0 but for the last two.
fn vertices() -> [u64; 257]
    ensures { length result ≡ 257 }
{
    let mut vertices = [0u64; 257];
    vertices[0] = 128;
    vertices[253] = 1;
    vertices[255] = 2;
    vertices
}

pub fn problem() -> Problem {
    let functions = [3, 1, 1, 0, 1, 1, 0, 1, 1, 0];
    samples::problem(2, &functions, &vertices(), &edges(), &[1, 0, 126, 1])
}
