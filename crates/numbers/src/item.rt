// The items of a problem's lists, each as numbers at places that follow one another.
ghost use Rattle.std.specs.Prelude.{◌≡◌, ℕ, ◌+◌, ◌≤◌, List, length, refl};
ghost use Rattle.std.proofs.lemmas.List.Edits.{sets};
ghost use Rattle.model.specs.Places as spot;
ghost use Rattle.model.specs.Numbers.{function_numbers, vertex_numbers, edge_numbers, loop_numbers};
ghost use Rattle.numbers.specs.Items.{function_from, vertex_from, edge_from, loop_from};

use model::{Bytes, Cycles, Edge, Function, Loop, Numbers, Vertex, places};

pub trait Item: Copy {
    // How many numbers an item has.
    const WIDTH: usize;

    ghost WIDTH: { ℕ };

    // An item's numbers, and the item whose numbers stand from a place on.
    ghost numbers: { Self → List ℕ };

    ghost read: { List ℕ → ℕ → Self };

    // Stores the item's numbers from a place on.
    fn put(self, l: &mut Numbers, at: usize)
        requires { at + WIDTH ≤ spot.end }
        ensures { l.new ≡ sets l.old at (numbers self) };

    fn read(l: &Numbers, at: usize) -> Self
        requires { at + WIDTH ≤ spot.end }
        ensures { result ≡ read l.now at };

    ghost wide: { (x : Self) → length (numbers x) ≡ WIDTH };
}

impl Item for Function {
    const WIDTH: usize = places::FUNCTION_WIDTH;

    ghost WIDTH = { spot.function_width };

    ghost numbers = { function_numbers };

    ghost read = { function_from };

    ghost wide = { λ x. refl };

    fn put(self, l: &mut Numbers, at: usize) {
        l[at] = self.size.0;
        l[at + 1] = self.load.0;
        l[at + 2] = self.check.0;
    }

    fn read(l: &Numbers, at: usize) -> Function {
        Function {
            size: Bytes(l[at]),
            load: Cycles(l[at + 1]),
            check: Cycles(l[at + 2]),
        }
    }
}

impl Item for Vertex {
    const WIDTH: usize = places::VERTEX_WIDTH;

    ghost WIDTH = { spot.vertex_width };

    ghost numbers = { vertex_numbers };

    ghost read = { vertex_from };

    ghost wide = { λ x. refl };

    fn put(self, l: &mut Numbers, at: usize) {
        l[at] = self.function as u64;
        l[at + 1] = self.cost.0;
    }

    fn read(l: &Numbers, at: usize) -> Vertex {
        Vertex {
            function: l[at] as usize,
            cost: Cycles(l[at + 1]),
        }
    }
}

impl Item for Edge {
    const WIDTH: usize = places::EDGE_WIDTH;

    ghost WIDTH = { spot.edge_width };

    ghost numbers = { edge_numbers };

    ghost read = { edge_from };

    ghost wide = { λ x. refl };

    fn put(self, l: &mut Numbers, at: usize) {
        l[at] = self.from as u64;
        l[at + 1] = self.to as u64;
    }

    fn read(l: &Numbers, at: usize) -> Edge {
        Edge {
            from: l[at] as usize,
            to: l[at + 1] as usize,
        }
    }
}

impl Item for Loop {
    const WIDTH: usize = places::LOOP_WIDTH;

    ghost WIDTH = { spot.loop_width };

    ghost numbers = { loop_numbers };

    ghost read = { loop_from };

    ghost wide = { λ x. refl };

    fn put(self, l: &mut Numbers, at: usize) {
        l[at] = self.header as u64;
        l[at + 1] = self.last as u64;
        l[at + 2] = self.bound;
    }

    fn read(l: &Numbers, at: usize) -> Loop {
        Loop {
            header: l[at] as usize,
            last: l[at + 1] as usize,
            bound: l[at + 2],
        }
    }
}
