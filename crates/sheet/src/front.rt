// Read and Bound on a buffer that holds an input's front. What they say holds of the whole input, however long: neither looks at a byte that the
// buffer has no room for.
ghost use Rattle.std.specs.Prelude.{◌≡◌, List, ℕ, replicate};
ghost use Rattle.model.specs.Numbers.{problem_of};
ghost use Rattle.model.specs.File.{number_count, read_length};
ghost use Rattle.model.specs.Operations.{Checked};
ghost use Rattle.model.specs.Results.{BoundSays};
ghost use Rattle.sheet.specs.Fronts.{layout_length, Front, FrontOf, FrontRead};

use model::{Bound, Numbers, Refusal};

// Read's verdict; where it accepts, the problem is the one that the numbers say.
pub fn read(buf: &[u8], n: usize, numbers: &mut Numbers) -> Result<(), Refusal>
    requires fact_1 { Front read_length buf.now n }
    requires fact_2 { numbers.old ≡ replicate number_count 0 }
    ensures { FrontRead buf.now n numbers.new result }
{
    file::read_numbers(&buf[..n], numbers)
}

pub fn bound(numbers: &Numbers, buf: &[u8], n: usize) -> Result<Bound, Refusal>
    requires fact_1 { Checked numbers.now }
    requires fact_2 { Front layout_length buf.now n }
    ensures { (layout : List ℕ) → FrontOf buf.now n layout → BoundSays (problem_of numbers.now) layout result }
{
    bound::bound_checked(numbers, &buf[..n])
}
