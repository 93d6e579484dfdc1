// A problem's own checks, on its numbers: every operation on a problem begins with these.
#![tactic(auto)]

ghost use Rattle.std.specs.Prelude.{◌≡◌, Ok};
ghost use Rattle.model.specs.File.{check_fields};
ghost use Rattle.model.specs.Operations.{Checked};
ghost use Rattle.model.specs.Verdicts.{as_verdict};
ghost use Rattle.checks.specs.Steps.{check_numbers, judge_numbers};

use model::{Numbers, Refusal};

// The length of the problem's file, or the first refusal of 3, 4 and 6 to 9.
pub fn check(numbers: &Numbers) -> Result<usize, Refusal>
    ensures { result ≡ check_numbers numbers.now }
{
    let need = judging::check_fields(numbers)?;
    graph::judge(numbers)?;
    Ok(need)
}

// The checks, for an operation that has no use for the length.
pub fn judge(numbers: &Numbers) -> Result<(), Refusal>
    ensures { result ≡ judge_numbers numbers.now }
{
    check(numbers)?;
    Ok(())
}

// The length of the file of numbers that passed the checks. The other case is never met, and a loop without an end stands there.
pub fn file_length(numbers: &Numbers) -> usize
    requires { Checked numbers.now }
    ensures { check_fields numbers.now ≡ Ok result }
{
    let Ok(need) = judging::check_fields(numbers) else {
        loop {}
    };
    need
}
