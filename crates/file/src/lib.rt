// Read and Write: the problem file and the problem in memory.
#![tactic(auto)]

ghost use Rattle.std.specs.Prelude.{◌≡◌, length, replicate, Ok};
ghost use Rattle.model.specs.declared.Problem.{Problem};
ghost use Rattle.model.specs.File.{number_count, edition_in};
ghost use Rattle.model.specs.Numbers.{edition_of, problem_of};
ghost use Rattle.model.specs.Operations.{read_file, write_problem, written_buffer, Checked};
ghost use Rattle.model.specs.Outcomes.{read_outcome, write_outcome, read_says, write_says};
ghost use Rattle.numbers.specs.Numbered.{Numbered};
ghost use Rattle.checks.specs.Steps.{check_numbers};
ghost use Rattle.file.specs.Steps.{NumbersRead, WrittenAs};

use model::{Numbers, Problem, Refusal, places};

// Reads a file's numbers into places that are all zero. Where Read accepts, they are its problem's, and they have passed the problem's own checks: an
// operation on a file goes on with them.
pub fn read_numbers(bytes: &[u8], numbers: &mut Numbers) -> Result<(), Refusal>
    requires { numbers.old ≡ replicate number_count 0 }
    ensures { NumbersRead bytes.now numbers.new result }
{
    let end = scan::read_fields(bytes, numbers)?;
    if end < bytes.len() {
        return Err(Refusal::LeftOver(end as u64));
    }
    graph::judge(numbers)
}

// **Read.** The problem that the bytes are the file of, with every spare place zero, or the first refusal that applies.
pub fn read(bytes: &[u8]) -> Result<Problem, Refusal>
    ensures value { result ≡ read_file bytes.now }
    ensures result_value { read_outcome result ≡ read_says bytes.now }
{
    let mut numbers = [0u64; places::END];
    read_numbers(bytes, &mut numbers)?;
    Ok(records::problem_of(&numbers))
}

// 10, or the file at the front of the buffer, of numbers that passed the checks and whose file has this length.
fn put_file(numbers: &Numbers, need: usize, buf: &mut [u8]) -> Result<usize, Refusal>
    requires { check_numbers numbers.now ≡ Ok need }
    ensures { (p : Problem) → Numbered p numbers.now → WrittenAs p buf.old buf.new result }
{
    if buf.len() < need {
        return Err(Refusal::BufferTooShort(need as u64));
    }
    let written = writing::write_fields(buf, numbers);
    Ok(written)
}

// **Write.** Writes the problem's file at the front of the buffer, or refuses and leaves the buffer as it is.
pub fn write(problem: Problem, buf: &mut [u8]) -> Result<usize, Refusal>
    ensures value_1 { result ≡ write_problem problem (length buf.old) }
    ensures value_2 { buf.new ≡ written_buffer problem buf.old }
    ensures result_value { write_outcome result ≡ write_says problem (length buf.old) }
{
    let numbers = numbers::numbers_of(problem);
    let need = checks::check(&numbers)?;
    put_file(&numbers, need, buf)
}

// Write of a problem whose numbers passed its checks, in the edition that is written: an operation that goes on with a problem's numbers ends so.
pub fn write_checked(numbers: &Numbers, buf: &mut [u8]) -> Result<usize, Refusal>
    requires fact_1 { Checked numbers.now }
    requires fact_2 { edition_in numbers.now ≡ edition_of (problem_of numbers.now) }
    ensures value { result ≡ write_problem (problem_of numbers.now) (length buf.old) }
    ensures buf_after { buf.new ≡ written_buffer (problem_of numbers.now) buf.old }
{
    let need = checks::file_length(numbers);
    put_file(numbers, need, buf)
}
