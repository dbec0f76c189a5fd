// The printer: a text in, a text out.
#![tactic(auto)]

ghost use Rattle.std.specs.Prelude.{◌≡◌};
ghost use Rattle.printer_format.specs.Answer.{refusal_text};
ghost use Rattle.printer_library.specs.Printed.{MatrixAnswer, Printed, Output};
ghost use Rattle.printer_library.specs.Asked.{MatrixTaken, ResultAsked};

use matrix::reduction::Reduction;
use matrix::{determinant, reduction};
use matrix_refusals::Numbers;
use printer_writing::Answer;

// Room for every answer.
pub const OUTPUT: usize = 27928;

// Room for the largest matrix, and for V.
const MATRIX: usize = 4096;

// Room for U.
const TRANSFORM: usize = 32768;

// Room for the determinant.
const DETERMINANT: usize = 505;

// The answer for a text that is refused, by the number and the place of the table.
fn answer_refusal(out: &mut [u8; OUTPUT], number: usize, place: usize) -> usize
    ensures { Output (λ w. w ≡ refusal_text number place) out.old result out.new }
{
    printer_writing::put_refusal(out, number, place)
}

// The answer for a matrix that is reduced to r.
fn answer_reduced(
    out: &mut [u8; OUTPUT],
    numbers: Numbers,
    a: &[u16],
    r: &[u16],
    found: Reduction,
) -> usize
    requires { ResultAsked numbers.p numbers.n numbers.m numbers.d a.now r.now found.rank found.count }
    ensures { Output (MatrixAnswer numbers.p numbers.n numbers.m numbers.d a.now) out.old result out.new }
{
    let Numbers { n, m, d, .. } = numbers;
    let mut room = [0; DETERMINANT];
    let det = &mut room[..n * d + 1];
    // The service refuses a matrix that is not square, and nothing is printed of it then.
    let _ = determinant::determinant(numbers, a, det);
    let answer = Answer {
        rank: found.rank,
        // By `as`, since a usize is From no u64: both have 64 bits.
        steps: found.count as usize,
        n,
        m,
        d,
        r,
        det,
    };
    printer_writing::put_answer(out, &answer)
}

// The answer for a matrix.
fn answer_matrix(out: &mut [u8; OUTPUT], numbers: Numbers, a: &[u16]) -> usize
    requires { MatrixTaken numbers.p numbers.n numbers.m numbers.d a.now }
    ensures { Output (MatrixAnswer numbers.p numbers.n numbers.m numbers.d a.now) out.old result out.new }
{
    let Numbers { n, m, d, .. } = numbers;
    let cell = n * (d + 1);
    let mut r_room = [0; MATRIX];
    let mut u_room = [0; TRANSFORM];
    let mut v_room = [0; MATRIX];
    let r = &mut r_room[..n * (m * (d + 1))];
    let u = &mut u_room[..n * (n * cell)];
    let v = &mut v_room[..n * cell];
    let Ok(found) = reduction::reduce(numbers, a, r, u, v) else {
        // What the reduction would refuse was asked of the text.
        unreachable!();
    };
    answer_reduced(out, numbers, a, r, found)
}

// Writes the answer to the text, and returns its length.
pub fn print(text: &[u8], out: &mut [u8; OUTPUT]) -> usize
    ensures { Output (Printed text.now) out.old result out.new }
{
    let mut room = [0; MATRIX];
    match printer_files::read_file(text, &mut room) {
        Err(error) => answer_refusal(out, error.number(), error.place()),
        Ok(numbers) => answer_matrix(
            out,
            numbers,
            &room[..numbers.n * (numbers.m * (numbers.d + 1))],
        ),
    }
}
