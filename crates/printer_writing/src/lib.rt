// Writing at an index of lent room. Each function returns the index after what it wrote. Of a buffer of any length, so by index: a page
// in place has a fixed size, and a struct of a lent buffer would ask a clause in every contract, that it still lends what it lent.
#![tactic(auto)]

ghost use Rattle.std.specs.Prelude.{◌≡◌, [], ◌∷◌, ◌++◌};
ghost use Rattle.printer_format.specs.Number.{decimal};
ghost use Rattle.printer_format.specs.Line.{mark, row, line};
ghost use Rattle.printer_format.specs.Answer.{refusal_text, counts_text, result_text, determinant_text, answer_text};
ghost use Rattle.printer_writing.specs.Wrote.{Wrote, Room};
ghost use Rattle.printer_writing.specs.Asked.{ResultAsked, AnswerAsked};

use printer_format::keys;

// What is printed where nothing is refused: the counts, and R with d+1 numbers for each cell of an n by m matrix. The determinant is
// not looked at where n and m differ. n, m and d stand one by one: the crates of the text know no call (crates.txt).
#[derive(Clone, Copy)]
pub struct Answer<'a> {
    pub rank: usize,
    pub steps: usize,
    pub n: usize,
    pub m: usize,
    pub d: usize,
    pub r: &'a [u16],
    pub det: &'a [u16],
}

fn put_byte(out: &mut [u8], at: usize, byte: u8) -> usize
    requires { Room out.old at (byte ∷ []) }
    ensures { Wrote out.old at (byte ∷ []) result out.new }
{
    out[at] = byte;
    at + 1
}

fn put_bytes(out: &mut [u8], at: usize, bytes: &[u8]) -> usize
    requires { Room out.old at bytes.now }
    ensures { Wrote out.old at bytes.now result out.new }
{
    let end = at + bytes.len();
    out[at..end].copy_from_slice(bytes);
    end
}

// A number in decimal: the last digit comes after those of a tenth of it. By hand: its text is defined by `decimal` of printer_format,
// and a proof that itoa's or std's text is the same would be longer than these lines.
fn put_number(out: &mut [u8], at: usize, value: usize) -> usize
    requires { Room out.old at (decimal value) }
    ensures { Wrote out.old at (decimal value) result out.new }
{
    if value < 10 {
        return put_byte(out, at, keys::numeral(value));
    }
    let i = put_number(out, at, value / 10);
    put_byte(out, i, keys::numeral(value % 10))
}

// A number and its mark.
fn put_marked(out: &mut [u8], at: usize, value: usize, left: usize) -> usize
    requires { Room out.old at (decimal value ++ mark left ∷ []) }
    ensures { Wrote out.old at (decimal value ++ mark left ∷ []) result out.new }
{
    let i = put_number(out, at, value);
    put_bytes(out, i, keys::mark_of(left))
}

// Numbers, each with its mark.
fn put_row(out: &mut [u8], at: usize, numbers: &[u16]) -> usize
    requires { Room out.old at (row numbers.now) }
    ensures { Wrote out.old at (row numbers.now) result out.new }
{
    let mut i = at;
    for (k, value) in numbers.iter().enumerate() {
        i = put_marked(out, i, usize::from(*value), numbers.len() - k - 1);
    }
    i
}

// A line: its key, and then its numbers.
fn put_line(out: &mut [u8], at: usize, key: &[u8], numbers: &[u16]) -> usize
    requires { Room out.old at (line key.now numbers.now) }
    ensures { Wrote out.old at (line key.now numbers.now) result out.new }
{
    let i = put_bytes(out, at, key);
    put_row(out, i, numbers)
}

// A line with one number.
fn put_field(out: &mut [u8], at: usize, key: &[u8], value: usize) -> usize
    requires { Room out.old at (line key.now (value ∷ [])) }
    ensures { Wrote out.old at (line key.now (value ∷ [])) result out.new }
{
    let i = put_bytes(out, at, key);
    put_marked(out, i, value, 0)
}

// The lines of the result, one for each cell. n, m and d come one by one, as in `Answer`.
fn put_result(out: &mut [u8], at: usize, n: usize, m: usize, d: usize, r: &[u16]) -> usize
    requires { ResultAsked out.old at n m d r.now }
    ensures { Wrote out.old at (result_text n m d r.now) result out.new }
{
    let width = d + 1;
    let mut i = at;
    for c in 0..n * m {
        let key = keys::key_of_cell(keys::RESULT, m, c);
        let a = c * width;
        i = put_line(out, i, &key, &r[a..a + width]);
    }
    i
}

// "A refusal prints two lines and nothing else."
pub fn put_refusal(out: &mut [u8], number: usize, place: usize) -> usize
    requires { Room out.old 0 (refusal_text number place) }
    ensures { Wrote out.old 0 (refusal_text number place) result out.new }
{
    let i = put_field(out, 0, keys::ANSWER, number);
    put_field(out, i, keys::PLACE, place)
}

// The lines before those of the result.
fn put_counts(out: &mut [u8], rank: usize, steps: usize) -> usize
    requires { Room out.old 0 (counts_text rank steps) }
    ensures { Wrote out.old 0 (counts_text rank steps) result out.new }
{
    let i = put_field(out, 0, keys::ANSWER, 0);
    let j = put_field(out, i, keys::RANK, rank);
    put_field(out, j, keys::STEPS, steps)
}

// "`det=` stands only where n equals m."
fn put_determinant(out: &mut [u8], at: usize, n: usize, m: usize, det: &[u16]) -> usize
    requires { Room out.old at (determinant_text n m det.now) }
    ensures { Wrote out.old at (determinant_text n m det.now) result out.new }
{
    if n != m {
        return at;
    }
    put_line(out, at, keys::DETERMINANT, det)
}

// The lines of an answer where nothing is refused.
pub fn put_answer(out: &mut [u8], answer: &Answer) -> usize
    requires { AnswerAsked out.old answer.now.rank answer.now.steps answer.now.n answer.now.m answer.now.d answer.now.r.now answer.now.det.now }
    ensures { Wrote out.old 0 (answer_text answer.now.rank answer.now.steps answer.now.n answer.now.m answer.now.d answer.now.r.now answer.now.det.now) result out.new }
{
    let Answer {
        rank,
        steps,
        n,
        m,
        d,
        r,
        det,
    } = *answer;
    let i = put_counts(out, rank, steps);
    let j = put_result(out, i, n, m, d, r);
    put_determinant(out, j, n, m, det)
}
