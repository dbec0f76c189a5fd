// Reading at the front of a text: numbers, lines and the cells of a matrix. Each reader answers the text that is left. What is read
// of a line goes into lent room, which has a place for each number that the line should have.
#![tactic(auto)]

ghost use Rattle.std.specs.Prelude.{◌≡◌, [], ◌∷◌, ◌*◌, ◌≤◌, ◌<◌, length, drop, IfErr};
ghost use Rattle.std.specs.List.{prefix_len, AllPass};
ghost use Rattle.printer_format.specs.Number.{is_digit, digits_of, value_of, is_plain, number};
ghost use Rattle.printer_format.specs.Line.{mark, numbers, read_line};
ghost use Rattle.printer_format.specs.File.{matrix_lines};
ghost use Rattle.printer_reading.specs.Read.{NumberRead, LineRead, FieldRead, CellsAsked, CellsRead};

use printer_format::keys;

// The first cell, counted from 0, whose line isn't as said.
#[derive(Clone, Copy, Debug, PartialEq, Eq)]
pub struct WrongCell(pub usize);

// How many digits stand at the front of a text.
fn count_digits(s: &[u8]) -> usize
    ensures digits { result ≡ prefix_len is_digit s.now }
    ensures within { result ≤ length s.now }
{
    s.iter().take_while(|b| b.is_ascii_digit()).count()
}

// The digits that a text begins with, and what follows them.
#[tactic(auto, using(crate::proofs::Digits::digits_taken, crate::proofs::Digits::digits_length, crate::proofs::Digits::digits_pass))]
fn split_digits(s: &[u8]) -> (&[u8], &[u8])
    ensures word { result.0.now ≡ digits_of s.now }
    ensures rest { result.1.now ≡ drop (length (digits_of s.now)) s.now }
    ensures digits { AllPass is_digit result.0.now }
{
    s.split_at(count_digits(s))
}

// Whether digits have no needless zero in front.
fn no_zero_in_front(w: &[u8]) -> bool
    requires { 1 ≤ length w.now }
    ensures { result ≡ is_plain w.now }
{
    w.len() == 1 || b'0' < w[0]
}

// What digits stand for. Not by std's `parse`: it is of a &str, and it takes a plus sign and zeros in front, which would have to be
// refused all the same.
#[tactic(auto, using(crate::proofs::Digits::valuing_turn, crate::proofs::Digits::valuing_end))]
fn from_decimal(w: &[u8]) -> u32
    requires few { length w.now ≤ 5 }
    requires digits { AllPass is_digit w.now }
    ensures { result ≡ value_of w.now }
{
    let mut v: u32 = 0;
    for b in w {
        v = v * 10 + u32::from(*b - b'0');
    }
    v
}

// "Numbers have 1 to 5 digits, a value up to 65,535, and no needless leading zero; 0 itself is written 0."
#[tactic(auto, unfolding(printer_format::specs::Number::number, printer_format::specs::Number::is_number))]
fn read_number(s: &[u8]) -> Option<(u16, &[u8])>
    ensures { NumberRead (number s.now) result }
{
    let (w, rest) = split_digits(s);
    if w.is_empty() || 5 < w.len() || !no_zero_in_front(w) {
        return None;
    }
    let value = u16::try_from(from_decimal(w)).ok()?;
    Some((value, rest))
}

// As many numbers as the room has places, each with its mark.
#[tactic(auto, using(crate::proofs::Filling::filling_end, crate::proofs::Filling::filling_bad, crate::proofs::Filling::filling_unmarked, crate::proofs::Filling::filling_turn))]
fn read_numbers<'a>(s: &'a [u8], room: &mut [u16]) -> Option<&'a [u8]>
    ensures { LineRead (numbers (length room.old) s.now) room.new result }
{
    let count = room.len();
    let mut rest = s;
    for (k, place) in room.iter_mut().enumerate() {
        let (value, after) = read_number(rest)?;
        *place = value;
        rest = after.strip_prefix(keys::mark_of(count - k - 1))?;
    }
    Some(rest)
}

// A line with this key and as many numbers as the room has places.
#[tactic(auto, unfolding(printer_format::specs::Line::read_line), using(crate::proofs::Filling::strips))]
fn take_line<'a>(s: &'a [u8], key: &[u8], room: &mut [u16]) -> Option<&'a [u8]>
    ensures { LineRead (read_line key.now (length room.old) s.now) room.new result }
{
    read_numbers(s.strip_prefix(key)?, room)
}

// A line with this key and one number.
pub fn read_field<'a>(s: &'a [u8], key: &[u8]) -> Option<(u16, &'a [u8])>
    ensures { FieldRead (read_line key.now 1 s.now) result }
{
    let mut room = [0u16; 1];
    let rest = take_line(s, key, &mut room)?;
    Some((room[0], rest))
}

// The lines of an n by m matrix, up to the first that isn't as said. n, m and d come one by one: the crates of the text know no call
// (crates.txt).
pub fn read_cells<'a>(
    s: &'a [u8],
    n: usize,
    m: usize,
    d: usize,
    room: &mut [u16],
) -> Result<&'a [u8], WrongCell>
    requires { CellsAsked n m d room.old }
    ensures lines { CellsRead (matrix_lines n m d s.now) room.new result }
    ensures cell { IfErr result (λ e. e.0 < n * m) }
{
    let width = d + 1;
    let mut rest = s;
    // by index: a proof does not know the elements after a loop over `chunks_exact_mut`
    for c in 0..n * m {
        let key = keys::key_of_cell(keys::INPUT, m, c);
        let a = c * width;
        let Some(after) = take_line(rest, &key, &mut room[a..a + width]) else {
            return Err(WrongCell(c));
        };
        rest = after;
    }
    Ok(rest)
}
