// Reading the printer's input: its head, its cells, and the refusals in the paper's order.
#![tactic(auto)]

ghost use Rattle.std.specs.Prelude.{◌≡◌, length, IfErr, Err};
ghost use Rattle.std.specs.Result.{result_ok};
ghost use Rattle.printer_format.specs.Line.{read_line};
ghost use Rattle.printer_format.specs.File.{head_lines, cell_lines};
ghost use Rattle.printer_reading.specs.Read.{FieldRead, CellsAsked};
ghost use Rattle.printer_files.specs.Input.{input_number, input_place, HeadRead, MatrixRead, BodyRead, FileRead};
ghost use Rattle.printer_files.specs.declared.InputError.TheVariants.{Format, Refused};

use matrix_refusals::{Numbers, Refusal, checks};
use printer_format::keys;
use printer_reading::WrongCell;

// Why a text is refused.
#[derive(Clone, Copy, Debug, PartialEq, Eq)]
pub enum InputError {
    // It has more than 32,768 bytes.
    TooLong,
    // The first line that isn't as said, counted from 1.
    Format(usize),
    // What is refused of its matrix.
    Refused(Refusal),
}

impl InputError {
    // The number of a refusal, by the printer's refusal table.
    pub fn number(self) -> usize
        ensures { result ≡ input_number (Err self) }
    {
        match self {
            InputError::TooLong | InputError::Format(_) => 7,
            InputError::Refused(x) => x.number(),
        }
    }

    // The place that is printed with it.
    pub fn place(self) -> usize
        ensures { result ≡ input_place (Err self) }
    {
        match self {
            InputError::TooLong => 0,
            InputError::Format(line) => line,
            InputError::Refused(x) => x.place(),
        }
    }
}

impl From<Refusal> for InputError {
    ghost from_gives = { λ x e. e ≡ Refused x };

    fn from(refusal: Refusal) -> InputError {
        InputError::Refused(refusal)
    }
}

// The first line that isn't as said, counted from 1.
#[derive(Clone, Copy)]
struct WrongLine(usize);

impl From<WrongLine> for InputError {
    ghost from_gives = { λ x e. e ≡ Format x.0 };

    fn from(x: WrongLine) -> InputError {
        InputError::Format(x.0)
    }
}

// The head line with this number and key: what it says, and the text after it.
fn head_line<'a>(s: &'a [u8], line: usize, key: &[u8]) -> Result<(u16, &'a [u8]), WrongLine>
    ensures read { FieldRead (read_line key.now 1 s.now) (result_ok result) }
    ensures wrong { IfErr result (λ e. e.0 ≡ line) }
{
    printer_reading::read_field(s, key).ok_or(WrongLine(line))
}

// What the four head lines say of the matrix, and the text after them.
#[tactic(auto, unfolding(printer_format::specs::Line::read_lines))]
fn read_head(s: &[u8]) -> Result<(Numbers, &[u8]), WrongLine>
    ensures { HeadRead (head_lines s.now) result }
{
    let (p, rest) = head_line(s, 1, keys::MODULUS)?;
    let (n, rest) = head_line(rest, 2, keys::ROWS)?;
    let (m, rest) = head_line(rest, 3, keys::COLUMNS)?;
    let (d, rest) = head_line(rest, 4, keys::DEGREE)?;
    let head = Numbers {
        p: u32::from(p),
        n: usize::from(n),
        m: usize::from(m),
        d: usize::from(d),
    };
    Ok((head, rest))
}

// The cells, after which nothing may follow. The first of them is line 5.
fn read_matrix(s: &[u8], head: Numbers, room: &mut [u16]) -> Result<(), WrongLine>
    requires { CellsAsked head.n head.m head.d room.old }
    ensures { MatrixRead (cell_lines head.n head.m head.d s.now) room.new result }
{
    match printer_reading::read_cells(s, head.n, head.m, head.d, room) {
        Err(WrongCell(c)) => Err(WrongLine(5 + c)),
        Ok([]) => Ok(()),
        Ok(_) => Err(WrongLine(5 + head.n * head.m)),
    }
}

// All that follows the head, with the refusals in order. It answers the head too: so it promises what `read_file` does.
fn read_body(s: &[u8], head: Numbers, room: &mut [u16]) -> Result<Numbers, InputError>
    requires { length room.old ≡ 4096 }
    ensures { BodyRead head s.now room.new result }
{
    checks::check_numbers(head)?;
    let places = &mut room[..head.n * head.m * (head.d + 1)];
    read_matrix(s, head, places)?;
    checks::check_coefficients(places, head.p)?;
    Ok(head)
}

// A whole text, whose coefficients go to the front of the room.
pub fn read_file(s: &[u8], room: &mut [u16]) -> Result<Numbers, InputError>
    requires { length room.old ≡ 4096 }
    ensures { FileRead s.now room.new result }
{
    if 32768 < s.len() {
        return Err(InputError::TooLong);
    }
    let (head, body) = read_head(s)?;
    read_body(body, head, room)
}
