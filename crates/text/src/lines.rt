// Every line of the report (document 01, "The report"). The private functions write at the end of a line and ask that it has
// room, so that they cannot fail; `write!` would answer with a result of which no clause says that it is `Ok`.
ghost use Rattle.std.specs.Prelude.{◌≡◌, [], ◌∷◌, ◌++◌, ◌+◌, ◌≤◌, ◌<◌, length};
ghost use Rattle.arrayvec.specs.ArrayString.{array_string_len};
ghost use Rattle.text.specs.Line.{Holds};
ghost use Rattle.numerals.specs.Numerals.{decimal, hex};
ghost use Rattle.text.specs.Report.{first_line, time_text, fate_text, fate_line, tail_line, last_line};

use crate::Text;
use address::HeaderTime;
use arrayvec::ArrayString;
use fate_counts::Fate;
use numerals::hex_digit;

// A line while it is written.
type Line = ArrayString<96>;

// The text of some bytes: zeros are put behind them.
fn with_zeros(line: &[u8]) -> Text
    requires { length line.now ≤ 96 }
    ensures { Holds line.now result }
{
    let mut bytes = [0; 96];
    bytes[..line.len()].copy_from_slice(line);
    Text {
        bytes,
        len: line.len(),
    }
}

// The text of a line that is written.
fn text_of(line: &Line) -> Text
    ensures { Holds line.now.bytes result }
{
    with_zeros(line.as_bytes())
}

// The report's first line.
pub fn first_line() -> Text
    ensures { Holds first_line result }
{
    let mut line = Line::new();
    line.push_str("cd sectors 1\n");
    text_of(&line)
}

// The line of the Sector with this index.
pub fn fate_line(index: u64, fate: Fate) -> Text
    ensures { Holds (fate_line index fate) result }
{
    let mut line = Line::new();
    put_number(&mut line, index);
    line.push_str(" ");
    put_fate(&mut line, fate);
    line.push_str("\n");
    text_of(&line)
}

// The line that counts the leftover bytes: empty if there are none.
pub fn tail_line(left: u64) -> Text
    ensures { Holds (tail_line left) result }
{
    let mut line = Line::new();
    if left == 0 {
        return text_of(&line);
    }
    put_labelled(&mut line, "tail ", left);
    line.push_str("\n");
    text_of(&line)
}

// The report's last line.
pub fn last_line(clean: u64, repaired: u64, refused: u64) -> Text
    ensures { Holds (last_line clean repaired refused) result }
{
    let mut line = Line::new();
    put_labelled(&mut line, "clean ", clean);
    put_labelled(&mut line, " repaired ", repaired);
    put_labelled(&mut line, " refused ", refused);
    line.push_str("\n");
    text_of(&line)
}

// A fate's word, and what comes with it.
fn put_fate(line: &mut Line, fate: Fate)
    requires { array_string_len line.old + 36 ≤ 96 }
    ensures text { line.new.bytes ≡ line.old.bytes ++ fate_text fate }
    ensures len { array_string_len line.new ≤ array_string_len line.old + 36 }
{
    match fate {
        Fate::Clean(time) => {
            line.push_str("clean ");
            put_time(line, time);
        }
        Fate::Repaired(time, changed) => {
            line.push_str("repaired ");
            put_time(line, time);
            put_labelled(line, " ", changed);
        }
        Fate::Refused(number) => put_labelled(line, "refused ", number),
    }
}

// A word, and the number that it is about.
fn put_labelled(line: &mut Line, label: &str, n: u64)
    requires { array_string_len line.old + (length label.now + 20) ≤ 96 }
    ensures text { line.new.bytes ≡ line.old.bytes ++ (label.now ++ decimal n) }
    ensures len { array_string_len line.new ≤ array_string_len line.old + (length label.now + 20) }
{
    line.push_str(label);
    put_number(line, n);
}

// Minute, second and frame, two hex digits each.
fn put_time(line: &mut Line, time: HeaderTime)
    requires { array_string_len line.old + 6 ≤ 96 }
    ensures text { line.new.bytes ≡ line.old.bytes ++ time_text time }
    ensures len { array_string_len line.new ≡ array_string_len line.old + 6 }
{
    put_hex(line, time.0);
    put_hex(line, time.1);
    put_hex(line, time.2);
}

// A number in decimal digits, of which a u64 has at most 20.
fn put_number(line: &mut Line, n: u64)
    requires { array_string_len line.old + 20 ≤ 96 }
    ensures text { line.new.bytes ≡ line.old.bytes ++ decimal n }
    ensures len { array_string_len line.new ≤ array_string_len line.old + 20 }
{
    let mut digits = itoa::Buffer::new();
    line.push_str(digits.format(n));
}

// A byte in two capital hex digits.
fn put_hex(line: &mut Line, b: u8)
    requires { array_string_len line.old + 2 ≤ 96 }
    ensures text { line.new.bytes ≡ line.old.bytes ++ hex b }
    ensures len { array_string_len line.new ≡ array_string_len line.old + 2 }
{
    put(line, hex_digit(b / 16));
    put(line, hex_digit(b % 16));
}

// One character.
fn put(line: &mut Line, ascii: u8)
    requires { (ascii < 128) × (array_string_len line.old < 96) }
    ensures text { line.new.bytes ≡ line.old.bytes ++ ascii ∷ [] }
    ensures len { array_string_len line.new ≡ array_string_len line.old + 1 }
{
    line.push(ascii as char);
}
