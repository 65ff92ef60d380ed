// The sheet of all speeds.
ghost use Rattle.std.specs.Prelude.{◌≡◌, ◌≤◌};
ghost use Rattle.text.specs.Puts.{Puts};
ghost use Rattle.yellow_sheet.specs.Sheet.{grade_of, grade_text, grade_texts, yellow_text, yellow_texts, speed_line, speed_lines, sheet_text};

use text::Text;

// A column for each grade, from the least on in steps of 10.
const COLUMNS: u16 = 17;

const STEP: i64 = 10;

const FIRST_SPEED: u16 = slope::LEAST_SPEED as u16;

const LAST_SPEED: u16 = slope::MOST_SPEED as u16;

// The bytes of the sheet.
const SHEET: usize = 4395;

fn grade_of(column: u16) -> i64
    requires { column ≤ 16 }
    ensures { result ≡ grade_of column }
{
    slope::LEAST_GRADE + STEP * (column as i64)
}

fn put_grade(out: &mut Text, column: u16)
    requires { column ≤ 16 }
    ensures { Puts out.old (grade_text column) out.new }
{
    out.put_byte(b' ');
    out.put_signed(grade_of(column));
}

fn put_grades(out: &mut Text)
    ensures { Puts out.old grade_texts out.new }
{
    for column in 0..COLUMNS {
        put_grade(out, column);
    }
}

fn put_yellow(out: &mut Text, speed: u16, column: u16)
    requires { column ≤ 16 }
    ensures { Puts out.old (yellow_text speed column) out.new }
{
    let yellow = slope::yellow_at(speed as i64, grade_of(column));
    phrases::put_blank_and_seconds(out, slope::ticks_given(yellow));
}

fn put_yellows(out: &mut Text, speed: u16)
    ensures { Puts out.old (yellow_texts speed) out.new }
{
    for column in 0..COLUMNS {
        put_yellow(out, speed, column);
    }
}

fn put_speed(out: &mut Text, speed: u16)
    ensures { Puts out.old (speed_line speed) out.new }
{
    out.put_decimal(speed as u64);
    put_yellows(out, speed);
    out.put_byte(b'\n');
}

fn put_speeds(out: &mut Text)
    ensures { Puts out.old speed_lines out.new }
{
    for speed in FIRST_SPEED..=LAST_SPEED {
        put_speed(out, speed);
    }
}

fn put_sheet(out: &mut Text)
    ensures { Puts out.old sheet_text out.new }
{
    out.put(b"speed");
    put_grades(out);
    out.put_byte(b'\n');
    put_speeds(out);
}

// The whole sheet, in a buffer of its length: that it is filled to the end is proved of this text.
fn fill_sheet(out: &mut [u8; SHEET])
    ensures { out.new ≡ sheet_text }
{
    put_sheet(&mut Text::new(out));
}

pub fn print_sheet(rt: &impl Print) {
    let mut sheet = [0u8; SHEET];
    fill_sheet(&mut sheet);
    site_program::write_out(rt, &sheet);
}
