// The number fields of the second reader: blanks, an optional minus, digits to the last column.
ghost use Rattle.std.specs.Prelude.{IfOk, ◌<◌, ◌≤◌, length};

// Something else in a number field.
#[derive(Clone, Copy)]
pub struct BadForm;

// The number that digits stand for, of at most eight places; there is at least one.
fn read_digits(digits: &[u8]) -> Result<u32, BadForm>
    requires { length digits.now ≤ 8 }
    ensures { IfOk result (λ n. n < 100000000) }
{
    if digits.is_empty() {
        return Err(BadForm);
    }
    let mut value: u32 = 0;
    for b in digits {
        if *b < b'0' || b'9' < *b {
            return Err(BadForm);
        }
        value = value * 10 + u32::from(*b - b'0');
    }
    Ok(value)
}

// The number of a field; none where it is blank.
pub fn read_number(field: &[u8]) -> Result<Option<i64>, BadForm>
    requires { length field.now ≤ 8 }
{
    let Some(at) = field.iter().position(|b| *b != b' ') else {
        return Ok(None);
    };
    let number = if field[at] == b'-' {
        -i64::from(read_digits(&field[at + 1..])?)
    } else {
        i64::from(read_digits(&field[at..])?)
    };
    Ok(Some(number))
}
