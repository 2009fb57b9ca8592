// Groups of lines made from one line, each compared by both readers.
ghost use Rattle.std.specs.Prelude.{◌<◌, ◌≤◌, length};

use super::compare::Comparison;
use super::second::check_character;
use std::io;

// A number in the columns from `first` to `last`, with zeros before it.
fn with_number(line: [u8; 80], first: usize, last: usize, n: u64) -> [u8; 80]
    requires { (1 ≤ first) × (first ≤ last) × (last ≤ 80) }
{
    let mut out = line;
    let mut left = n;
    for b in out[first - 1..last].iter_mut().rev() {
        *b = b'0' + (left % 10) as u8;
        left /= 10;
    }
    out
}

impl<R: Print> Comparison<'_, R> {
    // Every byte at one place of a line.
    fn bytes_at(&mut self, line: &mut [u8], at: usize) -> io::Result<()>
        requires { at < length line.old }
    {
        let before = line[at];
        for byte in 0..=255 {
            line[at] = byte;
            self.compare(line)?;
        }
        line[at] = before;
        Ok(())
    }

    // Every byte at every place of a line.
    pub fn changed(&mut self, line: &mut [u8]) -> io::Result<()> {
        for at in 0..line.len() {
            self.bytes_at(line, at)?;
        }
        Ok(())
    }

    // Compares a line after putting in the right check character.
    fn compare_checked(&mut self, line: &mut [u8; 80]) -> io::Result<()> {
        line[79] = check_character(&line[..79]);
        self.compare(line)
    }

    fn checked_bytes_at(&mut self, line: [u8; 80], at: usize) -> io::Result<()>
        requires { at < 80 }
    {
        let mut changed = line;
        for byte in 0..=255 {
            changed[at] = byte;
            self.compare_checked(&mut changed)?;
        }
        Ok(())
    }

    // Every byte at every place of columns 1 to 79, with the check character that is then right.
    pub fn changed_checked(&mut self, line: [u8; 80]) -> io::Result<()> {
        for at in 0..79 {
            self.checked_bytes_at(line, at)?;
        }
        Ok(())
    }

    // The line cut or filled with blanks to each length from 0 to 90.
    pub fn lengths(&mut self, line: &[u8]) -> io::Result<()>
        requires { length line.now ≤ 90 }
    {
        let mut filled = [b' '; 90];
        filled[..line.len()].copy_from_slice(line);
        for length in 0..=90 {
            self.compare(&filled[..length])?;
        }
        Ok(())
    }

    // Each run of 2 to 8 columns that starts at one place: a filling is the byte of the first column, that of the columns between, and
    // that of the last.
    fn runs_at(&mut self, line: [u8; 80], at: usize, filling: [u8; 3]) -> io::Result<()>
        requires { at < 78 }
    {
        let mut filled = line;
        filled[at] = filling[0];
        for i in at + 1..79.min(at + 8) {
            filled[i] = filling[2];
            self.compare_checked(&mut filled)?;
            filled[i] = filling[1];
        }
        Ok(())
    }

    fn runs(&mut self, line: [u8; 80], filling: [u8; 3]) -> io::Result<()> {
        for at in 2..78 {
            self.runs_at(line, at, filling)?;
        }
        Ok(())
    }

    // Runs of columns from 3 to 79 that are blank, or hold a number at or next to an end of what they can hold, or minus
    // zero, with the check character that is then right.
    pub fn filled(&mut self, line: [u8; 80]) -> io::Result<()> {
        for filling in [*b"   ", *b"999", *b"-99", *b"-00", *b"-01", *b"  1"] {
            self.runs(line, filling)?;
        }
        Ok(())
    }

    // The numbers about `middle` in one field, each also with a minus in its first column.
    fn about(&mut self, line: [u8; 80], first: usize, last: usize, middle: u64) -> io::Result<()>
        requires { (1 ≤ first) × (first ≤ last) × (last ≤ 80) × (2 ≤ middle) × (middle < 100000000) }
    {
        for n in middle - 2..middle + 3 {
            let mut out = with_number(line, first, last, n);
            self.compare_checked(&mut out)?;
            out[first - 1] = b'-';
            self.compare_checked(&mut out)?;
        }
        Ok(())
    }

    // Numbers about the ends of the ranges that document 01 names, with the check character that is then right: of year, month and day,
    // hour, minute and second, latitude and longitude.
    pub fn range_ends(&mut self, line: [u8; 80]) -> io::Result<()> {
        self.about(line, 14, 17, 999)?;
        self.about(line, 14, 17, 6070)?;
        self.about(line, 18, 19, 2)?;
        self.about(line, 18, 19, 12)?;
        self.about(line, 20, 21, 2)?;
        self.about(line, 20, 21, 31)?;
        self.about(line, 22, 23, 23)?;
        self.about(line, 24, 25, 59)?;
        self.about(line, 26, 28, 599)?;
        self.about(line, 29, 35, 900000)?;
        self.about(line, 36, 43, 1800000)
    }

    // The days about the end of each month, from 28 on, of a year.
    fn month_ends(&mut self, line: [u8; 80]) -> io::Result<()> {
        for month in 1..=12 {
            self.about(with_number(line, 18, 19, month), 20, 21, 30)?;
        }
        Ok(())
    }

    // The ends of the months of years after and before year 0.
    fn early_years(&mut self, line: [u8; 80]) -> io::Result<()> {
        for year in [0, 3, 4, 100, 400] {
            let mut out = with_number(line, 14, 17, year);
            self.month_ends(out)?;
            out[13] = b'-';
            self.month_ends(out)?;
        }
        Ok(())
    }

    // The ends of the months in leap years and others, with the check character that is then right.
    pub fn calendar(&mut self, line: [u8; 80]) -> io::Result<()> {
        self.early_years(line)?;
        for year in [1900, 2000, 2023, 2024] {
            self.month_ends(with_number(line, 14, 17, year))?;
        }
        Ok(())
    }
}
