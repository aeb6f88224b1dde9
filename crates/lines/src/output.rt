// Words printed to standard output in decimal: a space between two, a line end after the last of a line.
ghost use Rattle.std.specs.Prelude.{◌≡◌, ◌++◌, ◌+◌, ◌-◌, ◌*◌, ◌<◌, ◌≤◌, List, ℕ, [], ◌∷◌, length, take, IsOk};
ghost use Rattle.io.specs.Digits.{IsDigitCount, last_digits};

use std::marker::Model;

// Bytes on their way to standard output: a contract sees those alone.
#[derive(Drop)]
struct Waiting {
    space: [u8; 65536],
    end: usize,
}

impl Model for Waiting {
    ghost Value = { List ℕ };

    ghost view = { λ w. take w.end w.space };

    ghost invariant = { λ w. w.end ≤ 65536 };
}

impl Waiting {
    fn new() -> Waiting
        ensures { result ≡ [] }
    {
        Waiting {
            space: [0; 65536],
            end: 0,
        }
    }

    // How many more bytes it can take.
    fn room(&self) -> usize
        ensures { length self.now + result ≡ 65536 }
    {
        self.space.len() - self.end
    }

    fn put(&mut self, byte: u8)
        requires { length self.old < 65536 }
        ensures { self.new ≡ self.old ++ byte ∷ [] }
    {
        self.space[self.end] = byte;
        self.end += 1;
    }

    // The number's digits.
    fn put_number(&mut self, number: u64)
        requires { length self.old + 20 ≤ 65536 }
        ensures count { IsDigitCount 10 1 number (length self.new - length self.old) }
        ensures bound { (length self.old < length self.new) × (length self.new ≤ length self.old + 20) }
        ensures digits { self.new ≡ self.old ++ last_digits 10 (length self.new - length self.old) number }
    {
        let mut text = [0u8; 20];
        let n = io::decimal(number, &mut text);
        let at = self.end;
        self.space[at..at + n].copy_from_slice(&text[..n]);
        self.end = at + n;
    }

    // A line of numbers.
    fn put_line(&mut self, numbers: &[u64])
        requires { length self.old + 21 * length numbers.now ≤ 65536 }
        ensures { length self.new ≤ length self.old + 21 * length numbers.now }
    {
        let Some((last, others)) = numbers.split_last() else {
            return;
        };
        for number in others {
            self.put_number(*number);
            self.put(b' ');
        }
        self.put_number(*last);
        self.put(b'\n');
    }

    fn write(&mut self, rt: &impl Print) -> std::io::Result<()>
        ensures { IsOk result → self.new ≡ [] }
    {
        rt.write_all(&self.space[..self.end])?;
        self.end = 0;
        Ok(())
    }
}

// Prints the numbers, width to a line. Numbers too few for a line are left out. An error says that not all was written.
pub fn print_lines(rt: &impl Print, numbers: &[u64], width: usize) -> std::io::Result<()>
    requires { (1 ≤ width) × (width ≤ 8) }
{
    let mut waiting = Waiting::new();
    for line in numbers.chunks_exact(width) {
        if waiting.room() < 21 * width {
            waiting.write(rt)?;
        }
        waiting.put_line(line);
    }
    waiting.write(rt)
}
